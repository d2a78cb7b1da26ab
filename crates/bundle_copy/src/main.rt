//! `bundle_copy [PLACE [TIMES]]`: reads a bundle from standard input and writes the bundle of its changesets from a place in their list on,
//! which is the first without words. The tests of the writer of bundles use it; its benchmark has the bundle made so many times.
#![tactic(auto)]

ghost use Rattle.std.specs.Prelude.{IfOk, OnOk, List};
ghost use Rattle.view_model.specs.View.{ChangesetView};
ghost use Rattle.view_model.specs.Held.{AreChangesetsHeld};

use bridge_io::{StdSink, StdSource, write_rope};
use bridge_text::{IdList, NoMemory, decimal_of};
use hg_bundle::{Arrival, Arrivals, RevKind, read_into};
use hg_dump::write;
use hg_store::HgStore;
use rope::Rope;
use std::alloc::Global;
use std::env;
use std::io::{BufReader, Read};
use std::process::ExitCode;
use std::rt::Env;

/// Why nothing is written.
#[derive(Clone, Copy, Debug)]
enum Failure {
    /// The input can't be read, or is no bundle whose revisions are all right.
    Input,
    Memory,
}

impl From<NoMemory> for Failure {
    fn from(_error: NoMemory) -> Failure {
        Failure::Memory
    }
}

// Puts the changeset that came at the end of the list, where it has a view.
fn put_arrival(store: &HgStore, order: &mut IdList, arrival: &Arrival) -> Result<(), NoMemory>
    requires { (hs : List ChangesetView) × AreChangesetsHeld store.now order.old hs }
    ensures { OnOk result ((hs : List ChangesetView) × AreChangesetsHeld store.now order.new hs) }
{
    if arrival.kind != RevKind::Changeset || !arrival.fresh {
        return Ok(());
    }
    match store.view_of(&arrival.node) {
        Ok(_) => order.push(arrival.node),
        Err(_) => Ok(()),
    }
}

// The changesets of a store that came, and have views.
fn changesets(alloc: Global, store: &HgStore, came: &Arrivals) -> Result<IdList, NoMemory>
    ensures { IfOk result (λ order. (hs : List ChangesetView) × AreChangesetsHeld store.now order hs) }
{
    let mut order = IdList::new(alloc);
    for i in 0..came.len() {
        put_arrival(store, &mut order, came.at(i))?;
    }
    Ok(order)
}

// The bundle of the changesets of a bundle, from a place on, made so many times.
fn copied(
    alloc: Global,
    input: impl Read + Drop,
    place: usize,
    times: usize,
) -> Result<Rope, Failure> {
    let Ok(reader) = BufReader::new(alloc, input) else {
        return Err(Failure::Memory);
    };
    let mut source = StdSource::new(reader);
    let Ok((store, came)) = read_into(alloc, &mut source, HgStore::new(alloc)) else {
        return Err(Failure::Input);
    };
    let order = changesets(alloc, &store, &came)?;
    let from = place.min(order.len());
    for _ in 1..times {
        write(alloc, &store, &order, from)?;
    }
    Ok(write(alloc, &store, &order, from)?)
}

// The number that a word names; another one where there is no such word.
fn number_of(rt: &(impl Env + AllocGlobal), word: usize, other: usize) -> usize {
    let Ok(mut words) = env::args(rt) else {
        return other;
    };
    match words.nth(word) {
        Some(text) => decimal_of(text.as_bytes()).unwrap_or(other as u64) as usize,
        None => other,
    }
}

fn main(rt: HostRuntime) -> ExitCode {
    let (place, times) = (number_of(&rt, 1, 0), number_of(&rt, 2, 1));
    let Ok(bundle) = copied(rt.alloc(), rt.reader(), place, times) else {
        return ExitCode::FAILURE;
    };
    match write_rope(&mut StdSink::new(rt.stdout()), &bundle) {
        Ok(()) => ExitCode::SUCCESS,
        Err(_) => ExitCode::FAILURE,
    }
}
