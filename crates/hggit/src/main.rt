//! `hggit`: a lossless bridge between Mercurial bundles and streams of Git objects.
//!
//! The program makes the real objects of the outside and calls `bridge_cli::run`, which does everything else.
#![tactic(auto)]

ghost use Rattle.std.specs.Prelude.{◌≡◌, ◌<◌};

use bridge_cli::{Status, Words, run, without_memory};
use bridge_io::{FileSlot, Slot, StdSink, StdSource, Steps};
use bridge_text::NoMemory;
use std::alloc::Global;
use std::env;
use std::io::{BufReader, Read, Write};
use std::marker::Brand;
use std::process::ExitCode;
use std::rt::Env;
use std::sync::ledger::{Blank, Ledger};

// The words after the program's name. Where one is no text they can't be told, and an empty word stands for them, which
// is no command.
fn words_of(rt: &(impl Env + AllocGlobal)) -> Result<Words, NoMemory> {
    let mut words = Words::new(rt.alloc());
    let Ok(args) = env::args(rt) else {
        words.push(b"")?;
        return Ok(words);
    };
    for word in args.skip(1) {
        words.push(word.as_bytes())?;
    }
    Ok(words)
}

// Runs the command over a reader, two writers and a slot.
fn start<L: Ledger>(
    alloc: Global,
    words: &Words,
    input: impl Read + Drop,
    output: impl Write + Drop,
    errors: impl Write + Drop,
    slot: &mut impl Slot,
    blank: Blank,
) -> Status
    requires name { blank.name ≡ L.name }
    requires parts { blank.parts ≡ L.parts }
    requires some { 0 < blank.parts }
{
    let mut errors = StdSink::new(errors);
    let Ok(input) = BufReader::new(alloc, input) else {
        return without_memory(&mut errors);
    };
    let mut steps = Steps::<L>::new(blank);
    run(
        alloc,
        words,
        &mut StdSource::new(input),
        &mut StdSink::new(output),
        &mut errors,
        slot,
        &mut steps,
    )
}

fn main(rt: HostRuntime) -> ExitCode {
    let status = match words_of(&rt) {
        Ok(words) => start::<Brand>(
            rt.alloc(),
            &words,
            rt.reader(),
            rt.stdout(),
            rt.stderr(),
            &mut FileSlot::new(rt.alloc(), &rt),
            Blank::new(1),
        ),
        Err(NoMemory) => without_memory(&mut StdSink::new(rt.stderr())),
    };
    ExitCode::from(status.code())
}
