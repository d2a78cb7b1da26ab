// What each command is to write.
ghost use Rattle.std.specs.Prelude.{◌≡◌, false, None, IfOk};
ghost use Rattle.command_model.specs.Command as model;
ghost use Rattle.command_model.specs.Command.{reads_input, reads_slot};
ghost use Rattle.bridge_cli.specs.Makes.{LeavesCount, LeavesSlotCount, ListsTheBundle, Makes, MakesAlone, WorksTheListing};
ghost use Rattle.bridge_cli.specs.Status.{command_value};
ghost use Rattle.bridge_cli.specs.Steps.{StepsOf};

use crate::audit::audit_of_history;
use crate::counts::{object_counts, revision_counts};
use crate::made::counts_of_made;
use crate::names::names_of_text;
use crate::printed::{Printed, printed_work};
use crate::report::Report;
use crate::saved::{changesets_of_stream, commits_of_bundle};
use crate::words::Command;
use crate::work::Work;
use bridge_io::{Slot, Source, Steps};
use git_store::GitStore;
use hg_store::HgStore;
use name_engine::Side;
use std::alloc::Global;
use std::sync::ledger::Ledger;

/// What a command is to write, over an input, which is read to its end, and the slot; or how the run ends without an output. The slot
/// holds what it held.
pub fn work_of<I: Source, K: Slot, L: Ledger>(
    alloc: Global,
    command: Command,
    input: &mut I,
    slot: &mut K,
    steps: &mut Steps<L>,
) -> Result<Work, Report>
    ensures makes { Makes (command_value command) (I.left input.old) (I.left input.new) (K.held slot.old) result }
    ensures bundle { command_value command ≡ model.ListHg → WorksTheListing (I.left input.old) result }
    ensures input { LeavesCount (I.faults input.old) (I.faults input.new) result }
    ensures held { K.held slot.new ≡ K.held slot.old }
    ensures slot { LeavesSlotCount (K.faults slot.old) (K.faults slot.new) result }
    ensures no_input { reads_input (command_value command) ≡ false → input.new ≡ input.old }
    ensures no_slot { reads_slot (command_value command) ≡ false → slot.new ≡ slot.old }
    ensures no_text { reads_slot (command_value command) ≡ false → IfOk result (λ w. w.text ≡ None) }
    ensures steps { StepsOf (command_value command) (I.left input.old) (K.held slot.old) steps.old steps.new }
{
    match command {
        Command::ListHg => Ok(Work::of_bytes(alloc, bundle_lines(alloc, input)?)),
        Command::CheckHg => Ok(Work::of_bytes(alloc, bundle_counts(alloc, input)?)),
        Command::ListGit => Ok(Work::of_bytes(alloc, stream_lines(alloc, input)?)),
        Command::CheckGit => Ok(Work::of_bytes(alloc, stream_counts(alloc, input)?)),
        Command::PullHg => commits_of_bundle(alloc, input, slot, steps),
        Command::PullGit => changesets_of_stream(alloc, input, slot, steps),
        Command::DumpHg => printed_work(alloc, Printed::Bundle, slot),
        Command::DumpGit => printed_work(alloc, Printed::Stream, slot),
        Command::Map => printed_work(alloc, Printed::Map, slot),
        Command::SetNamesHg => names_of_text(alloc, Side::Hg, input, slot),
        Command::SetNamesGit => names_of_text(alloc, Side::Git, input, slot),
        Command::NamesHg => printed_work(alloc, Printed::Names(Side::Hg), slot),
        Command::NamesGit => printed_work(alloc, Printed::Names(Side::Git), slot),
        Command::Verify => audit_of_history(alloc, slot, steps),
        Command::Make { n, seed } => counts_of_made(alloc, n, seed, steps),
    }
}

// A line for each entry of a bundle.
fn bundle_lines<I: Source>(alloc: Global, input: &mut I) -> Result<Vec<u8>, Report>
    ensures makes { MakesAlone model.ListHg (I.left input.old) (I.left input.new) result }
    ensures bundle { ListsTheBundle (I.left input.old) result }
    ensures input { LeavesCount (I.faults input.old) (I.faults input.new) result }
{
    let mut lines = Vec::new(alloc);
    match hg_bundle::list(alloc, input, &mut lines) {
        Ok(()) => Ok(lines),
        Err(fault) => Err(Report::from(fault)),
    }
}

// How many entries of each kind a bundle brings to no revisions.
fn bundle_counts<I: Source>(alloc: Global, input: &mut I) -> Result<Vec<u8>, Report>
    ensures makes { MakesAlone model.CheckHg (I.left input.old) (I.left input.new) result }
    ensures input { LeavesCount (I.faults input.old) (I.faults input.new) result }
{
    match hg_bundle::read_into(alloc, input, HgStore::new(alloc)) {
        Ok((_, arrivals)) => Ok(revision_counts(alloc, &arrivals)?),
        Err(fault) => Err(Report::from(fault)),
    }
}

// A line for each object of a stream.
fn stream_lines<I: Source>(alloc: Global, input: &mut I) -> Result<Vec<u8>, Report>
    ensures makes { MakesAlone model.ListGit (I.left input.old) (I.left input.new) result }
    ensures input { LeavesCount (I.faults input.old) (I.faults input.new) result }
{
    let mut lines = Vec::new(alloc);
    match git_batch::list(alloc, input, &mut lines) {
        Ok(()) => Ok(lines),
        Err(fault) => Err(Report::from(fault)),
    }
}

// How many objects of each kind a stream brings to no objects.
fn stream_counts<I: Source>(alloc: Global, input: &mut I) -> Result<Vec<u8>, Report>
    ensures makes { MakesAlone model.CheckGit (I.left input.old) (I.left input.new) result }
    ensures input { LeavesCount (I.faults input.old) (I.faults input.new) result }
{
    match git_batch::read_into(alloc, input, GitStore::new(alloc)) {
        Ok((_, arrivals)) => Ok(object_counts(alloc, &arrivals)?),
        Err(fault) => Err(Report::from(fault)),
    }
}
