// The top call.
ghost use Rattle.std.specs.Prelude.{◌≡◌, ◌≢◌, ◌↔◌, OnOk, IfSome, None, Some, false};
ghost use Rattle.std.specs.Io.KnownBytes.{IsAtEnd};
ghost use Rattle.bridge_io.specs.Sink.{IsOut};
ghost use Rattle.command_model.specs.Command as model;
ghost use Rattle.command_model.specs.Command.{command_of, reads_input, reads_slot};
ghost use Rattle.command_model.specs.Run as run;
ghost use Rattle.command_model.specs.Headline.{Headline};
ghost use Rattle.command_model.specs.Across.{NamesLaw};
ghost use Rattle.closure_law.specs.Returned.{DumpReturns};
ghost use Rattle.increment_law.specs.Taken.{OutputReturns};
ghost use Rattle.bridge_cli.specs.Complete.{Completes, NoFault};
ghost use Rattle.bridge_cli.specs.Ends.{Ends, EndsBy};
ghost use Rattle.bridge_cli.specs.Makes.{Finishes};
ghost use Rattle.bridge_cli.specs.Outside.{InputCause, ListingEnds, OutputCause, SlotCause, TakesOrFails};
ghost use Rattle.bridge_cli.specs.Report.{report_value};
ghost use Rattle.bridge_cli.specs.Status.{command_value, status_of};
ghost use Rattle.bridge_cli.specs.Steps.{StepsOf, StepsOfRun};

use crate::line::line_of;
use crate::output::work_of;
use crate::report::Report;
use crate::status::Status;
use crate::words::{Command, Words};
use crate::work::Work;
use bridge_io::{Sink, Slot, Source, Steps, write_all, write_rope};
use std::alloc::Global;
use std::sync::ledger::Ledger;

/// Runs the command that the words ask for, over an input, an output, the errors and the slot of the saved state, and
/// says how it ended. One line on `errors` says so too, unless the work was done.
///
/// The output is written whole or, where it fails, from its beginning on, and only when the whole input was accepted. Then the slot gets the
/// text of the next state, where the command saves one.
pub fn run<I: Source, O: Sink, E: Sink, K: Slot, L: Ledger>(
    alloc: Global,
    words: &Words,
    input: &mut I,
    output: &mut O,
    errors: &mut E,
    slot: &mut K,
    steps: &mut Steps<L>,
) -> Status
    // THE HEADLINE. After any list of pulls: where the slot held the text of their history, or nothing for the empty one, a pull that is done
    // leaves the history of that list and this pull, and one that is refused leaves all as it was.
    ensures headline { (command : model.Command) → command_of words.now ≡ Some command → (report : run.Report) → result ≡ status_of report
        → Headline command (I.left input.old) (K.held slot.old) (K.held slot.new) report }

    // What one side sets comes back from the other, and a pull leaves it. Behind a run that is done and sets names, what the command of either side
    // writes of them leaves the state as it is where that side sets it again. Behind a pull that is done the names are those that were there, and
    // the command of either side writes the same of them.
    ensures names { (command : model.Command) → command_of words.now ≡ Some command → result ≡ Status.Done
        → NamesLaw command (I.left input.old) (K.held slot.old) (K.held slot.new) }

    // Both dumps return. Behind any list of pulls, with names set in between or not: what a dump that is done writes is accepted where nothing is saved,
    // and refused for nothing. It brings just the pairs of the state, in its order, and that of `dump-git` the kept tags too; so it saves the same
    // history.
    ensures returns { (command : model.Command) → command_of words.now ≡ Some command → result ≡ Status.Done
        → DumpReturns command (K.held slot.old) (O.taken output.old) (O.taken output.new) }

    // What a pull writes comes back. Behind any list of pulls, with names set in between or not: what a pull that is done writes is accepted by the pull of
    // the other side over each saved state of the pairs that were there, and refused for nothing. It brings just the new pairs, in their order. All this
    // where they can be saved there too.
    ensures comes_back { (command : model.Command) → command_of words.now ≡ Some command → result ≡ Status.Done
        → OutputReturns command (I.left input.old) (K.held slot.old) (K.held slot.new) (O.taken output.old) (O.taken output.new) }

    ensures usage { (result ≡ Status.Usage) ↔ (command_of words.now ≡ None) }
    ensures untouched { result ≡ Status.Usage → (input.new ≡ input.old) × (output.new ≡ output.old) × (slot.new ≡ slot.old) }

    // What the command comes to over the saved state and the input decides how the run ends, what the output takes, what the slot holds then and
    // what is printed. Whatever input and slot tell, a refusal has one of the names that the command may answer.
    ensures report { (report : run.Report) × (result ≡ status_of report)
        × Ends words.now (I.left input.old) (I.left input.new) (O.taken output.old) (O.taken output.new) (K.held slot.old) (K.held slot.new) report
        × TakesOrFails (E.taken errors.old) (E.taken errors.new) (E.faults errors.old) (E.faults errors.new) (run.report_line report) }

    // A listing is done exactly where the input is a bundle within the limits, whose lines the output then took, and refused where it is none.
    ensures bundle { command_of words.now ≡ Some model.ListHg
        → ListingEnds (I.left input.old) (O.taken output.old) (O.taken output.new) result }

    // Where none of the counts of faults rises, input and slot tell what they have, and the slot holds nothing or the text of a state, a command that
    // comes to no refusal and to no mismatch over both is done, and one that comes to a mismatch says so, or memory ran out. `verify` alone comes to one:
    // exactly where a block of the state isn't right.
    ensures complete { (command : model.Command) → command_of words.now ≡ Some command → NoFault (I.faults input.old) (I.faults input.new)
        → NoFault (O.faults output.old) (O.faults output.new) → NoFault (K.faults slot.old) (K.faults slot.new)
        → Completes command (I.left input.old) (K.held slot.old) result }

    // A fault of the input, the output or the slot comes only where its own count rose. Nothing is written but by a run that is done or whose
    // output or slot failed, and the slot holds what it held but behind one that is done.
    ensures input { InputCause (I.faults input.old) (I.faults input.new) result }
    ensures output { OutputCause (O.faults output.old) (O.faults output.new) result }
    ensures slot { SlotCause (K.faults slot.old) (K.faults slot.new) result }
    ensures unwritten { result ≢ Status.Done → result ≢ Status.WriteFault → result ≢ Status.SlotFault → output.new ≡ output.old }
    ensures kept { result ≢ Status.Done → K.held slot.new ≡ K.held slot.old }

    // What a command doesn't use stays as it was.
    ensures no_input { (command : model.Command) → command_of words.now ≡ Some command → reads_input command ≡ false → input.new ≡ input.old }
    ensures no_slot { (command : model.Command) → command_of words.now ≡ Some command → reads_slot command ≡ false → slot.new ≡ slot.old }

    // A run that is done has flushed what its output took.
    ensures flushed { result ≡ Status.Done → IsOut (O.flushed output.new) (O.taken output.new) }

    // A step is counted for each time that a pull, an audit or a made history unmarks a member.
    ensures steps { StepsOfRun (command_of words.now) (I.left input.old) (K.held slot.old) steps.old steps.new }
{
    let report = match words.command() {
        Some(command) => perform(alloc, command, input, output, slot, steps),
        None => Report::Usage,
    };
    // What the errors do with the line changes nothing.
    let _ = write_all(errors, line_of(&report).as_slice());
    report.status()
}

/// The end of a program that has no memory to begin a command with. A line on `errors` says so.
pub fn without_memory<E: Sink>(errors: &mut E) -> Status
    ensures status { result ≡ Status.Memory }
    ensures line { TakesOrFails (E.taken errors.old) (E.taken errors.new) (E.faults errors.old) (E.faults errors.new) (run.report_line run.Memory) }
{
    // What the errors do with the line changes nothing.
    let _ = write_all(errors, line_of(&Report::Memory).as_slice());
    Status::Memory
}

// Does the work of a command.
fn perform<I: Source, O: Sink, K: Slot, L: Ledger>(
    alloc: Global,
    command: Command,
    input: &mut I,
    output: &mut O,
    slot: &mut K,
    steps: &mut Steps<L>,
) -> Report
    ensures ends { EndsBy (command_value command) (I.left input.old) (I.left input.new) (O.taken output.old) (O.taken output.new) (K.held slot.old) (K.held slot.new) (report_value result) }
    ensures bundle { command_value command ≡ model.ListHg
        → ListingEnds (I.left input.old) (O.taken output.old) (O.taken output.new) (status_of (report_value result)) }
    ensures input { InputCause (I.faults input.old) (I.faults input.new) (status_of (report_value result)) }
    ensures output { OutputCause (O.faults output.old) (O.faults output.new) (status_of (report_value result)) }
    ensures slot { SlotCause (K.faults slot.old) (K.faults slot.new) (status_of (report_value result)) }
    ensures unwritten { result ≢ Report.Done → result ≢ Report.WriteFault → result ≢ Report.SlotFault → output.new ≡ output.old }
    ensures kept { result ≢ Report.Done → K.held slot.new ≡ K.held slot.old }
    ensures no_input { reads_input (command_value command) ≡ false → input.new ≡ input.old }
    ensures no_slot { reads_slot (command_value command) ≡ false → slot.new ≡ slot.old }
    ensures flushed { status_of (report_value result) ≡ Status.Done → IsOut (O.flushed output.new) (O.taken output.new) }
    ensures steps { StepsOf (command_value command) (I.left input.old) (K.held slot.old) steps.old steps.new }
{
    match work_of(alloc, command, input, slot, steps) {
        Ok(work) => finish(output, slot, &work),
        Err(report) => report,
    }
}

// Writes an output and flushes it, and then puts the text of the next state into the slot.
fn finish<O: Sink, K: Slot>(output: &mut O, slot: &mut K, work: &Work) -> Report
    ensures finishes { Finishes (O.taken output.old) (O.taken output.new) (K.held slot.old) (K.held slot.new) work.now result }
    ensures output { OutputCause (O.faults output.old) (O.faults output.new) (status_of (report_value result)) }
    ensures slot { SlotCause (K.faults slot.old) (K.faults slot.new) (status_of (report_value result)) }
    ensures kept { result ≢ Report.Done → K.held slot.new ≡ K.held slot.old }
    ensures no_slot { work.now.text ≡ None → slot.new ≡ slot.old }
    ensures flushed { status_of (report_value result) ≡ Status.Done → IsOut (O.flushed output.new) (O.taken output.new) }
{
    if write_rope(output, &work.output).is_err() || output.flush().is_err() {
        return Report::WriteFault;
    }
    match &work.text {
        None => Report::Done,
        Some(text) => match slot.replace(text) {
            Ok(()) => Report::Done,
            Err(_) => Report::SlotFault,
        },
    }
}
