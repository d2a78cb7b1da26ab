// What is counted of a history that is made.
ghost use Rattle.std.specs.Prelude.{◌≤◌, IfOk, IfErr};
ghost use Rattle.command_model.specs.Made.{MakesCounts, RefusesMake};
ghost use Rattle.make_engine.specs.Faults.{IsRefusedFor};
ghost use Rattle.make_engine.specs.Names.{IsOfCounts};
ghost use Rattle.make_engine.specs.Taken.{CountsSteps, IsStreamOfMade};

use crate::fault::CountsFault;
use crate::lines::lines_of;
use crate::taken::{state_of_bundle, state_of_stream};
use bridge_io::Steps;
use make_history::make_bundle;
use state_text::dump_git;
use std::alloc::Global;
use std::sync::ledger::Ledger;

/// What is counted of the history of `n` changesets that is made from a seed: its bundle is taken into an empty state, and the stream of that state
/// into another one. The lines tell how many changesets and commits this one has, how many of the commits are marked, and the ids of its last block.
///
/// `Refused` comes exactly where more than 20,000 changesets are asked for (CountLimit), where else two revisions of the history have one id
/// (Collision), or where else one of the pulls is refused, for its first fault. A step is counted for each unmarking: at most 18 for each block of
/// either state.
pub fn make_counts<L: Ledger>(
    alloc: Global,
    n: u64,
    seed: u64,
    steps: &mut Steps<L>,
) -> Result<Vec<u8>, CountsFault>
    ensures counts { IfOk result (λ lines. MakesCounts n seed lines.items) }
    ensures refused { IfErr result (IsRefusedFor (RefusesMake n seed)) }
    ensures names { IfErr result IsOfCounts }
    ensures least { steps.old ≤ steps.new }
    ensures steps { IfOk result (λ lines. CountsSteps n seed lines.items steps.old steps.new) }
{
    let stream = stream_of_made(alloc, n, seed, steps)?;
    let second = state_of_stream(alloc, &stream, steps)?;
    Ok(lines_of(&second)?)
}

// The stream of the history that is made. The state into which its bundle is taken is given up before the stream is read.
fn stream_of_made<L: Ledger>(
    alloc: Global,
    n: u64,
    seed: u64,
    steps: &mut Steps<L>,
) -> Result<Vec<u8>, CountsFault>
    ensures stream { IfOk result (λ stream. IsStreamOfMade n seed steps.old steps.new stream.items) }
    ensures refused { IfErr result (IsRefusedFor (RefusesMake n seed)) }
    ensures names { IfErr result IsOfCounts }
    ensures least { steps.old ≤ steps.new }
{
    let bundle = make_bundle(alloc, n, seed)?;
    let first = state_of_bundle(alloc, &bundle, steps)?;
    let stream = dump_git(&first)?;
    Ok(stream.joined()?)
}
