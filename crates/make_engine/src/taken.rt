// Inputs in memory that are taken into an empty state.
ghost use Rattle.std.specs.Prelude.{◌≤◌, IfOk, IfErr};
ghost use Rattle.saved_model.specs.Step.{OfBundle, OfStream};
ghost use Rattle.make_engine.specs.Faults.{IsRefusedFor};
ghost use Rattle.make_engine.specs.Names.{IsOfCounts};
ghost use Rattle.make_engine.specs.Taken.{IsTaken, RefusesAlone};

use crate::fault::{CountsFault, of_pull};
use bridge_io::Steps;
use pair_state::State;
use pull_engine::{pull_git, pull_hg};
use state_part::Part;
use std::alloc::Global;
use std::sync::ledger::Ledger;

/// The state that a bundle alone brings.
pub fn state_of_bundle<L: Ledger>(
    alloc: Global,
    bundle: &[u8],
    steps: &mut Steps<L>,
) -> Result<State, CountsFault>
    ensures taken { IfOk result (IsTaken (OfBundle bundle.now) steps.old steps.new) }
    ensures refused { IfErr result (IsRefusedFor (RefusesAlone (OfBundle bundle.now))) }
    ensures names { IfErr result IsOfCounts }
    ensures least { steps.old ≤ steps.new }
{
    match pull_hg(State::empty(alloc), &mut Part::new(bundle), steps) {
        Ok(pulled) => Ok(pulled.state),
        Err(fault) => Err(of_pull(fault)),
    }
}

/// The state that a stream alone brings.
pub fn state_of_stream<L: Ledger>(
    alloc: Global,
    stream: &[u8],
    steps: &mut Steps<L>,
) -> Result<State, CountsFault>
    ensures taken { IfOk result (IsTaken (OfStream stream.now) steps.old steps.new) }
    ensures refused { IfErr result (IsRefusedFor (RefusesAlone (OfStream stream.now))) }
    ensures names { IfErr result IsOfCounts }
    ensures least { steps.old ≤ steps.new }
{
    match pull_git(State::empty(alloc), &mut Part::new(stream), steps) {
        Ok(pulled) => Ok(pulled.state),
        Err(fault) => Err(of_pull(fault)),
    }
}
