// The audit of the saved state.
ghost use Rattle.std.specs.Prelude.{◌≡◌, ℕ, Option};
ghost use Rattle.text_model.specs.Text.{Bytes};
ghost use Rattle.command_model.specs.Command as model;
ghost use Rattle.bridge_cli.specs.Makes.{LeavesCount, LeavesSlotCount, Makes};
ghost use Rattle.bridge_cli.specs.Steps.{StepsOf};

use crate::counts::verified_count;
use crate::fetch::fetch_state;
use crate::report::Report;
use crate::work::Work;
use bridge_io::{Slot, Steps};
use state_audit::{Verdict, verify};
use std::alloc::Global;
use std::sync::ledger::Ledger;

/// How many blocks a saved state has each of which is right; or the first that isn't, as the end of the run.
pub fn audit_of_history<K: Slot, L: Ledger>(
    alloc: Global,
    slot: &mut K,
    steps: &mut Steps<L>,
) -> Result<Work, Report>
    ensures makes { (input : Option Bytes) → Makes model.Verify input input (K.held slot.old) result }
    ensures input { (faults : ℕ) → LeavesCount faults faults result }
    ensures held { K.held slot.new ≡ K.held slot.old }
    ensures slot { LeavesSlotCount (K.faults slot.old) (K.faults slot.new) result }
    ensures steps { (input : Option Bytes) → StepsOf model.Verify input (K.held slot.old) steps.old steps.new }
{
    let state = fetch_state(alloc, slot)?;
    let found = verify(&state, steps)?;
    match found {
        Verdict::Holds(blocks) => Ok(Work::of_bytes(alloc, verified_count(alloc, blocks)?)),
        Verdict::Differs { kept, right } => Err(Report::Mismatch { kept, right }),
    }
}
