// The pulls into a saved state.
ghost use Rattle.std.specs.Prelude.{◌≡◌, Some, IfOk};
ghost use Rattle.command_model.specs.Command as model;
ghost use Rattle.state_model.specs.Kept as saved;
ghost use Rattle.state_model.specs.Saved.{IsState, IsStateText};
ghost use Rattle.state_text.specs.Stands.{Stands};
ghost use Rattle.bridge_cli.specs.Makes.{LeavesCount, LeavesSlotCount, Makes};
ghost use Rattle.bridge_cli.specs.Steps.{StepsOf};

use crate::fetch::fetch_state;
use crate::report::Report;
use crate::work::Work;
use bridge_io::{Slot, Source, Steps};
use bridge_text::NoMemory;
use pair_state::State;
use pull_engine::{Pulled, pull_git, pull_hg};
use rope::Rope;
use state_text::write_into;
use std::alloc::Global;
use std::mem::forget;
use std::sync::ledger::Ledger;

/// The objects of the commits of a bundle's changesets, and the next state.
pub fn commits_of_bundle<I: Source, K: Slot, L: Ledger>(
    alloc: Global,
    input: &mut I,
    slot: &mut K,
    steps: &mut Steps<L>,
) -> Result<Work, Report>
    ensures makes { Makes model.PullHg (I.left input.old) (I.left input.new) (K.held slot.old) result }
    ensures input { LeavesCount (I.faults input.old) (I.faults input.new) result }
    ensures held { K.held slot.new ≡ K.held slot.old }
    ensures slot { LeavesSlotCount (K.faults slot.old) (K.faults slot.new) result }
    ensures steps { StepsOf model.PullHg (I.left input.old) (K.held slot.old) steps.old steps.new }
{
    let state = fetch_state(alloc, slot)?;
    let pulled = pull_hg(state, input, steps)?;
    Ok(saved_work(pulled))
}

/// The bundle of the changesets of a stream's commits, and the next state.
pub fn changesets_of_stream<I: Source, K: Slot, L: Ledger>(
    alloc: Global,
    input: &mut I,
    slot: &mut K,
    steps: &mut Steps<L>,
) -> Result<Work, Report>
    ensures makes { Makes model.PullGit (I.left input.old) (I.left input.new) (K.held slot.old) result }
    ensures input { LeavesCount (I.faults input.old) (I.faults input.new) result }
    ensures held { K.held slot.new ≡ K.held slot.old }
    ensures slot { LeavesSlotCount (K.faults slot.old) (K.faults slot.new) result }
    ensures steps { StepsOf model.PullGit (I.left input.old) (K.held slot.old) steps.old steps.new }
{
    let state = fetch_state(alloc, slot)?;
    let pulled = pull_git(state, input, steps)?;
    Ok(saved_work(pulled))
}

// What an accepted pull is to write, and the text of its next state. The state keeps its memory until the program ends: to give it back part by
// part takes time, and a run needs it no more.
fn saved_work(pulled: Pulled) -> Work
    ensures output { result.output ≡ pulled.made }
    ensures text { result.text ≡ Some pulled.text }
{
    let Pulled {
        state,
        made,
        text,
        ..
    } = pulled;
    forget(state);
    Work {
        output: made,
        text: Some(text),
    }
}

/// The text of a state.
pub fn text_of(state: &State) -> Result<Rope, NoMemory>
    requires stands { (m : saved.State) × Stands state.now m }
    ensures { IfOk result (λ text. (m : saved.State) → Stands state.now m → IsState m → IsStateText text m) }
{
    let mut text = Rope::new(state.alloc());
    write_into(state, &mut text)?;
    Ok(text)
}
