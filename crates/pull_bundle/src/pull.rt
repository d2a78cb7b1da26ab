// The pull of a bundle.
ghost use Rattle.std.specs.Prelude.{◌≡◌, ◌≤◌, ◌+◌, ◌*◌, List, length, IfSome, IfOk, IfErr, OnOk, OnErr};
ghost use Rattle.std.specs.Io.KnownBytes.{IsAtEnd};
ghost use Rattle.text_model.specs.Text.{IsBytes};
ghost use Rattle.pair_model.specs.Block.{Block};
ghost use Rattle.pull_outcome.specs.Names.{IsOfPullHg};
ghost use Rattle.pull_outcome.specs.Pulls.{GoesOnHg, PulledHg, RefusesHg};
ghost use Rattle.pull_outcome.specs.Refused.{AnswerCause};
ghost use Rattle.pull_outcome.specs.Steps.{StepsHg};
ghost use Rattle.pair_state.specs.AllBlocks.{HasAllBlocks, state_value};

use crate::arrivals::{begin, take_all};
use crate::left_over::check_left_over;
use crate::read::read_bundle;
use crate::taking::Taking;
use bridge_io::{Source, Steps};
use pair_state::State;
use pull_outcome::{HgPulled, PullFault};
use std::sync::ledger::Ledger;

/// Takes a bundle HG10UN into a state, and makes the stream of the commits of its new changesets.
///
/// It is refused exactly at its first fault: first those of its bytes, in the order of the input. Then those of its new changesets, in
/// their order, each over the blocks before it: ManifestUnknown, FileUnknown, PathClash, ParentIsLink, NestLimit, PairLimit, FileParentLate,
/// ManifestParentLate, Collision; of a changeset that has an unmarking and isn't plain, whose bodies collide, Collision comes before NestLimit.
/// Then Orphan, at the first new manifest or file revision to which no changeset refers; then DanglingLink, at the first link that stands
/// in no block. Read comes exactly where the source's count of faults rose. A step is counted for each unmarking: at most 18 for each new block,
/// and for the changeset that is refused.
pub fn pull_hg<S: Source, L: Ledger>(
    state: State,
    src: &mut S,
    steps: &mut Steps<L>,
) -> Result<HgPulled, PullFault>
    ensures history { OnOk result ((blocks : List Block) × HasAllBlocks state blocks) }
    ensures next { IfOk result (λ pulled. (blocks : List Block) → HasAllBlocks state blocks → GoesOnHg state blocks pulled) }
    ensures pulled { IfOk result (λ pulled. IfSome (S.left src.old) (λ bytes.
        (blocks : List Block) → HasAllBlocks state blocks → PulledHg state blocks bytes pulled)) }
    ensures refused { IfErr result (λ fault. IfSome (S.left src.old) (λ bytes.
        (blocks : List Block) → HasAllBlocks state blocks → RefusesHg state blocks bytes fault)) }
    ensures names { IfErr result IsOfPullHg }
    ensures end { OnOk result (IsAtEnd (S.left src.new)) }
    ensures bytes { OnOk result (IfSome (S.left src.old) IsBytes) }
    ensures cause { AnswerCause (S.faults src.old) (S.faults src.new) result }
    ensures least { steps.old ≤ steps.new }
    ensures steps { IfOk result (λ pulled. steps.new + 18 * pulled.first_new ≤ steps.old + 18 * length (pulled.state).blocks) }
    ensures asked { OnErr result (IfSome (S.left src.old) (λ bytes. (blocks : List Block) → HasAllBlocks state blocks
        → StepsHg (state_value state blocks) bytes steps.old steps.new)) }
{
    let parts = state.into_parts();
    let alloc = parts.alloc;
    let first_new = parts.blocks.len();
    let (parts, arrivals) = read_bundle(parts, src)?;
    let taking = begin(alloc, parts)?;
    let Taking {
        state,
        referred,
        near: _,
    } = take_all(alloc, taking, &arrivals, steps)?;
    check_left_over(alloc, &state, referred, &arrivals)?;
    let made = git_dump::write(alloc, &state.known.git, &state.commits, first_new)?;
    Ok(HgPulled {
        state: State::from_parts(state),
        arrivals,
        first_new,
        made,
    })
}
