ghost use Rattle.std.specs.Prelude.{◌≡◌, ◌≤◌, ◌+◌, ◌*◌, List, length, map, IfSome, IfOk, IfErr, OnOk, OnErr};
ghost use Rattle.std.specs.Io.KnownBytes.{IsAtEnd};
ghost use Rattle.text_model.specs.Lists.{Each};
ghost use Rattle.git_model.specs.Stream.{Placed};
ghost use Rattle.git_batch.specs.Arrivals.{arrival_of};
ghost use Rattle.tree_shape.specs.Laws.{IsKnown};
ghost use Rattle.pair_model.specs.Block.{Block};
ghost use Rattle.pull_outcome.specs.Names.{IsOfPullGit};
ghost use Rattle.pull_outcome.specs.Pulls.{PulledGit, GoesOnGit, RefusesGit};
ghost use Rattle.pull_outcome.specs.Refused.{AnswerCause};
ghost use Rattle.pull_outcome.specs.Steps.{StepsGit};
ghost use Rattle.pair_state.specs.AllBlocks.{HasAllBlocks, state_value};

use crate::commits::take_commits;
use crate::objects::read_objects;
use crate::ordering::order_commits;
use bridge_io::{Source, Steps};
use pair_state::State;
use pull_outcome::{GitPulled, PullFault};
use std::sync::ledger::Ledger;

/// Takes a stream of `git cat-file --batch` into a state, and makes the bundle of the changesets of its new commits.
///
/// It is refused exactly at its first fault: first those of its bytes, in the order of the input. Then ParentUnknown, at the first commit
/// that is never reached since a parent lacks. Then those of its new commits, in the order in which they arrive, each over the blocks before
/// it: ObjectUnknown, PathUnfit and PairLimit as the walk through its tree meets them; Collision of bodies on the way to its depth; NestLimit,
/// PairLimit of its changeset and its links, FileParentLate, ManifestParentLate, Collision. Read comes exactly where the source's count of
/// faults rose. A step is counted for each unmarking: at most 18 for each new block, and for the commit that is refused.
pub fn pull_git<S: Source, L: Ledger>(
    state: State,
    src: &mut S,
    steps: &mut Steps<L>,
) -> Result<GitPulled, PullFault>
    ensures history { OnOk result ((blocks : List Block) × HasAllBlocks state blocks) }
    ensures pulled { IfOk result (λ pulled. IfSome (S.left src.old) (λ bytes.
        (blocks : List Block) → HasAllBlocks state blocks → PulledGit state blocks bytes pulled)) }
    ensures refused { IfErr result (λ fault. IfSome (S.left src.old) (λ bytes.
        (blocks : List Block) → HasAllBlocks state blocks → RefusesGit state blocks bytes fault)) }
    ensures next { IfOk result (λ pulled. (blocks : List Block) → HasAllBlocks state blocks → GoesOnGit state blocks pulled) }
    ensures held { IfOk result (λ pulled. (came : List Placed) × (pulled.arrivals ≡ map arrival_of came) × Each (λ o. IsKnown (pulled.state).known.git o.object) came) }
    ensures names { IfErr result IsOfPullGit }
    ensures end { OnOk result (IsAtEnd (S.left src.new)) }
    ensures cause { AnswerCause (S.faults src.old) (S.faults src.new) result }
    ensures least { steps.old ≤ steps.new }
    ensures steps { IfOk result (λ pulled. steps.new + 18 * pulled.first_new ≤ steps.old + 18 * length (pulled.state).blocks) }
    ensures asked { OnErr result (IfSome (S.left src.old) (λ bytes. (blocks : List Block) → HasAllBlocks state blocks
        → StepsGit (state_value state blocks) bytes steps.old steps.new)) }
{
    let parts = state.into_parts();
    let first_new = parts.blocks.len();
    let saved = parts.changesets.as_list().len();
    let (parts, came) = read_objects(parts, src)?;
    let ordered = order_commits(&parts, &came)?;
    let parts = take_commits(parts, &came, &ordered, steps)?;
    let list = parts.changesets.as_list();
    let made = hg_dump::write(parts.alloc, &parts.known.hg, list, saved)?;
    Ok(GitPulled {
        state: State::from_parts(parts),
        arrivals: came,
        first_new,
        made,
    })
}
