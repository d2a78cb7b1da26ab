// One commit of a stream.
ghost use Rattle.std.specs.Prelude.{◌≤◌, ◌+◌, List, IfOk, IfErr};
ghost use Rattle.text_model.specs.Lists.{Each};
ghost use Rattle.pair_known.specs.Drafts.{IsRowKnown};
ghost use Rattle.pair_model.specs.Block.{Block};
ghost use Rattle.history_model.specs.Pull.{CommitRefused};
ghost use Rattle.pull_outcome.specs.Takes.{IsTakeFault};
ghost use Rattle.pull_stream.specs.Faults.{IsOfCommit};
ghost use Rattle.pull_stream.specs.Taken.{TakesCommit, CommitTaken};

use crate::late::check_parents;
use crate::taking::Taking;
use bridge_io::Steps;
use bridge_text::Id;
use pair_choice::pair_of_commit;
use pair_known::read_commit_draft;
use pull_outcome::TakeFault;
use std::sync::ledger::Ledger;

/// Adds the block of a commit that is held and stands in none, over the blocks of its parents. The fault is the first for which
/// the commit is refused: those of the walk through its tree, then those of a commit with all its files. It is read beside the files of
/// the commit before, and is itself what the next one is read beside.
pub fn take_commit<L: Ledger>(
    taking: Taking,
    id: &Id,
    steps: &mut Steps<L>,
) -> Result<Taking, TakeFault>
    requires commit { (blocks : List Block) × TakesCommit taking.state id.now blocks }
    requires near { Each (IsRowKnown (taking.state).known.hg) taking.rows }
    ensures ok { IfOk result (λ next. (blocks : List Block) → TakesCommit taking.state id.now blocks → (b : Block) × CommitTaken taking.state next.state id.now blocks b) }
    ensures near { IfOk result (λ next. Each (IsRowKnown (next.state).known.hg) next.rows) }
    ensures refused { IfErr result (λ fault. (blocks : List Block) → TakesCommit taking.state id.now blocks
        → IsTakeFault (CommitRefused (taking.state).known.hg (taking.state).known.git blocks id.now) fault) }
    ensures names { IfErr result IsOfCommit }
    ensures steps { (steps.old ≤ steps.new) × (steps.new ≤ steps.old + 18) }
{
    let Taking { state, files, rows } = taking;
    let alloc = state.alloc;
    let draft = read_commit_draft(alloc, &state.known, id, files.as_slice())?;
    let block = pair_of_commit(alloc, &state.known, &draft, steps, rows.as_slice())?;
    check_parents(&state.known.hg, &block.last)?;
    let (state, rows) = state.push_changeset(*id, block)?;
    Ok(Taking {
        state,
        files: draft.into_files(),
        rows,
    })
}
