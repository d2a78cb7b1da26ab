ghost use Rattle.std.specs.Prelude.{◌≡◌, ◌≤◌, ◌<◌, ◌+◌, List, IfOk, IfErr, OnOk};
ghost use Rattle.text_model.specs.Lists.{Each};
ghost use Rattle.view_model.specs.View.{ChangesetView, CommitView};
ghost use Rattle.pair_model.specs.Block.{Block};
ghost use Rattle.pair_known.specs.Drafts.{IsRowKnown};
ghost use Rattle.pair_known.specs.Over.{IsCommitOver};
ghost use Rattle.pair_choice.specs.Chosen.{IsChosenBlock, CommitRefuses};
ghost use Rattle.pair_choice.specs.Parts.{IsUnmarkedChangeset};

use crate::depth::{Depth, depth_of_commit};
use crate::within::{marked_block, unmarked_block};
use bridge_io::Steps;
use commit_unmark::unmark_commit;
use pair_known::{ChoiceFault, GitDraft, HgBlock, HgDraft, HgRow, Known};
use std::alloc::Global;
use std::sync::ledger::Ledger;

/// The block of a commit, each of whose parents has a partner: its links, and its marked changeset where its depth is even, else its unmarking.
/// Collision, NestLimit and PairLimit come in this order, each exactly there; Collision as for a changeset, of one below the commit. The commit is
/// unmarked beside near rows, as `unmark_commit` takes them.
pub fn pair_of_commit<L: Ledger>(
    alloc: Global,
    known: &Known,
    c: &GitDraft,
    steps: &mut Steps<L>,
    near: &[HgRow],
) -> Result<HgBlock, ChoiceFault>
    requires over { (blocks : List Block) × (v : CommitView) × IsCommitOver known.now blocks c.now v }
    requires near { Each (IsRowKnown known.now.hg) near.now }
    ensures ok { IfOk result (λ d. (blocks : List Block) (v : CommitView) → IsCommitOver known.now blocks c.now v → (h : ChangesetView) × IsChosenBlock known.now blocks v d h) }
    ensures refused { IfErr result (λ fault. (blocks : List Block) (v : CommitView) → IsCommitOver known.now blocks c.now v → CommitRefuses known.now blocks v fault) }
    ensures steps { (steps.old ≤ steps.new) × (steps.new ≤ steps.old + 18) }
    ensures asked_once { OnOk result (steps.old < steps.new) }
{
    steps.tick();
    match unmark_commit(alloc, known, c, near)? {
        Some(first) => block_with(alloc, known, c, first, steps),
        None => Ok(marked_block(alloc, known, c)?),
    }
}

// The block of a commit that has this unmarking. Without marks it is plain: its unmarking is its marked changeset.
fn block_with<L: Ledger>(
    alloc: Global,
    known: &Known,
    c: &GitDraft,
    first: HgDraft,
    steps: &mut Steps<L>,
) -> Result<HgBlock, ChoiceFault>
    requires unmarks { (blocks : List Block) × (v : CommitView) × (h : ChangesetView) × IsUnmarkedChangeset known.now blocks c.now first v h }
    ensures ok { IfOk result (λ d. (blocks : List Block) (v : CommitView) (h : ChangesetView) → IsUnmarkedChangeset known.now blocks c.now first v h
        → (chosen : ChangesetView) × IsChosenBlock known.now blocks v d chosen) }
    ensures refused { IfErr result (λ fault. (blocks : List Block) (v : CommitView) (h : ChangesetView) → IsUnmarkedChangeset known.now blocks c.now first v h
        → CommitRefuses known.now blocks v fault) }
    ensures steps { (steps.old ≤ steps.new) × (steps.new ≤ steps.old + 15) }
{
    if c.commit.headers.is_empty() {
        return Ok(unmarked_block(alloc, first)?);
    }
    match depth_of_commit(alloc, known, c, &first, steps)? {
        Depth::Even => Ok(marked_block(alloc, known, c)?),
        Depth::Odd => Ok(unmarked_block(alloc, first)?),
        Depth::TooDeep => Err(ChoiceFault::NestLimit),
        Depth::Collides => Err(ChoiceFault::Collision),
    }
}
