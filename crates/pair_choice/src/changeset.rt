ghost use Rattle.std.specs.Prelude.{◌≡◌, ◌≤◌, ◌<◌, ◌+◌, false, List, IfOk, IfErr, OnOk};
ghost use Rattle.text_model.specs.Lists.{Each};
ghost use Rattle.view_model.specs.View.{ChangesetView, CommitView, paths_of, has_clash};
ghost use Rattle.pair_model.specs.Block.{Block};
ghost use Rattle.pair_model.specs.Octopus.{is_link_view};
ghost use Rattle.pair_known.specs.Over.{IsChangesetIn};
ghost use Rattle.hg_changeset.specs.Values.{date_value};
ghost use Rattle.commit_rule.specs.Parts.{HasStoredBlob};
ghost use Rattle.pair_choice.specs.Chosen.{IsChosenCommit, ChangesetRefuses};
ghost use Rattle.pair_choice.specs.Parts.{IsUnmarkedCommit, IsAlone, is_bare_date};

use crate::bodies::has_bodies;
use crate::clash::has_clash;
use crate::depth::{Depth, depth_of_changeset};
use crate::parents::has_link_parent;
use crate::within::unmarked_commit;
use bridge_io::Steps;
use changeset_unmark::unmark_changeset;
use commit_mark::mark_commit;
use hg_changeset::{Changeset, DateLine};
use pair_known::{ChoiceFault, GitDraft, HgDraft, HgRow, Known};
use std::alloc::Global;
use std::sync::ledger::Ledger;

/// The partner of a changeset that is no link: the marked commit where its depth is even, else its unmarking. PathClash, ParentIsLink, Collision,
/// NestLimit and PairLimit come in this order, each exactly there. Collision comes where a changeset that isn't plain is to be unmarked on the way to
/// the depth, and two of its bodies have one blob id or one of them has that of another object: no draft of a commit has both bodies.
/// Beside near rows, which may be any whose blobs the store holds, no blob is looked up that stands at its place among theirs.
pub fn pair_of_changeset<L: Ledger>(
    alloc: Global,
    known: &Known,
    h: &HgDraft,
    steps: &mut Steps<L>,
    near: &[HgRow],
) -> Result<GitDraft, ChoiceFault>
    requires asked { (blocks : List Block) × (v : ChangesetView) × IsChangesetIn known.now blocks h.now v × (is_link_view v ≡ false) }
    requires near { Each (HasStoredBlob known.now.git) near.now }
    ensures ok { IfOk result (λ d. (blocks : List Block) (v : ChangesetView) → IsChangesetIn known.now blocks h.now v → (c : CommitView) × IsChosenCommit known.now blocks v d c) }
    ensures refused { IfErr result (λ fault. (blocks : List Block) (v : ChangesetView) → IsChangesetIn known.now blocks h.now v → ChangesetRefuses known.now blocks v fault) }
    ensures steps { (steps.old ≤ steps.new) × (steps.new ≤ steps.old + 18) }
    ensures asked_once { OnOk result (steps.old < steps.new) }
{
    steps.tick();
    match unmark_changeset(alloc, known, h, near)? {
        Some(first) => commit_with(alloc, known, h, first, steps),
        // Only a changeset without an unmarking can have a clash: the trees of a commit have none.
        None if has_clash(h.rows.as_slice()) => Err(ChoiceFault::PathClash),
        None => commit_without(alloc, known, h),
    }
}

// The partner of a changeset that has this unmarking, where no path lies below another. Without marks it is plain: its unmarking is its marked
// commit.
fn commit_with<L: Ledger>(
    alloc: Global,
    known: &Known,
    h: &HgDraft,
    first: GitDraft,
    steps: &mut Steps<L>,
) -> Result<GitDraft, ChoiceFault>
    requires unmarks { (blocks : List Block) × (v : ChangesetView) × (c : CommitView) × IsUnmarkedCommit known.now blocks h.now first v c × (has_clash (paths_of v.rows) ≡ false) }
    ensures ok { IfOk result (λ d. (blocks : List Block) (v : ChangesetView) (c : CommitView) → IsUnmarkedCommit known.now blocks h.now first v c
        → has_clash (paths_of v.rows) ≡ false → (chosen : CommitView) × IsChosenCommit known.now blocks v d chosen) }
    ensures refused { IfErr result (λ fault. (blocks : List Block) (v : ChangesetView) (c : CommitView) → IsUnmarkedCommit known.now blocks h.now first v c
        → has_clash (paths_of v.rows) ≡ false → ChangesetRefuses known.now blocks v fault) }
    ensures steps { (steps.old ≤ steps.new) × (steps.new ≤ steps.old + 15) }
{
    if is_bare(&h.changeset) {
        return Ok(unmarked_commit(alloc, known, h, first)?);
    }
    if !has_bodies(known, h, &first) {
        return Err(ChoiceFault::Collision);
    }
    match depth_of_changeset(alloc, known, &first, steps)? {
        Depth::Even => Ok(mark_commit(alloc, known, h)?),
        Depth::Odd => Ok(unmarked_commit(alloc, known, h, first)?),
        Depth::TooDeep => Err(ChoiceFault::NestLimit),
        Depth::Collides => Err(ChoiceFault::Collision),
    }
}

// The partner of a changeset that has no unmarking, where no path lies below another.
fn commit_without(alloc: Global, known: &Known, h: &HgDraft) -> Result<GitDraft, ChoiceFault>
    requires alone { (blocks : List Block) × (v : ChangesetView) × IsAlone known.now blocks h.now v }
    ensures ok { IfOk result (λ d. (blocks : List Block) (v : ChangesetView) → IsAlone known.now blocks h.now v → (c : CommitView) × IsChosenCommit known.now blocks v d c) }
    ensures refused { IfErr result (λ fault. (blocks : List Block) (v : ChangesetView) → IsAlone known.now blocks h.now v → ChangesetRefuses known.now blocks v fault) }
{
    if has_link_parent(known, h) {
        return Err(ChoiceFault::ParentIsLink);
    }
    Ok(mark_commit(alloc, known, h)?)
}

// Whether a changeset has no marks: its date line can be read, and has no extras.
fn is_bare(changeset: &Changeset) -> bool
    ensures { result ≡ is_bare_date (date_value changeset.now.date) }
{
    match &changeset.date {
        DateLine::Plain { extras, .. } => extras.is_empty(),
        DateLine::Raw(_) => false,
    }
}
