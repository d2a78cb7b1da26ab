ghost use Rattle.std.specs.Prelude.{◌≡◌, ◌≤◌, List, [], length, IfOk, MatchOption};
ghost use Rattle.text_model.specs.Lists.{Each};
ghost use Rattle.view_model.specs.View.{ChangesetView, CommitView};
ghost use Rattle.pair_model.specs.Block.{Block};
ghost use Rattle.pair_known.specs.Drafts.{IsRowKnown};
ghost use Rattle.pair_known.specs.Over.{IsCommitOver};
ghost use Rattle.pair_known.specs.Ruled.{IsMadeChangeset};
ghost use Rattle.partner_model.specs.Partner.{UnmarksCommit};
ghost use Rattle.commit_unmark.specs.Changesets.{IsAnswer};

use crate::named::named_changeset;
use crate::right::is_right;
use bridge_text::NoMemory;
use changeset_rule::make_changeset;
use mark_code::CommitMarks;
use pair_known::{GitDraft, HgDraft, HgRow, Known};
use plain_rule::is_plain_commit;
use std::alloc::Global;

/// The unmarking of a commit: the changeset whose marked commit it is, with the blobs as bodies. `None` exactly where there is none; a commit
/// of three and more parents has none. Whether the parents that marks name are known isn't asked, and no text has a limit here. A commit without
/// headers is unmarked beside near rows, as `make_changeset` takes them.
pub fn unmark_commit(
    alloc: Global,
    known: &Known,
    c: &GitDraft,
    near: &[HgRow],
) -> Result<Option<HgDraft>, NoMemory>
    requires over { (blocks : List Block) × (v : CommitView) × IsCommitOver known.now blocks c.now v }
    requires near { Each (IsRowKnown known.now.hg) near.now }
    ensures { IfOk result (λ found. (blocks : List Block) (v : CommitView) → IsCommitOver known.now blocks c.now v
        → MatchOption found ((h : ChangesetView) → ¬ (UnmarksCommit blocks v h))
        (λ d. (h : ChangesetView) × UnmarksCommit blocks v h × IsMadeChangeset known.now.hg d h)) }
{
    if c.commit.parents.len() > 2 {
        return Ok(None);
    }
    if c.commit.headers.is_empty() {
        return unmark_plain(alloc, known, c, near);
    }
    unmark_marked(alloc, known, c)
}

// The unmarking of a commit without headers: it has one exactly where it is plain.
fn unmark_plain(
    alloc: Global,
    known: &Known,
    c: &GitDraft,
    near: &[HgRow],
) -> Result<Option<HgDraft>, NoMemory>
    requires over { (blocks : List Block) × (v : CommitView) × IsCommitOver known.now blocks c.now v }
    requires few { length (c.now.commit).parents ≤ 2 }
    requires bare { (c.now.commit).headers ≡ [] }
    requires near { Each (IsRowKnown known.now.hg) near.now }
    ensures { IfOk result (λ found. (blocks : List Block) (v : CommitView) → IsCommitOver known.now blocks c.now v → IsAnswer known.now.hg blocks v found) }
{
    if !is_plain_commit(alloc, known, c)? {
        return Ok(None);
    }
    let changeset = make_changeset(alloc, known, c, near)?;
    Ok(Some(changeset))
}

// The unmarking of a commit by its marks.
fn unmark_marked(alloc: Global, known: &Known, c: &GitDraft) -> Result<Option<HgDraft>, NoMemory>
    requires over { (blocks : List Block) × (v : CommitView) × IsCommitOver known.now blocks c.now v }
    requires few { length (c.now.commit).parents ≤ 2 }
    ensures { IfOk result (λ found. (blocks : List Block) (v : CommitView) → IsCommitOver known.now blocks c.now v → IsAnswer known.now.hg blocks v found) }
{
    let Some(marks) = CommitMarks::read(alloc, c.commit.headers.as_slice())? else {
        return Ok(None);
    };
    let Some(named) = named_changeset(alloc, known, c, &marks)? else {
        return Ok(None);
    };
    if !is_right(alloc, known, c, &named)? {
        return Ok(None);
    }
    Ok(Some(named))
}
