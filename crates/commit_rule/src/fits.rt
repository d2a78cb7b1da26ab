// What is too large.
ghost use Rattle.std.specs.Prelude.{◌≡◌, ◌≤◌, ◌↔◌, ◌++◌, List, length, IfOk, IsTrue};
ghost use Rattle.std.specs.List.{sum_by};
ghost use Rattle.hg_model.specs.Revision.{Revision};
ghost use Rattle.git_model.specs.Commit.{commit_text};
ghost use Rattle.git_model.specs.Object.{Object};
ghost use Rattle.git_model.specs.Unfold.{row_size, rows_limit};
ghost use Rattle.view_model.specs.View.{Row, CommitView, CommitFits, commit_limit, text_limit};
ghost use Rattle.hg_store.specs.Known.{AreAdded};
ghost use Rattle.pair_known.specs.Ruled.{IsMadeCommit};
ghost use Rattle.commit_rule.specs.Parts.{IsRowOf, AreRowsOf, AreShortBodies};

use crate::fresh::{body_of, is_stored};
use bridge_text::{COMMIT_LIMIT, NoMemory, ROWS_LIMIT, TEXT_LIMIT};
use git_object::Commit;
use pair_known::{GitDraft, HgDraft, HgRow, Known};
use std::alloc::Global;
use tree_shape::Files;

// Whether the rows, each counted as its path's bytes and 42, are within their limit.
fn rows_fit(files: &Files) -> bool
    ensures { IsTrue result ↔ sum_by row_size files.now ≤ rows_limit }
{
    let mut size = 0;
    let rows = files.as_slice();
    for row in rows {
        size += row.path().len() + 42;
        if size > ROWS_LIMIT {
            return false;
        }
    }
    true
}

// Whether the text of a commit is within its limit.
fn text_fits(alloc: Global, commit: &Commit) -> Result<bool, NoMemory>
    ensures { IfOk result (λ fits. IsTrue fits ↔ length (commit_text commit.now) ≤ commit_limit) }
{
    let mut text = Vec::new(alloc);
    commit.write_into(&mut text)?;
    Ok(text.len() <= COMMIT_LIMIT)
}

/// Whether each object of a commit that was made and the rows of its tree are within their limits. No tree is looked at: an entry takes at
/// most 28 bytes beside its name, and a row counts 42 beside its path.
pub fn commit_fits(alloc: Global, d: &GitDraft) -> Result<bool, NoMemory>
    ensures { IfOk result (λ fits. (known : List Object) (v : CommitView) → IsMadeCommit known d.now v → (IsTrue fits ↔ CommitFits v)) }
{
    if !rows_fit(&d.files) {
        return Ok(false);
    }
    text_fits(alloc, &d.commit)
}

// Whether the body of a row's revision is within the limit of a text. That of a revision of the store is.
fn body_fits(known: &Known, h: &HgDraft, row: &HgRow) -> bool
    requires held { (r : Row) × IsRowOf (h.now.fresh ++ known.now.hg) row.now r }
    ensures { (r : Row) → AreAdded known.now.hg → IsRowOf (h.now.fresh ++ known.now.hg) row.now r → (IsTrue result ↔ length (r.revision).body ≤ text_limit) }
{
    if is_stored(h, row) {
        return true;
    }
    body_of(known, h, row).len() <= TEXT_LIMIT
}

/// Whether the body of each file revision of a changeset is within the limit of a text.
pub fn bodies_fit(known: &Known, h: &HgDraft) -> bool
    requires held { (rows : List Row) × AreRowsOf (h.now.fresh ++ known.now.hg) h.now.rows rows }
    ensures { (rows : List Row) → AreAdded known.now.hg → AreRowsOf (h.now.fresh ++ known.now.hg) h.now.rows rows → (IsTrue result ↔ AreShortBodies rows) }
{
    let rows = h.rows.as_slice();
    for row in rows {
        if !body_fits(known, h, row) {
            return false;
        }
    }
    true
}
