ghost use Rattle.std.specs.Prelude.{◌≡◌, ◌≤◌, ◌↔◌, List, length, map, IfOk, IsTrue};
ghost use Rattle.text_model.specs.Lists.{Each};
ghost use Rattle.hg_model.specs.Changeset.{changeset_text};
ghost use Rattle.hg_model.specs.Revision.{Revision};
ghost use Rattle.hg_store.specs.Known.{AreAdded};
ghost use Rattle.hg_changeset.specs.Values.{changeset_value};
ghost use Rattle.view_model.specs.View.{ChangesetView, ChangesetFits, commit_limit, text_limit, rows_text};
ghost use Rattle.pair_known.specs.Drafts.{AreTextsOf};
ghost use Rattle.pair_known.specs.Rows.{row_value};
ghost use Rattle.pair_known.specs.Ruled.{IsMadeChangeset};

use crate::fields::text_of;
use bridge_text::{COMMIT_LIMIT, NoMemory, TEXT_LIMIT};
use manifest_rule::lines_fit;
use pair_known::{FreshFiles, HgDraft};
use std::alloc::Global;

/// Whether the texts of a changeset are within their limits: its own, its manifest's and those of its files. Those of the files that it
/// doesn't bring are, since each revision of a store is. Nothing is hashed, and texts that the draft brings aren't written again.
pub fn changeset_fits(alloc: Global, d: &HgDraft) -> Result<bool, NoMemory>
    ensures { IfOk result (λ fits. (known : List Revision) (v : ChangesetView) → AreAdded known → IsMadeChangeset known d.now v → (IsTrue fits ↔ ChangesetFits v)) }
{
    if !manifest_fits(d) {
        return Ok(false);
    }
    if !files_fit(&d.fresh) {
        return Ok(false);
    }
    text_fits(alloc, d)
}

// Whether the text of a changeset is within its limit.
fn text_fits(alloc: Global, d: &HgDraft) -> Result<bool, NoMemory>
    ensures { IfOk result (λ fits. (v : ChangesetView) → AreTextsOf d.now.texts v → v.fields ≡ changeset_value d.now.changeset
        → (IsTrue fits ↔ length (changeset_text v.fields) ≤ commit_limit)) }
{
    match &d.texts.changeset {
        Some(text) => Ok(text.len() <= COMMIT_LIMIT),
        None => Ok(text_of(alloc, &d.changeset)?.len() <= COMMIT_LIMIT),
    }
}

// Whether the text of its manifest is.
fn manifest_fits(d: &HgDraft) -> bool
    ensures { (v : ChangesetView) → AreTextsOf d.now.texts v → d.now.rows ≡ map row_value v.rows
        → (IsTrue result ↔ length (rows_text v.rows) ≤ text_limit) }
{
    match &d.texts.manifest {
        Some(text) => text.len() <= TEXT_LIMIT,
        None => lines_fit(&d.rows),
    }
}

// Whether the texts of file revisions are.
fn files_fit(fresh: &FreshFiles) -> bool
    ensures { IsTrue result ↔ Each (λ r. length r.text ≤ text_limit) fresh.now }
{
    for file in fresh.as_slice() {
        if file.text.len() > TEXT_LIMIT {
            return false;
        }
    }
    true
}
