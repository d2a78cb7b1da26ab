// Whether the files of a changeset and its lists come back from the commit that its marks name.
ghost use Rattle.std.specs.Prelude.{◌≡◌, ◌↔◌, List, map, IfOk, IsTrue};
ghost use Rattle.hg_model.specs.Revision.{Revision};
ghost use Rattle.view_model.specs.View.{ChangesetView, SameRows};
ghost use Rattle.pair_model.specs.Block.{Parents};
ghost use Rattle.pair_model.specs.Rule.{ruled_files};
ghost use Rattle.changeset_unmark.specs.Over.{IsDraftOver, ListsComeBack};

use crate::rows::are_rows_ruled;
use bridge_text::NoMemory;
use file_rule::Parent;
use hg_store::HgStore;
use manifest_rule::{are_same_paths, is_ruled_manifest, ruled_files};
use pair_known::HgDraft;
use std::alloc::Global;

/// Whether the files, the manifest and the list of files of a changeset come back from its files over these parents. Nothing is hashed.
pub fn lists_come_back(
    alloc: Global,
    store: &HgStore,
    h: &HgDraft,
    first: &Parent<'_>,
    second: &Parent<'_>,
) -> Result<bool, NoMemory>
    ensures { IfOk result (λ back. (ps : Parents) (v : ChangesetView) → IsDraftOver store.now h.now first.now second.now ps v
        → (IsTrue back ↔ ListsComeBack ps v)) }
{
    if !are_rows_ruled(store, h, first, second) {
        return Ok(false);
    }
    if !is_ruled_manifest(store, &h.rows, &h.manifest, first, second) {
        return Ok(false);
    }
    has_ruled_files(alloc, h, first, second)
}

// Whether a changeset lists the files that the rule lists.
fn has_ruled_files(
    alloc: Global,
    h: &HgDraft,
    first: &Parent<'_>,
    second: &Parent<'_>,
) -> Result<bool, NoMemory>
    ensures { IfOk result (λ same. (known : List Revision) (ps : Parents) (v : ChangesetView) → IsDraftOver known h.now first.now second.now ps v
        → (IsTrue same ↔ (v.fields).files ≡ ruled_files ps v.rows)) }
{
    let files = ruled_files(alloc, &h.rows, first.entries(), second.entries())?;
    Ok(are_same_paths(&h.changeset.files, &files))
}
