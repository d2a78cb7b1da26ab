// Whether the files of a changeset come back from their commit, where a draft may bring their revisions.
ghost use Rattle.std.specs.Prelude.{◌≡◌, ◌↔◌, Option, Some, map, option_map, IsTrue};
ghost use Rattle.std.specs.Option.{option_copied};
ghost use Rattle.text_model.specs.Text.{Bytes};
ghost use Rattle.hg_manifest.specs.Values.{manifest_entry};
ghost use Rattle.view_model.specs.View.{ChangesetView, FileRevision, file_node, Row, SameRow, SameRows};
ghost use Rattle.view_model.specs.Held.{IsFileHeld};
ghost use Rattle.pair_model.specs.Block.{Parents};
ghost use Rattle.pair_model.specs.Rule.{tree_row_of, ruled_rows};
ghost use Rattle.pair_known.specs.Fresh.{fresh_revision};
ghost use Rattle.file_rule.specs.Back.{row_again};
ghost use Rattle.changeset_unmark.specs.Over.{IsDraftOver};
ghost use Rattle.changeset_unmark.specs.Rows.{IsDraftRow, IsFreshRow};

use bridge_text::Id;
use file_rule::{Parent, has_parents, is_plain, is_ruled, kept_node, node_or_null, parents_over};
use hg_filelog::{file_order, split};
use hg_manifest::Entry;
use hg_store::HgStore;
use pair_known::{Cursor, FreshFile, FreshFiles, HgDraft, HgRow};

/// Whether the rule gives for each file of a changeset the same flag and a revision with the same node, parents, metadata and blob.
/// Nothing is hashed.
pub fn are_rows_ruled(store: &HgStore, h: &HgDraft, first: &Parent<'_>, second: &Parent<'_>) -> bool
    ensures { (ps : Parents) (v : ChangesetView) → IsDraftOver store.now h.now first.now second.now ps v
        → (IsTrue result ↔ SameRows (ruled_rows ps (map tree_row_of v.rows)) v.rows) }
{
    let mut first_walk = Cursor::new(first.manifest);
    let mut second_walk = Cursor::new(second.manifest);
    let rows = h.rows.as_slice();
    for row in rows {
        let in_first = first_walk.get(row.path.as_slice());
        let in_second = second_walk.get(row.path.as_slice());
        if !is_row_ruled(store, &h.fresh, row, in_first, in_second) {
            return false;
        }
    }
    true
}

// Whether a file comes back from its commit, where these are the entries of its path in the parents.
fn is_row_ruled(
    store: &HgStore,
    fresh: &FreshFiles,
    row: &HgRow,
    first: Option<&Entry>,
    second: Option<&Entry>,
) -> bool
    ensures { (r s : Option FileRevision) (w : Row) → IsDraftRow fresh.now store.now row.now (option_map manifest_entry (option_copied first.entry)) (option_map manifest_entry (option_copied second.entry)) r s w
        → (IsTrue result ↔ SameRow (row_again r s w) w) }
{
    match fresh.get(row.path.as_slice(), &row.node) {
        Some(file) => is_fresh_ruled(store, file, row, first, second),
        None => is_ruled(store, row, first, second),
    }
}

// Whether a file whose revision is brought comes back from its commit. That a parent's entry has its node says nothing of its text.
fn is_fresh_ruled(
    store: &HgStore,
    file: &FreshFile,
    row: &HgRow,
    first: Option<&Entry>,
    second: Option<&Entry>,
) -> bool
    ensures { (r s : Option FileRevision) (w : Row) → IsFreshRow store.now (fresh_revision file.now) row.now (option_map manifest_entry (option_copied first.entry)) (option_map manifest_entry (option_copied second.entry)) r s w
        → (IsTrue result ↔ SameRow (row_again r s w) w) }
{
    let Ok((meta, body)) = split(file.text.as_slice()) else {
        return false;
    };
    let parents = file_order(meta, file.p, file.q);
    match kept_node(store, first, second, &row.blob) {
        Some(node) => node == row.node && is_held_so(store, row, parents, meta),
        None => {
            let new = parents_over(node_or_null(first), node_or_null(second));
            parents == new && is_plain(meta, body)
        }
    }
}

// Whether the revision of a row is held with these parents and these metadata.
fn is_held_so(store: &HgStore, row: &HgRow, parents: (Id, Id), meta: Option<&[u8]>) -> bool
    ensures { (w : Row) → w.path ≡ row.now.path → file_node w.revision ≡ row.now.node → IsFileHeld store.now w
        → (IsTrue result ↔ ((((w.revision).p, (w.revision).q) ≡ parents) × ((w.revision).meta ≡ option_map (λ m. m.now) meta.entry))) }
{
    has_parents(store, row.path.as_slice(), &row.node, parents) && has_meta(store, row, meta)
}

// Whether the revision of a row is held with these metadata.
fn has_meta(store: &HgStore, row: &HgRow, meta: Option<&[u8]>) -> bool
    ensures { (w : Row) → w.path ≡ row.now.path → file_node w.revision ≡ row.now.node → IsFileHeld store.now w
        → (IsTrue result ↔ (w.revision).meta ≡ option_map (λ m. m.now) meta.entry) }
{
    let Some(text) = store.file_text(row.path.as_slice(), &row.node) else {
        return false;
    };
    match split(text) {
        Ok((found, _)) => is_same_meta(found, meta),
        Err(_) => false,
    }
}

fn is_same_meta(a: Option<&[u8]>, b: Option<&[u8]>) -> bool
    ensures { IsTrue result ↔ option_map (λ m. m.now) a.entry ≡ option_map (λ m. m.now) b.entry }
{
    match (a, b) {
        (Some(a), Some(b)) => a == b,
        (None, None) => true,
        (Some(_), None) => false,
        (None, Some(_)) => false,
    }
}
