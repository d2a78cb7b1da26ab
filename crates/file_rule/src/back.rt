ghost use Rattle.std.specs.Prelude.{◌≡◌, ◌↔◌, Option, Some, option_map, IsTrue};
ghost use Rattle.std.specs.Option.{option_copied};
ghost use Rattle.hg_model.specs.FileText.{IsFile, plain_meta, manifest_order};
ghost use Rattle.hg_manifest.specs.Values.{manifest_entry};
ghost use Rattle.view_model.specs.View.{FileRevision, file_node, Row, SameRow};
ghost use Rattle.view_model.specs.Held.{IsFileHeld};
ghost use Rattle.pair_model.specs.Rule as rule;
ghost use Rattle.file_rule.specs.Back.{IsHeldRow, row_again};

use crate::revision::{MARK, has_parents, kept_node, node_or_null, parents_over};
use bridge_text::Id;
use hg_filelog::split;
use hg_manifest::Entry;
use hg_store::HgStore;
use pair_known::HgRow;

/// Whether a file that is held comes back from its commit, where these are the entries of its path in the parents. Nothing is hashed.
pub fn is_ruled(store: &HgStore, row: &HgRow, first: Option<&Entry>, second: Option<&Entry>) -> bool
    ensures { (r s : Option FileRevision) (w : Row) → IsHeldRow store.now row.now (option_map manifest_entry (option_copied first.entry)) (option_map manifest_entry (option_copied second.entry)) r s w
        → (IsTrue result ↔ SameRow (row_again r s w) w) }
{
    if has_node(first, &row.node) {
        return true;
    }
    match kept_node(store, first, second, &row.blob) {
        Some(node) => node == row.node,
        None => is_new(store, row, first, second),
    }
}

// Whether an entry is there and names this node. Such a file comes back, and most files do so.
fn has_node(entry: Option<&Entry>, node: &Id) -> bool
    ensures { IsTrue result ↔ option_map (λ e. e.node) (option_map manifest_entry (option_copied entry.entry)) ≡ Some node.now }
{
    match entry {
        Some(entry) => entry.node == *node,
        None => false,
    }
}

// Whether a file's revision is the new one that the rule gives.
fn is_new(store: &HgStore, row: &HgRow, first: Option<&Entry>, second: Option<&Entry>) -> bool
    ensures { (r s : Option FileRevision) (w : Row) → IsHeldRow store.now row.now (option_map manifest_entry (option_copied first.entry)) (option_map manifest_entry (option_copied second.entry)) r s w
        → (IsTrue result ↔ rule.new_revision r s (w.revision).body ≡ w.revision) }
{
    let parents = parents_over(node_or_null(first), node_or_null(second));
    has_parents(store, row.path.as_slice(), &row.node, parents)
        && has_plain_meta(store, row.path.as_slice(), &row.node)
}

// Whether a file revision that is held has the metadata that the rule gives to its body.
fn has_plain_meta(store: &HgStore, path: &[u8], node: &Id) -> bool
    ensures { (w : Row) → path.now ≡ w.path → node.now ≡ file_node w.revision → IsFileHeld store.now w
        → (IsTrue result ↔ (w.revision).meta ≡ plain_meta (w.revision).body) }
{
    let Some(text) = store.file_text(path, node) else {
        return false;
    };
    match split(text) {
        Ok((meta, body)) => is_plain(meta, body),
        Err(_) => false,
    }
}

/// Whether these are the metadata that the rule gives to the body: none, or empty ones where it begins with a mark.
pub fn is_plain(meta: Option<&[u8]>, body: &[u8]) -> bool
    ensures { IsFile (option_map (λ m. m.now) meta.entry) body.now → (IsTrue result ↔ option_map (λ m. m.now) meta.entry ≡ plain_meta body.now) }
{
    match meta {
        Some(meta) => meta.is_empty() && body.starts_with(MARK),
        None => true,
    }
}
