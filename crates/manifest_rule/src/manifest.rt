ghost use Rattle.std.specs.Prelude.{◌≡◌, ◌≤◌, ◌<◌, ◌+◌, ◌++◌, ◌↔◌, List, ℕ, [], length, map, Some, IfOk, IfSome, IfNone, OnOk, IsTrue, bytes_eq};
ghost use Rattle.hg_model.specs.Manifest.{entry_text, manifest_text, IsManifest};
ghost use Rattle.hg_manifest.specs.Values.{manifest_entry};
ghost use Rattle.hg_store.specs.Known.{AreAdded, manifest_text_of};
ghost use Rattle.view_model.specs.View.{Row, text_limit, entry_of_row};
ghost use Rattle.pair_model.specs.Block.{Parents};
ghost use Rattle.pair_model.specs.Rule.{ruled_manifest};
ghost use Rattle.hg_manifest.specs.Values.{manifest_value};
ghost use Rattle.manifest_rule.specs.Listed.{entry_of_value};
ghost use Rattle.manifest_rule.specs.Over.{AreRowsOver, IsMadeManifest};

use bridge_text::{Bytes, Id, NoMemory, TEXT_LIMIT, node_id};
use file_rule::{Parent, parents_over};
use hg_manifest::{Entry, Manifest, ManifestRev, line_len, put_line};
use hg_store::HgStore;
use pair_known::{HgRow, HgRows, manifest_of_node};
use std::alloc::Global;

/// The manifest of a changeset, and its node.
#[derive(Drop)]
pub struct RuledManifest {
    /// Its node; the null id for no manifest.
    pub node: Id,
    /// Its parents, or none.
    pub manifest: ManifestRev,
    /// Its text, where it is a new manifest.
    pub text: Option<Bytes>,
}

/// The manifest that the rule gives for a changeset's rows, whatever the length of its lines: the first parent's where its lines are these,
/// for which nothing is hashed, else a new one over those of the parents.
pub fn make_manifest(
    alloc: Global,
    store: &HgStore,
    rows: &HgRows,
    first: &Parent<'_>,
    second: &Parent<'_>,
) -> Result<RuledManifest, NoMemory>
    ensures { IfOk result (λ made. (ps : Parents) (hs : List Row) → AreRowsOver store.now rows.now first.now second.now ps hs → IsMadeManifest made ps hs) }
{
    let text = lines_of(alloc, rows)?;
    if has_text(store, &first.manifest_node, text.as_slice()) {
        return Ok(RuledManifest {
            node: first.manifest_node,
            manifest: manifest_of_node(store, &first.manifest_node),
            text: None,
        });
    }
    let (p, q) = parents_over(first.manifest_node, second.manifest_node);
    let node = node_id(&p, &q, text.as_slice());
    Ok(RuledManifest {
        node,
        manifest: ManifestRev::Over { p, q },
        text: Some(text),
    })
}

/// Whether a manifest is the one that the rule gives for a changeset's rows. Nothing is hashed, and no lines are written.
pub fn is_ruled_manifest(
    store: &HgStore,
    rows: &HgRows,
    manifest: &ManifestRev,
    first: &Parent<'_>,
    second: &Parent<'_>,
) -> bool
    ensures { (ps : Parents) (hs : List Row) → AreRowsOver store.now rows.now first.now second.now ps hs → IsManifest (map entry_of_row hs)
        → (IsTrue result ↔ manifest_value manifest.now ≡ ruled_manifest ps hs) }
{
    *manifest == ruled_parents(store, rows, first, second)
}

// The parents that the rule gives to the manifest of a changeset's rows.
fn ruled_parents(
    store: &HgStore,
    rows: &HgRows,
    first: &Parent<'_>,
    second: &Parent<'_>,
) -> ManifestRev
    ensures { (ps : Parents) (hs : List Row) → AreRowsOver store.now rows.now first.now second.now ps hs → IsManifest (map entry_of_row hs)
        → manifest_value result ≡ ruled_manifest ps hs }
{
    if have_same_lines(rows, first.manifest) {
        return manifest_of_node(store, &first.manifest_node);
    }
    let (p, q) = parents_over(first.manifest_node, second.manifest_node);
    ManifestRev::Over { p, q }
}

// Whether the rows are the entries.
fn have_same_lines(rows: &HgRows, manifest: &Manifest) -> bool
    ensures same { IsTrue result ↔ map entry_of_value rows.now ≡ manifest.now }
    ensures manifest { IsManifest manifest.now }
{
    if rows.len() != manifest.len() {
        return false;
    }
    for place in 0..rows.len() {
        if !is_line(rows.at(place), manifest.at(place)) {
            return false;
        }
    }
    true
}

fn is_line(row: &HgRow, entry: &Entry) -> bool
    ensures { IsTrue result ↔ entry_of_value row.now ≡ manifest_entry entry.now }
{
    row.path.as_slice() == entry.path.as_slice() && row.node == entry.node && row.flag == entry.flag
}

// Whether a manifest has this text.
fn has_text(store: &HgStore, node: &Id, text: &[u8]) -> bool
    ensures same { (other : List ℕ) → manifest_text_of store.now node.now ≡ Some other → result ≡ bytes_eq text.now other }
    ensures known { AreAdded store.now }
{
    match store.manifest_text(node) {
        Some(found) => text == found,
        None => false,
    }
}

/// The lines of a manifest with these rows.
pub fn lines_of(alloc: Global, rows: &HgRows) -> Result<Bytes, NoMemory>
    ensures { IfOk result (λ text. text ≡ manifest_text (map entry_of_value rows.now)) }
{
    let mut out = room_for(alloc, rows.as_slice())?;
    put_rows(&mut out, rows.as_slice())?;
    Ok(Bytes::keep(out))
}

/// Whether the lines of a manifest with these rows are within the limit of a text. None are written.
pub fn lines_fit(rows: &HgRows) -> bool
    ensures { IsTrue result ↔ length (manifest_text (map entry_of_value rows.now)) ≤ text_limit }
{
    let mut room = TEXT_LIMIT;
    let rows = rows.as_slice();
    for row in rows {
        match room_behind(room, row) {
            Some(left) => room = left,
            None => return false,
        }
    }
    true
}

// What is left of a room behind the line of a row; `None` exactly where it has no place there.
fn room_behind(room: usize, row: &HgRow) -> Option<usize>
    ensures there { IfSome result (λ left. room ≡ length (entry_text (entry_of_value row.now)) + left) }
    ensures none { IfNone result (room < length (entry_text (entry_of_value row.now))) }
{
    room.checked_sub(line_len(row.path.as_slice(), &row.node, row.flag))
}

// No bytes, with room for the lines of rows, so that none are moved while others are added.
fn room_for(alloc: Global, rows: &[HgRow]) -> Result<Vec<u8>, NoMemory>
    ensures { IfOk result (λ out. out.items ≡ []) }
{
    let mut room: usize = 0;
    for row in rows {
        room = room.saturating_add(line_len(row.path.as_slice(), &row.node, row.flag));
    }
    Ok(Vec::with_capacity(alloc, room)?)
}

// Adds the lines of rows.
#[tactic(auto, unfolding(hg_model::specs::Manifest::manifest_text))]
fn put_rows(out: &mut Vec<u8>, rows: &[HgRow]) -> Result<(), NoMemory>
    ensures { OnOk result (out.new.items ≡ out.old.items ++ manifest_text (map entry_of_value rows.now)) }
{
    for row in rows {
        put_line(out, row.path.as_slice(), &row.node, row.flag)?;
    }
    Ok(())
}
