// The files of a changeset.
ghost use Rattle.std.specs.Prelude.{◌≡◌, ◌≤◌, ◌++◌, ◌∷◌, [], List, map, filter, take, drop, length, slice_get, true, false, not, bytes_eq, IfOk, OnOk};
ghost use Rattle.text_model.specs.Lists.{Each};
ghost use Rattle.text_model.specs.Text.{is_below};
ghost use Rattle.hg_model.specs.Manifest as model;
ghost use Rattle.hg_manifest.specs.Values.{manifest_entry};
ghost use Rattle.view_model.specs.View.{Row, entry_of_row};
ghost use Rattle.view_model.specs.Held.{IsFileHeld};
ghost use Rattle.pair_known.specs.Rows.{row_value};
ghost use Rattle.make_model.specs.History.{with_row};

use bridge_text::NoMemory;
use hg_manifest::{Entry, Manifest};
use hg_store::HgStore;
use pair_known::{HgRow, HgRows};
use shared_text::again;
use std::alloc::Global;

/// The files of a manifest whose revisions are held, and this one in its place.
pub fn rows_with(
    alloc: Global,
    store: &HgStore,
    manifest: &Manifest,
    row: HgRow,
) -> Result<HgRows, NoMemory>
    requires held { (old : List Row) × (map entry_of_row old ≡ manifest.now) × Each (IsFileHeld store.now) old }
    ensures { IfOk result (λ rows. (new : Row) (old : List Row) → row ≡ row_value new → map entry_of_row old ≡ manifest.now → Each (IsFileHeld store.now) old
        → rows ≡ map row_value (with_row new old)) }
{
    let path = again(&row.path)?;
    let path = path.as_slice();
    let place = place_of(manifest, path);
    let mut rows = HgRows::new(alloc);
    push_others(store, manifest, 0, place, path, &mut rows)?;
    rows.push(row)?;
    push_others(store, manifest, place, manifest.len(), path, &mut rows)?;
    Ok(rows)
}

// How many entries don't stand above a path.
fn place_of(manifest: &Manifest, path: &[u8]) -> usize
    ensures most { result ≤ length manifest.now }
    ensures below { Each (λ e. is_below path.now e.path ≡ false) (take result manifest.now) }
    ensures above { (e : model.ManifestEntry) → slice_get manifest.now result ≡ Some e → is_below path.now e.path ≡ true }
{
    for place in 0..manifest.len() {
        if path.cmp(manifest.at(place).path.as_slice()).is_lt() {
            return place;
        }
    }
    manifest.len()
}

// Puts the files of the entries between two places at the end, but for one with this path.
fn push_others(
    store: &HgStore,
    manifest: &Manifest,
    from: usize,
    end: usize,
    path: &[u8],
    rows: &mut HgRows,
) -> Result<(), NoMemory>
    requires from { from ≤ end }
    requires end { end ≤ length manifest.now }
    requires held { (old : List Row) × (map entry_of_row old ≡ manifest.now) × Each (IsFileHeld store.now) old }
    ensures { OnOk result ((old : List Row) → map entry_of_row old ≡ manifest.now → Each (IsFileHeld store.now) old
        → rows.new ≡ rows.old ++ map row_value (filter (λ row. not (bytes_eq row.path path.now)) (drop from (take end old)))) }
{
    for place in from..end {
        push_other(store, manifest.at(place), path, rows)?;
    }
    Ok(())
}

// Puts the file of an entry whose revision is held at the end, unless it has this path.
fn push_other(
    store: &HgStore,
    entry: &Entry,
    path: &[u8],
    rows: &mut HgRows,
) -> Result<(), NoMemory>
    requires held { (row : Row) × (entry_of_row row ≡ manifest_entry entry.now) × IsFileHeld store.now row }
    ensures { OnOk result ((row : Row) → entry_of_row row ≡ manifest_entry entry.now → IsFileHeld store.now row
        → rows.new ≡ rows.old ++ map row_value (filter (λ row. not (bytes_eq row.path path.now)) (row ∷ []))) }
{
    if entry.path.as_slice() == path {
        return Ok(());
    }
    let row = row_of(store, entry)?;
    rows.push(row)
}

// The file of an entry whose revision is held.
fn row_of(store: &HgStore, entry: &Entry) -> Result<HgRow, NoMemory>
    requires held { (row : Row) × (entry_of_row row ≡ manifest_entry entry.now) × IsFileHeld store.now row }
    ensures { IfOk result (λ made. (row : Row) → entry_of_row row ≡ manifest_entry entry.now → IsFileHeld store.now row → made ≡ row_value row) }
{
    let path = entry.path.as_slice();
    match store.file_blob(path, &entry.node) {
        Some(blob) => Ok(HgRow {
            path: again(&entry.path)?,
            flag: entry.flag,
            node: entry.node,
            blob,
        }),
        None => unreachable!(),
    }
}
