ghost use Rattle.std.specs.Prelude.{◌≡◌, map, slice_get, option_map, MatchOption, IfSome, IsTrue};
ghost use Rattle.text_model.specs.Lists.{rises};
ghost use Rattle.text_model.specs.Text.{is_below};
ghost use Rattle.manifest_rule.specs.Listed.{entry_of_value, entries_or_none};
ghost use Rattle.manifest_rule.specs.Merged.{lent_row, lent_entry, said, differs, is_listed, with_path, least_of, IsNext, NoneLeft};

use bridge_text::Id;
use hg_manifest::{Entry, Flag, Manifest};
use pair_known::{HgRow, HgRows};
use std::cmp::Ordering;

/// A path, and what a changeset and its parents have there.
#[derive(Drop)]
pub struct Found<'a> {
    pub path: &'a [u8],
    pub row: Option<&'a HgRow>,
    pub first: Option<&'a Entry>,
    pub second: Option<&'a Entry>,
}

/// The row at a place, if there are so many.
pub fn row_at(rows: &HgRows, place: usize) -> Option<&HgRow>
    ensures { lent_row result ≡ slice_get (map entry_of_value rows.now) place }
{
    if place < rows.len() {
        Some(rows.at(place))
    } else {
        None
    }
}

/// The entry at a place of a manifest, whose paths rise, if there is one with so many.
pub fn entry_at<'a>(manifest: Option<&'a Manifest>, place: usize) -> Option<&'a Entry>
    ensures entry { lent_entry result ≡ slice_get (entries_or_none (option_map (λ m. m.now) manifest.entry)) place }
    ensures rises { IsTrue (rises is_below (map (λ e. e.path) (entries_or_none (option_map (λ m. m.now) manifest.entry)))) }
{
    let manifest = manifest?;
    if place < manifest.len() {
        Some(manifest.at(place))
    } else {
        None
    }
}

/// The least path of three files, and those that have it; `None` exactly where there are none.
pub fn next<'a>(
    row: Option<&'a HgRow>,
    first: Option<&'a Entry>,
    second: Option<&'a Entry>,
) -> Option<Found<'a>>
    ensures { MatchOption result (NoneLeft (lent_row row.entry) (lent_entry first.entry) (lent_entry second.entry))
        (IsNext (lent_row row.entry) (lent_entry first.entry) (lent_entry second.entry)) }
{
    if let Some(found) = alike(row, first, second) {
        return Some(found);
    }
    let path = least(least(path_of_row(row), path_of(first)), path_of(second))?;
    Some(Found {
        path,
        row: row_with(row, path),
        first: entry_with(first, path),
        second: entry_with(second, path),
    })
}

// What stands at the path of a row which the first parent has too, where nothing is left of a second one, as for most files of most changesets.
fn alike<'a>(
    row: Option<&'a HgRow>,
    first: Option<&'a Entry>,
    second: Option<&'a Entry>,
) -> Option<Found<'a>>
    ensures { IfSome result (IsNext (lent_row row.entry) (lent_entry first.entry) (lent_entry second.entry)) }
{
    let row = row?;
    let entry = first?;
    let path = row.path.as_slice();
    if second.is_some() || entry.path.as_slice() != path {
        return None;
    }
    Some(Found {
        path,
        row: Some(row),
        first: Some(entry),
        second: None,
    })
}

fn path_of_row<'a>(row: Option<&'a HgRow>) -> Option<&'a [u8]>
    ensures { option_map (λ p. p.now) result ≡ option_map (λ e. e.path) (lent_row row.entry) }
{
    match row {
        Some(row) => Some(row.path.as_slice()),
        None => None,
    }
}

fn path_of<'a>(entry: Option<&'a Entry>) -> Option<&'a [u8]>
    ensures { option_map (λ p. p.now) result ≡ option_map (λ e. e.path) (lent_entry entry.entry) }
{
    match entry {
        Some(entry) => Some(entry.path.as_slice()),
        None => None,
    }
}

// The smaller of two paths, if there are any.
fn least<'a>(a: Option<&'a [u8]>, b: Option<&'a [u8]>) -> Option<&'a [u8]>
    ensures { option_map (λ p. p.now) result ≡ least_of (option_map (λ p. p.now) a.entry) (option_map (λ p. p.now) b.entry) }
{
    let Some(x) = a else {
        return b;
    };
    let Some(y) = b else {
        return a;
    };
    match y.cmp(x) {
        Ordering::Less => b,
        Ordering::Equal | Ordering::Greater => a,
    }
}

// The row, where it has the path.
fn row_with<'a>(row: Option<&'a HgRow>, path: &[u8]) -> Option<&'a HgRow>
    ensures { lent_row result ≡ with_path path.now (lent_row row.entry) }
{
    let row = row?;
    if row.path.as_slice() == path {
        Some(row)
    } else {
        None
    }
}

// The entry, where it has the path.
fn entry_with<'a>(entry: Option<&'a Entry>, path: &[u8]) -> Option<&'a Entry>
    ensures { lent_entry result ≡ with_path path.now (lent_entry entry.entry) }
{
    let entry = entry?;
    if entry.path.as_slice() == path {
        Some(entry)
    } else {
        None
    }
}

impl Found<'_> {
    /// Whether the changeset has something else at the path than each of its parents has; without a parent it is so.
    pub fn is_listed(&self, has_first: bool, has_second: bool) -> bool
        ensures { result ≡ is_listed has_first has_second (lent_row self.now.row) (lent_entry self.now.first) (lent_entry self.now.second) }
    {
        if !has_first {
            return true;
        }
        if !differs(self.row, self.first) {
            return false;
        }
        !has_second || differs(self.row, self.second)
    }
}

// Whether a row and an entry of one path differ, or one of them isn't there.
fn differs(row: Option<&HgRow>, entry: Option<&Entry>) -> bool
    ensures { result ≡ differs (lent_row row.entry) (lent_entry entry.entry) }
{
    match (row, entry) {
        (None, None) => false,
        (Some(row), Some(entry)) => row.node != entry.node || row.flag != entry.flag,
        (Some(_), None) => true,
        (None, Some(_)) => true,
    }
}
