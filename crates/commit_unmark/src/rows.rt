// The files that marks name.
ghost use Rattle.std.specs.Prelude.{◌≡◌, ◌≤◌, ◌++◌, false, List, map, length, drop, IfOk, IfSome, MatchOption, option_map};
ghost use Rattle.text_model.specs.Lists.{Each};
ghost use Rattle.hg_store.specs.Known.{knows_same};
ghost use Rattle.view_model.specs.View.{TreeRow};
ghost use Rattle.view_model.specs.Held.{IsRowHeld, file_row_of};
ghost use Rattle.pair_model.specs.Block.{Parents};
ghost use Rattle.pair_model.specs.MarkList.{IsMarkList};
ghost use Rattle.partner_model.specs.Filled.{entry_path, is_at};
ghost use Rattle.mark_code.specs.Values.{mark_value};
ghost use Rattle.filled_law.specs.Walks as walks;
ghost use Rattle.commit_unmark.specs.Named.{AreFilesOver, NamesNoRows, NamesRows};

use crate::row::named_row;
use bridge_text::NoMemory;
use file_rule::{Parent, RuledRows};
use mark_code::{CommitMarks, Mark};
use pair_known::{Cursor, GitDraft, Known};
use std::alloc::Global;

/// The files of a changeset that marks name for those of a commit, in one walk beside the marks; `None` exactly where they name no right
/// ones, or a mark is at a path that the commit doesn't have. Rows that are no files are passed over.
pub fn named_rows(
    alloc: Global,
    known: &Known,
    c: &GitDraft,
    marks: &CommitMarks,
    first: &Parent<'_>,
    second: &Parent<'_>,
) -> Result<Option<RuledRows>, NoMemory>
    requires contents { (ts : List TreeRow) × (c.now.files ≡ map file_row_of ts) × Each (IsRowHeld (c.now.fresh ++ known.now.git)) ts }
    ensures found { IfOk result (λ found. (ps : Parents) (ts : List TreeRow) → AreFilesOver known.now.hg (c.now.fresh ++ known.now.git) c.now.files first.now second.now ps ts
        → MatchOption found (NamesNoRows ps marks.now ts) (NamesRows known.now.hg ps marks.now ts)) }
    ensures new { IfOk result (λ found. IfSome found (λ made. Each (λ r. knows_same known.now.hg r ≡ false) made.fresh)) }
{
    let files = c.files.as_slice();
    let mut named = RuledRows::with_capacity(alloc, files.len())?;
    let mut first_walk = Cursor::new(first.manifest);
    let mut second_walk = Cursor::new(second.manifest);
    let mut place = 0;
    for file in files {
        if !file.mode().is_blob() {
            continue;
        }
        let mark = take_mark(marks, &mut place, file.path());
        let Some(made) = named_row(
            alloc,
            known,
            c,
            file,
            mark,
            &mut first_walk,
            &mut second_walk,
        )?
        else {
            return Ok(None);
        };
        named.push(made)?;
    }
    if has_entry(marks, place) {
        return Ok(None);
    }
    Ok(Some(named))
}

// The mark at a place, where it is of this path; then the place is the one behind it.
fn take_mark<'a>(marks: &'a CommitMarks, place: &mut usize, path: &[u8]) -> Option<&'a Mark>
    requires { place.old ≤ length marks.now }
    ensures mark { option_map (λ m. mark_value m.now) result ≡ walks.mark_at path.now (drop place.old marks.now) }
    ensures rest { drop place.new marks.now ≡ walks.behind path.now (drop place.old marks.now) }
    ensures within { place.new ≤ length marks.now }
    ensures list { IsMarkList marks.now }
{
    if *place == marks.len() {
        return None;
    }
    let mark = marks.at(*place);
    if !is_at(mark, path) {
        return None;
    }
    *place += 1;
    Some(mark)
}

// Whether a mark is that of a file at this path.
fn is_at(mark: &Mark, path: &[u8]) -> bool
    ensures { result ≡ is_at path.now (mark_value mark.now) }
{
    match entry_path(mark) {
        Some(other) => path == other,
        None => false,
    }
}

// The path of the file whose mark this is.
fn entry_path(mark: &Mark) -> Option<&[u8]>
    ensures { option_map (λ path. path.now) result ≡ entry_path (mark_value mark.now) }
{
    match mark {
        Mark::Rename { path, .. } | Mark::File { path, .. } => Some(path.as_slice()),
        _ => None,
    }
}

// Whether the mark at a place, if there is one, is that of a file.
fn has_entry(marks: &CommitMarks, place: usize) -> bool
    requires { place ≤ length marks.now }
    ensures entry { result ≡ walks.starts_entry (drop place marks.now) }
    ensures list { IsMarkList marks.now }
{
    place < marks.len() && entry_path(marks.at(place)).is_some()
}
