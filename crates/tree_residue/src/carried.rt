// What a commit hands on to a child.
ghost use Rattle.std.specs.Prelude.{◌≡◌, ◌&&◌, bytes_eq, IfOk};
ghost use Rattle.std.specs.List.{list_any};
ghost use Rattle.git_model.specs.Residue.{carried, fits, is_plain, is_in_the_way};
ghost use Rattle.text_model.specs.Path.{lies_below};

use bridge_text::{Bytes, NoMemory};
use git_object::{Mode, Residue, ResidueItem, ResidueKind};
use std::alloc::Global;
use tree_shape::{FileRow, Files, begins_with_slash};

fn lies_below(path: &[u8], directory: &[u8]) -> bool
    ensures { result ≡ lies_below path.now directory.now }
{
    if directory.len() >= path.len() {
        return false;
    }
    let (front, rest) = path.split_at(directory.len());
    front == directory && begins_with_slash(rest)
}

/// Whether a row is a plain file of this path.
fn is_plain_at(row: &FileRow, path: &[u8]) -> bool
    ensures { result ≡ (bytes_eq row.now.path path.now && is_plain row.now.mode) }
{
    row.path() == path && row.mode() == Mode::File
}

/// Whether the path is that of the row, or one of the two lies below the other.
fn is_in_the_way(row: &FileRow, path: &[u8]) -> bool
    ensures { result ≡ is_in_the_way path.now row.now }
{
    row.path() == path || lies_below(path, row.path()) || lies_below(row.path(), path)
}

/// Whether an item fits these files.
fn fits(rows: &[FileRow], item: &ResidueItem) -> bool
    ensures { result ≡ fits rows.now item.now }
{
    match item.kind() {
        ResidueKind::Group => has_plain(rows, item.path()),
        ResidueKind::Link(_) | ResidueKind::Empty => !has_one_in_the_way(rows, item.path()),
    }
}

fn has_plain(rows: &[FileRow], path: &[u8]) -> bool
    ensures { result ≡ list_any (λ row. bytes_eq row.path path.now && is_plain row.mode) rows.now }
{
    rows.iter().any(
        |row: &FileRow| -> bool
            ensures { result ≡ (bytes_eq row.now.path path.entry.now && is_plain row.now.mode) }
        { is_plain_at(row, path) },
    )
}

fn has_one_in_the_way(rows: &[FileRow], path: &[u8]) -> bool
    ensures { result ≡ list_any (is_in_the_way path.now) rows.now }
{
    rows.iter().any(
        |row: &FileRow| -> bool
            ensures { result ≡ is_in_the_way path.entry.now row.now }
        { is_in_the_way(row, path) },
    )
}

fn copy_of(alloc: Global, item: &ResidueItem) -> Result<ResidueItem, NoMemory>
    ensures { IfOk result (λ copy. copy ≡ item.now) }
{
    Ok(ResidueItem {
        path: Bytes::of(alloc, item.path())?,
        kind: item.kind(),
    })
}

/// What a commit with this residue hands on to a child with these files: the mode of a group where the child has a file of that
/// path that can't be run, a gitlink or an empty subtree where no path of the child is its own, lies below it or above it.
pub fn carry(alloc: Global, old: &Residue, files: &Files) -> Result<Residue, NoMemory>
    ensures { IfOk result (λ residue. residue ≡ carried old.now files.now) }
{
    let rows = files.as_slice();
    let mut residue = Residue::new(alloc);
    for item in old.as_slice() {
        if fits(rows, item) {
            let copy = copy_of(alloc, item)?;
            residue.push(copy)?;
        }
    }
    Ok(residue)
}
