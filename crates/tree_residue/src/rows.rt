// The rows of files with a residue.
ghost use Rattle.std.specs.Prelude.{◌≡◌, ◌++◌, [], ◌∷◌, map, OnOk, IfOk};
ghost use Rattle.std.specs.List.{list_any, filter_map};
ghost use Rattle.git_model.specs.Residue.{rows_with, file_with, row_of_item, mode_with, is_group_at};
ghost use Rattle.git_object.specs.Values.{mode_value};
ghost use Rattle.tree_shape.specs.Sets.{IsFiles};

use bridge_text::{Kind, NoMemory, object_id};
use git_object::{Mode, Residue, ResidueItem, ResidueKind};
use shared_text::Text;
use std::alloc::Global;
use tree_shape::{FileRow, Files, by_paths};

/// Whether the item is a group's mode at this path.
fn is_group_at(item: &ResidueItem, path: &[u8]) -> bool
    ensures { result ≡ is_group_at path.now item.now }
{
    match item.kind() {
        ResidueKind::Group => item.path() == path,
        ResidueKind::Link(_) | ResidueKind::Empty => false,
    }
}

fn has_group_at(items: &[ResidueItem], path: &[u8]) -> bool
    ensures { result ≡ list_any (is_group_at path.now) items.now }
{
    items.iter().any(
        |item: &ResidueItem| -> bool
            ensures { result ≡ is_group_at path.entry.now item.now }
        { is_group_at(item, path) },
    )
}

/// A row with the mode that it has with these items.
fn file_with(items: &[ResidueItem], row: FileRow) -> FileRow
    ensures { result ≡ file_with items.now row }
{
    if has_group_at(items, row.path()) {
        FileRow {
            path: row.path,
            mode: Mode::Group,
            blob: row.blob,
        }
    } else {
        row
    }
}

/// The row of an item that is no file's.
fn row_of_item(alloc: Global, item: &ResidueItem) -> Result<Option<FileRow>, NoMemory>
    ensures { IfOk result (λ row. row ≡ row_of_item item.now) }
{
    let (mode, blob) = match item.kind() {
        ResidueKind::Group => return Ok(None),
        ResidueKind::Link(id) => (Mode::Gitlink, id),
        ResidueKind::Empty => (Mode::Dir, object_id(Kind::Tree, b"")),
    };
    let path = Text::copy_from_slice(alloc, item.path())?;
    Ok(Some(FileRow { path, mode, blob }))
}

fn put_files(
    items: &[ResidueItem],
    files: Vec<FileRow>,
    rows: &mut Vec<FileRow>,
) -> Result<(), NoMemory>
    ensures { OnOk result (rows.new.items ≡ rows.old.items ++ map (file_with items.now) files.items) }
{
    for row in files {
        rows.push(file_with(items, row))?;
    }
    Ok(())
}

fn put_items(alloc: Global, items: &[ResidueItem], rows: &mut Vec<FileRow>) -> Result<(), NoMemory>
    ensures { OnOk result (rows.new.items ≡ rows.old.items ++ filter_map row_of_item items.now) }
{
    for item in items {
        if let Some(row) = row_of_item(alloc, item)? {
            rows.push(row)?;
        }
    }
    Ok(())
}

/// The rows of the tree of these files with these items: a file that a group's item names has that mode, and the other items
/// have rows of their own among those of the files. Without items these are the files, not copied.
pub fn with_residue(alloc: Global, files: Files, items: &Residue) -> Result<Files, NoMemory>
    requires { IsFiles (rows_with items.now files) }
    ensures { IfOk result (λ rows. rows ≡ rows_with items.now files) }
{
    let items = items.as_slice();
    let count = files.as_slice().len();
    if items.is_empty() {
        return Ok(files);
    }
    let mut rows = Vec::with_capacity(alloc, count)?;
    put_files(items, files.into_rows(), &mut rows)?;
    put_items(alloc, items, &mut rows)?;
    let sorted = by_paths(alloc, rows)?;
    Ok(Files::keep(sorted))
}
