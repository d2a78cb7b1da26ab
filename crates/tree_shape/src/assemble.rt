ghost use Rattle.std.specs.Prelude.{◌≡◌, ◌<◌, ◌+◌, ◌++◌, ◌^◌, [], ◌∷◌, length, drop, None, OnOk, IfOk, IfErr};
ghost use Rattle.std.specs.List.{prefix_len};
ghost use Rattle.text_model.specs.Id.{tree, object_id};
ghost use Rattle.git_model.specs.Tree.{tree_entry_text};
ghost use Rattle.git_model.specs.Object.{object_of};
ghost use Rattle.git_model.specs.Shape.{root_of, trees_of, first_clash};
ghost use Rattle.git_object.specs.Values.{mode_value};
ghost use Rattle.tree_shape.specs.Faults.{IsBuildFault};
ghost use Rattle.tree_shape.specs.Sets.{IsFiles};
ghost use Rattle.tree_shape.specs.Shapes.{short, shorts, Good, is_in, id_of_rows, trees_of_rows, row_trees};

use crate::clash::find_clash;
use crate::fault::BuildFault;
use crate::file_row::FileRow;
use crate::files::Files;
use crate::sorting::{by_walk, has_directory};
use crate::tree_item::{TreeItem, TreeList, Trees};
use bridge_text::{Bytes, COMPONENT_LIMIT, Id, Kind, NoMemory, cut_at, object_id};
use git_object::Mode;
use std::alloc::Global;

/// How many trees lie on the way to a file of a root tree at most, the root among them.
pub const LEVELS: usize = COMPONENT_LIMIT + 1;

/// The path of a row without its first `skip` bytes.
pub fn rest_of(row: &FileRow, skip: usize) -> &[u8]
    ensures rest { result.now ≡ drop skip row.now.path }
    ensures fits { 0 < length result.now → skip + length result.now < 2 ^ 63 }
{
    let path = row.path();
    if skip <= path.len() {
        path.split_at(skip).1
    } else {
        b""
    }
}

/// Appends an entry of a tree: the text of its mode, a space, its name, a NUL and the 20 bytes of its id.
pub fn put_entry(out: &mut Vec<u8>, mode: Mode, name: &[u8], id: &Id) -> Result<(), NoMemory>
    ensures { OnOk result (out.new.items ≡ out.old.items ++ tree_entry_text (record { mode = mode_value mode; name = name.now; id = id.now })) }
{
    out.extend_from_slice(mode.text())?;
    out.push(b' ')?;
    out.extend_from_slice(name)?;
    out.push(b'\0')?;
    out.extend_from_slice(&id.bytes())?;
    Ok(())
}

/// Whether a row lies in the directory of this name.
fn lies_in(row: &FileRow, skip: usize, name: &[u8]) -> bool
    ensures { result ≡ is_in name.now (short skip row.now) }
{
    match cut_at(b'/', rest_of(row, skip)) {
        Some((front, _)) => front == name,
        None => false,
    }
}

/// How many of the first rows lie in the directory of this name.
pub fn count_in(rows: &[FileRow], skip: usize, name: &[u8]) -> usize
    ensures { result ≡ prefix_len (is_in name.now) (shorts skip rows.now) }
{
    let mut count = 0;
    for row in rows {
        if !lies_in(row, skip, name) {
            return count;
        }
        count += 1;
    }
    count
}

/// Keeps a tree, and gives its id.
pub fn put_tree(made: &mut TreeList, text: Vec<u8>) -> Result<Id, NoMemory>
    ensures { IfOk result (λ id. (id ≡ object_id tree text.items) × (made.new ≡ made.old ++ object_of tree text.items ∷ [])) }
{
    let id = object_id(Kind::Tree, text.as_slice());
    made.push(TreeItem {
        id,
        content: Bytes::keep(text),
    })?;
    Ok(id)
}

/// Makes the tree of an empty subtree, below which so many levels may stand.
pub fn put_below(
    alloc: Global,
    row: &FileRow,
    levels: usize,
    made: &mut TreeList,
) -> Result<(), NoMemory>
    ensures { OnOk result (made.new ≡ made.old ++ row_trees levels row.now) }
{
    if row.mode().is_directory() && levels > 0 {
        put_tree(made, Vec::new(alloc))?;
    }
    Ok(())
}

/// Makes the trees of rows that lie in one directory. The first `skip` bytes of each path are the directory's path with
/// its slash.
fn put_rows(
    alloc: Global,
    rows: &[FileRow],
    skip: usize,
    levels: usize,
    made: &mut TreeList,
) -> Result<Id, NoMemory>
    requires good { Good (shorts skip rows.now) }
    ensures { IfOk result (λ id. (id ≡ id_of_rows levels (shorts skip rows.now)) × (made.new ≡ made.old ++ trees_of_rows levels (shorts skip rows.now))) }
{
    if levels == 0 {
        return Ok(object_id(Kind::Tree, b""));
    }
    let mut text = Vec::new(alloc);
    let mut rest = rows;
    'names: while let Some(first) = rest.first() {
        match cut_at(b'/', rest_of(first, skip)) {
            Some((name, _)) => {
                let count = count_in(rest, skip, name);
                let (group, others) = rest.split_at(count);
                let id = put_rows(alloc, group, skip + name.len() + 1, levels - 1, made)?;
                put_entry(&mut text, Mode::Dir, name, &id)?;
                rest = others;
            }
            None => {
                put_below(alloc, first, levels - 1, made)?;
                put_entry(&mut text, first.mode(), rest_of(first, skip), first.blob())?;
                rest = rest.split_at(1).1;
            }
        }
    }
    put_tree(made, text)
}

/// The tree objects of files, as `git write-tree` makes them.
pub fn build(alloc: Global, files: &Files) -> Result<Trees, BuildFault>
    ensures root { IfOk result (λ trees. trees.root ≡ root_of files.now) }
    ensures made { IfOk result (λ trees. trees.made ≡ trees_of files.now) }
    ensures fits { OnOk result (first_clash files.now ≡ None) }
    ensures fault { IfErr result (IsBuildFault files.now) }
{
    let rows = files.as_slice();
    if let Some(place) = find_clash(rows) {
        return Err(BuildFault::PathClash(place));
    }
    Ok(build_apart(alloc, rows)?)
}

/// The trees of rows of which none lies below another. Where a directory is among them, they are put in the order of a walk.
pub fn build_apart(alloc: Global, rows: &[FileRow]) -> Result<Trees, NoMemory>
    requires files { IsFiles rows.now }
    requires apart { first_clash rows.now ≡ None }
    ensures root { IfOk result (λ trees. trees.root ≡ root_of rows.now) }
    ensures made { IfOk result (λ trees. trees.made ≡ trees_of rows.now) }
{
    if has_directory(rows) {
        let sorted = by_walk(alloc, rows)?;
        build_walk(alloc, &sorted)
    } else {
        build_walk(alloc, rows)
    }
}

/// The trees of rows in the order of a walk.
fn build_walk(alloc: Global, rows: &[FileRow]) -> Result<Trees, NoMemory>
    requires good { Good rows.now }
    ensures root { IfOk result (λ trees. trees.root ≡ id_of_rows 257 rows.now) }
    ensures made { IfOk result (λ trees. trees.made ≡ trees_of_rows 257 rows.now) }
{
    let mut made = TreeList::new(alloc);
    let root = put_rows(alloc, rows, 0, LEVELS, &mut made)?;
    Ok(Trees { root, made })
}
