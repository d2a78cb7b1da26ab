// The rows of one directory, among rows in the order of a walk.
ghost use Rattle.std.specs.Prelude.{◌≡◌, true, Some, slice_get};
ghost use Rattle.std.specs.List.{prefix_len};
ghost use Rattle.text_model.specs.Cuts.{Lacks};
ghost use Rattle.git_model.specs.Unfold.{FileRow};
ghost use Rattle.tree_shape.specs.Shapes.{short, shorts, Good, is_in};

use tree_shape::{FileRow, begins_with_slash, rest_of};

/// Whether a row lies in the directory of this name.
fn lies_in(row: &FileRow, skip: usize, name: &[u8]) -> bool
    ensures { Lacks 47 name.now → result ≡ is_in name.now (short skip row.now) }
{
    let path = rest_of(row, skip);
    if path.len() < name.len() {
        return false;
    }
    let (front, after) = path.split_at(name.len());
    begins_with_slash(after) && front == name
}

/// How many of the first rows lie in the directory of this name, in which the first one lies. Few of them are looked at.
pub fn group_len(rows: &[FileRow], skip: usize, name: &[u8]) -> usize
    requires good { Good (shorts skip rows.now) }
    requires plain { Lacks 47 name.now }
    requires first { (first : FileRow) → slice_get rows.now 0 ≡ Some first → is_in name.now (short skip first) ≡ true }
    ensures { result ≡ prefix_len (is_in name.now) (shorts skip rows.now) }
{
    rows.partition_point(
        |row: &FileRow| -> bool
            ensures { Lacks 47 name.entry.now → result ≡ is_in name.entry.now (short skip row.now) }
        { lies_in(row, skip, name) },
    )
}
