// The residue of rows.
ghost use Rattle.std.specs.Prelude.{◌≡◌, map, option_map, IsTrue, IfOk};
ghost use Rattle.text_model.specs.Lists.{rises};
ghost use Rattle.text_model.specs.Text.{is_below};
ghost use Rattle.git_model.specs.Residue.{kind_of_row, item_of, residue_of};
ghost use Rattle.git_object.specs.Values.{kind_value};

use bridge_text::{Bytes, NoMemory};
use git_object::{Mode, Residue, ResidueItem, ResidueKind};
use std::alloc::Global;
use tree_shape::{FileRow, Files};

/// What a row has that no changeset can hold.
fn kind_of(row: &FileRow) -> Option<ResidueKind>
    ensures { option_map kind_value result ≡ kind_of_row row.now.mode row.now.id }
{
    match row.mode() {
        Mode::Group => Some(ResidueKind::Group),
        Mode::Gitlink => Some(ResidueKind::Link(*row.blob())),
        Mode::Dir => Some(ResidueKind::Empty),
        Mode::File | Mode::Exec | Mode::Link => None,
    }
}

/// The item of a row that no changeset can hold.
fn item_of(alloc: Global, row: &FileRow) -> Result<Option<ResidueItem>, NoMemory>
    ensures { IfOk result (λ item. item ≡ item_of row.now.path (kind_of_row row.now.mode row.now.id)) }
{
    match kind_of(row) {
        Some(kind) => {
            let path = Bytes::of(alloc, row.path())?;
            Ok(Some(ResidueItem { path, kind }))
        }
        None => Ok(None),
    }
}

/// The residue of rows whose paths rise.
pub fn residue_in(alloc: Global, rows: &[FileRow]) -> Result<Residue, NoMemory>
    requires { IsTrue (rises is_below (map (λ r. r.path) rows.now)) }
    ensures { IfOk result (λ residue. residue ≡ residue_of rows.now) }
{
    let mut residue = Residue::new(alloc);
    for row in rows {
        if let Some(item) = item_of(alloc, row)? {
            residue.push(item)?;
        }
    }
    Ok(residue)
}

/// What the tree of these rows has beside the files that a changeset can hold: one item for each file that its group may write,
/// each gitlink and each empty subtree, in rising order of their paths.
pub fn residue_of(alloc: Global, files: &Files) -> Result<Residue, NoMemory>
    ensures { IfOk result (λ residue. residue ≡ residue_of files.now) }
{
    residue_in(alloc, files.as_slice())
}
