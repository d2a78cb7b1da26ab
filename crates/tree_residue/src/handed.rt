// Whether a commit has beside its files what another hands on to it.
ghost use Rattle.std.specs.Prelude.{◌≡◌, ◌↔◌, if◌then◌else◌, Some, None, option_map, IfOk, IsTrue};
ghost use Rattle.git_model.specs.Tree.{is_blob_mode};
ghost use Rattle.git_model.specs.Residue.{residue_of, carried, plain_mode, plain_file, plain_files};
ghost use Rattle.git_object.specs.Values.{mode_value};

use crate::carried::carry;
use crate::items::residue_of;
use bridge_text::NoMemory;
use git_object::{Mode, Residue, ResidueItem};
use shared_text::again;
use std::alloc::Global;
use tree_shape::{FileRow, Files};

/// Whether what rows have beside their files is what a commit with the old residue hands on to these files. Where nothing is handed on
/// no row is copied.
pub fn is_handed_on(alloc: Global, old: &Residue, files: &Files) -> Result<bool, NoMemory>
    ensures { IfOk result (λ same. IsTrue same ↔ residue_of files.now ≡ carried old.now (plain_files files.now)) }
{
    let residue = residue_of(alloc, files)?;
    if old.is_empty() {
        return Ok(residue.is_empty());
    }
    let plain = plain_files(alloc, files)?;
    let handed = carry(alloc, old, &plain)?;
    Ok(is_same_residue(&residue, &handed))
}

/// The mode of a file as a changeset has it; `None` exactly where the row is no file's.
fn plain_mode(mode: Mode) -> Option<Mode>
    ensures { option_map mode_value result ≡ (if is_blob_mode (mode_value mode) then Some (plain_mode (mode_value mode)) else None) }
{
    match mode {
        Mode::File | Mode::Group => Some(Mode::File),
        Mode::Exec => Some(Mode::Exec),
        Mode::Link => Some(Mode::Link),
        Mode::Dir | Mode::Gitlink => None,
    }
}

/// The file of a row as a changeset has it; `None` exactly where the row is no file's.
fn plain_file(row: &FileRow) -> Result<Option<FileRow>, NoMemory>
    ensures { IfOk result (λ file. file ≡ (if is_blob_mode row.now.mode then Some (plain_file row.now) else None)) }
{
    match plain_mode(row.mode()) {
        Some(mode) => {
            let path = again(&row.path)?;
            let blob = *row.blob();
            Ok(Some(FileRow { path, mode, blob }))
        }
        None => Ok(None),
    }
}

/// The files among rows as a changeset has them.
fn plain_files(alloc: Global, files: &Files) -> Result<Files, NoMemory>
    ensures { IfOk result (λ plain. plain ≡ plain_files files.now) }
{
    let rows = files.as_slice();
    let mut plain = Vec::new(alloc);
    for row in rows {
        if let Some(file) = plain_file(row)? {
            plain.push(file)?;
        }
    }
    Ok(Files::keep(plain))
}

/// Whether two residues are the same.
pub fn is_same_residue(a: &Residue, b: &Residue) -> bool
    ensures { IsTrue result ↔ a.now ≡ b.now }
{
    if a.len() != b.len() {
        return false;
    }
    for place in 0..a.len() {
        if !is_same_item(a.at(place), b.at(place)) {
            return false;
        }
    }
    true
}

fn is_same_item(a: &ResidueItem, b: &ResidueItem) -> bool
    ensures { IsTrue result ↔ a.now ≡ b.now }
{
    a.path() == b.path() && a.kind() == b.kind()
}
