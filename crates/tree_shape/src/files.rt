ghost use Rattle.std.specs.Prelude.{◌≡◌, ◌==◌, true, ◌<◌, ◌++◌, [], ◌∷◌, length, slice_get, Some, IfOk, OnOk, OnErr, IfSome, IsTrue, ◌↔◌};
ghost use Rattle.std.specs.Option.{IsSome};
ghost use Rattle.text_model.specs.Id.{tree, object_id};
ghost use Rattle.git_model.specs.Tree.{is_directory};
ghost use Rattle.tree_shape.specs.Sets.{IsFileRow, IsFiles, stands_above};

use crate::file_row::FileRow;
use bridge_text::{Kind, NoMemory, fit_path, object_id};
use std::alloc::Global;
use std::cmp::Ordering;
use std::marker::Model;

/// The rows of a tree: their fit paths rise strictly in the order of bytes, and a directory is one without entries.
#[derive(Debug, Drop)]
pub struct Files {
    rows: Vec<FileRow>,
}

impl Model for Files {
    ghost use Rattle.std.specs.Prelude.{List};
    ghost use Rattle.git_model.specs.Unfold as model;
    ghost use Rattle.text_model.specs.Id.{tree, object_id};
    ghost use Rattle.git_model.specs.Tree.{is_directory};
    ghost use Rattle.tree_shape.specs.Sets.{IsFiles};

    ghost Value = { List model.FileRow };

    ghost view = { λ f. f.rows.items };

    ghost invariant = { λ f. IsFiles f.rows.items };
}

impl Files {
    /// No files.
    pub fn new(alloc: Global) -> Files
        ensures { result ≡ [] }
    {
        Files {
            rows: Vec::new(alloc),
        }
    }

    /// No files, with room for so many.
    pub fn with_capacity(alloc: Global, capacity: usize) -> Result<Files, NoMemory>
        ensures { IfOk result (λ files. files ≡ []) }
    {
        Ok(Files {
            rows: Vec::with_capacity(alloc, capacity)?,
        })
    }

    /// These very rows, not copied; `None` exactly where they are not those of files.
    pub fn from_rows(rows: Vec<FileRow>) -> Option<Files>
        ensures found { IsSome result ↔ IsFiles rows.items }
        ensures rows { IfSome result (λ files. files ≡ rows.items) }
    {
        if are_files(rows.as_slice()) {
            Some(Files { rows })
        } else {
            None
        }
    }

    /// These very rows, not copied, which are those of files.
    pub fn keep(rows: Vec<FileRow>) -> Files
        requires { IsFiles rows.items }
        ensures { result ≡ rows.items }
    {
        Files { rows }
    }

    /// Whether a row can be put at the end.
    pub fn fits(&self, row: &FileRow) -> bool
        ensures { IsTrue result ↔ IsFiles (self.now ++ row.now ∷ []) }
    {
        fits_behind(self.rows.as_slice(), row)
    }

    /// Puts a row at the end, whose fit path stands above those of the others. After want of memory the files are as they
    /// were.
    pub fn push(&mut self, row: FileRow) -> Result<(), NoMemory>
        requires { IsFiles (self.old ++ row ∷ []) }
        ensures ok { OnOk result (self.new ≡ self.old ++ row ∷ []) }
        ensures err { OnErr result (self.new ≡ self.old) }
    {
        Ok(self.rows.push(row)?)
    }

    /// How many files there are.
    pub fn len(&self) -> usize
        ensures { result ≡ length self.now }
    {
        self.rows.len()
    }

    /// Whether there are no files.
    pub fn is_empty(&self) -> bool
        ensures { result ≡ (length self.now == 0) }
    {
        self.rows.is_empty()
    }

    /// The row at place `i`, which is below the length.
    pub fn at(&self, i: usize) -> &FileRow
        requires { i < length self.now }
        ensures { slice_get self.now i ≡ Some result.now }
    {
        &self.rows[i]
    }

    /// The rows, not copied.
    pub fn into_rows(self) -> Vec<FileRow>
        ensures { result.items ≡ self }
    {
        self.rows
    }

    /// The rows.
    pub fn as_slice(&self) -> &[FileRow]
        ensures rows { result.now ≡ self.now }
        ensures files { IsFiles self.now }
    {
        self.rows.as_slice()
    }
}

/// Whether these rows are those of files.
fn are_files(rows: &[FileRow]) -> bool
    ensures { IsTrue result ↔ IsFiles rows.now }
{
    for (place, row) in rows.iter().enumerate() {
        if !fits_behind(rows.split_at(place).0, row) {
            return false;
        }
    }
    true
}

/// Whether the rows are those of files with this row at their end too.
fn fits_behind(before: &[FileRow], row: &FileRow) -> bool
    requires { IsFiles before.now }
    ensures { IsTrue result ↔ IsFiles (before.now ++ row.now ∷ []) }
{
    is_file_row(row) && stands_above(before, row)
}

fn is_file_row(row: &FileRow) -> bool
    ensures { IsTrue result ↔ IsFileRow row.now }
{
    let id = row.blob().bytes();
    let path = row.path();
    fit_path(path) && (!row.mode().is_directory() || is_empty_tree(id))
}

/// Whether this is the id of the tree without entries.
fn is_empty_tree(id: [u8; 20]) -> bool
    ensures { IsTrue result ↔ id ≡ object_id tree [] }
{
    id == object_id(Kind::Tree, b"").bytes()
}

/// Whether the path of a row stands above that of the last row, where there is one.
fn stands_above(before: &[FileRow], row: &FileRow) -> bool
    ensures { result ≡ stands_above before.now row.now }
{
    match before.last() {
        Some(last) => last.path().cmp(row.path()) == Ordering::Less,
        None => true,
    }
}
