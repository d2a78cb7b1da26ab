ghost use Rattle.std.specs.Prelude.{◌≡◌, map, IfOk};
ghost use Rattle.hg_manifest.specs.Values.{file_flag};
ghost use Rattle.git_model.specs.Residue.{carried, rows_with};
ghost use Rattle.git_object.specs.Values.{mode_value};
ghost use Rattle.tree_shape.specs.Sets.{IsFiles};
ghost use Rattle.pair_model.specs.Rule.{mode_of_flag};
ghost use Rattle.commit_rule.specs.Parts.{file_of_row, residue_below};

use bridge_text::{Id, NoMemory};
use git_object::Mode;
use git_store::GitStore;
use hg_manifest::Flag;
use pair_known::{HgRow, HgRows};
use shared_text::again;
use std::alloc::Global;
use tree_residue::{carry, residue_at, with_residue};
use tree_shape::{FileRow, Files};

fn mode_of(flag: Flag) -> Mode
    ensures { mode_value result ≡ mode_of_flag (file_flag flag) }
{
    match flag {
        Flag::Plain => Mode::File,
        Flag::Exec => Mode::Exec,
        Flag::Link => Mode::Link,
    }
}

// The file of a tree for one of a changeset.
fn file_of(row: &HgRow) -> Result<FileRow, NoMemory>
    ensures { IfOk result (λ file. file ≡ file_of_row row.now) }
{
    Ok(FileRow {
        path: again(&row.path)?,
        mode: mode_of(row.flag),
        blob: row.blob,
    })
}

/// The files of the tree for those of a changeset, whose fit paths rise.
pub fn files_of(alloc: Global, rows: &HgRows) -> Result<Files, NoMemory>
    requires { IsFiles (map file_of_row rows.now) }
    ensures { IfOk result (λ files. files ≡ map file_of_row rows.now) }
{
    let rows = rows.as_slice();
    let mut files = Files::with_capacity(alloc, rows.len())?;
    for row in rows {
        let file = file_of(row)?;
        files.push(file)?;
    }
    Ok(files)
}

/// The rows of the tree for these files: with what fits them of the residue of an old tree, where there is one.
pub fn hand_on(
    alloc: Global,
    git: &GitStore,
    old: Option<Id>,
    files: Files,
) -> Result<Files, NoMemory>
    requires files { IsFiles files }
    requires rows { IsFiles (rows_with (carried (residue_below git.now old) files) files) }
    ensures { IfOk result (λ rows. rows ≡ rows_with (carried (residue_below git.now old) files) files) }
{
    let Some(root) = old else {
        return Ok(files);
    };
    let residue = residue_at(alloc, git, &root)?;
    let items = carry(alloc, &residue, &files)?;
    with_residue(alloc, files, &items)
}
