// What the commit that the marks of a changeset name has beside the files.
ghost use Rattle.std.specs.Prelude.{◌≡◌, ◌↔◌, List, None, Some, map, IfOk, IsTrue, MatchOption, option_map};
ghost use Rattle.std.specs.List.{list_all};
ghost use Rattle.text_model.specs.Path.{is_fit_path};
ghost use Rattle.git_model.specs.Residue.{carried, fits, rows_with};
ghost use Rattle.tree_shape.specs.Sets.{IsFiles};
ghost use Rattle.commit_rule.specs.Parts.{file_of_row, residue_below};
ghost use Rattle.partner_model.specs.Mark.{residue_unless};
ghost use Rattle.changeset_unmark.specs.Residues.{items_named, AreItemsFit, IsResidueNamed};

use bridge_text::{Id, NoMemory, fit_path};
use commit_rule::files_of;
use git_object::{Residue, ResidueItem};
use git_store::GitStore;
use pair_known::HgRows;
use std::alloc::Global;
use tree_residue::{carry, is_same_residue, residue_at, with_residue};
use tree_shape::{Files, find_clash};

/// The rows of the commit that the marks of a changeset name: its files with the items of the mark, or else with those that fit the files of
/// the residue of an old tree, where there is one. `None` exactly where the mark's items don't fit the files, a path of theirs isn't fit,
/// they are those that are handed on, or the path of a row lies below another.
pub fn rows_named(
    alloc: Global,
    git: &GitStore,
    rows: &HgRows,
    old: Option<Id>,
    tree: &Option<Residue>,
) -> Result<Option<Files>, NoMemory>
    requires files { IsFiles (map file_of_row rows.now) }
    requires right { AreItemsFit (map file_of_row rows.now) tree.now → IsFiles (rows_with (items_named (carried (residue_below git.now old) (map file_of_row rows.now)) tree.now) (map file_of_row rows.now)) }
    ensures { IfOk result (λ found. MatchOption found
        (¬ (IsResidueNamed (map file_of_row rows.now) (carried (residue_below git.now old) (map file_of_row rows.now)) tree.now))
        (λ files. IsResidueNamed (map file_of_row rows.now) (carried (residue_below git.now old) (map file_of_row rows.now)) tree.now
        × (files ≡ rows_with (items_named (carried (residue_below git.now old) (map file_of_row rows.now)) tree.now) (map file_of_row rows.now)))) }
{
    let files = files_of(alloc, rows)?;
    let given = handed_on(alloc, git, old, &files)?;
    let Some(items) = items_named(alloc, &files, &given, tree)? else {
        return Ok(None);
    };
    let rows = with_residue(alloc, files, items)?;
    match find_clash(rows.as_slice()) {
        Some(_) => Ok(None),
        None => Ok(Some(rows)),
    }
}

// What of the residue of an old tree fits the files; nothing where there is no tree.
fn handed_on(
    alloc: Global,
    git: &GitStore,
    old: Option<Id>,
    files: &Files,
) -> Result<Residue, NoMemory>
    ensures { IfOk result (λ items. items ≡ carried (residue_below git.now old) files.now) }
{
    let Some(root) = old else {
        return Ok(Residue::new(alloc));
    };
    let residue = residue_at(alloc, git, &root)?;
    carry(alloc, &residue, files)
}

// The items of the mark, where they are fit and not the given ones; without a mark the given ones.
fn items_named<'a>(
    alloc: Global,
    files: &Files,
    given: &'a Residue,
    tree: &'a Option<Residue>,
) -> Result<Option<&'a Residue>, NoMemory>
    ensures { IfOk result (λ found. MatchOption found
        (¬ (AreItemsFit files.now tree.entry.now × (residue_unless (items_named given.entry.now tree.entry.now) given.entry.now ≡ tree.entry.now)))
        (λ items. AreItemsFit files.now tree.entry.now × (residue_unless (items_named given.entry.now tree.entry.now) given.entry.now ≡ tree.entry.now)
        × (items.now ≡ items_named given.entry.now tree.entry.now))) }
{
    match tree {
        Some(items) => {
            if is_same_residue(items, given) {
                return Ok(None);
            }
            if !are_fit(alloc, files, items)? {
                return Ok(None);
            }
            Ok(Some(items))
        }
        None => Ok(Some(given)),
    }
}

// Whether items fit the files, and their paths are fit.
fn are_fit(alloc: Global, files: &Files, items: &Residue) -> Result<bool, NoMemory>
    ensures { IfOk result (λ fit. IsTrue fit ↔ AreItemsFit files.now (Some items.now)) }
{
    if !have_fit_paths(items.as_slice()) {
        return Ok(false);
    }
    let fit = carry(alloc, items, files)?;
    Ok(fit.len() == items.len())
}

// Whether the paths of items are fit.
fn have_fit_paths(items: &[ResidueItem]) -> bool
    ensures { result ≡ list_all (λ i. is_fit_path i.path) items.now }
{
    items.iter().all(
        |item: &ResidueItem| -> bool
            ensures { result ≡ is_fit_path item.now.path }
        { fit_path(item.path()) },
    )
}
