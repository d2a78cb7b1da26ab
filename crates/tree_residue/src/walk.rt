// The walk through a tree that looks for what no changeset can hold, and takes memory for that alone.
ghost use Rattle.std.specs.Prelude.{◌≡◌, ◌++◌, ◌&&◌, ◌||◌, not, [], ◌∷◌, if◌then◌else◌, nat_lt, None, OnOk, IfOk};
ghost use Rattle.std.specs.Option.{option_copied};
ghost use Rattle.git_model.specs.Tree.{is_directory};
ghost use Rattle.git_model.specs.Object.{tree_at};
ghost use Rattle.git_model.specs.Unfold.{joined_path, has_no_entries, walk, tree_rows};
ghost use Rattle.git_model.specs.Residue.{residue_of};
ghost use Rattle.git_model.proofs.SortLemmas.{Distinct};
ghost use Rattle.git_object.specs.Values.{mode_value};
ghost use Rattle.tree_shape.specs.Walks.{row_at, entries_visits};
ghost use Rattle.tree_residue.specs.Items.{has_item, item_rows};

use crate::items::residue_in;
use bridge_text::{COMPONENT_LIMIT, Id, NoMemory};
use git_object::{Mode, Objects, Residue, Tree, TreeEntry};
use shared_text::Text;
use std::alloc::Global;
use tree_shape::{FileRow, by_paths, is_leaf, push_name};

/// Whether no changeset can hold a row of this mode.
fn has_item(mode: Mode) -> bool
    ensures { result ≡ has_item (mode_value mode) }
{
    match mode {
        Mode::Group | Mode::Dir | Mode::Gitlink => true,
        Mode::File | Mode::Exec | Mode::Link => false,
    }
}

/// Appends the row of an entry of this path, where it is one that no changeset can hold.
fn put_entry<G: Objects>(
    alloc: Global,
    store: &G,
    entry: &TreeEntry,
    path: &[u8],
    rows: &mut Vec<FileRow>,
) -> Result<(), NoMemory>
    ensures { OnOk result (rows.new.items ≡ rows.old.items ++ item_rows (G.objects store.now) (row_at path.now entry.now ∷ [])) }
{
    if is_leaf(store, entry) && has_item(entry.mode()) {
        let path = Text::copy_from_slice(alloc, path)?;
        rows.push(FileRow {
            path,
            mode: entry.mode(),
            blob: *entry.id(),
        })?;
    }
    Ok(())
}

/// The subtree of an entry, below which so many levels of names may stand.
fn subtree_of<'a, G: Objects>(store: &'a G, entry: &TreeEntry, levels: usize) -> Option<&'a Tree>
    ensures { option_copied result ≡ (if is_directory entry.now.mode && nat_lt 0 levels then tree_at (G.objects store.entry.now) entry.now.id else None) }
{
    if entry.mode().is_directory() && levels > 0 {
        store.tree(entry.id())
    } else {
        None
    }
}

/// Walks through a tree, below which so many levels of names may stand, and appends the rows that no changeset can hold.
fn visit_tree<G: Objects>(
    alloc: Global,
    store: &G,
    tree: &Tree,
    levels: usize,
    path: &mut Vec<u8>,
    rows: &mut Vec<FileRow>,
) -> Result<(), NoMemory>
    ensures rows { OnOk result (rows.new.items ≡ rows.old.items ++ item_rows (G.objects store.now) (entries_visits (G.objects store.now) levels path.old.items tree.now)) }
    ensures path { OnOk result (path.new.items ≡ path.old.items) }
{
    let entries = tree.entries();
    let front = path.len();
    'entries: for entry in entries {
        if has_item(entry.mode()) {
            push_name(path, entry.name())?;
            put_entry(alloc, store, entry, path, rows)?;
            if let Some(subtree) = subtree_of(store, entry, levels) {
                visit_tree(alloc, store, subtree, levels - 1, path, rows)?;
            }
            path.truncate(front);
        }
    }
    Ok(())
}

/// The rows of a tree that no changeset can hold, in the order of the walk.
fn rows_at<G: Objects>(alloc: Global, store: &G, root: &Id) -> Result<Vec<FileRow>, NoMemory>
    ensures rows { IfOk result (λ rows. rows.items ≡ item_rows (G.objects store.now) (walk (G.objects store.now) root.now)) }
    ensures apart { IfOk result (λ rows. Distinct (λ r. r.path) rows.items) }
{
    let mut rows = Vec::new(alloc);
    if let Some(tree) = store.tree(root) {
        let mut path = Vec::new(alloc);
        visit_tree(alloc, store, tree, COMPONENT_LIMIT, &mut path, &mut rows)?;
    }
    Ok(rows)
}

/// The residue of a tree that is in a store: what `residue_of` gives of the rows that `flatten` gives. It takes memory for what
/// it finds alone.
pub fn residue_at<G: Objects>(alloc: Global, store: &G, root: &Id) -> Result<Residue, NoMemory>
    ensures { IfOk result (λ residue. residue ≡ residue_of (tree_rows (G.objects store.now) root.now)) }
{
    let rows = by_paths(alloc, rows_at(alloc, store, root)?)?;
    residue_in(alloc, &rows)
}
