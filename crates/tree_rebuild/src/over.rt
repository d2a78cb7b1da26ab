// The trees of rows over a tree that is held: a directory that has the same rows in it keeps its tree, and isn't made.
ghost use Rattle.std.specs.Prelude.{◌≡◌, ◌<◌, ◌+◌, ◌-◌, ◌++◌, ℕ, List, Some, [], map, drop, length, None, true, false, not, bytes_eq, ◌&&◌, ◌||◌, OnOk, IfOk, IfErr, IfSome, MatchOption, IsTrue, option_map, ◌↔◌};
ghost use Rattle.std.specs.Option.{IsSome};
ghost use Rattle.text_model.specs.Id.{tree, object_id, Id};
ghost use Rattle.text_model.specs.Lists.{In, Each};
ghost use Rattle.text_model.specs.Text.{is_below};
ghost use Rattle.text_model.specs.Cuts.{cut_of};
ghost use Rattle.git_model.specs.Tree.{IsTree, is_directory, sort_name, order_name};
ghost use Rattle.git_model.specs.Object.{tree_at, AreObjects};
ghost use Rattle.git_model.specs.Unfold.{FileRow, walk_fault, has_no_entries, tree_rows};
ghost use Rattle.git_model.specs.Shape.{leaf_of, leaves_below, root_of, trees_of, new_trees, first_clash};
ghost use Rattle.git_object.specs.Values.{mode_value};
ghost use Rattle.tree_shape.specs.Faults.{IsBuildFault};
ghost use Rattle.tree_shape.specs.Sets.{IsFiles};
ghost use Rattle.tree_shape.specs.Shapes.{short, shorts, Good, id_of_rows, trees_of_rows, row_trees};
ghost use Rattle.tree_shape.specs.Wholes.{is_leaf, leaves_in, tree_leaves, AreWhole, Sound};
ghost use Rattle.tree_rebuild.specs.Added.{IsAdded};
ghost use Rattle.tree_rebuild.specs.Directories.{LacksDirectory};
ghost use Rattle.tree_rebuild.specs.Entries.{IsDirectoryNext, IsNext, IsIdNext};
ghost use Rattle.tree_rebuild.specs.News.{same_leaves, has_group, has_empty, new_row, new_over, new_leaves};

use crate::entries::{Entries, is_directory_at, is_directory_named};
use crate::group::group_len;
use bridge_text::{Id, Kind, NoMemory, cut_at, object_id};
use git_object::{Mode, Objects, OrderName, Tree, TreeEntry};
use std::alloc::Global;
use tree_shape::{
    BuildFault, FileRow, Files, LEVELS, TreeList, Trees, build_apart, by_walk, find_clash,
    has_directory, is_empty_tree, put_below, rest_of,
};

/// Whether an entry stands before a directory of this name.
fn is_below_directory(entry: &TreeEntry, name: &[u8]) -> bool
    ensures { result ≡ is_below (sort_name entry.now.mode entry.now.name) (order_name true name.now) }
{
    let directory = OrderName {
        name,
        is_directory: true,
    };
    entry.order_name().is_below(&directory)
}

/// The entry of the directory of this name.
fn directory_at<'a>(tree: &'a Tree, name: &[u8]) -> Option<&'a TreeEntry>
    ensures tree { IsTree tree.entry.now }
    ensures entry { MatchOption result (LacksDirectory name.now tree.entry.now) (λ e. In e.now tree.entry.now × (is_directory e.now.mode ≡ true) × (e.now.name ≡ name.now)) }
{
    let entries = tree.entries();
    let place = entries.partition_point(
        |entry: &TreeEntry| -> bool
            ensures { result ≡ is_below (sort_name entry.now.mode entry.now.name) (order_name true name.entry.now) }
        { is_below_directory(entry, name) },
    );
    if place >= entries.len() {
        return None;
    }
    let entry = &entries[place];
    if is_directory_named(entry, name) {
        Some(entry)
    } else {
        None
    }
}

/// The entry of the directory of this name, which may be at a place.
fn directory_near<'a>(tree: &'a Tree, place: usize, name: &[u8]) -> Option<&'a TreeEntry>
    ensures tree { IsTree tree.entry.now }
    ensures entry { MatchOption result (LacksDirectory name.now tree.entry.now) (λ e. In e.now tree.entry.now × (is_directory e.now.mode ≡ true) × (e.now.name ≡ name.now)) }
    ensures next { IsDirectoryNext name.now (drop place tree.entry.now) → IfSome result (λ e. IsNext e.now (drop place tree.entry.now)) × IsSome result }
{
    let entries = tree.entries();
    if is_directory_at(entries, place, name) {
        return Some(&entries[place]);
    }
    directory_at(tree, name)
}

/// Whether a tree has an empty directory of this name.
fn has_empty<G: Objects>(store: &G, old: &Tree, name: &[u8]) -> bool
    requires { AreObjects (G.objects store.now) }
    ensures empty { (levels : ℕ) → result ≡ has_empty name.now (tree_leaves (G.objects store.now) levels old.now) }
    ensures known { IsTrue result → (id : Id) × (has_no_entries (tree_at (G.objects store.now) id) ≡ true) }
{
    match directory_at(old, name) {
        Some(entry) => is_empty_tree(store, entry.id()),
        None => false,
    }
}

/// Whether a row of this one name is an empty directory that a tree has too.
fn has_row<G: Objects>(store: &G, old: &Tree, name: &[u8], row: &FileRow) -> bool
    requires { AreObjects (G.objects store.now) }
    ensures empty { (levels : ℕ) → result ≡ (is_directory row.now.mode && has_empty name.now (tree_leaves (G.objects store.now) levels old.now)) }
    ensures known { IsTrue result → (id : Id) × (has_no_entries (tree_at (G.objects store.now) id) ≡ true) }
{
    row.mode().is_directory() && has_empty(store, old, name)
}

/// Makes the tree of a row of this one name that is an empty directory, where the old tree has none of that name.
fn put_row<G: Objects>(
    alloc: Global,
    store: &G,
    old: &Tree,
    name: &[u8],
    row: &FileRow,
    levels: usize,
    made: &mut TreeList,
) -> Result<(), NoMemory>
    requires { AreObjects (G.objects store.now) }
    ensures new { (above : ℕ) → OnOk result (made.new ≡ made.old ++ new_row levels (tree_leaves (G.objects store.now) above old.now) name.now row.now) }
    ensures made { OnOk result (IsAdded (G.objects store.now) made.old made.new (row_trees levels row.now)) }
{
    if has_row(store, old, name, row) {
        return Ok(());
    }
    put_below(alloc, row, levels, made)
}

/// A directory of the old tree.
#[derive(Clone, Copy)]
struct Subtree<'a> {
    /// Its id; the null id where the old tree hasn't the directory.
    id: Id,
    /// Its tree, or one without entries.
    tree: &'a Tree,
}

/// The directory of this name in the old tree, where its entry may be at a place.
fn find_subtree<'a, G: Objects>(
    store: &'a G,
    old: &Tree,
    place: usize,
    name: &[u8],
    none: &'a Tree,
) -> Subtree<'a>
    requires { none.now ≡ [] }
    ensures whole { (levels : ℕ) → AreWhole (G.objects store.entry.now) levels old.now → AreWhole (G.objects store.entry.now) (levels - 1) result.tree.now }
    ensures leaves { (levels : ℕ) → AreWhole (G.objects store.entry.now) levels old.now → leaves_below name.now (tree_leaves (G.objects store.entry.now) levels old.now) ≡ tree_leaves (G.objects store.entry.now) (levels - 1) result.tree.now }
    ensures group { (levels skip : ℕ) (rows : List FileRow) → AreWhole (G.objects store.entry.now) levels old.now → 0 < length rows → has_group name.now (tree_leaves (G.objects store.entry.now) levels old.now) (map leaf_of (shorts skip rows)) ≡ same_leaves (tree_leaves (G.objects store.entry.now) (levels - 1) result.tree.now) (map leaf_of (shorts skip rows)) }
    ensures held { (levels : ℕ) → AreWhole (G.objects store.entry.now) levels old.now → 0 < length result.tree.now → Sound (G.objects store.entry.now) (levels - 1) result.id result.tree.now }
    ensures next { (levels : ℕ) → AreWhole (G.objects store.entry.now) levels old.now → IsDirectoryNext name.now (drop place old.now) → IsIdNext result.id (drop place old.now) × Sound (G.objects store.entry.now) (levels - 1) result.id result.tree.now }
{
    let Some(entry) = directory_near(old, place, name) else {
        return Subtree {
            id: Id::NULL,
            tree: none,
        };
    };
    match store.tree(entry.id()) {
        Some(tree) => Subtree {
            id: *entry.id(),
            tree,
        },
        None => Subtree {
            id: Id::NULL,
            tree: none,
        },
    }
}

/// A path cut at its first slash. One that is the name of the old tree's entry at a place has none.
fn cut_beside<'a>(old: &[TreeEntry], place: usize, path: &'a [u8]) -> Option<(&'a [u8], &'a [u8])>
    requires { IsTree old.now }
    ensures { option_map (λ x. (x.0.now, x.1.now)) result ≡ cut_of 47 path.entry.now }
{
    if let Some(entry) = old.get(place) {
        if entry.name() == path {
            return None;
        }
    }
    cut_at(b'/', path)
}

/// Makes the trees of rows that lie in one directory, but for those that the tree which is held there has with the same
/// rows. Gives the id of the directory's tree where its rows aren't those of that tree.
fn put_rows_over<G: Objects>(
    alloc: Global,
    store: &G,
    old: &Tree,
    rows: &[FileRow],
    skip: usize,
    levels: usize,
    made: &mut TreeList,
) -> Result<Option<Id>, NoMemory>
    requires good { Good (shorts skip rows.now) }
    requires old { AreWhole (G.objects store.now) levels old.now }
    requires objects { AreObjects (G.objects store.now) }
    ensures same { IfOk result (λ id. MatchOption id (same_leaves (tree_leaves (G.objects store.now) levels old.now) (map leaf_of (shorts skip rows.now)) ≡ true) (λ id. 0 < levels → same_leaves (tree_leaves (G.objects store.now) levels old.now) (map leaf_of (shorts skip rows.now)) ≡ false)) }
    ensures id { IfOk result (λ id. IfSome id (λ id. id ≡ id_of_rows levels (shorts skip rows.now))) }
    ensures made { IfOk result (λ id. IfSome id (λ _. IsAdded (G.objects store.now) made.old made.new (trees_of_rows levels (shorts skip rows.now)))) }
    ensures new { OnOk result (made.new ≡ made.old ++ new_over levels (tree_leaves (G.objects store.now) levels old.now) (map leaf_of (shorts skip rows.now))) }
{
    if levels == 0 {
        return Ok(Some(object_id(Kind::Tree, b"")));
    }
    let none = Tree::new(alloc);
    let old_entries = old.entries();
    let mut entries = Entries::new(alloc);
    let mut rest = rows;
    'names: while let Some(first) = rest.first() {
        match cut_beside(old_entries, entries.place, rest_of(first, skip)) {
            Some((name, _)) => {
                let count = group_len(rest, skip, name);
                let (group, others) = rest.split_at(count);
                let deeper = skip + name.len() + 1;
                let below = find_subtree(store, old, entries.place, name, &none);
                let outcome = put_rows_over(
                    alloc,
                    store,
                    below.tree,
                    group,
                    deeper,
                    levels - 1,
                    made,
                )?;
                let id = outcome.unwrap_or(below.id);
                entries.put_directory(old_entries, outcome.is_none(), name, &id)?;
                rest = others;
            }
            None => {
                let name = rest_of(first, skip);
                put_row(alloc, store, old, name, first, levels - 1, made)?;
                entries.put_leaf(store, old_entries, name, first)?;
                rest = rest.split_at(1).1;
            }
        }
    }
    entries.finish(old_entries, made)
}

/// The trees of rows in the order of a walk.
fn rebuild_walk<G: Objects>(
    alloc: Global,
    store: &G,
    old: &Id,
    tree: &Tree,
    rows: &[FileRow],
) -> Result<Trees, NoMemory>
    requires good { Good rows.now }
    requires old { Sound (G.objects store.now) 257 old.now tree.now }
    requires objects { AreObjects (G.objects store.now) }
    ensures root { IfOk result (λ trees. trees.root ≡ id_of_rows 257 rows.now) }
    ensures made { IfOk result (λ trees. IsAdded (G.objects store.now) [] trees.made (trees_of_rows 257 rows.now)) }
    ensures new { IfOk result (λ trees. trees.made ≡ new_leaves (leaves_in (G.objects store.now) 257 old.now) (map leaf_of rows.now)) }
{
    let mut made = TreeList::new(alloc);
    let root = put_rows_over(alloc, store, tree, rows, 0, LEVELS, &mut made)?;
    Ok(Trees {
        root: root.unwrap_or(*old),
        made,
    })
}

/// The trees of rows of which none lies below another, over this tree.
fn rebuild_tree<G: Objects>(
    alloc: Global,
    store: &G,
    old: &Id,
    tree: &Tree,
    rows: &[FileRow],
) -> Result<Trees, NoMemory>
    requires files { IsFiles rows.now }
    requires apart { first_clash rows.now ≡ None }
    requires old { Sound (G.objects store.now) 257 old.now tree.now }
    requires objects { AreObjects (G.objects store.now) }
    ensures root { IfOk result (λ trees. trees.root ≡ root_of rows.now) }
    ensures made { IfOk result (λ trees. IsAdded (G.objects store.now) [] trees.made (trees_of rows.now)) }
    ensures new { IfOk result (λ trees. trees.made ≡ new_trees (tree_rows (G.objects store.now) old.now) rows.now) }
{
    if has_directory(rows) {
        let sorted = by_walk(alloc, rows)?;
        rebuild_walk(alloc, store, old, tree, &sorted)
    } else {
        rebuild_walk(alloc, store, old, tree, rows)
    }
}

/// The tree objects of files of which none lies below another, over a tree that is there already. A directory that stands in both with the same rows
/// keeps its tree: of what `build` makes, `made` has the other trees alone, in `build`'s order.
pub fn rebuild_apart<G: Objects>(
    alloc: Global,
    store: &G,
    old: &Id,
    files: &Files,
) -> Result<Trees, NoMemory>
    requires walks { walk_fault (G.objects store.now) old.now ≡ None }
    requires apart { first_clash files.now ≡ None }
    ensures root { IfOk result (λ trees. trees.root ≡ root_of files.now) }
    ensures made { IfOk result (λ trees. trees.made ≡ new_trees (tree_rows (G.objects store.now) old.now) files.now) }
    ensures are { IfOk result (λ trees. Each (λ o. In o (trees_of files.now)) trees.made) }
    ensures held { IfOk result (λ trees. Each (λ o. In o (trees.made ++ G.objects store.now)) (trees_of files.now)) }
{
    let rows = files.as_slice();
    match store.tree(old) {
        Some(tree) => rebuild_tree(alloc, store, old, tree, rows),
        None => build_apart(alloc, rows),
    }
}

/// The same of any files: PathClash exactly at the first of them that lies below another.
pub fn rebuild_over<G: Objects>(
    alloc: Global,
    store: &G,
    old: &Id,
    files: &Files,
) -> Result<Trees, BuildFault>
    requires walks { walk_fault (G.objects store.now) old.now ≡ None }
    ensures root { IfOk result (λ trees. trees.root ≡ root_of files.now) }
    ensures made { IfOk result (λ trees. trees.made ≡ new_trees (tree_rows (G.objects store.now) old.now) files.now) }
    ensures are { IfOk result (λ trees. Each (λ o. In o (trees_of files.now)) trees.made) }
    ensures held { IfOk result (λ trees. Each (λ o. In o (trees.made ++ G.objects store.now)) (trees_of files.now)) }
    ensures fits { OnOk result (first_clash files.now ≡ None) }
    ensures fault { IfErr result (IsBuildFault files.now) }
{
    if let Some(place) = find_clash(files.as_slice()) {
        return Err(BuildFault::PathClash(place));
    }
    Ok(rebuild_apart(alloc, store, old, files)?)
}

/// The same, where the rows of the tree that is there are at hand: those that `flatten` gives of it.
pub fn rebuild<G: Objects>(
    alloc: Global,
    store: &G,
    old: &Id,
    old_files: &Files,
    files: &Files,
) -> Result<Trees, BuildFault>
    requires walks { walk_fault (G.objects store.now) old.now ≡ None }
    requires old { old_files.now ≡ tree_rows (G.objects store.now) old.now }
    ensures root { IfOk result (λ trees. trees.root ≡ root_of files.now) }
    ensures made { IfOk result (λ trees. trees.made ≡ new_trees old_files.now files.now) }
    ensures are { IfOk result (λ trees. Each (λ o. In o (trees_of files.now)) trees.made) }
    ensures held { IfOk result (λ trees. Each (λ o. In o (trees.made ++ G.objects store.now)) (trees_of files.now)) }
    ensures fits { OnOk result (first_clash files.now ≡ None) }
    ensures fault { IfErr result (IsBuildFault files.now) }
{
    rebuild_over(alloc, store, old, files)
}
