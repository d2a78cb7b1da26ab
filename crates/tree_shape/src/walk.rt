// The walk through a tree, depth first, an entry before what lies below it.
ghost use Rattle.std.specs.Prelude.{◌≡◌, ◌≤◌, ◌+◌, ◌&&◌, ◌||◌, not, [], ◌∷◌, Some, true, false, nat_lt, nat_le, length, OnOk, IfOk, IfErr, MatchOption};
ghost use Rattle.text_model.specs.Limits.{path_limit};
ghost use Rattle.text_model.specs.Id.{blob};
ghost use Rattle.text_model.specs.Path.{is_fit_path};
ghost use Rattle.git_model.specs.Tree.{is_directory, is_blob_mode};
ghost use Rattle.git_model.specs.Unfold.{is_kind_there, joined_path, row_size, rows_limit, first_visit_fault};
ghost use Rattle.git_model.specs.Object.{object_at, tree_at};
ghost use Rattle.tree_shape.specs.Faults.{IsTreeFault, IsRowFault, IsSubtreeFault};
ghost use Rattle.tree_shape.specs.Walks.{row_at, refused, entries_visits, IsFront, HasRow, Walked};

use crate::fault::TreeFault;
use crate::file_row::FileRow;
use crate::near::NearRows;
use bridge_text::{Id, Kind, NoMemory, PATH_LIMIT, ROWS_LIMIT};
use git_object::{Objects, Tree, TreeEntry};
use std::alloc::Global;

/// What a walk has come to.
#[derive(Drop)]
pub struct Walk<'n> {
    /// The path of the directory or the entry at which it stands.
    path: Vec<u8>,
    /// The sizes of the rows together, each its path's bytes and 42.
    size: usize,
    /// The rows of the files that it has met.
    rows: Vec<FileRow>,
    /// Rows of another tree, those that are still ahead.
    near: NearRows<'n>,
}

impl<'n> Walk<'n> {
    /// A walk that begins at a root, beside the rows of another tree.
    pub fn new(alloc: Global, near: &'n [FileRow]) -> Walk<'n>
        ensures path { result.path.items ≡ [] }
        ensures size { result.size ≡ 0 }
        ensures rows { result.rows.items ≡ [] }
    {
        Walk {
            path: Vec::new(alloc),
            size: 0,
            rows: Vec::new(alloc),
            near: NearRows::of(near),
        }
    }

    /// The rows.
    pub fn into_rows(self) -> Vec<FileRow>
        ensures { result.items ≡ self.entry.rows.items }
    {
        self.rows
    }

    /// Appends the row of an entry, at whose path the walk stands.
    fn put_row(&mut self, alloc: Global, entry: &TreeEntry) -> Result<(), TreeFault>
        requires within { self.old.size ≤ rows_limit }
        ensures ok { OnOk result (HasRow self.old.size self.new.size self.old.rows.items self.new.rows.items (row_at self.old.path.items entry.now)) }
        ensures path { OnOk result (self.new.path.items ≡ self.old.path.items) }
        ensures fault { IfErr result (IsRowFault (nat_lt rows_limit (self.old.size + row_size (row_at self.old.path.items entry.now)))) }
    {
        let Some(size) = grown(self.size, self.path.len()) else {
            return Err(TreeFault::Limit);
        };
        let path = self.near.text_of(alloc, self.path.as_slice())?;
        self.rows.push(FileRow {
            path,
            mode: entry.mode(),
            blob: *entry.id(),
        })?;
        self.size = size;
        Ok(())
    }

    /// Meets a directory, at whose path the walk stands: where it has no entries, it is a row.
    fn enter<G: Objects>(
        &mut self,
        alloc: Global,
        _store: &G,
        entry: &TreeEntry,
        subtree: &Tree,
    ) -> Result<(), TreeFault>
        requires within { self.old.size ≤ rows_limit }
        requires fit { is_fit_path self.old.path.items ≡ true }
        requires directory { is_directory entry.now.mode ≡ true }
        requires subtree { tree_at (G.objects _store.now) entry.now.id ≡ Some subtree.now }
        ensures ok { OnOk result (Walked (G.objects _store.now) self.old.size self.new.size self.old.rows.items self.new.rows.items (row_at self.old.path.items entry.now ∷ [])) }
        ensures path { OnOk result (self.new.path.items ≡ self.old.path.items) }
        ensures fault { IfErr result (IsTreeFault (refused (G.objects _store.now) self.old.size (row_at self.old.path.items entry.now))) }
    {
        if subtree.is_empty() {
            self.put_row(alloc, entry)
        } else {
            Ok(())
        }
    }

    /// Appends the row of an entry that is no directory, at whose path the walk stands.
    fn put_file<G: Objects>(
        &mut self,
        alloc: Global,
        store: &G,
        entry: &TreeEntry,
    ) -> Result<(), TreeFault>
        requires within { self.old.size ≤ rows_limit }
        requires fit { is_fit_path self.old.path.items ≡ true }
        requires file { is_directory entry.now.mode ≡ false }
        ensures ok { OnOk result (Walked (G.objects store.now) self.old.size self.new.size self.old.rows.items self.new.rows.items (row_at self.old.path.items entry.now ∷ [])) }
        ensures path { OnOk result (self.new.path.items ≡ self.old.path.items) }
        ensures fault { IfErr result (IsTreeFault (refused (G.objects store.now) self.old.size (row_at self.old.path.items entry.now))) }
    {
        if !has_object(store, entry) {
            return Err(TreeFault::ObjectUnknown(*entry.id()));
        }
        self.put_row(alloc, entry)
    }
}

/// Turns the path of a directory, empty for the root, into that of an entry of this name.
pub fn push_name(path: &mut Vec<u8>, name: &[u8]) -> Result<(), NoMemory>
    ensures { OnOk result (path.new.items ≡ joined_path path.old.items name.now) }
{
    if path.is_empty() {
        Ok(path.extend_from_slice(name)?)
    } else {
        path.push(b'/')?;
        Ok(path.extend_from_slice(name)?)
    }
}

/// Whether the object of an entry that is no directory is there; none is asked for the commit of another repository.
fn has_object<G: Objects>(store: &G, entry: &TreeEntry) -> bool
    ensures { result ≡ (not (is_blob_mode entry.now.mode) || is_kind_there blob (object_at (G.objects store.now) entry.now.id)) }
{
    !entry.mode().is_blob() || has_blob(store, entry.id())
}

/// Whether a blob is there.
fn has_blob<G: Objects>(store: &G, id: &Id) -> bool
    ensures { result ≡ is_kind_there blob (object_at (G.objects store.now) id.now) }
{
    match store.content(id) {
        Some((Kind::Blob, _)) => true,
        Some((Kind::Tree | Kind::Commit | Kind::Tag, _)) => false,
        None => false,
    }
}

/// The subtree.
fn subtree_at<'a, G: Objects>(store: &'a G, id: &Id) -> Result<&'a Tree, TreeFault>
    ensures ok { IfOk result (λ subtree. tree_at (G.objects store.entry.now) id.now ≡ Some subtree.now) }
    ensures fault { IfErr result (IsSubtreeFault (tree_at (G.objects store.entry.now) id.now) id.now) }
{
    match store.tree(id) {
        None => Err(TreeFault::ObjectUnknown(*id)),
        Some(subtree) => Ok(subtree),
    }
}

/// The size of the rows with one more, if it is within the limit.
fn grown(size: usize, path_len: usize) -> Option<usize>
    requires { size ≤ rows_limit }
    ensures { MatchOption result (nat_lt rows_limit (size + (path_len + 42)) ≡ true)
        (λ n. (nat_lt rows_limit (size + (path_len + 42)) ≡ false) × (n ≡ size + (path_len + 42))) }
{
    let room = ROWS_LIMIT - size;
    if path_len > room || room - path_len < 42 {
        None
    } else {
        Some(size + path_len + 42)
    }
}

/// Whether a path is fit, whose names are, where so many of them may stand at its end.
fn is_short(levels: usize, path: &[u8]) -> bool
    ensures { result ≡ (nat_lt 0 levels && nat_le (length path.now) path_limit) }
{
    levels > 0 && path.len() <= PATH_LIMIT
}

/// Walks through a tree, below which so many levels of names may stand, and appends its rows.
pub fn visit_tree<G: Objects>(
    alloc: Global,
    store: &G,
    tree: &Tree,
    levels: usize,
    walk: &mut Walk<'_>,
) -> Result<(), TreeFault>
    requires within { walk.old.size ≤ rows_limit }
    requires front { IsFront levels walk.old.path.items }
    ensures ok { OnOk result (Walked (G.objects store.now) walk.old.size walk.new.size walk.old.rows.items walk.new.rows.items (entries_visits (G.objects store.now) levels walk.old.path.items tree.now)) }
    ensures path { OnOk result (walk.new.path.items ≡ walk.old.path.items) }
    ensures fault { IfErr result (IsTreeFault (first_visit_fault (G.objects store.now) walk.old.size (entries_visits (G.objects store.now) levels walk.old.path.items tree.now))) }
{
    let entries = tree.entries();
    let front = walk.path.len();
    'entries: for entry in entries {
        push_name(&mut walk.path, entry.name())?;
        if !is_short(levels, walk.path.as_slice()) {
            return Err(TreeFault::PathUnfit);
        }
        if entry.mode().is_directory() {
            let subtree = subtree_at(store, entry.id())?;
            walk.enter(alloc, store, entry, subtree)?;
            visit_tree(alloc, store, subtree, levels - 1, walk)?;
        } else {
            walk.put_file(alloc, store, entry)?;
        }
        walk.path.truncate(front);
    }
    Ok(())
}
