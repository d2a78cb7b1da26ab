// The walk through the trees of commits.
ghost use Rattle.std.specs.Prelude.{◌≡◌, ◌<◌, ◌↔◌, true, List, [], ◌∷◌, IsTrue, IfOk, IfSome, OnOk, Some, length, slice_get};
ghost use Rattle.text_model.specs.Lists.{Each};
ghost use Rattle.text_model.specs.Id.{Id, has_id};
ghost use Rattle.view_model.specs.View.{CommitView, commit_objects};
ghost use Rattle.git_dump.specs.Commits.{IsWalkableCommit, AreWalkableCommits};
ghost use Rattle.git_dump.specs.Visits.{ids_of, met_by, IsWalk, MeetsOther, Visits};
ghost use Rattle.git_dump.specs.Walks.{objects_at, file_objects, walk_objects, IsWalkable, IsMetEntry, IsClosed};
ghost use Rattle.git_model.specs.Object.{Object};
ghost use Rattle.git_store.specs.Places.{IsPlaceOf};
ghost use Rattle.view_model.specs.Dump.{objects_in};

use bridge_text::{Id, IdList, IdSet, NoMemory};
use git_object::{Mode, Objects, TreeEntry};
use git_store::GitStore;
use std::alloc::Global;
use tree_shape::LEVELS;

// How many entries of the tree beside are passed over for one entry at most.
const MOST_PASSED: usize = 4;

/// The objects of a store that a walk has met. Those that it meets in the store's own order are only counted; from the first
/// other one on, each object that is new is kept by its id.
#[derive(Drop)]
pub struct Walk {
    /// How many objects the store has.
    pub size: usize,
    /// How many objects at the front of the store were met in its order.
    pub front: usize,
    /// Whether no other object was met.
    pub in_order: bool,
    /// The ids of the other objects that were met.
    pub met: IdSet,
    /// How many of those at the front had been met when the list was begun.
    pub start: usize,
    /// The ids of the other objects that were met for the first time since then, in that order.
    pub listed: IdList,
}

impl Walk {
    /// A walk through a store that has met nothing.
    pub fn new(alloc: Global, store: &GitStore) -> Walk
        ensures walk { IsWalk store.now result }
        ensures met { (met_by store.now result).met ≡ [] }
    {
        Walk {
            size: store.len(),
            front: 0,
            in_order: true,
            met: IdSet::new(alloc),
            start: 0,
            listed: IdList::new(alloc),
        }
    }

    /// Begins the list anew.
    pub fn begin_list(&mut self, alloc: Global)
        ensures walk { (known : List Object) → IsWalk known self.old → IsWalk known self.new }
        ensures met { (known : List Object) → (met_by known self.new).met ≡ (met_by known self.old).met }
        ensures listed { (known : List Object) → (met_by known self.new).listed ≡ [] }
    {
        self.start = self.front;
        self.listed = IdList::new(alloc);
    }

    /// Whether the objects that were met are those of the whole store, and came in its order.
    pub fn is_whole(&self) -> bool
        ensures { (known : List Object) → IsWalk known self.now → IsTrue result ↔ ((met_by known self.now).met ≡ ids_of known) }
    {
        self.in_order && self.front == self.size
    }

    /// Visits the objects of commits, one commit after the other: the blobs and trees of each, and then itself.
    pub fn visit_commits(&mut self, store: &GitStore, ids: &[Id]) -> Result<(), NoMemory>
        requires commits { (cs : List CommitView) × AreWalkableCommits store.now ids.now cs }
        requires walk { IsWalk store.now self.old }
        requires closed { IsClosed store.now (met_by store.now self.old).met }
        ensures visits { OnOk result ((cs : List CommitView) → AreWalkableCommits store.now ids.now cs → Visits store.now (objects_in cs) self.old self.new) }
        ensures closed { OnOk result (IsClosed store.now (met_by store.now self.new).met) }
    {
        let mut beside: &[TreeEntry] = &[];
        for id in ids {
            beside = self.visit_commit(store, id, beside)?;
        }
        Ok(())
    }

    // Visits the objects of a commit, whose tree is walked beside entries that were met. The entries of its tree, which are met then.
    fn visit_commit<'a>(
        &mut self,
        store: &'a GitStore,
        id: &Id,
        beside: &[TreeEntry],
    ) -> Result<&'a [TreeEntry], NoMemory>
        requires commit { (c : CommitView) × IsWalkableCommit store.now id.now c }
        requires walk { IsWalk store.now self.old }
        requires closed { IsClosed store.now (met_by store.now self.old).met }
        requires beside { Each (IsMetEntry (met_by store.now self.old).met) beside.now }
        ensures visits { OnOk result ((c : CommitView) → IsWalkableCommit store.now id.now c → Visits store.now (commit_objects c) self.old self.new) }
        ensures closed { OnOk result (IsClosed store.now (met_by store.now self.new).met) }
        ensures entries { IfOk result (λ entries. Each (IsMetEntry (met_by store.now self.new).met) entries.now) }
    {
        let Some(commit) = store.commit(id) else {
            return Ok(&[]);
        };
        self.visit_tree(store, &commit.tree, beside, LEVELS)?;
        self.visit_object(store, id)?;
        Ok(entries_of(store, &commit.tree))
    }

    // Visits the objects of the entries of a tree, in their order and subtrees whole, and then the tree. So many trees may
    // lie on the way to a file. What a tree reaches that was met is not walked through again. Nor is an entry looked up that
    // stands beside one of the same object among entries that were met, those of the tree before.
    fn visit_tree(
        &mut self,
        store: &GitStore,
        root: &Id,
        beside: &[TreeEntry],
        depth: usize,
    ) -> Result<(), NoMemory>
        requires walkable { IsWalkable store.now depth root.now }
        requires walk { IsWalk store.now self.old }
        requires closed { IsClosed store.now (met_by store.now self.old).met }
        requires beside { Each (IsMetEntry (met_by store.now self.old).met) beside.now }
        ensures visits { OnOk result (Visits store.now (walk_objects store.now depth root.now) self.old self.new) }
        ensures closed { OnOk result (IsClosed store.now (met_by store.now self.new).met) }
    {
        let Some(place) = store.place(root) else {
            return Ok(());
        };
        if depth == 0 || self.has_met(place, root) {
            return Ok(());
        }
        let Some(tree) = store.tree(root) else {
            return Ok(());
        };
        let mut ahead = beside;
        for entry in tree.entries() {
            let (other, rest) = next_beside(ahead, entry);
            ahead = rest;
            if is_of_same(other, entry) {
                continue;
            }
            if entry.mode().is_directory() {
                self.visit_tree(store, entry.id(), subtree_entries(store, other), depth - 1)?;
            } else {
                self.visit_file(store, entry)?;
            }
        }
        self.visit_place(store, place)
    }

    // Visits the object of an entry that is no directory. The commit of another repository is none.
    fn visit_file(&mut self, store: &GitStore, entry: &TreeEntry) -> Result<(), NoMemory>
        requires { IsWalk store.now self.old }
        ensures { OnOk result (Visits store.now (file_objects store.now entry.now) self.old self.new) }
    {
        if entry.mode().is_blob() {
            self.visit_object(store, entry.id())
        } else {
            Ok(())
        }
    }

    // Visits the object with this id, where it is known.
    fn visit_object(&mut self, store: &GitStore, id: &Id) -> Result<(), NoMemory>
        requires { IsWalk store.now self.old }
        ensures { OnOk result (Visits store.now (objects_at store.now id.now) self.old self.new) }
    {
        match store.place(id) {
            Some(place) => self.visit_place(store, place),
            None => Ok(()),
        }
    }

    // Whether the object with this id, which stands at this place of the store, was met.
    fn has_met(&self, place: usize, id: &Id) -> bool
        ensures { (known : List Object) → IsWalk known self.now → IsPlaceOf known id.now place → result ≡ has_id (met_by known self.now).met id.now }
    {
        place < self.front || (!self.in_order && self.met.contains(id))
    }

    // Visits the object at a place of the store.
    fn visit_place(&mut self, store: &GitStore, place: usize) -> Result<(), NoMemory>
        requires walk { IsWalk store.now self.old }
        requires within { place < length store.now }
        ensures { OnOk result ((o : Object) → slice_get store.now place ≡ Some o → Visits store.now (o ∷ []) self.old self.new) }
    {
        if place < self.front {
            return Ok(());
        }
        if self.in_order && place == self.front {
            self.front += 1;
            return Ok(());
        }
        match store.object_at(place) {
            Some((id, _, _)) => self.visit_other(id),
            None => Ok(()),
        }
    }

    // Visits an object that doesn't come in the order of the store, by its id.
    fn visit_other(&mut self, id: &Id) -> Result<(), NoMemory>
        ensures { OnOk result (MeetsOther id.now self.old self.new) }
    {
        self.in_order = false;
        let is_new = self.met.insert(*id)?;
        if is_new {
            self.listed.push(*id)
        } else {
            Ok(())
        }
    }
}

// The entry that stands beside one of another tree, the first of these that isn't below it; and those that are left to stand
// beside the next. Only so many are passed over for one entry: a small tree doesn't cost what a large one beside it has.
fn next_beside<'a>(
    others: &'a [TreeEntry],
    entry: &TreeEntry,
) -> (Option<&'a TreeEntry>, &'a [TreeEntry])
    ensures { (met : List Id) → Each (IsMetEntry met) others.now → IfSome result.0 (λ other. IsMetEntry met other.now) × Each (IsMetEntry met) result.1.now }
{
    let mut ahead = others;
    'passed: for _ in 0..MOST_PASSED {
        let Some((first, rest)) = ahead.split_first() else {
            return (None, ahead);
        };
        if is_of_same(Some(first), entry) {
            return (Some(first), rest);
        }
        if !first.order_name().is_below(&entry.order_name()) {
            return (Some(first), ahead);
        }
        ahead = rest;
    }
    (None, ahead)
}

// Whether an entry is of the object of another one, which lies in the same repository.
fn is_of_same(other: Option<&TreeEntry>, entry: &TreeEntry) -> bool
    ensures { (met : List Id) → IfSome other.entry (λ other. IsMetEntry met other.now) → IsTrue result → has_id met entry.now.id ≡ true }
{
    match other {
        Some(other) => other.id() == entry.id() && other.mode() != Mode::Gitlink,
        None => false,
    }
}

// The entries of the tree that an entry names, where it does.
fn subtree_entries<'a>(store: &'a GitStore, entry: Option<&TreeEntry>) -> &'a [TreeEntry]
    ensures { (met : List Id) → IsClosed store.now met → IfSome entry.entry (λ entry. IsMetEntry met entry.now) → Each (IsMetEntry met) result.now }
{
    match entry {
        Some(entry) if entry.mode().is_directory() => entries_of(store, entry.id()),
        _ => &[],
    }
}

// The entries of a tree; none where there is no tree with this id.
fn entries_of<'a>(store: &'a GitStore, id: &Id) -> &'a [TreeEntry]
    ensures { (met : List Id) → IsClosed store.now met → has_id met id.now ≡ true → Each (IsMetEntry met) result.now }
{
    match store.tree(id) {
        Some(tree) => tree.entries(),
        None => &[],
    }
}
