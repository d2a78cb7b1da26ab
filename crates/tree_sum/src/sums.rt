ghost use Rattle.std.specs.Prelude.{◌≡◌, ◌↔◌, ◌≤◌, List, [], None, IfOk, IfSome, OnOk, IsTrue, bytes_eq};
ghost use Rattle.std.specs.Map.{lookup};
ghost use Rattle.git_model.specs.Object.{Object, AreObjects};
ghost use Rattle.git_model.specs.Unfold.{walk_fault};
ghost use Rattle.text_model.specs.Id as model;
ghost use Rattle.tree_sum.specs.Sums.{AreSums, IsSum, IsAnswer, is_summed, AreFilesThere};

use crate::entry::{names_blob, with_file};
use crate::sum::Sum;
use bridge_text::{COMPONENT_LIMIT, Id, NoMemory};
use git_object::{Objects, TreeEntry};
use git_store::GitStore;
use indexmap::IndexMap;
use std::alloc::Global;
use std::marker::Model;

// How many entries of the tree beside are passed over for one entry at most.
const MOST_PASSED: usize = 4;

/// How many rows stand below each tree, their sizes, the longest path and the most components. Contracts see which trees
/// are summed.
pub struct Sums {
    known: IndexMap<Id, Sum>,
    /// The last tree through which the walk passed.
    last: Option<Id>,
}

impl Drop for Sums {
    fn drop(self) {
        let Sums { known: _, last: _ } = self;
    }
}

impl Model for Sums {
    ghost use Rattle.std.specs.Prelude.{List};
    ghost use Rattle.text_model.specs.Id.{Id};
    ghost use Rattle.tree_sum.specs.declared.sum.Sum.{Sum};

    ghost Value = { List (Id × Sum) };

    ghost view = { λ s. s.known.entries };
}

impl Sums {
    /// No tree is summed.
    pub fn new(alloc: Global) -> Sums
        ensures { result ≡ [] }
    {
        Sums {
            known: IndexMap::new(alloc),
            last: None,
        }
    }

    /// Whether the walk through a tree passes. A tree through which it does is looked at once, also where thousands of
    /// commits have it; one that is refused is not kept. It is looked at beside the last one that passed, so that only
    /// blobs that stand elsewhere there are looked up.
    pub fn walks(&mut self, store: &GitStore, root: &Id) -> Result<bool, NoMemory>
        requires sums { AreSums store.now self.old }
        ensures ok { IfOk result (λ passes. IsTrue passes ↔ (walk_fault store.now root.now ≡ None)) }
        ensures sums { AreSums store.now self.new }
        ensures summed { IfOk result (λ passes. IsTrue passes → IsTrue (is_summed self.new root.now)) }
        ensures stays { (id : model.Id) → IsTrue (is_summed self.old id) → IsTrue (is_summed self.new id) }
    {
        let last = self.last;
        let sum = self.sum_at(store, root, last, COMPONENT_LIMIT)?;
        let passes = sum.is_some();
        if passes {
            self.last = Some(*root);
        }
        Ok(passes)
    }

    /// The sum of a tree that was looked at.
    fn get(&self, id: &Id) -> Option<Sum>
        ensures { result ≡ lookup (bytes_eq id.now) self.now }
    {
        self.known.get(id).copied()
    }

    /// The entries of a tree that is summed; none where it isn't.
    fn summed_entries<'a>(&self, store: &'a GitStore, id: Option<Id>) -> &'a [TreeEntry]
        requires sums { AreSums store.now self.now }
        ensures { AreFilesThere store.now result.now }
    {
        let Some(id) = id else {
            return &[];
        };
        if self.get(&id).is_none() {
            return &[];
        }
        match store.tree(&id) {
            Some(tree) => tree.entries(),
            None => &[],
        }
    }

    /// Keeps the sum of a tree.
    fn put(&mut self, id: &Id, sum: &Sum) -> Result<(), NoMemory>
        ensures sums { (known : List Object) → AreSums known self.old → IsSum known id.now sum.now → AreSums known self.new }
        ensures summed { OnOk result (IsTrue (is_summed self.new id.now)) }
        ensures stays { (x : model.Id) → IsTrue (is_summed self.old x) → IsTrue (is_summed self.new x) }
    {
        self.known.insert(*id, *sum)?;
        Ok(())
    }

    /// The sum of a tree, below which so many levels of names may stand; `None` exactly where the walk through it doesn't
    /// pass so. The other tree, where it is summed, is known to be there, so what it has in common isn't looked up again.
    fn sum_at(
        &mut self,
        store: &GitStore,
        id: &Id,
        other: Option<Id>,
        levels: usize,
    ) -> Result<Option<Sum>, NoMemory>
        requires sums { AreSums store.now self.old }
        requires levels { levels ≤ 256 }
        ensures ok { IfOk result (IsAnswer store.now levels id.now) }
        ensures sums { AreSums store.now self.new }
        ensures summed { IfOk result (λ sum. IfSome sum (λ _. IsTrue (is_summed self.new id.now))) }
        ensures stays { (x : model.Id) → IsTrue (is_summed self.old x) → IsTrue (is_summed self.new x) }
        ensures objects { OnOk result (AreObjects store.now) }
    {
        if let Some(sum) = self.get(id) {
            return Ok(sum.up_to(levels));
        }
        let Some(tree) = store.tree(id) else {
            return Ok(None);
        };
        let others = self.summed_entries(store, other);
        let mut place = 0;
        let mut sum = Sum::nothing();
        'entries: for entry in tree.entries() {
            if levels == 0 {
                return Ok(None);
            }
            place = place_from(others, place, entry);
            let other = others.get(place);
            if entry.mode().is_directory() {
                let Some(below) = self.sum_at(store, entry.id(), id_of(other), levels - 1)? else {
                    return Ok(None);
                };
                let Some(more) = sum.with_entry(entry.name().len(), &below, levels) else {
                    return Ok(None);
                };
                sum = more;
            } else {
                let Some(more) = with_file(&sum, store, entry, other, levels) else {
                    return Ok(None);
                };
                sum = more;
            }
        }
        self.put(id, &sum)?;
        Ok(Some(sum))
    }
}

// Where an entry's blob stands, mostly right behind the place before; or else the first place, from that one on, whose entry
// isn't below the entry. Only so many are passed over for one entry: a small tree doesn't cost what a large one beside it has.
fn place_from(others: &[TreeEntry], from: usize, entry: &TreeEntry) -> usize {
    if from < others.len() && names_blob(others.get(from + 1), entry.id()) {
        return from + 1;
    }
    let name = entry.order_name();
    let mut place = from;
    'passed: for _ in 0..MOST_PASSED {
        if place >= others.len() || !others[place].order_name().is_below(&name) {
            return place;
        }
        place += 1;
    }
    place
}

// The id that an entry names, where there is one.
fn id_of(entry: Option<&TreeEntry>) -> Option<Id> {
    Some(*entry?.id())
}
