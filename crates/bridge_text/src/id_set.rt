ghost use Rattle.std.specs.Prelude.{◌≡◌, ◌++◌, [], ◌∷◌, not, if◌then◌else◌, IfOk, OnErr};
ghost use Rattle.text_model.specs.Id.{has_id};
ghost use Rattle.text_model.specs.Id as text;

use crate::id::Id;
use crate::memory::NoMemory;
use indexmap::IndexSet;
use std::alloc::Global;
use std::marker::Model;

/// A set of ids. Contracts see the list of the ids, each once, in the order in which they came.
pub struct IdSet {
    ids: IndexSet<Id>,
}

impl Drop for IdSet {
    fn drop(self) {
        let IdSet { ids: _ } = self;
    }
}

impl Model for IdSet {
    ghost use Rattle.std.specs.Prelude.{List};
    ghost use Rattle.text_model.specs.Id.{Id};

    ghost Value = { List Id };

    ghost view = { λ set. set.ids.keys };
}

impl IdSet {
    /// The empty set.
    pub fn new(alloc: Global) -> IdSet
        ensures { result ≡ [] }
    {
        IdSet {
            ids: IndexSet::new(alloc),
        }
    }

    /// The set of the ids of a list.
    pub fn of(alloc: Global, ids: &[Id]) -> Result<IdSet, NoMemory>
        ensures { IfOk result (λ set. (id : text.Id) → has_id set id ≡ has_id ids.now id) }
    {
        let mut set = IdSet::new(alloc);
        for id in ids {
            set.insert(*id)?;
        }
        Ok(set)
    }

    /// Puts an id in, and answers whether it is new. After want of memory the set is as it was.
    pub fn insert(&mut self, id: Id) -> Result<bool, NoMemory>
        ensures new { IfOk result (λ new. new ≡ not (has_id self.old id)) }
        ensures ok { IfOk result (λ new. self.new ≡ (if new then self.old ++ id ∷ [] else self.old)) }
        ensures err { OnErr result (self.new ≡ self.old) }
    {
        Ok(self.ids.insert(id)?)
    }

    /// Whether the id is in the set.
    pub fn contains(&self, id: &Id) -> bool
        ensures { result ≡ has_id self.now id.now }
    {
        self.ids.contains(id)
    }
}
