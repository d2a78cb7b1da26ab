// The commits that wait, each at one of its parents.
ghost use Rattle.std.specs.Prelude.{◌≡◌, ◌++◌, [], ◌∷◌, OnOk, bytes_eq, if◌then◌else◌};
ghost use Rattle.text_model.specs.Id.{Id};
ghost use Rattle.git_store.specs.Waiting.{waits_for};

use bridge_text::{Id, List, NoMemory};
use indexmap::IndexMap;
use std::alloc::Global;

/// A commit, by its place in the stream, that waits for one of its parents.
#[derive(Clone, Copy, Debug, PartialEq, Eq)]
pub struct Wait {
    pub place: usize,
    /// Which of the parents it is; those before it are known.
    pub parent: usize,
}

/// A list of commits that wait.
pub type Waits = List<Wait>;

/// The commits that wait, by the parent that each waits for.
#[derive(Drop)]
pub struct Waiting {
    lists: IndexMap<Id, Waits>,
}

impl Waiting {
    /// No commit waits.
    pub fn new(alloc: Global) -> Waiting
        ensures { (id : Id) → waits_for result id ≡ [] }
    {
        Waiting {
            lists: IndexMap::new(alloc),
        }
    }

    /// Lets a commit wait for a parent.
    pub fn add(&mut self, alloc: Global, parent: Id, wait: Wait) -> Result<(), NoMemory>
        ensures { OnOk result ((id : Id) → waits_for self.new id ≡ (if bytes_eq parent id then waits_for self.old parent ++ wait ∷ [] else waits_for self.old id)) }
    {
        match self.lists.get_mut(&parent) {
            Some(list) => list.push(wait),
            None => {
                let mut list = Waits::new(alloc);
                list.push(wait)?;
                self.lists.insert(parent, list)?;
                Ok(())
            }
        }
    }

    /// Takes out those that wait for a parent.
    pub fn take(&mut self, alloc: Global, parent: &Id) -> Waits
        ensures taken { result ≡ waits_for self.old parent.now }
        ensures left { (id : Id) → waits_for self.new id ≡ (if bytes_eq parent.now id then [] else waits_for self.old id) }
    {
        match self.lists.swap_remove(parent) {
            Some(list) => list,
            None => Waits::new(alloc),
        }
    }
}
