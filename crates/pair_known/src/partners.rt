ghost use Rattle.std.specs.Prelude.{◌≡◌, ◌++◌, [], ◌∷◌, ◌==◌, length, None, OnOk, OnErr};
ghost use Rattle.pair_known.specs.Partners.{git_at, hg_at, ArePartners};

use bridge_text::{Id, NoMemory};
use indexmap::IndexMap;
use std::alloc::Global;
use std::marker::Model;

/// Changesets and commits that are each other's partners, by the nodes of the ones and the ids of the others. Contracts
/// see the pairs of a node and an id, in the order in which they came.
pub struct Partners {
    git: IndexMap<Id, Id>,
    hg: IndexMap<Id, Id>,
}

impl Drop for Partners {
    fn drop(self) {
        let Partners { git: _, hg: _ } = self;
    }
}

impl Model for Partners {
    ghost use Rattle.std.specs.Prelude.{List};
    ghost use Rattle.text_model.specs.Id.{Id};
    ghost use Rattle.pair_known.specs.Partners.{IsTable};

    ghost Value = { List (Id × Id) };

    ghost view = { λ s. s.git.entries };

    ghost invariant = { λ s. IsTable s.git.entries s.hg.entries };
}

impl Partners {
    /// No partners.
    pub fn new(alloc: Global) -> Partners
        ensures { result ≡ [] }
    {
        Partners {
            git: IndexMap::new(alloc),
            hg: IndexMap::new(alloc),
        }
    }

    /// The id of the commit whose partner is the changeset with this node; `None` exactly where it has none.
    pub fn git_of(&self, node: &Id) -> Option<Id>
        ensures partner { result ≡ git_at self.now node.now }
        ensures partners { ArePartners self.now }
    {
        self.git.get(node).copied()
    }

    /// The node of the changeset whose partner is the commit with this id; `None` exactly where it has none.
    pub fn hg_of(&self, id: &Id) -> Option<Id>
        ensures partner { result ≡ hg_at self.now id.now }
        ensures partners { ArePartners self.now }
    {
        self.hg.get(id).copied()
    }

    /// How many pairs there are.
    pub fn len(&self) -> usize
        ensures { result ≡ length self.now }
    {
        self.git.len()
    }

    /// Whether there are no pairs.
    pub fn is_empty(&self) -> bool
        ensures { result ≡ (length self.now == 0) }
    {
        self.git.is_empty()
    }

    /// Makes a changeset and a commit partners, of which none has one. After want of memory nothing has changed.
    pub fn add(&mut self, node: Id, id: Id) -> Result<(), NoMemory>
        requires node_is_free { git_at self.old node ≡ None }
        requires id_is_free { hg_at self.old id ≡ None }
        ensures ok { OnOk result (self.new ≡ self.old ++ (node, id) ∷ []) }
        ensures err { OnErr result (self.new ≡ self.old) }
        ensures partners { ArePartners self.new }
    {
        self.hg.reserve(1)?;
        self.git.insert(node, id)?;
        self.hg.insert(id, node).unwrap();
        Ok(())
    }
}
