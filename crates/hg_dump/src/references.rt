// The references to the revisions of one group.
ghost use Rattle.std.specs.Prelude.{◌≡◌, OnOk};
ghost use Rattle.text_model.specs.Id.{has_id};
ghost use Rattle.hg_dump.specs.Referred.{nothing, referred};

use bridge_text::{Id, IdSet, NoMemory};
use std::alloc::Global;
use std::marker::Model;

/// A revision that is written: its node, and the first changeset that refers to it.
#[derive(Clone, Copy, Debug, PartialEq, Eq)]
pub struct Reference {
    pub node: Id,
    pub link: Id,
}

/// The revisions of a group to which changesets refer.
pub struct References {
    met: IdSet,
    brought: Vec<Reference>,
}

impl Drop for References {
    fn drop(self) {
        let References { met: _, brought: _ } = self;
    }
}

impl Model for References {
    ghost use Rattle.hg_dump.specs.Referred.{Referred};

    ghost Value = { Referred };

    ghost view = { λ r. record { met = r.met; brought = r.brought.items } };
}

impl References {
    /// No references.
    pub fn new(alloc: Global) -> References
        ensures { result ≡ nothing }
    {
        References {
            met: IdSet::new(alloc),
            brought: Vec::new(alloc),
        }
    }

    /// Adds a reference, unless its node was met before. It is written only if it is new.
    pub fn refer(&mut self, reference: Reference, is_new: bool) -> Result<(), NoMemory>
        ensures { OnOk result (self.new ≡ referred is_new reference self.old) }
    {
        let is_first = self.met.insert(reference.node)?;
        if is_first && is_new {
            self.brought.push(reference)?;
        }
        Ok(())
    }

    /// The new ones, in the order in which they were met.
    pub fn brought(&self) -> &[Reference]
        ensures { result.now ≡ self.now.brought }
    {
        self.brought.as_slice()
    }

    /// Whether a node was met.
    pub fn has(&self, node: &Id) -> bool
        ensures { result ≡ has_id self.now.met node.now }
    {
        self.met.contains(node)
    }
}
