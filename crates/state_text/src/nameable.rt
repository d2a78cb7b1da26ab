// What names may name.
ghost use Rattle.std.specs.Prelude.{◌≡◌, IfOk, IsTrue};
ghost use Rattle.git_model.specs.Tree.{has_distinct};

use bridge_text::{Id, IdSet, NoMemory};
use pair_known::Partners;
use ref_map::Lookup;
use std::alloc::Global;

/// What names may name: pairs, and kept tags.
#[derive(Drop)]
pub struct Nameable<'a> {
    /// The pairs.
    pub partners: &'a Partners,
    /// The ids of the tags.
    pub tags: &'a IdSet,
}

impl Lookup for Nameable<'_> {
    ghost use Rattle.state_model.specs.Names.{Targets};

    ghost targets = { λ n. record { pairs = n.partners.now; tags = n.tags.now } };

    fn commit_of(&self, node: &Id) -> Option<Id> {
        self.partners.git_of(node)
    }

    fn changeset_of(&self, id: &Id) -> Option<Id> {
        self.partners.hg_of(id)
    }

    fn has_tag(&self, id: &Id) -> bool {
        self.tags.contains(id)
    }
}

/// The set of these ids: all of them in their order, where none stands twice. The one error is want of memory.
pub fn id_set(alloc: Global, ids: &[Id]) -> Result<IdSet, NoMemory>
    ensures { IfOk result (λ set. IsTrue (has_distinct ids.now) → set ≡ ids.now) }
{
    let mut set = IdSet::new(alloc);
    for id in ids {
        set.insert(*id)?;
    }
    Ok(set)
}
