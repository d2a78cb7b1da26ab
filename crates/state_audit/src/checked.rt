ghost use Rattle.std.specs.Prelude.{◌≡◌, ◌≤◌, ◌+◌, ◌++◌, [], ◌∷◌, List, length, take, drop, IfOk, IfSome, OnOk, IsTrue};
ghost use Rattle.text_model.specs.Id.{has_id};
ghost use Rattle.pair_model.specs.Block.{Block};
ghost use Rattle.state_model.specs.Kept as saved;
ghost use Rattle.state_audit.specs.Audited.{IsWalked, IsTurn};

use bridge_text::{Id, IdSet, NoMemory};
use hg_dump::Refers;
use hg_store::HgStore;
use pair_state::State;
use std::alloc::Global;

/// The blocks that were found right, and what is remembered of them.
#[derive(Drop)]
pub struct Checked {
    /// How many changesets they have, links among them.
    pub changesets: usize,
    /// The nodes of their changesets that are no links.
    pub nodes: IdSet,
    /// The revisions to which their changesets refer, links among them.
    pub referred: Refers,
}

impl Checked {
    /// None of the blocks.
    pub fn none(alloc: Global, hg: &HgStore) -> Result<Checked, NoMemory>
        ensures { IfOk result (λ checked. IsWalked hg.now checked []) }
    {
        Ok(Checked {
            changesets: 0,
            nodes: IdSet::new(alloc),
            referred: Refers::of(alloc, hg, &[])?,
        })
    }

    /// Puts the block at this place, which is the next one, behind the others.
    pub fn add(&mut self, state: &State, place: usize) -> Result<(), NoMemory>
        requires turn { (m : saved.State) × (front : List Block) × (b : Block) × (rest : List Block) × IsTurn state.now place self.old m front b rest }
        ensures { OnOk result ((m : saved.State) (front : List Block) (b : Block) (rest : List Block) → IsTurn state.now place self.old m front b rest
            → IsWalked state.now.known.hg self.new (front ++ b ∷ [])) }
    {
        let block = state.blocks().at(place);
        let count = usize::from(block.links) + 1;
        let nodes = part_of(state.changesets().as_slice(), self.changesets, count);
        let hg = &state.known().hg;
        let first = first_parent(hg, &block.node);
        let near = near_of(&self.nodes, &first);
        self.referred.add(hg, nodes, near)?;
        self.nodes.insert(block.node)?;
        self.changesets += count;
        Ok(())
    }
}

/// The ids from a place on, so many of them.
pub fn part_of(ids: &[Id], start: usize, count: usize) -> &[Id]
    requires { start + count ≤ length ids.now }
    ensures { result.now ≡ take count (drop start ids.now) }
{
    ids.split_at(start).1.split_at(count).0
}

// The node of the first parent of a changeset, or the null id.
fn first_parent(hg: &HgStore, node: &Id) -> Id {
    match hg.parents_of(node) {
        Some((first, _)) => first,
        None => Id::NULL,
    }
}

/// A node, where it is among those of the changesets: most lines of both manifests are the same.
pub fn near_of<'a>(nodes: &IdSet, first: &'a Id) -> Option<&'a Id>
    ensures { IfSome result (λ node. IsTrue (has_id nodes.now node.now)) }
{
    if nodes.contains(first) {
        Some(first)
    } else {
        None
    }
}
