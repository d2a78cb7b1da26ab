ghost use Rattle.std.specs.Prelude.{◌≡◌, [], ◌==◌, List, length};
ghost use Rattle.pair_model.specs.Block.{Block};
ghost use Rattle.pair_known.specs.Partners.{git_at, hg_at};
ghost use Rattle.pair_state.specs.AllBlocks.{HasAllBlocks};
ghost use Rattle.pair_state.specs.Names.{with_names};

use crate::blocks::Blocks;
use crate::state_parts::StateParts;
use bridge_text::{Id, IdList};
use pair_known::Known;
use ref_map::Rows;
use std::alloc::Global;
use std::marker::Model;

/// What both sides hold, the pairs of their history in its order, and the tags and names that are kept.
///
/// Each changeset that it holds stands in a block of its history, and each manifest and file revision is that of one of these changesets. Contracts
/// see its parts.
pub struct State {
    parts: StateParts,
}

impl Drop for State {
    fn drop(self) {
        let State { parts: _ } = self;
    }
}

impl Model for State {
    ghost use Rattle.std.specs.Prelude.{List};
    ghost use Rattle.pair_model.specs.Block.{Block};
    ghost use Rattle.pair_state.specs.declared.state_parts.StateParts.{StateParts};

    ghost Value = { StateParts };

    ghost use Rattle.pair_state.specs.AllBlocks.{HasAllBlocks};

    ghost view = { λ s. s.parts };

    ghost invariant = { λ s. (blocks : List Block) × HasAllBlocks s.parts blocks };
}

impl State {
    /// A state without revisions, objects, pairs, tags and names.
    pub fn empty(alloc: Global) -> State
        ensures state { HasAllBlocks result [] }
        ensures revisions { result.known.hg ≡ [] }
        ensures objects { result.known.git ≡ [] }
        ensures tags { result.tags ≡ [] }
        ensures names { result.names ≡ [] }
    {
        State::from_parts(StateParts::empty(alloc))
    }

    /// The state of these parts, which stand for a history that refers to each of their revisions.
    pub fn from_parts(parts: StateParts) -> State
        requires history { (blocks : List Block) × HasAllBlocks parts blocks }
        ensures { result ≡ parts }
    {
        State { parts }
    }

    /// The parts of the state, to be changed.
    pub fn into_parts(self) -> StateParts
        ensures parts { result ≡ self }
        ensures history { (blocks : List Block) × HasAllBlocks result blocks }
    {
        let State { parts } = self;
        parts
    }

    /// The allocator from which the state takes its memory.
    pub fn alloc(&self) -> Global
        ensures { result ≡ self.now.alloc }
    {
        self.parts.alloc
    }

    /// Both stores, and the partners of changesets and commits.
    pub fn known(&self) -> &Known
        ensures { result.now ≡ self.now.known }
    {
        &self.parts.known
    }

    /// The pairs, in the order of the history.
    pub fn blocks(&self) -> &Blocks
        ensures { result.now ≡ self.now.blocks }
    {
        &self.parts.blocks
    }

    /// The nodes of the changesets, links just before their changeset, in the order of the history.
    pub fn changesets(&self) -> &IdList
        ensures { result.now ≡ self.now.changesets }
    {
        self.parts.changesets.as_list()
    }

    /// The ids of the commits, in the order of the history.
    pub fn commits(&self) -> &IdList
        ensures { result.now ≡ self.now.commits }
    {
        &self.parts.commits
    }

    /// The ids of the kept tags, in the order in which they came.
    pub fn tags(&self) -> &IdList
        ensures { result.now ≡ self.now.tags }
    {
        &self.parts.tags
    }

    /// The names of commits and kept tags, in the order of their refs.
    pub fn names(&self) -> &Rows
        ensures { result.now ≡ self.now.names }
    {
        &self.parts.names
    }

    /// The state with these names in place of its own.
    pub fn with_names(self, names: Rows) -> State
        ensures { result ≡ with_names self names }
    {
        let mut parts = self.into_parts();
        parts.names = names;
        State::from_parts(parts)
    }

    /// The commit whose partner is the changeset with this node; `None` exactly where it has none.
    pub fn git_of(&self, node: &Id) -> Option<Id>
        ensures { result ≡ git_at self.now.known.partners node.now }
    {
        self.parts.known.partners.git_of(node)
    }

    /// The changeset whose partner is the commit with this id; `None` exactly where it has none.
    pub fn hg_of(&self, id: &Id) -> Option<Id>
        ensures { result ≡ hg_at self.now.known.partners id.now }
    {
        self.parts.known.partners.hg_of(id)
    }

    /// How many pairs there are.
    pub fn len(&self) -> usize
        ensures { result ≡ length self.now.blocks }
    {
        self.parts.blocks.len()
    }

    /// Whether there are no pairs.
    pub fn is_empty(&self) -> bool
        ensures { result ≡ (length self.now.blocks == 0) }
    {
        self.parts.blocks.is_empty()
    }
}
