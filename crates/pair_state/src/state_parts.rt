ghost use Rattle.std.specs.Prelude.{◌≡◌, []};
ghost use Rattle.pair_state.specs.Blocks.{IsStateOf};

use crate::blocks::Blocks;
use crate::node_list::NodeList;
use bridge_text::{IdList, IdSet};
use git_store::GitStore;
use hg_store::HgStore;
use pair_known::{Known, Partners};
use ref_map::Rows;
use std::alloc::Global;

/// The parts of a state while a pull changes them: what both sides hold, the pairs of their history in its order, and the tags
/// and names that are kept. A changeset that came may still be without its block.
pub struct StateParts {
    /// Mercurial's revisions, Git's objects and the partners of changesets and commits.
    pub known: Known,
    /// The pairs, in the order of the history.
    pub blocks: Blocks,
    /// The nodes of the changesets in the same order, links just before their changeset.
    pub changesets: NodeList,
    /// The ids of the commits, in the order of the pairs.
    pub commits: IdList,
    /// The ids of the kept tags, in the order in which they came.
    pub tags: IdList,
    /// The names of commits and kept tags, in the order of their refs.
    pub names: Rows,
    /// The nodes of changesets whose bodies were compared with the blobs of their commits.
    pub agreed: IdSet,
    /// The allocator from which the state takes its memory.
    pub alloc: Global,
}

impl Drop for StateParts {
    fn drop(self) {
        let StateParts {
            known: _,
            blocks: _,
            changesets: _,
            commits: _,
            tags: _,
            names: _,
            agreed: _,
            alloc: _,
        } = self;
    }
}

impl StateParts {
    // The parts of a state without revisions, objects, pairs, tags and names.
    pub(crate) fn empty(alloc: Global) -> StateParts
        ensures state { IsStateOf result [] }
        ensures revisions { result.known.hg ≡ [] }
        ensures objects { result.known.git ≡ [] }
        ensures tags { result.tags ≡ [] }
        ensures names { result.names ≡ [] }
    {
        StateParts {
            known: Known {
                hg: HgStore::new(alloc),
                git: GitStore::new(alloc),
                partners: Partners::new(alloc),
            },
            blocks: Blocks::new(alloc),
            changesets: NodeList::new(alloc),
            commits: IdList::new(alloc),
            tags: IdList::new(alloc),
            names: Rows::new(alloc),
            agreed: IdSet::new(alloc),
            alloc,
        }
    }
}
