use hg_dump::Refers;
use pair_known::HgRows;
use pair_state::StateParts;

/// A state while the changesets of a bundle get their blocks.
#[derive(Drop)]
pub struct Taking {
    /// The parts of the state. A changeset that came may still be without its block.
    pub state: StateParts,
    /// The revisions to which the changesets of its blocks refer.
    pub referred: Refers,
    /// The files of the last changeset that got a block, or none: the next one has most of them too.
    pub near: HgRows,
}
