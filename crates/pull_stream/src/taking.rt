use pair_known::HgRows;
use pair_state::StateParts;
use tree_shape::Files;

/// A state while the commits of a stream get their blocks, with the files of the commit that got the last one, or none: the next one has most of
/// them too, and is read beside them.
#[derive(Drop)]
pub struct Taking {
    /// The parts of the state.
    pub state: StateParts,
    /// The files of that commit.
    pub files: Files,
    /// The files of its changeset.
    pub rows: HgRows,
}
