use bridge_text::{Id, List};

/// The pair of a changeset and a commit, with the number of its links.
#[derive(Clone, Copy, Debug, PartialEq, Eq)]
pub struct Block {
    /// The node of the changeset.
    pub node: Id,
    /// The id of the commit.
    pub commit: Id,
    /// How many links the commit has: none below three parents, else two less than its parents.
    pub links: u8,
}

/// A list of pairs, in the order of their history.
pub type Blocks = List<Block>;
