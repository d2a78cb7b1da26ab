use bridge_text::Id;

/// What the audit of a saved history finds.
#[derive(Clone, Copy, Debug, PartialEq, Eq)]
pub enum Verdict {
    /// Each block is right. This is how many there are.
    Holds(u64),
    /// The first block that isn't right.
    Differs {
        /// The id of its commit.
        kept: Id,
        /// The id of the right commit: the null id where the changeset has no partner, and where only links or bodies differ.
        right: Id,
    },
}
