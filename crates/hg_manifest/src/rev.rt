use bridge_text::Id;

/// The manifest of a changeset, but for its entries.
#[derive(Clone, Copy, Debug, PartialEq, Eq)]
pub enum ManifestRev {
    /// No manifest, whose node is the null id.
    Null,
    /// One with these parents.
    Over {
        /// The first parent; the null id where there is none.
        p: Id,
        /// The second parent; the null id where there is none.
        q: Id,
    },
}
