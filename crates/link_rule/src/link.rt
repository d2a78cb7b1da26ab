use bridge_text::{Bytes, Id};
use hg_changeset::Changeset;

/// A link, but for its files, which are those of the partner of its commit's first parent.
#[derive(Drop)]
pub struct Link {
    /// The link before it, or for the first link the partner of the commit's first parent.
    pub p: Id,
    /// The partner of the commit's next parent.
    pub q: Id,
    /// Its fields.
    pub changeset: Changeset,
    /// Its text.
    pub text: Bytes,
    /// Its node.
    pub node: Id,
}
