use crate::group::KeyGroup;
use bridge_text::Id;
use hg_changeset::Changeset;
use hg_manifest::{Manifest, Newer};
use shared_text::Text;

/// What tells a revision from the others.
#[derive(Clone, Copy, Debug, PartialEq, Eq, Hash)]
pub struct Key {
    pub group: KeyGroup,
    pub node: Id,
}

/// What a text says.
#[derive(Drop)]
pub enum Parsed {
    Changeset(Changeset),
    /// The manifest, and which of its lines that of its first parent may lack.
    Manifest(Manifest, Newer),
    /// The id that the body of a file revision has as a Git blob.
    File(Id),
}

/// A revision that is held: its parents as they were written, its link, its text, which others may own too, and what the
/// text says.
#[derive(Drop)]
pub struct Held {
    pub p: Id,
    pub q: Id,
    pub link: Id,
    pub text: Text,
    pub parsed: Parsed,
}
