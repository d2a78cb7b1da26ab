ghost use Rattle.std.specs.Prelude.{◌≡◌, ◌&&◌, bytes_eq};
ghost use Rattle.text_model.specs.Id.{same_kind};
ghost use Rattle.bridge_text.specs.Kinds.{object_kind};
ghost use Rattle.git_store.specs.Held.{parsed_kind};

use bridge_text::Kind;
use git_object::{Commit, Tag, Tree};
use shared_text::Text;

/// What a content says.
#[derive(Drop)]
pub enum Parsed {
    Blob,
    Tree(Tree),
    Commit(Commit),
    Tag(Tag),
}

impl Parsed {
    /// The kind of the object.
    pub fn kind(&self) -> Kind
        ensures { object_kind result ≡ parsed_kind self.now }
    {
        match self {
            Parsed::Blob => Kind::Blob,
            Parsed::Tree(_) => Kind::Tree,
            Parsed::Commit(_) => Kind::Commit,
            Parsed::Tag(_) => Kind::Tag,
        }
    }
}

/// A stored object: its content, which others may own too, and what this says.
#[derive(Drop)]
pub struct Held {
    pub content: Text,
    pub parsed: Parsed,
}

impl Held {
    /// Whether the object has this kind and this content.
    pub fn is_like(&self, kind: Kind, content: &[u8]) -> bool
        ensures { result ≡ (same_kind (object_kind kind) (parsed_kind self.now.parsed) && bytes_eq content.now self.now.content) }
    {
        is_same_kind(kind, self.parsed.kind()) && content == self.content.as_slice()
    }
}

fn is_same_kind(kind: Kind, other: Kind) -> bool
    ensures { result ≡ same_kind (object_kind kind) (object_kind other) }
{
    kind == other
}
