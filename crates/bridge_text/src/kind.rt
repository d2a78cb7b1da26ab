ghost use Rattle.std.specs.Prelude.{◌≡◌};
ghost use Rattle.text_model.specs.Id.{kind_word};
ghost use Rattle.bridge_text.specs.Kinds.{object_kind};

/// The kind of a Git object.
#[derive(Clone, Copy, Debug, PartialEq, Eq)]
pub enum Kind {
    /// The bytes of a file.
    Blob,
    /// A directory.
    Tree,
    /// A commit.
    Commit,
    /// An annotated tag.
    Tag,
}

impl Kind {
    /// The word that names the kind in an object's header: `blob`, `tree`, `commit` or `tag`.
    pub fn word(&self) -> &'static [u8]
        ensures { result.now ≡ kind_word (object_kind self.now) }
    {
        match self {
            Kind::Blob => b"blob",
            Kind::Tree => b"tree",
            Kind::Commit => b"commit",
            Kind::Tag => b"tag",
        }
    }
}

/// What an addition to a store answers.
#[derive(Clone, Copy, Debug, PartialEq, Eq)]
pub enum Added {
    /// The item was not there, and is now.
    New,
    /// The same item was there already, and nothing changed.
    Known,
}
