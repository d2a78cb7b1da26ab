ghost use Rattle.std.specs.Prelude.{◌≡◌};

use bridge_text::{Bytes, Id, List};
use std::marker::Model;

/// A tree object that was made. Contracts see the object.
#[derive(Debug, Drop)]
pub struct TreeItem {
    /// Its id.
    pub id: Id,
    /// Its content, as `git cat-file tree` prints it.
    pub content: Bytes,
}

impl Model for TreeItem {
    ghost use Rattle.text_model.specs.Id.{tree};
    ghost use Rattle.git_model.specs.Object as model;

    ghost Value = { model.Object };

    ghost view = { λ t. record { id = t.id; kind = tree; content = t.content } };
}

impl TreeItem {
    /// Its id.
    pub fn id(&self) -> &Id
        ensures { result.now ≡ self.now.id }
    {
        &self.id
    }

    /// Its content.
    pub fn content(&self) -> &[u8]
        ensures { result.now ≡ self.now.content }
    {
        self.content.as_slice()
    }
}

/// A list of tree objects.
pub type TreeList = List<TreeItem>;

/// The tree objects of files.
#[derive(Debug, Drop)]
pub struct Trees {
    /// The id of the root.
    pub root: Id,
    /// Each tree, subtrees before trees, the root last.
    pub made: TreeList,
}
