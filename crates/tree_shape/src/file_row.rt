ghost use Rattle.std.specs.Prelude.{◌≡◌};
ghost use Rattle.git_object.specs.Values.{mode_value};

use crate::clash::HasPath;
use bridge_text::Id;
use git_object::Mode;
use shared_text::Text;
use std::marker::Model;

/// A row of a tree, as `git ls-tree -r` lists it: a file, a gitlink, or an empty subtree.
#[derive(Debug, Drop)]
pub struct FileRow {
    /// Its path from the root, with slashes between the names, which others may own too.
    pub path: Text,
    /// What it is.
    pub mode: Mode,
    /// The id of its blob; of a gitlink that of the commit of the other repository, of an empty subtree that of the tree
    /// without entries.
    pub blob: Id,
}

impl Model for FileRow {
    ghost use Rattle.git_model.specs.Unfold as model;
    ghost use Rattle.git_object.specs.Values.{mode_value};

    ghost Value = { model.FileRow };

    ghost view = { λ r. record { path = r.path; mode = mode_value r.mode; id = r.blob } };
}

impl FileRow {
    /// Its path.
    pub fn path(&self) -> &[u8]
        ensures { result.now ≡ self.now.path }
    {
        self.path.as_slice()
    }

    /// What it is.
    pub fn mode(&self) -> Mode
        ensures { mode_value result ≡ self.now.mode }
    {
        self.mode
    }

    /// The id of its blob, of the commit of a gitlink, or of the tree without entries.
    pub fn blob(&self) -> &Id
        ensures { result.now ≡ self.now.id }
    {
        &self.blob
    }
}

impl HasPath for FileRow {
    ghost file = { λ row. row };

    fn path(&self) -> &[u8]
        ensures { result.now ≡ self.now.path }
    {
        self.path.as_slice()
    }
}
