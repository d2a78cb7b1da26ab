ghost use Rattle.std.specs.Prelude.{◌≡◌};

use bridge_text::{Id, List};
use hg_manifest::Flag;
use shared_text::Text;
use std::marker::Model;
use tree_shape::HasPath;

/// A file of a changeset, by its revision's node and by the id of its body as a Git blob.
#[derive(Debug, Drop)]
pub struct HgRow {
    /// Its path from the root, with slashes between the names, which others may own too.
    pub path: Text,
    /// What kind of file it is.
    pub flag: Flag,
    /// The node of its revision.
    pub node: Id,
    /// The id that the revision's body has as a blob.
    pub blob: Id,
}

impl Model for HgRow {
    ghost use Rattle.hg_manifest.specs.Values.{file_flag};
    ghost use Rattle.pair_known.specs.Rows.{RowValue};

    ghost Value = { RowValue };

    ghost view = { λ r. record { path = r.path; flag = file_flag r.flag; node = r.node; blob = r.blob } };
}

impl HasPath for HgRow {
    ghost use Rattle.pair_known.specs.Rows.{as_file};

    ghost file = { as_file };

    fn path(&self) -> &[u8]
        ensures { result.now ≡ self.now.path }
    {
        self.path.as_slice()
    }
}

/// A list of a changeset's files.
pub type HgRows = List<HgRow>;
