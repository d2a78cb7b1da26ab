ghost use Rattle.std.specs.Prelude.{◌≡◌};
ghost use Rattle.pair_model.specs.Block.{Parents};
ghost use Rattle.partner_model.specs.Mark.{node_in_parents};
ghost use Rattle.commit_mark.specs.Over.{AreParents};
ghost use Rattle.commit_mark.specs.Parts.{node_at};

use bridge_text::Id;
use file_rule::Parent;
use hg_manifest::{Entry, Manifest};
use hg_store::HgStore;
use pair_known::FreshFiles;

/// What a changeset is marked over.
#[derive(Drop)]
pub struct Over<'a> {
    /// What is known.
    pub store: &'a HgStore,
    /// The file revisions that the changeset brings.
    pub fresh: &'a FreshFiles,
    /// Its first parent, or that there is none.
    pub first: Parent<'a>,
    /// Its second parent, or that there is none.
    pub second: Parent<'a>,
}

impl Over<'_> {
    /// The node that a path has in the first parent, or, where it is absent there, in the second; the null id where it is in neither.
    pub fn node_in_parents(&self, path: &[u8]) -> Id
        ensures { (ps : Parents) → AreParents self.now ps → result ≡ node_in_parents ps path.now }
    {
        match self.first.manifest.get(path) {
            Some(entry) => entry.node,
            None => node_in(self.second.manifest, path),
        }
    }
}

// The node of a path in a manifest; the null id where it has none.
fn node_in(manifest: &Manifest, path: &[u8]) -> Id
    ensures { result ≡ node_at manifest.now path.now }
{
    match manifest.get(path) {
        Some(entry) => entry.node,
        None => Id::NULL,
    }
}
