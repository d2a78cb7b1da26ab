ghost use Rattle.std.specs.Prelude.{◌≡◌, None, false, List, option_map, IfSome, MatchResult, MatchOption};
ghost use Rattle.std.specs.Option.{option_copied};
ghost use Rattle.hg_model.specs.Revision.{Changesets, knows};
ghost use Rattle.hg_model.specs.Manifest.{ManifestEntry};
ghost use Rattle.hg_changeset.specs.Values.{changeset_value};
ghost use Rattle.hg_manifest.specs.Beside.{IsNewer};
ghost use Rattle.hg_store.specs.Known.{AreAdded, manifest_text_of};
ghost use Rattle.hg_store.specs.Views.{IsView, IsViewFault, IsChangesetOf, IsManifestOf, IsManifestOfChangeset, HasNoManifest, first_unknown};

use crate::fault::ViewFault;
use crate::group::Group;
use crate::held::Parsed;
use crate::store::HgStore;
use bridge_text::Id;
use hg_changeset::Changeset;
use hg_manifest::{Manifest, Near, Newer};

/// A changeset with its manifest, borrowed from a store.
#[derive(Drop)]
pub struct View<'a> {
    /// The first parent, or the null id.
    pub p1: Id,
    /// The second parent, or the null id.
    pub p2: Id,
    pub changeset: &'a Changeset,
    /// The node of the manifest; the null id where there is none.
    pub manifest_node: Id,
    /// The manifest, whose file revisions are all in the store; the null id has the empty one.
    pub manifest: &'a Manifest,
}

impl HgStore {
    /// The changeset of a node with the manifest that it names, borrowed from the store. ChangesetUnknown comes exactly where no
    /// changeset has the node, ManifestUnknown where its manifest isn't null and unknown, and FileUnknown where a line of this
    /// names a file revision that is unknown, with the first such line.
    pub fn view_of(&self, node: &Id) -> Result<View<'_>, ViewFault>
        ensures value { MatchResult result (IsView self.now node.now) (IsViewFault self.now node.now) }
        ensures known { AreAdded self.now }
    {
        let Some((p1, p2, changeset)) = self.changeset(node) else {
            return Err(ViewFault::ChangesetUnknown);
        };
        let Some(manifest) = self.manifest(&changeset.manifest) else {
            return Err(ViewFault::ManifestUnknown);
        };
        match self.first_unknown(manifest) {
            Some(line) => Err(ViewFault::FileUnknown(line)),
            None => Ok(View {
                p1,
                p2,
                changeset,
                manifest_node: changeset.manifest,
                manifest,
            }),
        }
    }

    /// The parents and the fields of a changeset, borrowed from the store; `None` exactly where the node is unknown.
    pub fn changeset(&self, node: &Id) -> Option<(Id, Id, &Changeset)>
        ensures value { MatchOption result (knows self.now Changesets node.now ≡ false)
            (λ found. IsChangesetOf self.now node.now found.0 found.1 (changeset_value found.2.now)) }
        ensures known { AreAdded self.now }
    {
        let held = self.get(Group::Changesets, node)?;
        match &held.parsed {
            Parsed::Changeset(changeset) => Some((held.p, held.q, changeset)),
            Parsed::Manifest(_, _) => None,
            Parsed::File(_) => None,
        }
    }

    /// The manifest of a node, borrowed from the store: the empty one for the null id; `None` exactly where another node is
    /// unknown.
    pub fn manifest(&self, node: &Id) -> Option<&Manifest>
        ensures value { MatchOption result (manifest_text_of self.now node.now ≡ None)
            (λ found. IsManifestOf self.now node.now found.now) }
        ensures known { AreAdded self.now }
    {
        if node.is_null() {
            return Some(self.null_manifest());
        }
        let held = self.get(Group::Manifests, node)?;
        match &held.parsed {
            Parsed::Manifest(manifest, _) => Some(manifest),
            Parsed::Changeset(_) => None,
            Parsed::File(_) => None,
        }
    }

    /// The lines of the manifest of a node, borrowed from the store: none for the null id; `None` exactly where another node is unknown.
    pub fn lines(&self, node: &Id) -> Option<Near<'_>>
        ensures value { MatchOption result (manifest_text_of self.now node.now ≡ None)
            (λ found. IsManifestOf self.now node.now found) }
        ensures known { AreAdded self.now }
    {
        if node.is_null() {
            return Some(Near::of(self.null_manifest(), b""));
        }
        let held = self.get(Group::Manifests, node)?;
        match &held.parsed {
            Parsed::Manifest(manifest, _) => Some(Near::of(manifest, held.text.as_slice())),
            Parsed::Changeset(_) => None,
            Parsed::File(_) => None,
        }
    }

    /// The manifest that a changeset names, with its node, borrowed from the store: the empty one where that is the null id.
    /// `None` exactly where the changeset is unknown, or its manifest is. The file revisions are not looked up.
    pub fn manifest_of_changeset(&self, node: &Id) -> Option<(Id, &Manifest)>
        ensures value { MatchOption result (HasNoManifest self.now node.now)
            (λ found. IsManifestOfChangeset self.now node.now found.0 found.1.now) }
        ensures known { AreAdded self.now }
    {
        let Some((_, _, changeset)) = self.changeset(node) else {
            return None;
        };
        let manifest = self.manifest(&changeset.manifest)?;
        Some((changeset.manifest, manifest))
    }

    /// The lines of the manifest that a changeset names, with its node, borrowed from the store: none where that is the null id.
    /// `None` exactly where the changeset is unknown, or its manifest is. The file revisions are not looked up.
    pub fn lines_of_changeset(&self, node: &Id) -> Option<(Id, Near<'_>)>
        ensures value { MatchOption result (HasNoManifest self.now node.now)
            (λ found. IsManifestOfChangeset self.now node.now found.0 found.1) }
        ensures known { AreAdded self.now }
    {
        let Some((_, _, changeset)) = self.changeset(node) else {
            return None;
        };
        let lines = self.lines(&changeset.manifest)?;
        Some((changeset.manifest, lines))
    }

    /// Which lines of the manifest of a node that of another node may lack; told only where this is its first parent.
    pub fn newer(&self, node: &Id, other: &Id) -> Option<&Newer>
        ensures { IfSome result (λ newer. (lines others : List ManifestEntry) → IsManifestOf self.now node.now lines → IsManifestOf self.now other.now others → IsNewer others newer.now lines) }
    {
        let held = self.get(Group::Manifests, node)?;
        if held.p != *other {
            return None;
        }
        match &held.parsed {
            Parsed::Manifest(_, newer) => Some(newer),
            Parsed::Changeset(_) => None,
            Parsed::File(_) => None,
        }
    }

    // The first line of a manifest whose file revision is unknown.
    fn first_unknown(&self, manifest: &Manifest) -> Option<usize>
        ensures { result ≡ first_unknown self.now manifest.now }
    {
        for line in 0..manifest.len() {
            let entry = manifest.at(line);
            if !self.knows(Group::FilesAt(entry.path.as_slice()), &entry.node) {
                return Some(line);
            }
        }
        None
    }
}
