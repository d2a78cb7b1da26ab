ghost use Rattle.std.specs.Prelude.{◌≡◌, false, MatchOption, option_map};
ghost use Rattle.std.specs.Option.{option_copied};
ghost use Rattle.hg_model.specs.Revision.{Changesets, Manifests, FilesAt, revision_of, knows};
ghost use Rattle.hg_model.specs.FileText as file_text;
ghost use Rattle.hg_store.specs.Groups.{group_value};
ghost use Rattle.hg_store.specs.Known.{AreAdded, text_of, manifest_text_of, AreFileParents, IsFileBlob};

use crate::group::Group;
use crate::held::{Held, Parsed};
use crate::store::HgStore;
use bridge_text::Id;
use hg_filelog::{canonical_pair, file_order, split};
use shared_text::Text;

impl HgStore {
    /// The text of a changeset; `None` where the node is unknown.
    pub fn text_of(&self, node: &Id) -> Option<&[u8]>
        ensures value { option_map (λ text. text.now) result ≡ text_of self.now Changesets node.now }
        ensures known { AreAdded self.now }
    {
        text_in(self.get(Group::Changesets, node))
    }

    /// The text of a revision of any group; `None` where the node is unknown, as the null id is.
    pub fn revision_text(&self, group: Group<'_>, node: &Id) -> Option<&[u8]>
        ensures value { option_map (λ text. text.now) result ≡ text_of self.now (group_value group.entry) node.now }
        ensures known { AreAdded self.now }
    {
        text_in(self.get(group, node))
    }

    /// The text of a manifest: no bytes for the null id, and `None` where another node is unknown.
    pub fn manifest_text(&self, node: &Id) -> Option<&[u8]>
        ensures value { option_map (λ text. text.now) result ≡ manifest_text_of self.now node.now }
        ensures known { AreAdded self.now }
    {
        match self.get(Group::Manifests, node) {
            Some(held) => Some(held.text.as_slice()),
            None if node.is_null() => Some(b""),
            None => None,
        }
    }

    /// The text of a revision of the file at a path; `None` where it is unknown.
    pub fn file_text(&self, path: &[u8], node: &Id) -> Option<&[u8]>
        ensures value { option_map (λ text. text.now) result ≡ text_of self.now (FilesAt path.now) node.now }
        ensures known { AreAdded self.now }
    {
        text_in(self.get(Group::FilesAt(path), node))
    }

    /// The text of a revision of a group, which the caller may own too; `None` where it is unknown. It takes no memory.
    pub fn shared_text(&self, group: Group<'_>, node: &Id) -> Option<&Text>
        ensures value { option_copied result ≡ text_of self.now (group_value group.entry) node.now }
        ensures known { AreAdded self.now }
    {
        let held = self.get(group, node)?;
        Some(&held.text)
    }

    /// The first and the second parent of a changeset; `None` where the node is unknown.
    pub fn parents_of(&self, node: &Id) -> Option<(Id, Id)>
        ensures value { result ≡ option_map (λ r. (r.p, r.q)) (revision_of self.now Changesets node.now) }
        ensures known { AreAdded self.now }
    {
        let held = self.get(Group::Changesets, node)?;
        Some((held.p, held.q))
    }

    /// The parents of a manifest, a null one last, else in rising order; `None` where the node is unknown.
    pub fn manifest_parents(&self, node: &Id) -> Option<(Id, Id)>
        ensures value { result ≡ option_map (λ r. file_text.manifest_order r.p r.q) (revision_of self.now Manifests node.now) }
        ensures known { AreAdded self.now }
    {
        let held = self.get(Group::Manifests, node)?;
        Some(canonical_pair(held.p, held.q))
    }

    /// The parents of a revision of the file at a path; `None` where it is unknown.
    /// A null one stands first where a line of the metadata begins with `copy: `, else last; two others stand in rising order.
    pub fn file_parents(&self, path: &[u8], node: &Id) -> Option<(Id, Id)>
        ensures value { MatchOption result (knows self.now (FilesAt path.now) node.now ≡ false) (AreFileParents self.now path.now node.now) }
        ensures known { AreAdded self.now }
    {
        let held = self.get(Group::FilesAt(path), node)?;
        match split(held.text.as_slice()) {
            Ok((meta, _)) => Some(file_order(meta, held.p, held.q)),
            Err(_) => None,
        }
    }

    /// The id that the body of a revision of the file at a path has as a Git blob; `None` where the revision is unknown.
    /// It stands in the store, and nothing is hashed.
    pub fn file_blob(&self, path: &[u8], node: &Id) -> Option<Id>
        ensures value { MatchOption result (knows self.now (FilesAt path.now) node.now ≡ false) (IsFileBlob self.now path.now node.now) }
        ensures known { AreAdded self.now }
    {
        let held = self.get(Group::FilesAt(path), node)?;
        match held.parsed {
            Parsed::File(blob) => Some(blob),
            Parsed::Changeset(_) => None,
            Parsed::Manifest(_, _) => None,
        }
    }
}

// The text of a revision that may be held.
fn text_in(held: Option<&Held>) -> Option<&[u8]>
    ensures { option_map (λ text. text.now) result ≡ option_map (λ h. h.text) (option_copied held.entry) }
{
    Some(held?.text.as_slice())
}
