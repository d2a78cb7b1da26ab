ghost use Rattle.std.specs.Prelude.{◌≡◌, List, Some, None, not, option_map, if◌then◌else◌};
ghost use Rattle.text_model.specs.Id.{is_null};
ghost use Rattle.hg_store.specs.Known.{AreAdded};
ghost use Rattle.hg_store.specs.Views.{IsManifestOf};
ghost use Rattle.view_model.specs.View.{ChangesetView, ManifestParents, Row};
ghost use Rattle.view_model.specs.Held.{IsManifestHeld};
ghost use Rattle.file_rule.specs.Parents.{IsParent, IsParentView};

use bridge_text::Id;
use hg_manifest::Manifest;
use hg_store::HgStore;

/// A parent of a changeset, or that there is none, with the manifest that it has. The entries are lent from a store.
#[derive(Drop)]
pub struct Parent<'a> {
    /// Whether there is a parent.
    pub is_there: bool,
    /// The node of its manifest; the null id without a parent.
    pub manifest_node: Id,
    /// The entries of its manifest; none without a parent.
    pub manifest: &'a Manifest,
}

impl<'a> Parent<'a> {
    /// The entries of its manifest; `None` exactly where there is no parent.
    pub fn entries(&self) -> Option<&'a Manifest>
        ensures { option_map (λ m. m.now) result ≡ (if self.now.is_there then Some (self.now.manifest).now else None) }
    {
        if self.is_there {
            Some(self.manifest)
        } else {
            None
        }
    }
}

/// The parent with this node, which is null where there is none, and else that of a changeset that is stored.
pub fn parent_of<'a>(store: &'a HgStore, node: &Id) -> Parent<'a>
    requires known { (v : ChangesetView) × IsParentView store.now node.now v }
    ensures view { (v : ChangesetView) → IsParentView store.now node.now v → IsParent store.now result v }
    ensures there { result.is_there ≡ not (is_null node.now) }
{
    if node.is_null() {
        return parent_with(store, false, Id::NULL);
    }
    match store.changeset(node) {
        Some((_, _, changeset)) => parent_with(store, true, changeset.manifest),
        None => unreachable!(),
    }
}

// A parent whose manifest has this node, or none.
fn parent_with(store: &HgStore, is_there: bool, manifest_node: Id) -> Parent<'_>
    requires held { (m : ManifestParents) × (rows : List Row) × IsManifestHeld store.now manifest_node m rows }
    ensures there { result.is_there ≡ is_there }
    ensures node { result.manifest_node ≡ manifest_node }
    ensures entries { IsManifestOf store.now manifest_node result.manifest.now }
    ensures known { AreAdded store.now }
{
    match store.manifest(&manifest_node) {
        Some(manifest) => Parent {
            is_there,
            manifest_node,
            manifest,
        },
        None => unreachable!(),
    }
}
