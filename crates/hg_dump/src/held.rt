// Changesets that a store holds with all that they stand for.
ghost use Rattle.std.specs.Prelude.{◌≡◌, true, None, List, IfOk, IsTrue, MatchResult};
ghost use Rattle.std.specs.Bool.{OnTrue};
ghost use Rattle.hg_model.specs.Manifest.{ManifestEntry};
ghost use Rattle.hg_model.specs.Revision.{FilesAt, knows};
ghost use Rattle.view_model.specs.View.{ChangesetView};
ghost use Rattle.view_model.specs.Held.{AreChangesetsHeld};
ghost use Rattle.hg_store.specs.Known.{AreAdded};
ghost use Rattle.hg_store.specs.Views.{IsView, IsViewFault, IsManifestOf, first_unknown};
ghost use Rattle.hg_dump.specs.Held.{AreLinesKnown, AreManifestsKnown};

use crate::refers::lines_of;
use bridge_text::{Id, IdList, IdSet, NoMemory};
use hg_manifest::{Beside, Entry, Near};
use hg_store::{Group, HgStore, View, ViewFault};
use std::alloc::Global;

/// Whether a store holds each changeset of a list with all that it stands for: its manifest, and the file revisions that this names. A line
/// that stands in the manifest of the changeset before needs no look-up, and a manifest that several of them name is walked once.
pub fn are_held(alloc: Global, store: &HgStore, order: &IdList) -> Result<bool, NoMemory>
    ensures held { IfOk result (λ yes. OnTrue yes ((hs : List ChangesetView) × AreChangesetsHeld store.now order.now hs)) }
    ensures all { IfOk result (λ yes. (hs : List ChangesetView) → AreChangesetsHeld store.now order.now hs → IsTrue yes) }
{
    let mut walked = IdSet::new(alloc);
    let mut before = Id::NULL;
    let mut near = Near::none();
    for node in order.as_slice() {
        let Ok(view) = view_beside(store, node, &walked, &before, near) else {
            return Ok(false);
        };
        walked.insert(view.manifest_node)?;
        before = view.manifest_node;
        near = lines_of(store, node);
    }
    Ok(true)
}

// The changeset of a node with the manifest that it names, as the store's `view_of` gives it. Each file revision is known that the manifests which
// were walked name, and each that the lines of another one name.
fn view_beside<'a>(
    store: &'a HgStore,
    node: &Id,
    walked: &IdSet,
    before: &Id,
    near: Near<'_>,
) -> Result<View<'a>, ViewFault>
    requires walked { AreManifestsKnown store.now walked.now }
    requires before { IsManifestOf store.now before.now near }
    requires near { AreLinesKnown store.now near }
    ensures value { MatchResult result (IsView store.now node.now) (IsViewFault store.now node.now) }
    ensures known { AreAdded store.now }
{
    let Some((p1, p2, changeset)) = store.changeset(node) else {
        return Err(ViewFault::ChangesetUnknown);
    };
    let Some(manifest) = store.manifest(&changeset.manifest) else {
        return Err(ViewFault::ManifestUnknown);
    };
    if !are_files_known(store, &changeset.manifest, walked, before, near) {
        return store.view_of(node);
    }
    Ok(View {
        p1,
        p2,
        changeset,
        manifest_node: changeset.manifest,
        manifest,
    })
}

// Whether each file revision that the manifest of this node names is known, as those are that the manifests which were walked name, and the lines
// of another one.
fn are_files_known(store: &HgStore, node: &Id, walked: &IdSet, before: &Id, near: Near<'_>) -> bool
    requires walked { AreManifestsKnown store.now walked.now }
    requires before { IsManifestOf store.now before.now near }
    requires near { AreLinesKnown store.now near }
    ensures { result ≡ true → (es : List ManifestEntry) → IsManifestOf store.now node.now es → first_unknown store.now es ≡ None }
{
    if walked.contains(node) {
        return true;
    }
    match store.lines(node) {
        Some(lines) => {
            let walk = Beside::of(lines, near, store.newer(node, before));
            are_known_beside(store, walk)
        }
        None => false,
    }
}

// Whether each file revision that the lines of a manifest name is known, as those of another manifest are.
fn are_known_beside(store: &HgStore, mut walk: Beside<'_>) -> bool
    requires near { AreLinesKnown store.now walk.other }
    ensures { result ≡ true → AreLinesKnown store.now (walk.entry).lines }
{
    while let Some(line) = walk.next() {
        if !is_known(store, line) {
            return false;
        }
    }
    true
}

// Whether the file revision that a line names is known.
fn is_known(store: &HgStore, line: &Entry) -> bool
    ensures { result ≡ knows store.now (FilesAt line.now.path) line.now.node }
{
    let text = store.revision_text(Group::FilesAt(line.path.as_slice()), &line.node);
    text.is_some()
}
