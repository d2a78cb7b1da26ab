// Parents of file revisions and of a manifest that stand in no changeset before.
ghost use Rattle.std.specs.Prelude.{◌≡◌, ◌↔◌, ◌&&◌, IsTrue, OnOk, IfErr};
ghost use Rattle.hg_model.specs.Revision.{FilesAt, Manifests, is_known_parent};
ghost use Rattle.hg_store.specs.Known.{AreAdded};
ghost use Rattle.hg_manifest.specs.Values.{manifest_value};
ghost use Rattle.view_model.specs.View.{ChangesetView};
ghost use Rattle.pair_known.specs.Ruled.{IsMadeChangeset, HasManifestParents};
ghost use Rattle.pull_outcome.specs.Takes.{IsTakeFault};
ghost use Rattle.pull_stream.specs.Faults.{IsOfCommit};
ghost use Rattle.pull_stream.specs.Late.{AreFilesInTime, IsLate};

use bridge_text::Id;
use hg_manifest::ManifestRev;
use hg_store::HgStore;
use pair_known::{FreshFile, HgDraft};
use pull_outcome::{Fault, TakeFault};

/// Passes where the store has each parent that a changeset names for a file revision or for its manifest. FileParentLate comes exactly where
/// it lacks one of a file revision, and else ManifestParentLate where it lacks one of the manifest.
pub fn check_parents(store: &HgStore, h: &HgDraft) -> Result<(), TakeFault>
    ensures files { OnOk result ((v : ChangesetView) → AreAdded store.now → IsMadeChangeset store.now h.now v → AreFilesInTime store.now v) }
    ensures manifest { OnOk result ((v : ChangesetView) → AreAdded store.now → IsMadeChangeset store.now h.now v → HasManifestParents store.now v.manifest) }
    ensures refused { IfErr result (λ fault. (v : ChangesetView) → AreAdded store.now → IsMadeChangeset store.now h.now v → IsTakeFault (IsLate store.now v) fault) }
    ensures names { IfErr result IsOfCommit }
{
    if !has_file_parents(store, h) {
        return Err(TakeFault::Refused(Fault::FileParentLate));
    }
    if !has_manifest_parents(store, &h.manifest) {
        return Err(TakeFault::Refused(Fault::ManifestParentLate));
    }
    Ok(())
}

// Whether the store has the parents of each file revision that a draft brings, as it has those of the others.
fn has_file_parents(store: &HgStore, h: &HgDraft) -> bool
    ensures { (v : ChangesetView) → AreAdded store.now → IsMadeChangeset store.now h.now v → (IsTrue result ↔ AreFilesInTime store.now v) }
{
    for file in h.fresh.as_slice() {
        if !has_parents(store, file) {
            return false;
        }
    }
    true
}

fn has_parents(store: &HgStore, file: &FreshFile) -> bool
    ensures { result ≡ (is_known_parent store.now (FilesAt file.now.path) file.now.p && is_known_parent store.now (FilesAt file.now.path) file.now.q) }
{
    let path = file.path.as_slice();
    has_file(store, path, &file.p) && has_file(store, path, &file.q)
}

// Whether a parent of a file revision is null or known.
fn has_file(store: &HgStore, path: &[u8], parent: &Id) -> bool
    ensures { result ≡ is_known_parent store.now (FilesAt path.now) parent.now }
{
    parent.is_null() || store.file_text(path, parent).is_some()
}

// Whether the store has the parents of a manifest.
fn has_manifest_parents(store: &HgStore, manifest: &ManifestRev) -> bool
    ensures { IsTrue result ↔ HasManifestParents store.now (manifest_value manifest.now) }
{
    match manifest {
        ManifestRev::Null => true,
        ManifestRev::Over { p, q } => has_manifest(store, p) && has_manifest(store, q),
    }
}

// Whether a parent of a manifest is null or known.
fn has_manifest(store: &HgStore, parent: &Id) -> bool
    ensures { result ≡ is_known_parent store.now Manifests parent.now }
{
    parent.is_null() || store.manifest_parents(parent).is_some()
}
