ghost use Rattle.std.specs.Prelude.{◌≡◌, ◌≤◌, ◌-◌, ◌++◌, ◌^◌, ◌↔◌, [], true, List, length, min, take, drop, IfOk, OnOk};
ghost use Rattle.std.specs.Io.{StartsWith};
ghost use Rattle.hg_model.specs.Revision.{Revision};
ghost use Rattle.hg_model.specs.Bundle.{bundle_text};
ghost use Rattle.view_model.specs.View.{ChangesetView};
ghost use Rattle.view_model.specs.Held.{AreChangesetsHeld};
ghost use Rattle.view_model.specs.Dump.{written_bundle, hg_increment};
ghost use Rattle.hg_dump.specs.State.{AreBrought};
ghost use Rattle.hg_dump.specs.Told.{TellsTexts};

use crate::brought::Brought;
use crate::dump::Dump;
use crate::group::{put_files, put_group};
use crate::strip::is_bundle;
use bridge_text::{Id, IdList, NoMemory};
use hg_chunk::put_empty;
use hg_store::{Group, HgStore};
use rope::Rope;
use std::alloc::Global;

/// The word that a bundle begins with.
pub const MAGIC: &[u8; 6] = b"HG10UN";

/// The bundle of the changesets of a list from place `from` on, without what the changesets before that place refer to.
///
/// The changesets stand in the order of the list, the manifests in the order in which they are referred to first, and the
/// paths in rising order of their bytes, each with its revisions in the order in which they are referred to first. The null
/// manifest is no entry, and a path of which nothing is new isn't there. The link node of a manifest or a file revision is
/// the first changeset that refers to it; its parents stand with a null one last, or first where a file's metadata name a
/// copy, else in rising order. Each delta replaces the whole text before it in its group, the first one that of its first
/// parent.
pub fn write(alloc: Global, store: &HgStore, order: &IdList, from: usize) -> Result<Rope, NoMemory>
    requires from { from ≤ length order.now }
    requires held { (hs : List ChangesetView) × AreChangesetsHeld store.now order.now hs }
    ensures { IfOk result (λ bytes. (hs : List ChangesetView) → AreChangesetsHeld store.now order.now hs
        → bytes ≡ hg_increment store.now (take from hs) (drop from hs)) }
{
    let dump = Dump::collect(alloc, store, order.as_slice(), from)?;
    let mut out = Rope::new(alloc);
    dump.append(&mut out)?;
    Ok(out)
}

/// Whether bytes that were read into this store are the bundle of all changesets of a list, as [`write`] gives it from place 0 on.
///
/// Each entry makes the text that is known under its node, so no text is compared, and the bundle is not written.
pub fn read_is_dump(
    alloc: Global,
    store: &HgStore,
    order: &IdList,
    bytes: &[u8],
) -> Result<bool, NoMemory>
    requires told { TellsTexts store.now bytes.now }
    requires held { (hs : List ChangesetView) × AreChangesetsHeld store.now order.now hs }
    ensures { IfOk result (λ yes. (hs : List ChangesetView) → AreChangesetsHeld store.now order.now hs
        → (yes ≡ true) ↔ (bytes.now ≡ hg_increment store.now [] hs)) }
{
    let brought = Brought::collect(alloc, store, order.as_slice(), 0)?;
    Ok(is_bundle(bytes, store, &brought))
}

/// How many bytes the bundle of all changesets of a list has, or 2^64 - 1 if that is less. The bundle is not written.
pub fn written_len(alloc: Global, store: &HgStore, order: &[Id]) -> Result<u64, NoMemory>
    requires { (hs : List ChangesetView) × AreChangesetsHeld store.now order.now hs }
    ensures { IfOk result (λ len. (hs : List ChangesetView) → AreChangesetsHeld store.now order.now hs
        → len ≡ min (length (hg_increment store.now [] hs)) (2 ^ 64 - 1)) }
{
    Ok(Dump::collect(alloc, store, order, 0)?.len())
}

/// Appends the bundle of what was brought.
pub fn put_bundle(out: &mut Rope, store: &HgStore, brought: &Brought) -> Result<(), NoMemory>
    requires { (rs : List Revision) × AreBrought store.now brought.now rs }
    ensures ok { OnOk result ((rs : List Revision) → AreBrought store.now brought.now rs → out.new ≡ out.old ++ bundle_text (written_bundle store.now rs)) }
    ensures front { StartsWith out.new out.old }
{
    out.put(MAGIC)?;
    put_group(out, store, Group::Changesets, brought.changesets.brought())?;
    put_group(out, store, Group::Manifests, brought.manifests.brought())?;
    put_files(out, store, &brought.files)?;
    put_empty(out)
}
