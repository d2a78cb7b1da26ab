// A bundle of changesets that a store holds, before it is written.
ghost use Rattle.std.specs.Prelude.{◌≡◌, ◌≤◌, ◌-◌, ◌++◌, ◌^◌, List, length, min, take, drop, IfOk, OnOk};
ghost use Rattle.std.specs.Io.{StartsWith};
ghost use Rattle.text_model.specs.Text.{Bytes};
ghost use Rattle.view_model.specs.View.{ChangesetView};
ghost use Rattle.view_model.specs.Held.{AreChangesetsHeld};
ghost use Rattle.view_model.specs.Dump.{hg_increment};
ghost use Rattle.hg_dump.specs.Dumps.{IsDumpOf, IsCollected};

use crate::brought::Brought;
use crate::bundle::put_bundle;
use crate::length::bundle_len;
use bridge_text::{Id, NoMemory};
use hg_store::HgStore;
use rope::Rope;
use std::alloc::Global;

/// A bundle that isn't written yet. What it is to hold was collected, once for its length and for its text.
#[derive(Drop)]
pub struct Dump<'a> {
    store: &'a HgStore,
    brought: Brought,
}

impl<'a> Dump<'a> {
    /// The bundle of the changesets of a list from place `from` on, as [`crate::write`] gives it.
    pub fn collect(
        alloc: Global,
        store: &'a HgStore,
        nodes: &[Id],
        from: usize,
    ) -> Result<Dump<'a>, NoMemory>
        requires from { from ≤ length nodes.now }
        requires held { (hs : List ChangesetView) × AreChangesetsHeld store.now nodes.now hs }
        ensures collected { IfOk result IsCollected }
        ensures text { IfOk result (λ dump. (hs : List ChangesetView) → AreChangesetsHeld store.now nodes.now hs
            → IsDumpOf dump (hg_increment store.now (take from hs) (drop from hs))) }
    {
        let brought = Brought::collect(alloc, store, nodes, from)?;
        Ok(Dump { store, brought })
    }

    /// How many bytes the bundle has, or 2^64 - 1 if that is less.
    pub fn len(&self) -> u64
        requires { IsCollected self.now }
        ensures { (text : Bytes) → IsDumpOf self.now text → result ≡ min (length text) (2 ^ 64 - 1) }
    {
        bundle_len(self.store, &self.brought)
    }

    /// Appends the bundle, with the texts that the store holds shared. After want of memory `out` begins with what it was.
    pub fn append(&self, out: &mut Rope) -> Result<(), NoMemory>
        requires { IsCollected self.now }
        ensures ok { OnOk result ((text : Bytes) → IsDumpOf self.now text → out.new ≡ out.old ++ text) }
        ensures front { StartsWith out.new out.old }
    {
        put_bundle(out, self.store, &self.brought)
    }
}
