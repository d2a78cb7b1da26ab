// Whether changesets refer to a revision.
ghost use Rattle.std.specs.Prelude.{◌≡◌, ◌++◌, [], List, map, IfOk, IfSome, MatchOption, OnOk};
ghost use Rattle.hg_model.specs.Revision.{Revision, knows};
ghost use Rattle.hg_store.specs.Groups.{group_value};
ghost use Rattle.hg_store.specs.Views.{IsManifestOf};
ghost use Rattle.view_model.specs.View.{ChangesetView, entry_of_row};
ghost use Rattle.view_model.specs.Held.{IsChangesetHeld, AreChangesetsHeld};
ghost use Rattle.view_model.specs.Dump.{revisions_in};
ghost use Rattle.hg_dump.specs.Refers.{RefersTo, HasFilesOf, AreNamedBy};

use crate::brought::{Brought, named_lines};
use bridge_text::{Id, NoMemory};
use hg_manifest::{Beside, Manifest, Near};
use hg_store::{Group, HgStore};
use std::alloc::Global;

/// The revisions to which changesets refer: their own, their manifests and the file revisions that these name.
#[derive(Drop)]
pub struct Refers {
    brought: Brought,
}

impl Refers {
    /// Those of the changesets with these nodes, all of which are in the store.
    pub fn of(alloc: Global, store: &HgStore, nodes: &[Id]) -> Result<Refers, NoMemory>
        requires held { (hs : List ChangesetView) × AreChangesetsHeld store.now nodes.now hs }
        ensures { IfOk result (λ refers. (hs : List ChangesetView) → AreChangesetsHeld store.now nodes.now hs → RefersTo refers (revisions_in hs)) }
    {
        let mut refers = Refers {
            brought: Brought::new(alloc),
        };
        refers.add(store, nodes, None)?;
        Ok(refers)
    }

    /// Adds those of more changesets, all of which are in the store. Each line of the manifest of the changeset that is near was added before, so
    /// that a line which is the same needs no look-up.
    pub fn add(&mut self, store: &HgStore, nodes: &[Id], near: Option<&Id>) -> Result<(), NoMemory>
        requires held { (hs : List ChangesetView) × AreChangesetsHeld store.now nodes.now hs }
        requires near { IfSome near (λ node. (v : ChangesetView) × IsChangesetHeld store.now node.now v × ((rs : List Revision) → RefersTo self.old rs → HasFilesOf rs v)) }
        ensures { OnOk result ((hs : List ChangesetView) (rs : List Revision) → AreChangesetsHeld store.now nodes.now hs → RefersTo self.old rs → RefersTo self.new (rs ++ revisions_in hs)) }
    {
        let (before, lines) = lines_near(store, near);
        self.brought.refer_all(store, nodes, before, lines, false)
    }

    /// Adds what a changeset names that is known, though the store may lack it: its manifest, and the file revisions that this names where
    /// it is known. Of an unknown one nothing. The changeset itself isn't added.
    pub fn add_named(&mut self, store: &HgStore, node: &Id) -> Result<(), NoMemory>
        ensures { OnOk result ((rs : List Revision) → RefersTo self.old rs → (more : List Revision) × AreNamedBy store.now node.now more × RefersTo self.new (rs ++ more)) }
    {
        let Some((_, _, changeset)) = store.changeset(node) else {
            return Ok(());
        };
        self.brought
            .refer_manifest(&changeset.manifest, node, false)?;
        let Some(lines) = store.lines(&changeset.manifest) else {
            return Ok(());
        };
        let walk = Beside::of(lines, Near::none(), None);
        self.brought.refer_files(walk, node, false)
    }

    /// Whether one of the changesets refers to the revision of a group with this node.
    pub fn has(&self, group: Group<'_>, node: &Id) -> bool
        ensures { (rs : List Revision) → RefersTo self.now rs → result ≡ knows rs (group_value group.entry) node.now }
    {
        self.brought.has(group, node)
    }
}

// The lines of the manifest of a changeset that is near, or none, with its node.
fn lines_near<'a>(store: &'a HgStore, near: Option<&Id>) -> (Id, Near<'a>)
    requires near { IfSome near (λ node. (h : ChangesetView) × IsChangesetHeld store.now node.now h) }
    ensures lines { MatchOption near.entry (result.1 ≡ []) (λ node. (h : ChangesetView) → IsChangesetHeld store.now node.now h → map entry_of_row h.rows ≡ result.1) }
    ensures manifest { IsManifestOf store.now result.0 result.1 }
{
    match near {
        Some(node) => named_lines(store, node),
        None => (Id::NULL, Near::none()),
    }
}

/// The lines of the manifest of a changeset that is held.
pub fn lines_of<'a>(store: &'a HgStore, node: &Id) -> Near<'a>
    requires held { (h : ChangesetView) × IsChangesetHeld store.now node.now h }
    ensures { (h : ChangesetView) → IsChangesetHeld store.now node.now h → map entry_of_row h.rows ≡ result }
{
    let (_, lines) = named_lines(store, node);
    lines
}

/// The manifest of a changeset that is held.
pub fn manifest_of<'a>(store: &'a HgStore, node: &Id) -> &'a Manifest
    requires held { (h : ChangesetView) × IsChangesetHeld store.now node.now h }
    ensures { (h : ChangesetView) → IsChangesetHeld store.now node.now h → map entry_of_row h.rows ≡ result.now }
{
    match store.manifest_of_changeset(node) {
        Some((_, manifest)) => manifest,
        None => unreachable!(),
    }
}
