// What changesets refer to.
ghost use Rattle.std.specs.Prelude.{◌≡◌, ◌∷◌, [], false, Bool, List, map, take, drop, length, ◌≤◌, ◌<◌, IfOk, OnOk, if◌then◌else◌, ℕ, bytes_eq};
ghost use Rattle.std.specs.Bool.{OnTrue};
ghost use Rattle.text_model.specs.Id.{has_id};
ghost use Rattle.hg_model.specs.Revision as model;
ghost use Rattle.hg_store.specs.Groups.{group_value};
ghost use Rattle.hg_store.specs.Views.{IsManifestOf};
ghost use Rattle.view_model.specs.View.{ChangesetView, entry_of_row};
ghost use Rattle.view_model.specs.Dump.{brought_by};
ghost use Rattle.hg_store.specs.Known.{AreAdded};
ghost use Rattle.hg_manifest.specs.Values.{manifest_entry};
ghost use Rattle.view_model.specs.Held.{IsChangesetHeld, AreChangesetsHeld};
ghost use Rattle.hg_dump.specs.Referred.{referred, nothing};
ghost use Rattle.hg_dump.specs.Marks.{own_mark, file_mark, manifest_marks, view_marks, marks_of, marks_in, IsMet, Met, meet};
ghost use Rattle.hg_dump.specs.State.{AreBrought, files_at, referred_in, met_of, Steps, StepsAfter, IsLineMet};

use crate::references::{Reference, References};
use bridge_text::{Id, IdSet, NoMemory};
use hg_manifest::{Beside, Entry, Near};
use hg_store::{Group, HgStore};
use std::alloc::Global;
use std::collections::BTreeMap;

/// The revisions to which changesets refer, group by group.
pub struct Brought {
    alloc: Global,
    pub changesets: References,
    pub manifests: References,
    /// By the paths of the files.
    pub files: BTreeMap<Vec<u8>, References>,
}

impl Drop for Brought {
    fn drop(self) {
        let Brought {
            alloc: _,
            changesets: _,
            manifests: _,
            files: _,
        } = self;
    }
}

impl Brought {
    /// Nothing was met.
    pub fn new(alloc: Global) -> Brought
        ensures { (group : model.Group) → referred_in result group ≡ nothing }
    {
        Brought {
            alloc,
            changesets: References::new(alloc),
            manifests: References::new(alloc),
            files: BTreeMap::new(alloc),
        }
    }

    /// What the changesets of these nodes refer to. Those from place `from` on are new.
    pub fn collect(
        alloc: Global,
        store: &HgStore,
        nodes: &[Id],
        from: usize,
    ) -> Result<Brought, NoMemory>
        requires from { from ≤ length nodes.now }
        requires held { (hs : List ChangesetView) × AreChangesetsHeld store.now nodes.now hs }
        ensures met { IfOk result (λ brought. (hs : List ChangesetView) → AreChangesetsHeld store.now nodes.now hs
            → IsMet (met_of (take from hs) (drop from hs)) (referred_in brought)) }
        ensures brought { IfOk result (λ brought. (hs : List ChangesetView) → AreChangesetsHeld store.now nodes.now hs
            → AreBrought store.now brought (brought_by (take from hs) (drop from hs))) }
    {
        let mut brought = Brought::new(alloc);
        brought.refer_all(store, &nodes[..from], Id::NULL, Near::none(), false)?;
        brought.refer_all(store, &nodes[from..], Id::NULL, Near::none(), true)?;
        Ok(brought)
    }

    /// Whether the revision of a group with this node was met.
    pub fn has(&self, group: Group<'_>, node: &Id) -> bool
        ensures { result ≡ has_id (referred_in self.now (group_value group.entry)).met node.now }
    {
        match group {
            Group::Changesets => self.changesets.has(node),
            Group::Manifests => self.manifests.has(node),
            Group::FilesAt(path) => has_at(&self.files, path, node),
        }
    }

    /// Adds what changesets refer to, in their order. It is written only if they are new. Each line of the manifest before was met.
    /// A manifest that several of them name is walked once.
    pub fn refer_all<'a>(
        &mut self,
        store: &'a HgStore,
        nodes: &[Id],
        mut before: Id,
        mut previous: Near<'a>,
        is_new: bool,
    ) -> Result<(), NoMemory>
        requires held { (hs : List ChangesetView) × AreChangesetsHeld store.now nodes.now hs }
        requires before { IsManifestOf store.now before previous }
        ensures steps { OnOk result ((hs : List ChangesetView) → AreChangesetsHeld store.now nodes.now hs → StepsAfter previous.entry is_new (marks_in hs) self.old self.new) }
        ensures known { OnOk result (0 < length nodes.now → AreAdded store.now) }
    {
        let mut walked = IdSet::new(self.alloc);
        for node in nodes {
            let (manifest_node, lines) = named_lines(store, node);
            self.refer_own(node, &manifest_node, is_new)?;
            if walked.insert(manifest_node)? {
                let newer = store.newer(&manifest_node, &before);
                let walk = Beside::of(lines.again(), previous, newer);
                self.refer_files(walk, node, is_new)?;
            }
            before = manifest_node;
            previous = lines;
        }
        Ok(())
    }

    // Adds a changeset and its manifest.
    fn refer_own(&mut self, node: &Id, manifest_node: &Id, is_new: bool) -> Result<(), NoMemory>
        ensures { OnOk result (Steps is_new (own_mark node.now ∷ manifest_marks node.now manifest_node.now) self.old self.new) }
    {
        self.refer(Group::Changesets, node, node, is_new)?;
        self.refer_manifest(manifest_node, node, is_new)
    }

    /// Adds a manifest. The null one is no revision.
    pub fn refer_manifest(
        &mut self,
        manifest_node: &Id,
        link: &Id,
        is_new: bool,
    ) -> Result<(), NoMemory>
        ensures { OnOk result (Steps is_new (manifest_marks link.now manifest_node.now) self.old self.new) }
    {
        if manifest_node.is_null() {
            return Ok(());
        }
        self.refer(Group::Manifests, manifest_node, link, is_new)
    }

    /// Adds the file revisions that the lines of a manifest name. Those that stand in the other one, whose lines were met, need no look-up.
    pub fn refer_files(
        &mut self,
        mut walk: Beside<'_>,
        link: &Id,
        is_new: bool,
    ) -> Result<(), NoMemory>
        ensures { OnOk result (StepsAfter (walk.entry).other is_new (map (file_mark link.now) (walk.entry).lines) self.old self.new) }
    {
        while let Some(entry) = walk.next() {
            self.refer_line(entry, link, is_new)?;
        }
        Ok(())
    }

    // Adds the file revision that a line names.
    fn refer_line(&mut self, entry: &Entry, link: &Id, is_new: bool) -> Result<(), NoMemory>
        ensures { OnOk result (Steps is_new (file_mark link.now (manifest_entry entry.now) ∷ []) self.old self.new) }
    {
        self.refer(
            Group::FilesAt(entry.path.as_slice()),
            &entry.node,
            link,
            is_new,
        )
    }

    fn refer(
        &mut self,
        group: Group<'_>,
        node: &Id,
        link: &Id,
        is_new: bool,
    ) -> Result<(), NoMemory>
        ensures { OnOk result (Steps is_new (record { group = group_value group.entry; node = node.now; link = link.now } ∷ []) self.old self.new) }
    {
        let reference = Reference {
            node: *node,
            link: *link,
        };
        match group {
            Group::Changesets => self.changesets.refer(reference, is_new),
            Group::Manifests => self.manifests.refer(reference, is_new),
            Group::FilesAt(path) => refer_file(
                &mut self.files,
                self.alloc,
                path,
                reference,
                is_new,
            ),
        }
    }
}

/// The lines of the manifest of a changeset that is held, with its node. The file revisions that they name are not looked up.
pub fn named_lines<'a>(store: &'a HgStore, node: &Id) -> (Id, Near<'a>)
    requires held { (h : ChangesetView) × IsChangesetHeld store.now node.now h }
    ensures marks { (h : ChangesetView) → IsChangesetHeld store.now node.now h → marks_of h ≡ view_marks node.now result.0 result.1 }
    ensures lines { (h : ChangesetView) → IsChangesetHeld store.now node.now h → map entry_of_row h.rows ≡ result.1 }
    ensures manifest { IsManifestOf store.now result.0 result.1 }
    ensures known { AreAdded store.now }
{
    match store.lines_of_changeset(node) {
        Some(found) => found,
        None => unreachable!(),
    }
}

fn refer_file(
    files: &mut BTreeMap<Vec<u8>, References>,
    alloc: Global,
    path: &[u8],
    reference: Reference,
    is_new: bool,
) -> Result<(), NoMemory>
    ensures { OnOk result ((other : List ℕ) → files_at files.new other ≡ (if bytes_eq path.now other then referred is_new reference (files_at files.old path.now) else files_at files.old other)) }
{
    match files.get_mut(path) {
        Some(references) => references.refer(reference, is_new),
        None => {
            let mut references = References::new(alloc);
            references.refer(reference, is_new)?;
            files.insert(Vec::from_slice(alloc, path)?, references)?;
            Ok(())
        }
    }
}

fn has_at(files: &BTreeMap<Vec<u8>, References>, path: &[u8], node: &Id) -> bool
    ensures { result ≡ has_id (files_at files.now path.now).met node.now }
{
    match files.get(path) {
        Some(references) => references.has(node),
        None => false,
    }
}
