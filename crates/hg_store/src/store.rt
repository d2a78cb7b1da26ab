ghost use Rattle.std.specs.Prelude.{◌≡◌, ◌≤◌, ◌++◌, [], ◌∷◌, None, false, length, OnOk, OnErr, IfSome, option_map};
ghost use Rattle.std.specs.Option.{option_copied};
ghost use Rattle.text_model.specs.Text.{IsBytes};
ghost use Rattle.hg_model.specs.Revision.{revision_of, knows, addition_fault};
ghost use Rattle.hg_store.specs.Groups.{group_value, revision_value, held_revision, HasValue, IsNewerIn};
ghost use Rattle.hg_store.specs.Known.{text_limit, AreAdded, HasFitPath};

use crate::addition::Addition;
use crate::group::{Group, key_group, number_group};
use crate::held::{Held, Key, Parsed};
use bridge_text::{Id, NoMemory};
use hg_manifest::Manifest;
use indexmap::{IndexMap, IndexSet};
use std::alloc::Global;
use std::marker::Model;

/// Mercurial's revisions of all kinds. Contracts see the list of them, in the order in which they came.
/// A node stands once in a group: the changesets, the manifests, or the revisions of the file at a path.
pub struct HgStore {
    alloc: Global,
    paths: IndexSet<Vec<u8>>,
    revisions: IndexMap<Key, Held>,
    null_manifest: Manifest,
}

impl Drop for HgStore {
    fn drop(self) {
        let HgStore {
            alloc: _,
            paths: _,
            revisions: _,
            null_manifest: _,
        } = self;
    }
}

impl Model for HgStore {
    ghost use Rattle.std.specs.Prelude.{◌≡◌, List, []};
    ghost use Rattle.hg_model.specs.Revision.{Revision};
    ghost use Rattle.hg_store.specs.Groups.{paths_in, revisions_in, IsStore};

    ghost Value = { List Revision };

    ghost view = { λ s. revisions_in (paths_in s.paths.keys) s.revisions.entries };

    ghost invariant = { λ s. IsStore (paths_in s.paths.keys) s.revisions.entries × (s.null_manifest ≡ []) };
}

impl HgStore {
    /// A store without revisions.
    pub fn new(alloc: Global) -> HgStore
        ensures { result ≡ [] }
    {
        HgStore {
            alloc,
            paths: IndexSet::new(alloc),
            revisions: IndexMap::new(alloc),
            null_manifest: Manifest::new(alloc),
        }
    }

    /// A law, which does nothing when it runs: each revision was added to those before it.
    pub fn check(&self)
        ensures { AreAdded self.now }
    {
        let _revisions = &self.revisions;
    }

    // The revision of a group with a node.
    pub(crate) fn get(&self, group: Group<'_>, node: &Id) -> Option<&Held>
        ensures revision { option_map (held_revision (group_value group.entry) node.now) (option_copied result)
            ≡ revision_of self.now (group_value group.entry) node.now }
        ensures value { IfSome result (λ held. HasValue (group_value group.entry) held.now.text held.now.parsed) }
        ensures newer { IfSome result (λ held. IsNewerIn self.now held.now.p held.now.parsed) }
        ensures known { AreAdded self.now }
    {
        let group = key_group(&self.paths, group)?;
        self.revisions.get(&Key { group, node: *node })
    }

    pub(crate) fn knows(&self, group: Group<'_>, node: &Id) -> bool
        ensures { result ≡ knows self.now (group_value group.entry) node.now }
    {
        self.get(group, node).is_some()
    }

    // The manifest that the null id stands for.
    pub(crate) fn null_manifest(&self) -> &Manifest
        ensures empty { result.now ≡ [] }
        ensures known { AreAdded self.now }
    {
        &self.null_manifest
    }

    pub(crate) fn alloc(&self) -> Global
        ensures { AreAdded self.now }
    {
        self.alloc
    }

    // Puts a revision that may be added, and isn't known, behind the others.
    pub(crate) fn keep(&mut self, addition: Addition<'_>, parsed: Parsed) -> Result<(), NoMemory>
        requires faultless { addition_fault self.old (revision_value addition) ≡ None }
        requires fresh { knows self.old (group_value addition.group) addition.node ≡ false }
        requires value { HasValue (group_value addition.group) addition.text parsed }
        requires newer { IsNewerIn self.old addition.p parsed }
        requires short { length addition.text ≤ text_limit }
        requires bytes { IsBytes addition.text }
        requires path { HasFitPath (group_value addition.group) }
        ensures ok { OnOk result (self.new ≡ self.old ++ revision_value addition.entry ∷ []) }
        ensures added { OnOk result (AreAdded self.new) }
        ensures err { OnErr result (self.new ≡ self.old) }
    {
        let group = number_group(&mut self.paths, self.alloc, addition.group)?;
        let key = Key {
            group,
            node: addition.node,
        };
        let held = Held {
            p: addition.p,
            q: addition.q,
            link: addition.link,
            text: addition.text,
            parsed,
        };
        self.revisions.insert(key, held)?;
        Ok(())
    }
}
