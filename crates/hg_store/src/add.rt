ghost use Rattle.std.specs.Prelude.{◌≡◌, ◌≢◌, ◌≤◌, [], None, Err, false, not, ◌&&◌, ◌||◌, length, IfOk, OnOk, OnErr, IfErr, IfSome, IsTrue};
ghost use Rattle.text_model.specs.Text.{IsBytes};
ghost use Rattle.text_model.specs.Id.{is_null, node_id};
ghost use Rattle.text_model.specs.Path.{is_fit_path};
ghost use Rattle.hg_model.specs.Revision.{Manifests, addition_fault, known_after, ancestry_fault, text_fault, is_known_parent, is_bad_link, knows};
ghost use Rattle.hg_store.specs.Faults.{IsFault};
ghost use Rattle.hg_store.specs.declared.fault.AddFault.TheVariants.{Memory};
ghost use Rattle.hg_store.specs.Groups.{group_value, revision_value, HasValue, IsNewerIn};
ghost use Rattle.hg_store.specs.Known.{AreAdded, changeset_revision, manifest_revision, file_revision, answer_of, text_limit, HasFitPath, HasBlob, knows_same};
ghost use Rattle.hg_store.specs.Views.{IsManifestOf};

use crate::addition::Addition;
use crate::fault::AddFault;
use crate::group::Group;
use crate::held::Parsed;
use crate::parse::parse;
use crate::store::HgStore;
use bridge_text::{Added, Id, node_id};
use hg_manifest::Near;
use shared_text::Text;

impl HgStore {
    /// Adds a changeset with its two parents in order, its link, which is its own node, and its text of at most 2^26 bytes.
    /// The faults are those of `AddFault`, in their order, each exactly where it says; after a fault the store is as it was.
    /// Known is the answer where the same changeset is there, and then nothing changes.
    pub fn add_changeset(
        &mut self,
        node: Id,
        p1: Id,
        p2: Id,
        link: Id,
        text: Text,
    ) -> Result<Added, AddFault>
        requires short { length text ≤ text_limit }
        ensures faultless { OnOk result (addition_fault self.old (changeset_revision node p1 p2 link text) ≡ None) }
        ensures answer { IfOk result (λ added. added ≡ answer_of self.old (changeset_revision node p1 p2 link text)) }
        ensures ok { OnOk result (self.new ≡ known_after self.old (changeset_revision node p1 p2 link text)) }
        ensures added { OnOk result (AreAdded self.new) }
        ensures fault { IfErr result (IsFault (addition_fault self.old (changeset_revision node p1 p2 link text))) }
        ensures err { OnErr result (self.new ≡ self.old) }
    {
        self.add(Addition {
            group: Group::Changesets,
            node,
            p: p1,
            q: p2,
            link,
            text,
        })
    }

    /// Adds a manifest with its two parents in any order, its link, which is a changeset, and its text of at most 2^26 bytes.
    /// The faults are those of `AddFault`, in their order, each exactly where it says; after a fault the store is as it was.
    /// Known is the answer where the same manifest is there, and then nothing changes.
    pub fn add_manifest(
        &mut self,
        node: Id,
        p: Id,
        q: Id,
        link: Id,
        text: Text,
    ) -> Result<Added, AddFault>
        requires short { length text ≤ text_limit }
        ensures faultless { OnOk result (addition_fault self.old (manifest_revision node p q link text) ≡ None) }
        ensures answer { IfOk result (λ added. added ≡ answer_of self.old (manifest_revision node p q link text)) }
        ensures ok { OnOk result (self.new ≡ known_after self.old (manifest_revision node p q link text)) }
        ensures added { OnOk result (AreAdded self.new) }
        ensures fault { IfErr result (IsFault (addition_fault self.old (manifest_revision node p q link text))) }
        ensures err { OnErr result (self.new ≡ self.old) }
    {
        self.add(Addition {
            group: Group::Manifests,
            node,
            p,
            q,
            link,
            text,
        })
    }

    /// Adds a revision of the file at a fit path with its two parents in any order, its link, which is a changeset, and its
    /// text of at most 2^26 bytes.
    /// The faults are those of `AddFault`, in their order, each exactly where it says; after a fault the store is as it was.
    /// Known is the answer where the same revision is there, and then nothing changes.
    pub fn add_file(
        &mut self,
        path: &[u8],
        node: Id,
        p: Id,
        q: Id,
        link: Id,
        text: Text,
    ) -> Result<Added, AddFault>
        requires fit { IsTrue (is_fit_path path.now) }
        requires short { length text ≤ text_limit }
        ensures faultless { OnOk result (addition_fault self.old (file_revision path.now node p q link text) ≡ None) }
        ensures answer { IfOk result (λ added. added ≡ answer_of self.old (file_revision path.now node p q link text)) }
        ensures ok { OnOk result (self.new ≡ known_after self.old (file_revision path.now node p q link text)) }
        ensures added { OnOk result (AreAdded self.new) }
        ensures fault { IfErr result (IsFault (addition_fault self.old (file_revision path.now node p q link text))) }
        ensures err { OnErr result (self.new ≡ self.old) }
    {
        self.add(Addition {
            group: Group::FilesAt(path),
            node,
            p,
            q,
            link,
            text,
        })
    }

    /// Adds a revision of any group with its text of at most 2^26 bytes; the path of a file is fit.
    /// The faults are those of `AddFault`, in their order, each exactly where it says; after a fault the store is as it was.
    /// Known is the answer where the same revision is there, and then nothing changes.
    pub fn add(&mut self, addition: Addition<'_>) -> Result<Added, AddFault>
        requires short { length addition.text ≤ text_limit }
        requires path { HasFitPath (group_value addition.group) }
        ensures faultless { OnOk result (addition_fault self.old (revision_value addition.entry) ≡ None) }
        ensures answer { IfOk result (λ added. added ≡ answer_of self.old (revision_value addition.entry)) }
        ensures ok { OnOk result (self.new ≡ known_after self.old (revision_value addition.entry)) }
        ensures added { OnOk result (AreAdded self.new) }
        ensures fault { IfErr result (IsFault (addition_fault self.old (revision_value addition.entry))) }
        ensures err { OnErr result (self.new ≡ self.old) }
    {
        self.check_ancestry(&addition)?;
        if self.knows_same(&addition) {
            return Ok(Added::Known);
        }
        let parsed = self.parse_text(&addition)?;
        self.keep(addition, parsed)?;
        Ok(Added::New)
    }

    /// Adds a revision of any group as `add` does, where its node is known to be that of its parents and its text; where
    /// the id that a file's body has as a Git blob is known too, it comes with it. Nothing that is known is hashed again.
    pub fn add_hashed(
        &mut self,
        addition: Addition<'_>,
        blob: Option<Id>,
    ) -> Result<Added, AddFault>
        requires its_node { node_id addition.p addition.q addition.text ≡ addition.node }
        requires its_blob { IfSome blob (HasBlob addition.text) }
        requires short { length addition.text ≤ text_limit }
        requires path { HasFitPath (group_value addition.group) }
        ensures faultless { OnOk result (addition_fault self.old (revision_value addition.entry) ≡ None) }
        ensures answer { IfOk result (λ added. added ≡ answer_of self.old (revision_value addition.entry)) }
        ensures ok { OnOk result (self.new ≡ known_after self.old (revision_value addition.entry)) }
        ensures added { OnOk result (AreAdded self.new) }
        ensures fault { IfErr result (IsFault (addition_fault self.old (revision_value addition.entry))) }
        ensures err { OnErr result (self.new ≡ self.old) }
    {
        self.check_ancestry(&addition)?;
        if self.knows_same(&addition) {
            return Ok(Added::Known);
        }
        let parsed = self.parse_hashed(&addition, blob)?;
        self.keep(addition, parsed)?;
        Ok(Added::New)
    }

    /// The faults of an addition that don't ask for its text: ParentOrder, ParentUnknown, LinkUnknown, in this order.
    /// It takes no memory.
    #[tactic(auto, unfolding(hg_model::specs::Revision::ancestry_fault))]
    pub fn check_ancestry(&self, addition: &Addition<'_>) -> Result<(), AddFault>
        ensures ok { OnOk result (ancestry_fault self.now (revision_value addition.now) ≡ None) }
        ensures fault { IfErr result (IsFault (ancestry_fault self.now (revision_value addition.now))) }
        ensures memory { result ≢ Err Memory }
    {
        if addition.has_bad_order() {
            return Err(AddFault::ParentOrder);
        }
        if !self.has_parents(addition) {
            return Err(AddFault::ParentUnknown);
        }
        if self.has_bad_link(addition) {
            return Err(AddFault::LinkUnknown);
        }
        Ok(())
    }

    fn has_parents(&self, addition: &Addition<'_>) -> bool
        ensures { result ≡ (is_known_parent self.now (group_value addition.now.group) addition.now.p
            && is_known_parent self.now (group_value addition.now.group) addition.now.q) }
    {
        self.has_parent(addition.group, &addition.p) && self.has_parent(addition.group, &addition.q)
    }

    fn has_parent(&self, group: Group<'_>, parent: &Id) -> bool
        ensures { result ≡ is_known_parent self.now (group_value group.entry) parent.now }
    {
        parent.is_null() || self.knows(group, parent)
    }

    fn has_bad_link(&self, addition: &Addition<'_>) -> bool
        ensures { result ≡ is_bad_link self.now (group_value addition.now.group) (revision_value addition.now) }
    {
        match addition.group {
            Group::Changesets => addition.link != addition.node,
            Group::Manifests => !self.knows(Group::Changesets, &addition.link),
            Group::FilesAt(_) => !self.knows(Group::Changesets, &addition.link),
        }
    }

    // Whether the node is known with this text and these parents.
    fn knows_same(&self, addition: &Addition<'_>) -> bool
        ensures value { result ≡ knows_same self.now (revision_value addition.now) }
        ensures known { AreAdded self.now }
    {
        match self.get(addition.group, &addition.node) {
            Some(held) => addition.is_like(held),
            None => false,
        }
    }

    // What the text says; or the faults that it shows.
    #[tactic(auto, unfolding(hg_model::specs::Revision::text_fault))]
    fn parse_text(&self, addition: &Addition<'_>) -> Result<Parsed, AddFault>
        requires other { knows_same self.now (revision_value addition.now) ≡ false }
        requires parents { ancestry_fault self.now (revision_value addition.now) ≡ None }
        ensures ok { OnOk result (text_fault self.now (revision_value addition.now) ≡ None) }
        ensures fresh { OnOk result (knows self.now (group_value addition.now.group) addition.now.node ≡ false) }
        ensures value { IfOk result (HasValue (group_value addition.now.group) addition.now.text) }
        ensures newer { IfOk result (IsNewerIn self.now addition.now.p) }
        ensures bytes { OnOk result (IsBytes addition.now.text) }
        ensures fault { IfErr result (IsFault (text_fault self.now (revision_value addition.now))) }
    {
        if node_id(&addition.p, &addition.q, addition.text.as_slice()) != addition.node {
            return Err(AddFault::NodeWrong);
        }
        self.parse_hashed(addition, None)
    }

    // What the text says, or the faults that it shows, where the node is that of the parents and the text. The id that a
    // file's body has as a Git blob may be given.
    #[tactic(auto, unfolding(hg_model::specs::Revision::text_fault))]
    fn parse_hashed(&self, addition: &Addition<'_>, blob: Option<Id>) -> Result<Parsed, AddFault>
        requires other { knows_same self.now (revision_value addition.now) ≡ false }
        requires its_node { node_id addition.now.p addition.now.q addition.now.text ≡ addition.now.node }
        requires its_blob { IfSome blob (HasBlob addition.now.text) }
        requires parents { ancestry_fault self.now (revision_value addition.now) ≡ None }
        ensures ok { OnOk result (text_fault self.now (revision_value addition.now) ≡ None) }
        ensures fresh { OnOk result (knows self.now (group_value addition.now.group) addition.now.node ≡ false) }
        ensures value { IfOk result (HasValue (group_value addition.now.group) addition.now.text) }
        ensures newer { IfOk result (IsNewerIn self.now addition.now.p) }
        ensures bytes { OnOk result (IsBytes addition.now.text) }
        ensures fault { IfErr result (IsFault (text_fault self.now (revision_value addition.now))) }
    {
        let near = self.near(addition);
        let parsed = parse(self.alloc(), addition.group, &addition.text, blob, near)?;
        if self.is_taken(addition) {
            return Err(AddFault::Collision);
        }
        Ok(parsed)
    }

    // The lines of the manifest of the first parent, where the addition is a manifest and has one.
    fn near(&self, addition: &Addition<'_>) -> Near<'_>
        requires parents { ancestry_fault self.now (revision_value addition.now) ≡ None }
        ensures { group_value addition.now.group ≡ Manifests → IsManifestOf self.now addition.now.p result }
    {
        match addition.group {
            Group::Changesets => Near::none(),
            Group::Manifests => match self.lines(&addition.p) {
                Some(lines) => lines,
                None => unreachable!(),
            },
            Group::FilesAt(_) => Near::none(),
        }
    }

    // Whether the node is null or known.
    fn is_taken(&self, addition: &Addition<'_>) -> bool
        ensures { result ≡ (is_null addition.now.node || knows self.now (group_value addition.now.group) addition.now.node) }
    {
        addition.node.is_null() || self.knows(addition.group, &addition.node)
    }
}
