// Blocks that come behind the others.
ghost use Rattle.std.specs.Prelude.{◌≡◌, ◌≤◌, ◌⊎◌, ◌++◌, [], ◌∷◌, true, false, List, Err, None, IfOk, OnOk, IsTrue, length};
ghost use Rattle.text_model.specs.Lists.{Each};
ghost use Rattle.text_model.specs.Id as kinds;
ghost use Rattle.text_model.specs.Id.{has_id, object_id};
ghost use Rattle.git_model.specs.Object.{content_fault, knows_object};
ghost use Rattle.git_model.specs.Commit.{commit_text};
ghost use Rattle.git_store.specs.Known.{AreKnown};
ghost use Rattle.pair_model.specs.Block as model;
ghost use Rattle.partner_model.specs.Clash.{commit_side_collides, changeset_side_collides};
ghost use Rattle.pair_known.specs.Partners.{git_at, hg_at};
ghost use Rattle.git_store.specs.Growth.{IsRight, HasGrown, Clash};
ghost use Rattle.pair_state.specs.Push.{PushesCommit, CommitPushed, PushesChangeset, ChangesetPushed, PushesBlock, BlockPushed, block_collides};
ghost use Rattle.pair_state.specs.Step.{IsPushed};
ghost use Rattle.pair_state.specs.declared.fault.PushFault.TheVariants.{Collision};

use crate::blocks::Block;
use crate::bodies::have_bodies;
use crate::fault::PushFault;
use crate::node_list::NodeList;
use crate::objects::{add_blobs, add_object, add_trees};
use crate::parts::add_parts;
use crate::state::State;
use crate::state_parts::StateParts;
use bridge_text::{Id, IdList, IdSet, Kind, NoMemory, object_id};
use git_object::{Commit, Objects};
use git_store::GitStore;
use pair_known::{DraftTexts, GitDraft, HgBlock, HgDraft, HgRows};
use shared_text::{Text, keep};
use std::alloc::Global;

impl State {
    /// Adds a block at the end, either side of which may be stored already. Collision comes exactly where a revision or an object
    /// of the block is known otherwise or is another part of it, where its changeset, a link or its commit stands in a block, or
    /// where the commit is new and a body of the changeset has the id of a blob with another content. After a fault the state is
    /// given up.
    pub fn push(self, block: HgBlock, commit: GitDraft) -> Result<State, PushFault>
        requires block { (blocks : List model.Block) × (b : model.Block) × PushesBlock self block commit blocks b }
        ensures ok { IfOk result (λ next. (blocks : List model.Block) (b : model.Block) → PushesBlock self block commit blocks b → BlockPushed self next blocks b) }
        ensures collision { result ≡ Err Collision → (blocks : List model.Block) (b : model.Block) → PushesBlock self block commit blocks b
            → IsTrue (block_collides self.known.hg self.known.git blocks b) }
    {
        let mut parts = self.into_parts();
        parts.put(&block, commit)?;
        Ok(State::from_parts(parts))
    }
}

impl StateParts {
    /// Adds the block of a changeset that is stored and stands in none, with its commit and the links of that commit.
    /// Collision comes exactly where an object of the commit is known with another content, or is another part of the commit,
    /// or where the commit or a link stands in a block. After a fault the state is given up.
    pub fn push_commit(
        self,
        node: Id,
        h: &HgDraft,
        links: &IdList,
        commit: GitDraft,
    ) -> Result<StateParts, PushFault>
        requires block { (blocks : List model.Block) × (b : model.Block) × PushesCommit self h.now links.now commit node blocks b }
        ensures ok { IfOk result (λ next. (blocks : List model.Block) (b : model.Block) → PushesCommit self h.now links.now commit node blocks b
            → CommitPushed self next blocks b) }
        ensures collision { result ≡ Err Collision → (blocks : List model.Block) (b : model.Block) → PushesCommit self h.now links.now commit node blocks b
            → IsTrue (commit_side_collides self.known.git blocks b) }
    {
        let mut state = self;
        state.put_commit(node, h, links, commit)?;
        Ok(state)
    }

    /// Adds the block of a commit that is stored and stands in none, with its links and its changeset. Collision comes exactly
    /// where a revision of these is null or known with another text or other parents, or is another part of the block, or where
    /// one of the changesets stands in a block. After a fault the state is given up. The files of the changeset, which aren't needed
    /// any more, come back.
    pub fn push_changeset(self, id: Id, block: HgBlock) -> Result<(StateParts, HgRows), PushFault>
        requires block { (blocks : List model.Block) × (b : model.Block) × PushesChangeset self block id blocks b }
        ensures ok { IfOk result (λ next. (blocks : List model.Block) (b : model.Block) → PushesChangeset self block id blocks b → ChangesetPushed self next.0 blocks b) }
        ensures rows { IfOk result (λ next. next.1 ≡ (block.last).rows) }
        ensures collision { result ≡ Err Collision → (blocks : List model.Block) (b : model.Block) → PushesChangeset self block id blocks b
            → IsTrue (changeset_side_collides self.known.hg blocks b) }
    {
        let mut state = self;
        let rows = state.put_changeset(id, block)?;
        Ok((state, rows))
    }

    // Adds a block to a state that is kept.
    fn put(&mut self, block: &HgBlock, commit: GitDraft) -> Result<(), PushFault>
        requires block { (blocks : List model.Block) × (b : model.Block) × PushesBlock self.old block.now commit blocks b }
        ensures ok { OnOk result ((blocks : List model.Block) (b : model.Block) → PushesBlock self.old block.now commit blocks b → BlockPushed self.old self.new blocks b) }
        ensures collision { result ≡ Err Collision → (blocks : List model.Block) (b : model.Block) → PushesBlock self.old block.now commit blocks b
            → IsTrue (block_collides self.old.known.hg self.old.known.git blocks b) }
    {
        let text = text_of_commit(self.alloc, &commit.commit)?;
        let id = object_id(Kind::Commit, text.as_slice());
        if self.known.partners.hg_of(&id).is_some() {
            return Err(PushFault::Collision);
        }
        let stored = is_stored(&self.known.git, &id);
        let nodes = add_parts(
            self.alloc,
            &mut self.known.hg,
            &self.changesets,
            block,
            DraftTexts::none(),
        )?;
        add_commit(&mut self.known.git, commit, id, text)?;
        let agreed = have_bodies(&self.known, &self.agreed, &nodes.last);
        check_bodies(agreed, stored)?;
        put_where(&mut self.agreed, nodes.last, agreed)?;
        self.insert(nodes.links.as_slice(), nodes.last, id)?;
        Ok(())
    }

    // The same on a state that is kept.
    fn put_commit(
        &mut self,
        node: Id,
        h: &HgDraft,
        links: &IdList,
        commit: GitDraft,
    ) -> Result<(), PushFault>
        requires block { (blocks : List model.Block) × (b : model.Block) × PushesCommit self.old h.now links.now commit node blocks b }
        ensures ok { OnOk result ((blocks : List model.Block) (b : model.Block) → PushesCommit self.old h.now links.now commit node blocks b
            → CommitPushed self.old self.new blocks b) }
        ensures collision { result ≡ Err Collision → (blocks : List model.Block) (b : model.Block) → PushesCommit self.old h.now links.now commit node blocks b
            → IsTrue (commit_side_collides self.old.known.git blocks b) }
    {
        if self.changesets.contains_any(links.as_slice()) {
            return Err(PushFault::Collision);
        }
        let text = text_of_commit(self.alloc, &commit.commit)?;
        let id = object_id(Kind::Commit, text.as_slice());
        if self.known.partners.hg_of(&id).is_some() {
            return Err(PushFault::Collision);
        }
        add_commit(&mut self.known.git, commit, id, text)?;
        if !have_bodies(&self.known, &self.agreed, &node) {
            return Err(PushFault::Collision);
        }
        self.agreed.insert(node)?;
        self.insert(links.as_slice(), node, id)?;
        Ok(())
    }

    // The same on a state that is kept.
    fn put_changeset(&mut self, id: Id, block: HgBlock) -> Result<HgRows, PushFault>
        requires block { (blocks : List model.Block) × (b : model.Block) × PushesChangeset self.old block id blocks b }
        ensures ok { OnOk result ((blocks : List model.Block) (b : model.Block) → PushesChangeset self.old block id blocks b → ChangesetPushed self.old self.new blocks b) }
        ensures rows { IfOk result (λ rows. rows ≡ (block.last).rows) }
        ensures collision { result ≡ Err Collision → (blocks : List model.Block) (b : model.Block) → PushesChangeset self.old block id blocks b
            → IsTrue (changeset_side_collides self.old.known.hg blocks b) }
    {
        let mut block = block;
        let texts = std::mem::replace(&mut block.last.texts, DraftTexts::none());
        let nodes = add_parts(
            self.alloc,
            &mut self.known.hg,
            &self.changesets,
            &block,
            texts,
        )?;
        self.insert(nodes.links.as_slice(), nodes.last, id)?;
        Ok(block.into_last().into_rows())
    }

    // Makes a changeset and a commit partners, of which none has one, and puts them behind the others.
    fn insert(&mut self, links: &[Id], node: Id, id: Id) -> Result<(), NoMemory>
        requires few { length links.now ≤ 62 }
        requires node_is_free { git_at self.old.known.partners node ≡ None }
        requires id_is_free { hg_at self.old.known.partners id ≡ None }
        ensures { OnOk result (IsPushed self.old self.new links.now node id) }
    {
        self.known.partners.add(node, id)?;
        let count = links.len() as u8;
        self.blocks.push(Block {
            node,
            commit: id,
            links: count,
        })?;
        push_all(&mut self.changesets, links)?;
        self.changesets.push(node)?;
        self.commits.push(id)?;
        Ok(())
    }
}

// The bodies of a new commit's changeset must be its blobs.
fn check_bodies(agreed: bool, stored: bool) -> Result<(), PushFault>
    ensures ok { OnOk result ((agreed ≡ true) ⊎ (stored ≡ true)) }
    ensures collision { result ≡ Err Collision → (agreed ≡ false) × (stored ≡ false) }
{
    if agreed {
        return Ok(());
    }
    if stored {
        return Ok(());
    }
    Err(PushFault::Collision)
}

// Whether an object with this id is stored.
fn is_stored(git: &GitStore, id: &Id) -> bool
    ensures { result ≡ knows_object git.now id.now }
{
    git.content(id).is_some()
}

// Puts a node in where it is asked.
fn put_where(set: &mut IdSet, node: Id, asked: bool) -> Result<(), NoMemory>
    ensures { OnOk result ((x : kinds.Id) → has_id set.new x ≡ true → (has_id set.old x ≡ true) ⊎ ((asked ≡ true) × (x ≡ node))) }
{
    if asked {
        set.insert(node)?;
    }
    Ok(())
}

// Puts nodes at the end, one after the other.
fn push_all(list: &mut NodeList, nodes: &[Id]) -> Result<(), NoMemory>
    ensures { OnOk result (list.new ≡ list.old ++ nodes.now) }
{
    for node in nodes {
        list.push(*node)?;
    }
    Ok(())
}

fn text_of_commit(alloc: Global, commit: &Commit) -> Result<Text, NoMemory>
    ensures { IfOk result (λ text. text ≡ commit_text commit.now) }
{
    let mut text = Vec::new(alloc);
    commit.write_into(&mut text)?;
    keep(text)
}

// Adds the blobs and trees of a commit, and the commit with this id and text.
fn add_commit(git: &mut GitStore, commit: GitDraft, id: Id, text: Text) -> Result<(), PushFault>
    requires blobs { Each IsRight commit.fresh }
    requires trees { Each IsRight commit.trees }
    requires its_id { object_id kinds.commit text ≡ id }
    requires fits { content_fault kinds.commit text ≡ None }
    ensures ok { OnOk result (HasGrown git.old git.new (commit.fresh ++ commit.trees ++ record { id = id; kind = kinds.commit; content = text } ∷ [])) }
    ensures sound { OnOk result (AreKnown git.new) }
    ensures collision { result ≡ Err Collision → Clash git.old (commit.fresh ++ commit.trees ++ record { id = id; kind = kinds.commit; content = text } ∷ []) }
{
    let (fresh, trees) = commit.into_objects();
    add_blobs(git, fresh)?;
    add_trees(git, trees)?;
    add_object(git, id, Kind::Commit, text)
}
