ghost use Rattle.std.specs.Prelude.{◌≡◌, not, List, map, None, unwrap_or, if◌then◌else◌, IfOk};
ghost use Rattle.std.specs.List.{last_or};
ghost use Rattle.text_model.specs.Id as text;
ghost use Rattle.view_model.specs.View.{ChangesetView, CommitView};
ghost use Rattle.pair_model.specs.Block.{Block};
ghost use Rattle.pair_model.specs.Octopus.{parents_of_commit, first_of, second_of};
ghost use Rattle.pair_known.specs.Over.{IsCommitOver};
ghost use Rattle.pair_known.specs.Partners.{hg_at};
ghost use Rattle.file_rule.specs.Parents.{IsParent, IsParentView};
ghost use Rattle.changeset_rule.specs.Parents.{AreParentNodes};

use bridge_text::{Id, IdList, NoMemory};
use file_rule::{Parent, parent_of};
use hg_store::HgStore;
use link_rule::link_nodes;
use pair_known::{GitDraft, Known, Partners};
use std::alloc::Global;

/// The nodes of the parents of a commit's changeset, and those of stored changesets that have the same manifests.
#[derive(Clone, Copy, Debug)]
pub struct ParentNodes {
    /// The last link, or the partner of the commit's first parent where there is no link; the null id where the commit has no parent.
    pub p1: Id,
    /// The partner of the commit's last parent; the null id where the commit has one parent or none.
    pub p2: Id,
    /// The partner of the commit's first parent, whose manifest each link has.
    pub first: Id,
    /// The second parent; or the partner of the commit's first parent, where the second parent has the node of a link.
    pub second: Id,
}

/// The nodes of the parents of the changeset of a commit whose parents have partners. Links aren't stored: their texts are hashed.
pub fn parent_nodes(alloc: Global, known: &Known, c: &GitDraft) -> Result<ParentNodes, NoMemory>
    requires over { (blocks : List Block) × (v : CommitView) × IsCommitOver known.now blocks c.now v }
    ensures { IfOk result (λ nodes. (blocks : List Block) (v : CommitView) → IsCommitOver known.now blocks c.now v
        → AreParentNodes known.now.hg nodes (parents_of_commit blocks v)) }
{
    let links = link_nodes(alloc, known, c)?;
    let parents = c.commit.parents.as_slice();
    let first = first_partner(&known.partners, parents);
    let p2 = last_partner(&known.partners, parents);
    Ok(ParentNodes {
        p1: last_or(&links, first),
        p2,
        first,
        second: stored_at(&links, p2, first),
    })
}

/// The parent with a node, which is null where there is none, and the manifest of a stored changeset.
pub fn parent_with<'a>(store: &'a HgStore, node: &Id, stored: &Id) -> Parent<'a>
    requires known { (v : ChangesetView) × IsParentView store.now stored.now v }
    ensures view { (v : ChangesetView) → IsParentView store.now stored.now v → IsParent store.now result v }
    ensures there { result.is_there ≡ not (text.is_null node.now) }
{
    let parent = parent_of(store, stored);
    Parent {
        is_there: !node.is_null(),
        manifest_node: parent.manifest_node,
        manifest: parent.manifest,
    }
}

// The node itself, or the base of the links where one of them has it.
fn stored_at(links: &IdList, node: Id, base: Id) -> Id
    ensures { result ≡ (if text.has_id links.now node then base else node) }
{
    if has_node(links, &node) { base } else { node }
}

// The partner of the first of a commit's parents; the null id where it has none.
fn first_partner(partners: &Partners, ids: &[Id]) -> Id
    ensures { result ≡ first_of (map (λ id. unwrap_or (hg_at partners.now id) text.null) ids.now) }
{
    match ids.first() {
        Some(id) => partners.hg_of(id).unwrap_or(Id::NULL),
        None => Id::NULL,
    }
}

// The partner of the last of a commit's parents; the null id where it has one or none.
fn last_partner(partners: &Partners, ids: &[Id]) -> Id
    ensures { result ≡ second_of (map (λ id. unwrap_or (hg_at partners.now id) text.null) ids.now) }
{
    if ids.len() < 2 {
        return Id::NULL;
    }
    partners.hg_of(&ids[ids.len() - 1]).unwrap_or(Id::NULL)
}

// The last of the nodes, or this one where there is none.
fn last_or(nodes: &IdList, node: Id) -> Id
    ensures { result ≡ unwrap_or (last_or None nodes.now) node }
{
    match nodes.as_slice().last() {
        Some(last) => *last,
        None => node,
    }
}

// Whether the node is among these.
fn has_node(nodes: &IdList, node: &Id) -> bool
    ensures { result ≡ text.has_id nodes.now node.now }
{
    nodes.as_slice().iter().any(|id| node == id)
}
