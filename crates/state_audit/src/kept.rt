// Whether the commit of a block is the partner of its changeset.
ghost use Rattle.std.specs.Prelude.{◌≡◌, ◌↔◌, ◌&&◌, List, map, None, IfOk, IsTrue, bytes_eq};
ghost use Rattle.std.specs.List.{list_all};
ghost use Rattle.text_model.specs.Id.{tree, same_kind};
ghost use Rattle.bridge_text.specs.Kinds.{object_kind};
ghost use Rattle.git_model.specs.Commit.{commit_text};
ghost use Rattle.git_model.specs.Unfold.{walk_fault};
ghost use Rattle.git_store.specs.Known.{AreKnown, knows_same};
ghost use Rattle.view_model.specs.View.{ChangesetView, CommitView, SameCommit, changeset_node};
ghost use Rattle.view_model.specs.Held.{IsCommitHeld};
ghost use Rattle.pair_model.specs.Block.{Block};
ghost use Rattle.pair_model.specs.Octopus as octopus;
ghost use Rattle.pair_known.specs.Ruled.{IsMadeCommit};
ghost use Rattle.pair_choice.specs.Chosen.{IsChosenCommit};

use bridge_text::{Id, IdList, Kind, NoMemory};
use git_object::{Commit, Objects};
use git_store::GitStore;
use link_rule::link_nodes;
use pair_known::{GitDraft, Known, draft_of_commit};
use std::alloc::Global;
use tree_shape::{FileRow, Files, TreeItem, TreeList};

/// Whether the commit with this id is the one that a draft stands for, whose text this is: they have the same fields, and the same files by path, mode and id.
pub fn is_kept(
    alloc: Global,
    known: &Known,
    id: &Id,
    partner: &GitDraft,
    text: &[u8],
) -> Result<bool, NoMemory>
    requires held { (e : CommitView) × IsCommitHeld known.now.git id.now e × (walk_fault known.now.git (e.value).tree_id ≡ None) }
    requires text { text.now ≡ commit_text partner.now.commit }
    ensures { IfOk result (λ same. (e c : CommitView) → IsCommitHeld known.now.git id.now e → IsMadeCommit known.now.git partner.now c → (IsTrue same ↔ SameCommit e c)) }
{
    if !has_text(&known.git, id, text) {
        return Ok(false);
    }
    // Each tree of the draft's files is among those made for it or is stored. Where all are stored, a commit of this text has these files.
    if are_stored(&known.git, &partner.trees) {
        return Ok(true);
    }
    let kept = draft_of_commit(alloc, known, id)?;
    Ok(are_same_files(&kept.files, &partner.files))
}

// Whether the commit with this id has this text.
fn has_text(git: &GitStore, id: &Id, text: &[u8]) -> bool
    ensures same { (e : CommitView) → IsCommitHeld git.now id.now e → result ≡ bytes_eq (commit_text e.value) text.now }
    ensures known { AreKnown git.now }
{
    match git.content(id) {
        Some((_, content)) => content == text,
        None => false,
    }
}

// Whether the store holds each of the trees.
fn are_stored(git: &GitStore, trees: &TreeList) -> bool
    ensures { result ≡ list_all (knows_same git.now) trees.now }
{
    trees.as_slice().iter().all(
        |made: &TreeItem| -> bool
            ensures { result ≡ knows_same git.entry.now made.now }
        { is_stored(git, made) },
    )
}

// Whether the store holds the tree.
fn is_stored(git: &GitStore, made: &TreeItem) -> bool
    ensures { result ≡ knows_same git.now made.now }
{
    match git.content(&made.id) {
        Some((kind, content)) => is_tree(kind, content, made.content()),
        None => false,
    }
}

// Whether an object of this kind and content is the tree with this text.
fn is_tree(kind: Kind, content: &[u8], text: &[u8]) -> bool
    ensures { result ≡ (same_kind tree (object_kind kind) && bytes_eq text.now content.now) }
{
    Kind::Tree == kind && text == content
}

// Whether two lists of files are the same.
fn are_same_files(a: &Files, b: &Files) -> bool
    ensures { IsTrue result ↔ (a.now ≡ b.now) }
{
    if a.len() != b.len() {
        return false;
    }
    for place in 0..a.len() {
        if !is_same_file(a.at(place), b.at(place)) {
            return false;
        }
    }
    true
}

fn is_same_file(a: &FileRow, b: &FileRow) -> bool
    ensures { IsTrue result ↔ (a.now ≡ b.now) }
{
    a.path() == b.path() && a.mode() == b.mode() && a.blob() == b.blob()
}

/// The text of a commit.
pub fn text_of(alloc: Global, commit: &Commit) -> Result<Vec<u8>, NoMemory>
    ensures { IfOk result (λ text. text.items ≡ commit_text commit.now) }
{
    let mut text = Vec::new(alloc);
    commit.write_into(&mut text)?;
    Ok(text)
}

/// Whether these are the nodes of the links of a partner; it has none where it has at most two parents.
pub fn has_links(
    alloc: Global,
    known: &Known,
    partner: &GitDraft,
    links: &[Id],
) -> Result<bool, NoMemory>
    requires chosen { (blocks : List Block) × (v : ChangesetView) × (c : CommitView) × IsChosenCommit known.now blocks v partner.now c }
    ensures { IfOk result (λ same. (blocks : List Block) (v : ChangesetView) (c : CommitView) → IsChosenCommit known.now blocks v partner.now c
        → (IsTrue same ↔ (links.now ≡ map changeset_node (octopus.links_of blocks c)))) }
{
    if partner.commit.parents.len() <= 2 {
        return Ok(links.is_empty());
    }
    let nodes = link_nodes(alloc, known, partner)?;
    Ok(are_same_nodes(&nodes, links))
}

fn are_same_nodes(nodes: &IdList, links: &[Id]) -> bool
    ensures { IsTrue result ↔ (links.now ≡ nodes.now) }
{
    nodes.as_slice() == links
}
