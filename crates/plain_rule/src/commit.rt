ghost use Rattle.std.specs.Prelude.{◌≡◌, ◌↔◌, List, None, Some, IfOk, IsTrue, MatchOption, slice_get};
ghost use Rattle.text_model.specs.Id as text;
ghost use Rattle.git_store.specs.Known.{AreKnown};
ghost use Rattle.view_model.specs.View.{CommitView};
ghost use Rattle.pair_model.specs.Block.{Block, block_of_node};
ghost use Rattle.pair_model.specs.Plain.{IsPlainCommit};
ghost use Rattle.pair_known.specs.Over.{IsCommitOver};
ghost use Rattle.commit_rule.specs.Parts.{IsTreeOf, residue_below};
ghost use Rattle.plain_rule.specs.CommitHead.{line_again, first_partner, IsHandedOn, IsPlainHead};

use bridge_text::{Id, NoMemory};
use git_object::{Commit, Residue};
use git_store::GitStore;
use name_rule::{line_of_user, user_of_line};
use pair_known::{GitDraft, Known};
use std::alloc::Global;
use tree_residue::{is_handed_on, residue_at};

/// Whether a commit whose parents have partners is the one that the rule gives for its changeset: it has two parents at most and no
/// headers, its committer is its author, the author's line and the message come back from the user, the date and the description, and
/// what its tree has beside the files of the changeset is what the commit of its first parent hands on to them.
pub fn is_plain_commit(alloc: Global, known: &Known, c: &GitDraft) -> Result<bool, NoMemory>
    requires over { (blocks : List Block) × (v : CommitView) × IsCommitOver known.now blocks c.now v }
    ensures { IfOk result (λ plain. (blocks : List Block) (v : CommitView) → IsCommitOver known.now blocks c.now v
        → (IsTrue plain ↔ IsPlainCommit blocks v)) }
{
    if !has_plain_head(alloc, &c.commit)? {
        return Ok(false);
    }
    has_what_is_handed_on(alloc, known, c)
}

/// Whether what the tree of a commit, whose parents have partners, has beside the files of the changeset is what the commit of its first
/// parent hands on to them.
pub fn has_what_is_handed_on(alloc: Global, known: &Known, c: &GitDraft) -> Result<bool, NoMemory>
    ensures same { IfOk result (λ same. (blocks : List Block) (v : CommitView) → IsCommitOver known.now blocks c.now v
        → (IsTrue same ↔ IsHandedOn blocks v)) }
    ensures known { (first : text.Id) → slice_get (c.now.commit).parents 0 ≡ Some first → AreKnown known.now.git }
{
    let old = residue_below(alloc, &known.git, first_tree(known, c))?;
    is_handed_on(alloc, &old, &c.files)
}

// The tree of the first parent; `None` exactly where a commit has no parent.
fn first_tree(known: &Known, c: &GitDraft) -> Option<Id>
    ensures tree { (blocks : List Block) (v : CommitView) → IsCommitOver known.now blocks c.now v
        → MatchOption result (block_of_node blocks (first_partner blocks v) ≡ None) (IsTreeOf blocks (first_partner blocks v)) }
    ensures known { (first : text.Id) → slice_get (c.now.commit).parents 0 ≡ Some first → AreKnown known.now.git }
{
    let Some(first) = c.commit.parents.as_slice().first() else {
        return None;
    };
    match known.git.commit(first) {
        Some(parent) => Some(parent.tree),
        None => None,
    }
}

// What a tree has beside the files of a changeset, where there is one.
fn residue_below(alloc: Global, git: &GitStore, root: Option<Id>) -> Result<Residue, NoMemory>
    ensures { IfOk result (λ residue. residue ≡ residue_below git.now root) }
{
    match root {
        Some(root) => residue_at(alloc, git, &root),
        None => Ok(Residue::new(alloc)),
    }
}

// Whether a commit has two parents at most, and its other fields come back from its changeset.
fn has_plain_head(alloc: Global, commit: &Commit) -> Result<bool, NoMemory>
    ensures { IfOk result (λ plain. IsTrue plain ↔ IsPlainHead commit.now) }
{
    if commit.parents.len() > 2 {
        return Ok(false);
    }
    let author = commit.author.as_slice();
    if !commit.headers.is_empty() || commit.committer.as_slice() != author {
        return Ok(false);
    }
    if !commit.message.as_slice().ends_with(b"\n") {
        return Ok(false);
    }
    comes_back(alloc, author)
}

// Whether an author's line comes back from its user and its date.
fn comes_back(alloc: Global, line: &[u8]) -> Result<bool, NoMemory>
    ensures { IfOk result (λ back. IsTrue back ↔ line_again line.now ≡ line.now) }
{
    let author = user_of_line(alloc, line)?;
    let again = line_of_user(alloc, author.user.as_slice(), author.time, author.tz)?;
    Ok(again.as_slice() == line)
}
