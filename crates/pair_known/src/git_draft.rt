ghost use Rattle.std.specs.Prelude.{◌≡◌, ◌⊎◌, [], Some, None, IfOk, IfErr};
ghost use Rattle.git_model.specs.Commit as model;
ghost use Rattle.git_model.specs.Unfold.{walk_fault};
ghost use Rattle.git_store.specs.Known.{content_at, IsCommitAt};
ghost use Rattle.text_model.specs.Id.{commit};
ghost use Rattle.text_model.specs.Text.{Bytes};
ghost use Rattle.tree_shape.specs.Faults.{IsTreeFault};
ghost use Rattle.tree_shape.specs.declared.fault.TreeFault.TheVariants.{Memory};
ghost use Rattle.view_model.specs.View.{CommitView};
ghost use Rattle.view_model.specs.Held.{IsCommitHeld};
ghost use Rattle.pair_known.specs.GitDrafts.{IsGitDraft};

use crate::fresh_blobs::FreshBlobs;
use crate::known::Known;
use bridge_text::{Id, NoMemory};
use git_object::{Commit, CommitFault, Objects};
use git_store::GitStore;
use std::alloc::Global;
use tree_shape::{FileRow, Files, TreeFault, TreeList, flatten_near};

/// A commit with all that it stands for.
pub struct GitDraft {
    /// Its fields.
    pub commit: Commit,
    /// The files of its tree.
    pub files: Files,
    /// The blobs that the store doesn't hold.
    pub fresh: FreshBlobs,
    /// The trees that were made for it, subtrees before trees; none where the store holds the commit.
    pub trees: TreeList,
}

impl Drop for GitDraft {
    fn drop(self) {
        let GitDraft {
            commit: _,
            files: _,
            fresh: _,
            trees: _,
        } = self;
    }
}

impl GitDraft {
    /// The objects that come with it: its blobs and its trees.
    pub fn into_objects(self) -> (FreshBlobs, TreeList)
        ensures blobs { result.0 ≡ self.fresh }
        ensures trees { result.1 ≡ self.trees }
    {
        let GitDraft {
            commit: _,
            files: _,
            fresh,
            trees,
        } = self;
        (fresh, trees)
    }

    /// The files of its tree.
    pub fn into_files(self) -> Files
        ensures { result ≡ self.files }
    {
        let GitDraft {
            commit: _,
            files,
            fresh: _,
            trees: _,
        } = self;
        files
    }
}

/// The draft of a commit that is held, whose tree stands for files. No blob is copied, and nothing is hashed.
pub fn draft_of_commit(alloc: Global, known: &Known, id: &Id) -> Result<GitDraft, NoMemory>
    requires held { (c : CommitView) × IsCommitHeld known.now.git id.now c × (walk_fault known.now.git (c.value).tree_id ≡ None) }
    ensures draft { IfOk result (λ d. (c : CommitView) → IsCommitHeld known.now.git id.now c → IsGitDraft known.now.git d c) }
    ensures nothing_fresh { IfOk result (λ d. d.fresh ≡ []) }
    ensures no_trees { IfOk result (λ d. d.trees ≡ []) }
{
    match read_commit_draft(alloc, known, id, &[]) {
        Ok(draft) => Ok(draft),
        Err(TreeFault::Memory) => Err(NoMemory),
        Err(TreeFault::ObjectUnknown(_)) => unreachable!(),
        Err(TreeFault::PathUnfit) => unreachable!(),
        Err(TreeFault::Limit) => unreachable!(),
    }
}

/// The draft of a commit that the store holds, whatever its tree is. The fault is the first of the walk through that tree.
/// No blob is copied, and nothing is hashed; nor is a path copied that stands among these rows of another tree too.
pub fn read_commit_draft(
    alloc: Global,
    known: &Known,
    id: &Id,
    near: &[FileRow],
) -> Result<GitDraft, TreeFault>
    requires held { (content : Bytes) × (content_at commit known.now.git id.now ≡ Some content) }
    ensures fields { IfOk result (λ d. IsCommitAt known.now.git id.now d.commit) }
    ensures walks { IfOk result (λ d. walk_fault known.now.git (d.commit).tree_id ≡ None) }
    ensures draft { IfOk result (λ d. (c : CommitView) → IsCommitHeld known.now.git id.now c → IsGitDraft known.now.git d c) }
    ensures nothing_fresh { IfOk result (λ d. d.fresh ≡ []) }
    ensures no_trees { IfOk result (λ d. d.trees ≡ []) }
    ensures read { IfErr result (λ e. (e ≡ Memory) ⊎ ((v : model.Commit) × IsCommitAt known.now.git id.now v)) }
    ensures fault { IfErr result (λ e. (v : model.Commit) → IsCommitAt known.now.git id.now v → IsTreeFault (walk_fault known.now.git v.tree_id) e) }
{
    let commit = match read_commit(alloc, &known.git, id) {
        Ok(commit) => commit,
        Err(NoMemory) => return Err(TreeFault::Memory),
    };
    let files = match flatten_near(alloc, &known.git, &commit.tree, near) {
        Ok(files) => files,
        Err(fault) => return Err(fault),
    };
    Ok(GitDraft {
        commit,
        files,
        fresh: FreshBlobs::new(alloc),
        trees: TreeList::new(alloc),
    })
}

// The fields of a commit that is held.
fn read_commit(alloc: Global, store: &GitStore, id: &Id) -> Result<Commit, NoMemory>
    requires held { (content : Bytes) × (content_at commit store.now id.now ≡ Some content) }
    ensures at { IfOk result (IsCommitAt store.now id.now) }
    ensures one { IfOk result (λ x. (v : model.Commit) → IsCommitAt store.now id.now v → v ≡ x) }
{
    let (_, content) = store.content(id).unwrap();
    match Commit::read(alloc, content) {
        Ok(commit) => Ok(commit),
        Err(CommitFault::Shape(_)) => unreachable!(),
        Err(CommitFault::Memory) => Err(NoMemory),
    }
}
