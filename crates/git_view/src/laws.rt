ghost use Rattle.std.specs.Prelude.{◌≡◌, None};
ghost use Rattle.git_model.specs.Commit.{Commit};
ghost use Rattle.git_model.specs.Unfold.{walk_fault};
ghost use Rattle.git_store.specs.Known.{IsCommitAt};
ghost use Rattle.view_model.specs.View.{CommitView, IsCommitView, commit_id};
ghost use Rattle.view_model.specs.Held.{IsCommitHeld};

use bridge_text::Id;
use git_store::GitStore;

/// Laws, which do nothing when they run. What a store says is the commit of an id, whose tree can be walked through, is a commit
/// with all that it stands for (`held`). It is right: its tree is the root of its files, and all ids agree (`is_view`, `node`). And
/// it is the only one of that id (`one`).
pub fn commits_are_held(store: &GitStore, id: &Id)
    ensures held { (v : Commit) → IsCommitAt store.now id.now v → walk_fault store.now v.tree_id ≡ None → (c : CommitView) × IsCommitHeld store.now id.now c × (c.value ≡ v) }
    ensures is_view { (c : CommitView) → IsCommitHeld store.now id.now c → walk_fault store.now (c.value).tree_id ≡ None → IsCommitView c }
    ensures node { (c : CommitView) → IsCommitHeld store.now id.now c → commit_id c ≡ id.now }
    ensures one { (c d : CommitView) → IsCommitHeld store.now id.now c → IsCommitHeld store.now id.now d → c ≡ d }
{
    store.check();
    let _id = id;
}
