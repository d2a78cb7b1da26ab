// Commits whose trees can be walked through.
ghost use Rattle.std.specs.Prelude.{◌↔◌, List, IfOk, IsTrue};
ghost use Rattle.view_model.specs.View.{CommitView};
ghost use Rattle.git_dump.specs.Commits.{IsWalkableCommit, AreWalkableCommits};
ghost use Rattle.tree_sum.specs.Sums.{AreSums};

use bridge_text::{Id, NoMemory};
use git_store::GitStore;
use std::alloc::Global;
use tree_sum::Sums;

/// Whether each of these ids is that of a commit whose tree can be walked through.
pub fn have_walks(alloc: Global, store: &GitStore, ids: &[Id]) -> Result<bool, NoMemory>
    ensures { IfOk result (λ have. IsTrue have ↔ ((cs : List CommitView) × AreWalkableCommits store.now ids.now cs)) }
{
    let mut sums = Sums::new(alloc);
    for id in ids {
        if !has_walk(&mut sums, store, id)? {
            return Ok(false);
        }
    }
    Ok(true)
}

/// Whether the id is that of a commit whose tree can be walked through. A tree that many commits have is summed once.
fn has_walk(sums: &mut Sums, store: &GitStore, id: &Id) -> Result<bool, NoMemory>
    requires sums { AreSums store.now sums.old }
    ensures has { IfOk result (λ has. IsTrue has ↔ ((c : CommitView) × IsWalkableCommit store.now id.now c)) }
    ensures sums { AreSums store.now sums.new }
{
    let Some(commit) = store.commit(id) else {
        return Ok(false);
    };
    sums.walks(store, &commit.tree)
}
