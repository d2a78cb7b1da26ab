// The parents of a commit.
ghost use Rattle.std.specs.Prelude.{◌≡◌, None, IfOk, IfErr, OnOk};
ghost use Rattle.git_model.specs.Tree.{has_distinct};
ghost use Rattle.git_store.specs.Faults.{IsFault};
ghost use Rattle.git_store.specs.Held.{parents_fault};

use crate::fault::GitAddFault;
use bridge_text::{Id, IdSet, NoMemory, PARENT_LIMIT};
use std::alloc::Global;

/// Checks that no parent is named twice, and then that there are at most 64.
pub fn check_parents(alloc: Global, parents: &[Id]) -> Result<(), GitAddFault>
    ensures ok { OnOk result (parents_fault parents.now ≡ None) }
    ensures fault { IfErr result (IsFault (parents_fault parents.now)) }
{
    if !are_distinct(alloc, parents)? {
        return Err(GitAddFault::ParentTwice);
    }
    if parents.len() > PARENT_LIMIT {
        return Err(GitAddFault::ParentLimit);
    }
    Ok(())
}

// Whether no id stands twice. The time is that of one look-up for each.
fn are_distinct(alloc: Global, ids: &[Id]) -> Result<bool, NoMemory>
    ensures { IfOk result (λ distinct. distinct ≡ has_distinct ids.now) }
{
    let mut seen = IdSet::new(alloc);
    for id in ids {
        let new = seen.insert(*id)?;
        if !new {
            return Ok(false);
        }
    }
    Ok(true)
}
