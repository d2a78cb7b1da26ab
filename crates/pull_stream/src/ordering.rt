// The order of the commits of a stream over a state.
ghost use Rattle.std.specs.Prelude.{List, IfOk, IfErr};
ghost use Rattle.git_model.specs.Stream.{Placed};
ghost use Rattle.git_model.specs.Order.{IsOrder};
ghost use Rattle.git_store.specs.Ancestry.{ancestries as rows};
ghost use Rattle.git_store.specs.OrderFaults.{IsOrderFault};
ghost use Rattle.history_model.specs.Pull as model;
ghost use Rattle.pull_outcome.specs.Names.{IsOfPullGit};
ghost use Rattle.pull_stream.specs.Faults.{IsJudgement};
ghost use Rattle.pull_stream.specs.Ready.{IsReady, IsInOrder, LacksParent, HasPlace, IsOrderRefusal};

use crate::place::first_place;
use bridge_text::{IdList, IdSet};
use git_batch::{ObjectArrivals, commit_ids};
use git_store::{GitStore, OrderFault};
use pair_state::StateParts;
use pull_outcome::{Fault, PullFault, Refusal};
use std::alloc::Global;

/// The order in which the new commits of a stream are taken. ParentUnknown comes exactly where one of them is never reached.
pub fn order_commits(state: &StateParts, came: &ObjectArrivals) -> Result<IdList, PullFault>
    requires ready { (m : model.State) × (placed : List Placed) × IsReady state.now came.now m placed }
    ensures order { IfOk result (λ ordered. (m : model.State) (placed : List Placed) → IsReady state.now came.now m placed
        → IsInOrder state.now came.now ordered m placed) }
    ensures stuck { IfErr result (λ fault. (m : model.State) (placed : List Placed) → IsReady state.now came.now m placed
        → IsJudgement (LacksParent m placed) fault) }
    ensures names { IfErr result IsOfPullGit }
{
    let alloc = state.alloc;
    let commits = commit_ids(alloc, came)?;
    match order_over(alloc, &state.known.git, &commits, &state.commits) {
        Ok(ordered) => Ok(ordered),
        Err(fault) => Err(refusal_of(came, fault)),
    }
}

// The order of commits over those whose ids are saved.
fn order_over(
    alloc: Global,
    store: &GitStore,
    commits: &IdList,
    ids: &IdList,
) -> Result<IdList, OrderFault>
    ensures order { IfOk result (IsOrder (rows store.now commits.now) ids.now) }
    ensures fault { IfErr result (IsOrderFault (rows store.now commits.now) ids.now) }
{
    let saved = IdSet::of(alloc, ids.as_slice())?;
    store.order(commits, &saved)
}

// The refusal of a commit that came and whose parents lack.
fn refusal_of(came: &ObjectArrivals, fault: OrderFault) -> PullFault
    requires { HasPlace came.now fault }
    ensures refusal { IsOrderRefusal came.now fault result }
    ensures names { IsOfPullGit result }
{
    match fault {
        OrderFault::ParentUnknown(id) => PullFault::Refused(Refusal {
            fault: Fault::ParentUnknown,
            id,
            place: first_place(came, &id).unwrap(),
        }),
        OrderFault::Memory => PullFault::Memory,
    }
}
