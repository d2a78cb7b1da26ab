// The commits of a stream, one after the other.
ghost use Rattle.std.specs.Prelude.{◌≡◌, ◌≤◌, ◌+◌, ◌*◌, ℕ, List, [], length, Some, IfOk, IfErr, OnErr};
ghost use Rattle.git_model.specs.Stream.{Placed};
ghost use Rattle.pair_model.specs.Block.{Block};
ghost use Rattle.history_model.specs.Pull as model;
ghost use Rattle.history_model.specs.Pull.{IsCommitRefusal};
ghost use Rattle.pull_outcome.specs.Names.{IsOfPullGit};
ghost use Rattle.pull_stream.specs.Faults.{IsJudgement, IsOfCommit, placed_fault};
ghost use Rattle.pull_stream.specs.Ready.{IsInOrder, place_among};
ghost use Rattle.pull_stream.specs.Taken.{CommitsTaken, SomeTaken};

use crate::place::first_place;
use crate::take::take_commit;
use crate::taking::Taking;
use bridge_io::Steps;
use bridge_text::{Id, IdList};
use git_batch::ObjectArrivals;
use pair_known::HgRows;
use pair_state::StateParts;
use pull_outcome::{PullFault, Refusal, TakeFault};
use std::sync::ledger::Ledger;
use tree_shape::Files;

/// Takes the commits of a stream in their order, each over the blocks before it. The fault is that of the first that is refused.
pub fn take_commits<L: Ledger>(
    state: StateParts,
    came: &ObjectArrivals,
    ordered: &IdList,
    steps: &mut Steps<L>,
) -> Result<StateParts, PullFault>
    requires order { (m : model.State) × (placed : List Placed) × IsInOrder state came.now ordered.now m placed }
    ensures ok { IfOk result (λ next. (m : model.State) (placed : List Placed) → IsInOrder state came.now ordered.now m placed
        → (new : List Block) × CommitsTaken state next m.blocks ordered.now new) }
    ensures refused { IfErr result (λ fault. (m : model.State) (placed : List Placed) → IsInOrder state came.now ordered.now m placed
        → IsJudgement (IsCommitRefusal m placed ordered.now) fault) }
    ensures names { IfErr result IsOfPullGit }
    ensures least { steps.old ≤ steps.new }
    ensures steps { IfOk result (λ next. steps.new ≤ steps.old + 18 * length ordered.now) }
    ensures asked { OnErr result ((m : model.State) (placed : List Placed) → IsInOrder state came.now ordered.now m placed
        → SomeTaken state m ordered.now steps.old steps.new) }
{
    let mut next = begin(state);
    for id in ordered.as_slice() {
        next = match take_commit(next, id, steps) {
            Ok(taken) => taken,
            Err(fault) => return Err(refused_at(came, id, fault)),
        };
    }
    Ok(next.state)
}

// A state, with no files beside which its first commit is read.
fn begin(state: StateParts) -> Taking
    ensures state { result.state ≡ state }
    ensures near { result.rows ≡ [] }
{
    let alloc = state.alloc;
    Taking {
        state,
        files: Files::new(alloc),
        rows: HgRows::new(alloc),
    }
}

// The fault of a commit that came, with its place.
fn refused_at(came: &ObjectArrivals, id: &Id, fault: TakeFault) -> PullFault
    requires { (at : ℕ) × (place_among came.now id.now ≡ Some at) }
    ensures placed { (at : ℕ) → place_among came.now id.now ≡ Some at → result ≡ placed_fault id.now at fault }
    ensures names { IsOfCommit fault → IsOfPullGit result }
{
    match fault {
        TakeFault::Refused(fault) => PullFault::Refused(Refusal {
            fault,
            id: *id,
            place: first_place(came, id).unwrap(),
        }),
        TakeFault::Memory => PullFault::Memory,
    }
}
