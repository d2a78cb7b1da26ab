// The changesets of a bundle get their blocks, one after the other.
ghost use Rattle.std.specs.Prelude.{◌≡◌, ◌≤◌, ◌+◌, ◌*◌, [], ◌∷◌, List, length, IfOk, IfErr};
ghost use Rattle.hg_model.specs.Revision.{Revision};
ghost use Rattle.hg_model.specs.Reading as model;
ghost use Rattle.hg_bundle.specs.Arrivals.{arrival_of};
ghost use Rattle.view_model.specs.Dump.{revisions_in};
ghost use Rattle.pair_model.specs.Block.{Block, changesets_in};
ghost use Rattle.history_model.specs.Pull.{IsChangesetRefusal, changesets_among, is_changesets};
ghost use Rattle.hg_dump.specs.Refers.{RefersTo};
ghost use Rattle.pull_outcome.specs.Names.{IsOfPullHg};
ghost use Rattle.pull_outcome.specs.Refused.{IsRefusedBy};
ghost use Rattle.pair_state.specs.AllBlocks.{state_value};
ghost use Rattle.pair_state.specs.Blocks.{IsStateOf};
ghost use Rattle.pull_bundle.specs.Faults.{IsNoRead};
ghost use Rattle.pull_bundle.specs.Takes.{Comes, TakesArrivals, IsRefusedArrival, Starts, SomeTaken};

use crate::take::take_changeset;
use crate::taking::Taking;
use bridge_io::Steps;
use bridge_text::NoMemory;
use hg_bundle::{Arrival, Arrivals, RevKind};
use hg_dump::Refers;
use pair_known::HgRows;
use pair_state::StateParts;
use pull_outcome::{PullFault, Refusal, TakeFault};
use std::alloc::Global;
use std::sync::ledger::Ledger;

/// A state whose changesets are to get their blocks, with the revisions to which those of its blocks refer.
pub fn begin(alloc: Global, state: StateParts) -> Result<Taking, NoMemory>
    requires state { (blocks : List Block) × IsStateOf state blocks }
    ensures state { IfOk result (λ taking. taking.state ≡ state) }
    ensures referred { IfOk result (λ taking. (blocks : List Block) → IsStateOf state blocks → RefersTo taking.referred (revisions_in (changesets_in blocks))) }
    ensures near { IfOk result (λ taking. taking.near ≡ []) }
{
    let referred = Refers::of(
        alloc,
        &state.known.hg,
        state.changesets.as_list().as_slice(),
    )?;
    Ok(Taking {
        state,
        referred,
        near: HgRows::new(alloc),
    })
}

/// Gives each changeset of a bundle its block that stands in none and is no link, in their order. It is refused exactly at the first that the
/// model refuses.
pub fn take_all<L: Ledger>(
    alloc: Global,
    taking: Taking,
    arrivals: &Arrivals,
    steps: &mut Steps<L>,
) -> Result<Taking, PullFault>
    requires starts { (base : List Revision) × (blocks : List Block) × (came : List model.Arrival) × Starts taking base blocks arrivals.now came }
    ensures ok { IfOk result (λ next. (base : List Revision) (blocks : List Block) (came : List model.Arrival) → Starts taking base blocks arrivals.now came
        → TakesArrivals taking next base blocks came) }
    ensures refused { IfErr result (λ fault. (base : List Revision) (blocks : List Block) (came : List model.Arrival) → Starts taking base blocks arrivals.now came
        → IsRefusedBy (IsChangesetRefusal (taking.state).known.hg (state_value taking.state blocks) (changesets_among came)) fault) }
    ensures names { IfErr result IsOfPullHg }
    ensures no_read { IfErr result IsNoRead }
    ensures least { steps.old ≤ steps.new }
    ensures steps { IfOk result (λ next. steps.new + 18 * length (taking.state).blocks ≤ steps.old + 18 * length (next.state).blocks) }
    ensures some { IfErr result (λ fault. (base : List Revision) (blocks : List Block) (came : List model.Arrival) → Starts taking base blocks arrivals.now came
        → SomeTaken taking blocks came steps.old steps.new) }
{
    let mut next = taking;
    for place in 0..arrivals.len() {
        next = take_arrival(alloc, next, arrivals.at(place), steps)?;
    }
    Ok(next)
}

// Gives an entry of a bundle its block, where it is a changeset.
fn take_arrival<L: Ledger>(
    alloc: Global,
    taking: Taking,
    arrival: &Arrival,
    steps: &mut Steps<L>,
) -> Result<Taking, PullFault>
    requires comes { (blocks : List Block) × (before : List Revision) × (a : model.Arrival) × (arrival.now ≡ arrival_of a) × Comes taking blocks before a.revision }
    ensures ok { IfOk result (λ next. (blocks : List Block) (before : List Revision) (a : model.Arrival) → arrival.now ≡ arrival_of a → Comes taking blocks before a.revision
        → TakesArrivals taking next before blocks (a ∷ [])) }
    ensures refused { IfErr result (λ fault. (blocks : List Block) (before : List Revision) (a : model.Arrival) → arrival.now ≡ arrival_of a → Comes taking blocks before a.revision
        → IsRefusedBy (IsRefusedArrival taking blocks a) fault) }
    ensures names { IfErr result IsOfPullHg }
    ensures no_read { IfErr result IsNoRead }
    ensures least { steps.old ≤ steps.new }
    ensures steps { IfOk result (λ next. steps.new + 18 * length (taking.state).blocks ≤ steps.old + 18 * length (next.state).blocks) }
    ensures few { IfErr result (λ fault. steps.new ≤ steps.old + 18) }
{
    if !is_changeset(arrival) {
        return Ok(taking);
    }
    match take_changeset(alloc, taking, &arrival.node, steps) {
        Ok(next) => Ok(next),
        Err(TakeFault::Refused(fault)) => Err(PullFault::Refused(Refusal {
            fault,
            id: arrival.node,
            place: arrival.at,
        })),
        Err(TakeFault::Memory) => Err(PullFault::Memory),
    }
}

/// Whether an entry is a changeset.
pub fn is_changeset(arrival: &Arrival) -> bool
    ensures { (a : model.Arrival) → arrival.now ≡ arrival_of a → result ≡ is_changesets (a.revision).group }
{
    match arrival.kind {
        RevKind::Changeset => true,
        RevKind::Manifest => false,
        RevKind::File => false,
    }
}
