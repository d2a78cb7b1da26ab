// What is counted of a history that is made.
ghost use Rattle.std.specs.Prelude.{◌≡◌, ℕ, Option, None, IfOk};
ghost use Rattle.text_model.specs.Text.{Bytes};
ghost use Rattle.command_model.specs.Command as model;
ghost use Rattle.bridge_cli.specs.Makes.{LeavesCount, LeavesSlotCount, Makes};
ghost use Rattle.bridge_cli.specs.Steps.{StepsOf};

use crate::report::Report;
use crate::work::Work;
use bridge_io::Steps;
use make_engine::make_counts;
use std::alloc::Global;
use std::sync::ledger::Ledger;

/// The counts of the history of `n` changesets that is made from a seed, with no state to be saved.
pub fn counts_of_made<L: Ledger>(
    alloc: Global,
    n: u64,
    seed: u64,
    steps: &mut Steps<L>,
) -> Result<Work, Report>
    ensures makes { (input : Option Bytes) (slot : Option (Option Bytes)) → Makes (model.Make n seed) input input slot result }
    ensures input { (faults : ℕ) → LeavesCount faults faults result }
    ensures slot { (faults : ℕ) → LeavesSlotCount faults faults result }
    ensures no_text { IfOk result (λ w. w.text ≡ None) }
    ensures steps { (input : Option Bytes) (slot : Option (Option Bytes)) → StepsOf (model.Make n seed) input slot steps.old steps.new }
{
    match make_counts(alloc, n, seed, steps) {
        Ok(lines) => Ok(Work::of_bytes(alloc, lines)),
        Err(fault) => Err(Report::from(fault)),
    }
}
