// The changesets of a history, one after the other.
ghost use Rattle.std.specs.Prelude.{◌≡◌, ◌≤◌, ◌<◌, ◌+◌, ℕ, IfOk, IfErr, OnOk};
ghost use Rattle.make_model.specs.Dump.{most_changesets};
ghost use Rattle.make_model.specs.Numbers.{numbers_of};
ghost use Rattle.make_model.specs.History as model;
ghost use Rattle.make_history.specs.Made.{numbers_value, IsMakeFault};
ghost use Rattle.make_history.specs.Histories.{IsMade, IsNextFault};

use crate::draft::{Next, make_draft};
use crate::fault::MakeFault;
use crate::fields::text_of;
use crate::numbers::{Numbers, numbers_from};
use crate::parents::parents_behind;
use bridge_text::{IdList, node_id};
use hg_store::HgStore;
use pair_state::add_changeset;
use std::alloc::Global;

/// The changesets of a history in their order, and all their revisions.
#[derive(Drop)]
pub struct History {
    pub store: HgStore,
    pub nodes: IdList,
}

/// The history of so many changesets from a seed, of which there are at most 20,000.
pub fn make_history(alloc: Global, n: u64, seed: u64) -> Result<History, MakeFault>
    requires few { n ≤ most_changesets }
    ensures ok { IfOk result (λ history. IsMade history (model.made_history seed n)) }
    ensures fault { IfErr result (IsMakeFault n seed) }
{
    let mut history = History {
        store: HgStore::new(alloc),
        nodes: IdList::new(alloc),
    };
    let mut state = seed;
    for number in 0..n {
        let numbers = numbers_from(state);
        add_next(alloc, &mut history, &numbers, number)?;
        state = numbers.state;
    }
    Ok(history)
}

// Puts the next changeset behind the others, which has this number.
fn add_next(
    alloc: Global,
    history: &mut History,
    numbers: &Numbers,
    number: u64,
) -> Result<(), MakeFault>
    requires few { number < most_changesets }
    requires made { (seed : ℕ) × IsMade history.old (model.made_history seed number) × (numbers_value numbers.now ≡ numbers_of seed number) }
    ensures ok { OnOk result ((seed : ℕ) → IsMade history.old (model.made_history seed number) → numbers_value numbers.now ≡ numbers_of seed number
        → IsMade history.new (model.made_history seed (number + 1))) }
    ensures fault { IfErr result (λ fault. (seed : ℕ) → IsMade history.old (model.made_history seed number) → numbers_value numbers.now ≡ numbers_of seed number
        → IsNextFault seed number fault) }
{
    let (p1, p2) = parents_behind(numbers.parents, history.nodes.as_slice());
    let Next { draft, lines } = make_draft(alloc, &history.store, p1, p2, numbers, number)?;
    let text = text_of(alloc, &draft.changeset)?;
    let node = node_id(&p1, &p2, text.as_slice());
    add_changeset(alloc, &mut history.store, &draft, node, text, lines)?;
    history.nodes.push(node)?;
    Ok(())
}
