ghost use Rattle.std.specs.Prelude.{◌≡◌, ◌++◌, [], ◌∷◌, true, false, not, IfOk, MatchOption};
ghost use Rattle.std.specs.Bool.{OnTrue};
ghost use Rattle.std.specs.List.{list_any};
ghost use Rattle.hg_section.specs.Section.{is_again, nodes_of};

use bridge_text::{IdList, NoMemory};
use hg_bundle::{Arrival, Arrivals, RevKind};
use std::alloc::Global;

// The nodes of the changesets that arrived, in their order; `None` exactly where one of them came before.
pub fn changeset_nodes(alloc: Global, arrivals: &Arrivals) -> Result<Option<IdList>, NoMemory>
    ensures { IfOk result (λ found. MatchOption found (list_any is_again arrivals.now ≡ true)
        (λ nodes. (list_any is_again arrivals.now ≡ false) × (nodes ≡ nodes_of arrivals.now))) }
{
    let mut nodes = IdList::new(alloc);
    for arrival in arrivals.as_slice() {
        if !put_node(&mut nodes, arrival)? {
            return Ok(None);
        }
    }
    Ok(Some(nodes))
}

// Puts the node of a changeset behind the others, and answers whether it came for the first time. Of another revision there is no node.
fn put_node(nodes: &mut IdList, arrival: &Arrival) -> Result<bool, NoMemory>
    ensures first { IfOk result (λ first. first ≡ not (is_again arrival.now)) }
    ensures nodes { IfOk result (λ first. OnTrue first (nodes.new ≡ nodes.old ++ nodes_of (arrival.now ∷ []))) }
{
    if arrival.kind != RevKind::Changeset {
        return Ok(true);
    }
    if !arrival.fresh {
        return Ok(false);
    }
    nodes.push(arrival.node)?;
    Ok(true)
}
