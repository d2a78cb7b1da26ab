// Pairs of ids.
ghost use Rattle.std.specs.Prelude.{◌≡◌, IfOk};
ghost use Rattle.text_model.specs.Lists.{in_order};
ghost use Rattle.state_part.specs.Pairs.{has_node_below};

use bridge_text::{Id, List, NoMemory};

/// A commit and the changeset that stands for it.
#[derive(Clone, Copy, Debug, PartialEq, Eq)]
pub struct IdPair {
    /// The id of the commit.
    pub commit: Id,
    /// The node of the changeset.
    pub node: Id,
}

/// A list of pairs. Contracts see the list.
pub type IdPairs = List<IdPair>;

/// The pairs in rising order of their nodes; those of one node stay in their order.
pub fn sorted_by_node(pairs: IdPairs) -> Result<Vec<IdPair>, NoMemory>
    ensures { IfOk result (λ sorted. sorted.items ≡ in_order has_node_below pairs) }
{
    let mut items = pairs.into_vec();
    items.sort_by_key(|pair| pair.node)?;
    Ok(items)
}
