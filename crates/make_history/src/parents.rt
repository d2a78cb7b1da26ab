// The parents of a changeset.
ghost use Rattle.std.specs.Prelude.{◌≡◌, ◌<◌, List, map, option_map};
ghost use Rattle.view_model.specs.View.{ChangesetView, changeset_node};
ghost use Rattle.make_model.specs.History as model;

use bridge_text::Id;

/// The nodes of the parents of the changeset behind those with these nodes, or the null id: the changeset before, or the one before that
/// where the number is 1; and the third one back where it is 0.
#[tactic(auto, unfolding(make_model::specs::History::made_parents))]
pub fn parents_behind(number: u64, nodes: &[Id]) -> (Id, Id)
    ensures first { (before : List ChangesetView) → nodes.now ≡ map changeset_node before → result.0 ≡ (model.made_parents number before).p }
    ensures second { (before : List ChangesetView) → nodes.now ≡ map changeset_node before → result.1 ≡ (model.made_parents number before).q }
{
    (first_behind(number, nodes), second_behind(number, nodes))
}

fn first_behind(number: u64, nodes: &[Id]) -> Id
    ensures { (before : List ChangesetView) → nodes.now ≡ map changeset_node before → result ≡ model.node_or_null (model.first_parent number before) }
{
    let far = back(number == 1, 2, nodes);
    let near = back(true, 1, nodes);
    match far {
        Some(node) => node,
        None => near.unwrap_or(Id::NULL),
    }
}

fn second_behind(number: u64, nodes: &[Id]) -> Id
    ensures { (before : List ChangesetView) → nodes.now ≡ map changeset_node before → result ≡ model.node_or_null (model.second_parent number before) }
{
    back(number == 0, 3, nodes).unwrap_or(Id::NULL)
}

// The node so many places back, where there are so many and it is wanted.
fn back(wanted: bool, n: usize, nodes: &[Id]) -> Option<Id>
    requires { 0 < n }
    ensures { (before : List ChangesetView) → nodes.now ≡ map changeset_node before → result ≡ option_map changeset_node (model.back wanted n before) }
{
    if !wanted {
        return None;
    }
    let count = nodes.len();
    if count < n {
        return None;
    }
    Some(nodes[count - n])
}
