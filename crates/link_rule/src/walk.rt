ghost use Rattle.std.specs.Prelude.{◌≡◌, ◌≤◌, ◌-◌, List, IfOk, MatchOption};
ghost use Rattle.text_model.specs.Id as text;
ghost use Rattle.partner_model.specs.Filled.{Walks};
ghost use Rattle.link_rule.specs.Walk.{IsLinkAt};

use crate::form::is_link_of;
use bridge_text::{Id, IdList, NoMemory};
use hg_store::HgStore;
use std::alloc::Global;

/// The partners of all but the last of `count` parents of a commit, by the links between them and its changeset, of which `first` is the first
/// parent: from there through links `count` - 2 down to 1, each of which is looked up once. `None` exactly where one of them isn't known, or
/// isn't the link with its number.
pub fn walk_links(
    alloc: Global,
    store: &HgStore,
    first: &Id,
    count: u8,
) -> Result<Option<IdList>, NoMemory>
    requires least { 3 ≤ count }
    requires most { count ≤ 64 }
    ensures { IfOk result (λ found. MatchOption found ((ids : List text.Id) → ¬ (Walks store.now count (count - 2) first.now ids))
        (Walks store.now count (count - 2) first.now)) }
{
    walk_down(alloc, store, first, count - 2, count)
}

// The walk from a node through links `number` down to 1.
fn walk_down(
    alloc: Global,
    store: &HgStore,
    node: &Id,
    number: u8,
    count: u8,
) -> Result<Option<IdList>, NoMemory>
    ensures { IfOk result (λ found. MatchOption found ((ids : List text.Id) → ¬ (Walks store.now count number node.now ids))
        (Walks store.now count number node.now)) }
{
    if number == 0 {
        let mut ids = IdList::new(alloc);
        ids.push(*node)?;
        return Ok(Some(ids));
    }
    let Some(parents) = link_at(store, node, number, count) else {
        return Ok(None);
    };
    let (p, q) = parents;
    let Some(mut ids) = walk_down(alloc, store, &p, number - 1, count)? else {
        return Ok(None);
    };
    ids.push(q)?;
    Ok(Some(ids))
}

// The parents of the changeset with this node, where it is link `number` of `count`.
fn link_at(store: &HgStore, node: &Id, number: u8, count: u8) -> Option<(Id, Id)>
    ensures { MatchOption result ((parents : text.Id × text.Id) → ¬ (IsLinkAt store.now count number node.now parents))
        (IsLinkAt store.now count number node.now) }
{
    let Some(found) = store.changeset(node) else {
        return None;
    };
    let (p, q, changeset) = found;
    if is_link_of(changeset, &p, &q, number, count) {
        Some((p, q))
    } else {
        None
    }
}
