ghost use Rattle.std.specs.Prelude.{◌≡◌, ◌++◌, [], ◌∷◌, List, IfOk, MatchOption, false, true};
ghost use Rattle.view_model.specs.View.{ChangesetView};
ghost use Rattle.view_model.specs.Held.{IsChangesetHeld};
ghost use Rattle.pair_model.specs.Octopus.{is_link_view};
ghost use Rattle.state_model.specs.Saved.{links_lead};
ghost use Rattle.state_text.specs.Heads.{AreHeldAt, heads_of};

use bridge_text::{Id, LINK_LIMIT, List, NoMemory};
use hg_store::HgStore;
use link_rule::is_link;
use std::alloc::Global;

/// A changeset that is no link, with the number of the links just before it.
#[derive(Clone, Copy, Debug, PartialEq, Eq)]
pub struct Head {
    /// The node of the changeset.
    pub node: Id,
    /// How many links stand before it.
    pub links: u8,
}

/// A list of changesets that are no links. Contracts see the list.
pub type Heads = List<Head>;

/// The changesets that are no links, each with the number of the links just before it; `None` exactly where there are too many links
/// before one, or where links come last.
pub fn heads_among(alloc: Global, store: &HgStore, nodes: &[Id]) -> Result<Option<Heads>, NoMemory>
    requires held { (hs : List ChangesetView) × AreHeldAt store.now nodes.now hs }
    ensures { IfOk result (λ found. (hs : List ChangesetView) → AreHeldAt store.now nodes.now hs
        → MatchOption found (links_lead 0 hs ≡ false) (λ heads. (links_lead 0 hs ≡ true) × (heads ≡ heads_of 0 hs))) }
{
    let mut heads = Heads::new(alloc);
    let mut links: u8 = 0;
    for node in nodes {
        if !is_link_of(store, node) {
            heads.push(Head { node: *node, links })?;
            links = 0;
        } else if links < LINK_LIMIT {
            links += 1;
        } else {
            return Ok(None);
        }
    }
    if links == 0 {
        Ok(Some(heads))
    } else {
        Ok(None)
    }
}

// Whether the node is that of a link.
fn is_link_of(store: &HgStore, node: &Id) -> bool
    requires held { (h : ChangesetView) × IsChangesetHeld store.now node.now h }
    ensures { (h : ChangesetView) → IsChangesetHeld store.now node.now h → result ≡ is_link_view h }
{
    match store.changeset(node) {
        Some(found) => is_link(found.2, &found.0, &found.1),
        None => false,
    }
}
