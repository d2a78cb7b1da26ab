ghost use Rattle.std.specs.Prelude.{◌≡◌, ◌≢◌, List, IfOk, MatchOption};
ghost use Rattle.view_model.specs.View.{ChangesetView};
ghost use Rattle.state_model.specs.Kept.{hg_dump};
ghost use Rattle.state_model.specs.Saved.{AreDumped};
ghost use Rattle.hg_section.specs.Section.{HoldsChangesets};

use crate::nodes::changeset_nodes;
use crate::read::read_bundle;
use crate::written::is_written;
use bridge_text::{CHANGESET_LIMIT, IdList, NoMemory};
use hg_bundle::Arrivals;
use hg_store::HgStore;
use shared_text::Text;
use std::alloc::Global;

/// The changesets of a saved state.
pub struct HgSection {
    /// What their dump brings, in its order.
    pub store: HgStore,
    /// Their nodes, in their order.
    pub nodes: IdList,
    /// All the entries of their dump.
    pub arrivals: Arrivals,
}

impl Drop for HgSection {
    fn drop(self) {
        let HgSection {
            store: _,
            nodes: _,
            arrivals: _,
        } = self;
    }
}

impl HgSection {
    /// What their dump brings.
    pub fn into_store(self) -> HgStore
        ensures { result ≡ self.store }
    {
        let HgSection {
            store,
            nodes: _,
            arrivals: _,
        } = self;
        store
    }
}

/// The changesets whose dump these bytes are; `None` exactly where no list of changesets that can be saved has this dump.
pub fn read_changesets(alloc: Global, bytes: &Text) -> Result<Option<HgSection>, NoMemory>
    ensures { IfOk result (λ found. MatchOption found ((hs : List ChangesetView) → AreDumped hs → hg_dump hs ≢ bytes.now)
        (λ s. (hs : List ChangesetView) × AreDumped hs × (hg_dump hs ≡ bytes.now) × HoldsChangesets s hs)) }
{
    let Some((store, arrivals)) = read_bundle(alloc, bytes)? else {
        return Ok(None);
    };
    let Some(nodes) = changeset_nodes(alloc, &arrivals)? else {
        return Ok(None);
    };
    if nodes.len() > CHANGESET_LIMIT {
        return Ok(None);
    }
    if !is_written(alloc, &store, &nodes, bytes.as_slice())? {
        return Ok(None);
    }
    Ok(Some(HgSection {
        store,
        nodes,
        arrivals,
    }))
}
