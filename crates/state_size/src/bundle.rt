// The size of a bundle.
ghost use Rattle.std.specs.Prelude.{◌≡◌, [], List, map, IfOk};
ghost use Rattle.view_model.specs.View.{ChangesetView, changeset_node};
ghost use Rattle.view_model.specs.Held.{AreChangesetsHeld};
ghost use Rattle.hg_dump_law.specs.Taken.{AreParentsEarlier};
ghost use Rattle.state_size.specs.Sizes.{is_bundle_large};

use bridge_text::{DUMP_LIMIT, Id, NoMemory};
use hg_store::HgStore;
use std::alloc::Global;

/// Whether the bundle of these changesets is past its limit.
pub fn passes_bundle(alloc: Global, store: &HgStore, nodes: &[Id]) -> Result<bool, NoMemory>
    requires { (hs : List ChangesetView) × AreChangesetsHeld store.now nodes.now hs }
    ensures { IfOk result (λ passes. (hs : List ChangesetView) → nodes.now ≡ map changeset_node hs → AreChangesetsHeld store.now nodes.now hs → AreParentsEarlier [] hs
        → passes ≡ is_bundle_large hs) }
{
    let len = hg_dump::written_len(alloc, store, nodes)?;
    Ok(len > DUMP_LIMIT as u64)
}
