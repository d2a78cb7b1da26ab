ghost use Rattle.std.specs.Prelude.{List, IfOk, IsTrue};
ghost use Rattle.std.specs.Bool.{OnTrue};
ghost use Rattle.view_model.specs.View.{ChangesetView};
ghost use Rattle.hg_dump.specs.Told.{TellsTexts};
ghost use Rattle.hg_section.specs.Section.{IsWrittenOf};

use bridge_text::{IdList, NoMemory};
use hg_dump::{are_held, read_is_dump};
use hg_store::HgStore;
use std::alloc::Global;

// Whether a store holds the changesets of these nodes, and bytes that were read into it are the bundle that is written of them.
pub fn is_written(
    alloc: Global,
    store: &HgStore,
    nodes: &IdList,
    bytes: &[u8],
) -> Result<bool, NoMemory>
    requires told { TellsTexts store.now bytes.now }
    ensures yes { IfOk result (λ yes. OnTrue yes ((hs : List ChangesetView) × IsWrittenOf store.now nodes.now bytes.now hs)) }
    ensures no { IfOk result (λ yes. (hs : List ChangesetView) → IsWrittenOf store.now nodes.now bytes.now hs → IsTrue yes) }
{
    if !are_held(alloc, store, nodes)? {
        return Ok(false);
    }
    read_is_dump(alloc, store, nodes, bytes)
}
