// The commands that set names.
ghost use Rattle.std.specs.Prelude.{◌≡◌};
ghost use Rattle.bridge_cli.specs.Makes.{LeavesCount, LeavesSlotCount, Makes};
ghost use Rattle.bridge_cli.specs.Sides.{set_command};

use crate::fetch::fetch_state;
use crate::report::Report;
use crate::saved::text_of;
use crate::work::Work;
use bridge_io::{Slot, Source};
use name_engine::{Side, set_names};
use rope::Rope;
use std::alloc::Global;
use std::mem::forget;

/// No output, and the state with the names that a text of a side sets in place of all its own.
pub fn names_of_text<I: Source, K: Slot>(
    alloc: Global,
    side: Side,
    input: &mut I,
    slot: &mut K,
) -> Result<Work, Report>
    ensures makes { Makes (set_command side) (I.left input.old) (I.left input.new) (K.held slot.old) result }
    ensures input { LeavesCount (I.faults input.old) (I.faults input.new) result }
    ensures held { K.held slot.new ≡ K.held slot.old }
    ensures slot { LeavesSlotCount (K.faults slot.old) (K.faults slot.new) result }
{
    let state = fetch_state(alloc, slot)?;
    let next = set_names(state, side, input)?;
    let text = text_of(&next)?;
    forget(next);
    Ok(Work {
        output: Rope::new(alloc),
        text: Some(text),
    })
}
