// The state that the slot holds.
ghost use Rattle.std.specs.Prelude.{◌≡◌, ◌≤◌, length, OnOk};
ghost use Rattle.text_model.specs.Text.{IsBytes};
ghost use Rattle.state_model.specs.Limits.{slot_limit};
ghost use Rattle.bridge_cli.specs.Fetched.{Fetches, FetchesWith, HasHeldText, ReadsText};
ghost use Rattle.bridge_cli.specs.Makes.{LeavesSlotCount};

use crate::report::{BadState, Report};
use bridge_io::{Slot, SlotFault};
use bridge_text::SLOT_LIMIT;
use pair_state::State;
use shared_text::{Text, keep};
use std::alloc::Global;

/// The state that a slot holds, with its text.
pub struct Fetched {
    /// The state, which keeps parts of its text.
    pub state: State,
    /// The text; `None` where the slot holds nothing.
    pub text: Option<Text>,
}

impl Drop for Fetched {
    fn drop(self) {
        let Fetched { state: _, text: _ } = self;
    }
}

impl Fetched {
    /// The state alone.
    pub fn into_state(self) -> State
        ensures { result ≡ self.state }
    {
        let Fetched { state, text: _ } = self;
        state
    }
}

/// The state that the slot holds; the empty one where it holds nothing. It comes, or not, as that of [`fetch`] does.
pub fn fetch_state<K: Slot>(alloc: Global, slot: &mut K) -> Result<State, Report>
    ensures state { Fetches (K.held slot.old) result }
    ensures held { K.held slot.new ≡ K.held slot.old }
    ensures cause { LeavesSlotCount (K.faults slot.old) (K.faults slot.new) result }
{
    let fetched = fetch(alloc, slot)?;
    Ok(fetched.into_state())
}

/// The state that the slot holds with its text; the empty one where it holds nothing. `SlotFault` comes where the slot failed,
/// `StateBad` where what it holds is the text of no state or is too long for one, and `Memory` where memory is wanted.
pub fn fetch<K: Slot>(alloc: Global, slot: &mut K) -> Result<Fetched, Report>
    ensures state { FetchesWith (K.held slot.old) result }
    ensures text { HasHeldText (K.held slot.old) result }
    ensures held { K.held slot.new ≡ K.held slot.old }
    ensures cause { LeavesSlotCount (K.faults slot.old) (K.faults slot.new) result }
{
    let mut text = Vec::new(alloc);
    match slot.fetch(SLOT_LIMIT, &mut text) {
        Ok(true) => fetched_of(alloc, text),
        Ok(false) => Ok(Fetched {
            state: State::empty(alloc),
            text: None,
        }),
        Err(SlotFault::Failed) => Err(Report::SlotFault),
        Err(SlotFault::TooLong) => Err(Report::StateBad(BadState::TooLong)),
        Err(SlotFault::Memory) => Err(Report::Memory),
    }
}

// The state whose text these bytes are.
fn fetched_of(alloc: Global, bytes: Vec<u8>) -> Result<Fetched, Report>
    requires short { length bytes.items ≤ slot_limit }
    ensures reads { ReadsText bytes.items result }
    ensures bytes { OnOk result (IsBytes bytes.items) }
{
    let text = keep(bytes)?;
    match state_text::read(alloc, &text) {
        Ok(state) => Ok(Fetched {
            state,
            text: Some(text),
        }),
        Err(fault) => Err(Report::from(fault)),
    }
}
