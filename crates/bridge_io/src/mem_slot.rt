// A slot in memory.
ghost use Rattle.std.specs.Prelude.{◌≡◌, ◌≤◌, ℕ, [], vec_len, vec_capacity};
ghost use Rattle.std.specs.Option.{option_copied, option_map, ForSome};
ghost use Rattle.bridge_io.specs.Calls.{no_calls};
ghost use Rattle.bridge_io.specs.Memory.{SlotState};
ghost use Rattle.bridge_io.specs.Replacements.{held_of};

use crate::calls::Calls;
use crate::failed::Failed;
use crate::ropes::{append_pieces, pieces_len};
use crate::slot::{Slot, SlotFault};
use rope::Rope;
use std::marker::Model;

/// A slot in memory that was reserved before, which fails at the calls that it is told and where the room is used up.
#[derive(Drop)]
pub struct MemSlot {
    // What is held before the first replacement.
    first: Option<Vec<u8>>,
    // All replacements so far, one behind the other.
    room: Vec<u8>,
    // Where in `room` the last replacement begins.
    last: Option<usize>,
    most: usize,
    calls: Calls,
}

impl Model for MemSlot {
    ghost Value = { SlotState };

    ghost view = { λ s. record {
      held = held_of s.last s.room.items (option_map (λ v. v.items) s.first);
      used = vec_len s.room;
      most = s.most;
      calls = s.calls;
    } };

    ghost invariant = { λ s. (s.most ≤ vec_capacity s.room)
        × (vec_len s.room ≤ s.most)
        × ForSome s.last (λ start. start ≤ vec_len s.room) };
}

impl MemSlot {
    /// Holds this, has room for `most` bytes of all replacements together, and fails at the calls with these numbers,
    /// counted from 0 over both calls. `most` bytes were reserved in `room`.
    pub fn new(held: Option<Vec<u8>>, room: Vec<u8>, most: usize, fails: Vec<u64>) -> MemSlot
        requires empty { room.items ≡ [] }
        requires reserved { most ≤ vec_capacity room }
        ensures held { result.held ≡ option_map (λ v. v.items) held }
        ensures used { result.used ≡ 0 }
        ensures most { result.most ≡ most }
        ensures calls { result.calls ≡ no_calls fails.items }
    {
        MemSlot {
            first: held,
            room,
            last: None,
            most,
            calls: Calls::new(fails),
        }
    }

    /// What is held.
    pub fn bytes(&self) -> Option<&[u8]>
        ensures { option_copied result ≡ self.now.held }
    {
        if let Some(start) = self.last {
            return Some(self.room.split_at(start).1);
        }
        match &self.first {
            Some(bytes) => Some(bytes.as_slice()),
            None => None,
        }
    }
}

impl Slot for MemSlot {
    ghost use Rattle.std.specs.Prelude.{◌+◌, ◌<◌, ◌⊎◌, ◌↔◌, false, length, Ok, Some, OnOk, OnErr, IsErr, IsErrOf};
    ghost use Rattle.bridge_io.specs.Calls.{NextFails, SteadyCount, CountsCall};
    ghost use Rattle.bridge_io.specs.Causes.{HasCause};
    ghost use Rattle.bridge_io.specs.Slot.{FetchGives, HoldsBytes, FetchHasCause};

    ghost held = { λ s. Some s.held };

    ghost faults = { λ s. s.calls.faults };

    /// `Failed` comes exactly at the calls that were told to fail.
    fn fetch(&mut self, max: usize, into: &mut Vec<u8>) -> Result<bool, SlotFault>
        requires empty { into.old.items ≡ [] }
        ensures held { self.new.held ≡ self.old.held }
        ensures gives { FetchGives (Some self.old.held) max result into.new.items }
        ensures most { length into.new.items ≤ max }
        ensures none { result ≡ Ok false → into.new.items ≡ [] }
        ensures err { OnErr result (into.new.items ≡ []) }
        ensures cause { FetchHasCause self.old.calls.faults self.new.calls.faults result }
        ensures fails { IsErrOf result SlotFault.Failed ↔ NextFails self.old.calls }
        ensures steady { SteadyCount self.old.calls self.new.calls }
        ensures counted { CountsCall self.old.calls self.new.calls }
        ensures room { (self.new.most ≡ self.old.most) × (self.new.used ≡ self.old.used) }
    {
        self.calls.begin()?;
        let Some(bytes) = self.bytes() else {
            return Ok(false);
        };
        if bytes.len() > max {
            return Err(SlotFault::TooLong);
        }
        match into.extend_from_slice(bytes) {
            Ok(()) => Ok(true),
            Err(_) => Err(SlotFault::Memory),
        }
    }

    /// `Failed` comes exactly at the calls that were told to fail, and where the text is longer than the room that
    /// earlier replacements left.
    fn replace(&mut self, text: &Rope) -> Result<(), Failed>
        ensures ok { OnOk result (self.new.held ≡ Some text.now) }
        ensures err { OnErr result (self.new.held ≡ self.old.held) }
        ensures cause { HasCause self.old.calls.faults self.new.calls.faults result }
        ensures fails { IsErr result ↔ (NextFails self.old.calls
            ⊎ (self.old.most < self.old.used + length text.now)) }
        ensures steady { self.old.used + length text.now ≤ self.old.most → SteadyCount self.old.calls self.new.calls }
        ensures counted { CountsCall self.old.calls self.new.calls }
        ensures most { self.new.most ≡ self.old.most }
        ensures used { OnOk result (self.new.used ≡ self.old.used + length text.now) }
        ensures unused { OnErr result (self.new.used ≡ self.old.used) }
    {
        self.calls.begin()?;
        let start = self.room.len();
        let (pieces, end) = text.pieces();
        if pieces_len(pieces).saturating_add(end.len()) > self.most - start {
            return Err(self.calls.fail());
        }
        append_pieces(&mut self.room, pieces);
        self.room.extend_from_slice(end).unwrap();
        self.last = Some(start);
        Ok(())
    }
}
