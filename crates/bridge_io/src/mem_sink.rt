// A sink into memory.
ghost use Rattle.std.specs.Prelude.{◌≡◌, ◌≤◌, ℕ, [], take, vec_len, vec_capacity};
ghost use Rattle.bridge_io.specs.Calls.{no_calls};
ghost use Rattle.bridge_io.specs.Memory.{SinkState};

use crate::calls::Calls;
use crate::cut::within_cut;
use crate::failed::Failed;
use crate::sink::Sink;
use std::marker::Model;

/// A sink into memory that was reserved before, which fails at the calls that it is told and where the room is used up.
#[derive(Drop)]
pub struct MemSink {
    taken: Vec<u8>,
    flushed: usize,
    most: usize,
    cut: usize,
    calls: Calls,
}

impl Model for MemSink {
    ghost Value = { SinkState };

    ghost view = { λ s. record { taken = s.taken.items; flushed = take s.flushed s.taken.items; most = s.most; cut = s.cut; calls = s.calls } };

    ghost invariant = { λ s. (s.most ≤ vec_capacity s.taken) × (vec_len s.taken ≤ s.most) × (s.flushed ≤ vec_len s.taken) };
}

impl MemSink {
    /// Takes at most `most` bytes in all, at most `cut` of them in a call (0: no bound), and fails at the calls with
    /// these numbers, counted from 0 over writes and flushes. `most` bytes were reserved in `room`.
    pub fn new(room: Vec<u8>, most: usize, cut: usize, fails: Vec<u64>) -> MemSink
        requires empty { room.items ≡ [] }
        requires reserved { most ≤ vec_capacity room }
        ensures taken { result.taken ≡ [] }
        ensures flushed { result.flushed ≡ [] }
        ensures most { result.most ≡ most }
        ensures cut { result.cut ≡ cut }
        ensures calls { result.calls ≡ no_calls fails.items }
    {
        MemSink {
            taken: room,
            flushed: 0,
            most,
            cut,
            calls: Calls::new(fails),
        }
    }

    /// Those of them that were taken before the last flush that answered `Ok`.
    pub fn flushed(&self) -> &[u8]
        ensures { result.now ≡ self.now.flushed }
    {
        &self.taken[..self.flushed]
    }

    /// All bytes that were taken so far.
    pub fn bytes(&self) -> &[u8]
        ensures { result.now ≡ self.now.taken }
    {
        &self.taken
    }
}

impl Sink for MemSink {
    ghost use Rattle.std.specs.Prelude.{◌-◌, ◌<◌, ◌⊎◌, ◌↔◌, length, min, IsErr, IfOk, OnOk, OnErr, Some};
    ghost use Rattle.std.specs.Io.KnownBytes.{WriteAppends, Keeps};
    ghost use Rattle.bridge_io.specs.Calls.{NextFails, SteadyCount, CountsCall};
    ghost use Rattle.bridge_io.specs.Causes.{HasCause};
    ghost use Rattle.bridge_io.specs.Memory.{cut_len};
    ghost use Rattle.bridge_io.specs.Sink.{WritesSome, IsOut};

    ghost taken = { λ s. Some s.taken };

    ghost flushed = { λ s. Some s.flushed };

    ghost faults = { λ s. s.calls.faults };

    /// Takes as much of the piece as the room and `cut` allow. `Failed` comes exactly at the calls that were told to
    /// fail, and for a piece that is not empty where the room is used up.
    fn write(&mut self, piece: &[u8]) -> Result<usize, Failed>
        ensures bound { WritesSome result piece.now }
        ensures bytes { WriteAppends (Some self.old.taken) (Some self.new.taken) result piece.now }
        ensures out { Some self.new.flushed ≡ Some self.old.flushed }
        ensures cause { HasCause self.old.calls.faults self.new.calls.faults result }
        ensures fails { IsErr result ↔ (NextFails self.old.calls
            ⊎ ((0 < length piece.now) × (self.old.most ≤ length self.old.taken))) }
        ensures steady { length self.old.taken < self.old.most → SteadyCount self.old.calls self.new.calls }
        ensures count { IfOk result (λ n.
            n ≡ cut_len self.old.cut (min (length piece.now) (self.old.most - length self.old.taken))) }
        ensures counted { CountsCall self.old.calls self.new.calls }
        ensures most { self.new.most ≡ self.old.most }
        ensures cut { self.new.cut ≡ self.old.cut }
    {
        self.calls.begin()?;
        let room = self.most - self.taken.len();
        if room == 0 && !piece.is_empty() {
            return Err(self.calls.fail());
        }
        let count = within_cut(piece.len().min(room), self.cut);
        self.taken.extend_from_slice(&piece[..count]).unwrap();
        Ok(count)
    }

    /// `Failed` comes exactly at the calls that were told to fail.
    fn flush(&mut self) -> Result<(), Failed>
        ensures bytes { Keeps (Some self.old.taken) (Some self.new.taken) }
        ensures out { OnOk result (IsOut (Some self.new.flushed) (Some self.new.taken)) }
        ensures kept { OnErr result (Some self.new.flushed ≡ Some self.old.flushed) }
        ensures cause { HasCause self.old.calls.faults self.new.calls.faults result }
        ensures fails { IsErr result ↔ NextFails self.old.calls }
        ensures steady { SteadyCount self.old.calls self.new.calls }
        ensures counted { CountsCall self.old.calls self.new.calls }
        ensures most { self.new.most ≡ self.old.most }
        ensures cut { self.new.cut ≡ self.old.cut }
    {
        self.calls.begin()?;
        self.flushed = self.taken.len();
        Ok(())
    }
}
