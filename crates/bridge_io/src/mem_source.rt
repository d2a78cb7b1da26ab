// A source over bytes in memory.
ghost use Rattle.std.specs.Prelude.{◌≡◌, ◌≤◌, ℕ, length, take, drop, min, vec_len};
ghost use Rattle.bridge_io.specs.Calls.{no_calls};
ghost use Rattle.bridge_io.specs.Memory.{SourceState, cut_len};

use crate::calls::Calls;
use crate::cut::within_cut;
use crate::failed::Failed;
use crate::source::Source;
use std::marker::Model;

/// A source over bytes in memory, which fails at the calls that it is told.
#[derive(Drop)]
pub struct MemSource {
    bytes: Vec<u8>,
    at: usize,
    cut: usize,
    calls: Calls,
}

impl Model for MemSource {
    ghost Value = { SourceState };

    ghost view = { λ s. record { left = drop s.at s.bytes.items; cut = s.cut; calls = s.calls } };

    ghost invariant = { λ s. s.at ≤ vec_len s.bytes };
}

impl MemSource {
    /// Gives these bytes, at most `cut` of them in a call (0: no bound), and fails at the calls with these numbers,
    /// counted from 0.
    pub fn new(bytes: Vec<u8>, cut: usize, fails: Vec<u64>) -> MemSource
        ensures left { result.left ≡ bytes.items }
        ensures cut { result.cut ≡ cut }
        ensures calls { result.calls ≡ no_calls fails.items }
    {
        MemSource {
            bytes,
            at: 0,
            cut,
            calls: Calls::new(fails),
        }
    }
}

impl Source for MemSource {
    ghost use Rattle.std.specs.Prelude.{◌↔◌, IsErr, IfOk, Some};
    ghost use Rattle.std.specs.Io.{ReadsAtMost};
    ghost use Rattle.std.specs.Io.KnownBytes.{ReadConsumes};
    ghost use Rattle.bridge_io.specs.Calls.{NextFails, SteadyCount, CountsCall};
    ghost use Rattle.bridge_io.specs.Causes.{HasCause};

    ghost left = { λ s. Some s.left };

    ghost faults = { λ s. s.calls.faults };

    /// Gives as much as the buffer, the bytes still to come and `cut` allow. `Failed` comes exactly at the calls that
    /// were told to fail.
    fn read(&mut self, buf: &mut [u8]) -> Result<usize, Failed>
        ensures bound { ReadsAtMost result buf.new }
        ensures bytes { ReadConsumes (Some self.old.left) (Some self.new.left) result buf.new }
        ensures cause { HasCause self.old.calls.faults self.new.calls.faults result }
        ensures fails { IsErr result ↔ NextFails self.old.calls }
        ensures steady { SteadyCount self.old.calls self.new.calls }
        ensures count { IfOk result (λ n. n ≡ cut_len self.old.cut (min (length buf.new) (length self.old.left))) }
        ensures counted { CountsCall self.old.calls self.new.calls }
        ensures cut { self.new.cut ≡ self.old.cut }
    {
        self.calls.begin()?;
        let (_, left) = self.bytes.split_at(self.at);
        let count = copy_front(left, buf, self.cut);
        self.at += count;
        Ok(count)
    }
}

// Copies the front of `from` that fits into `buf`, at most `cut` bytes (0: no bound).
fn copy_front(from: &[u8], buf: &mut [u8], cut: usize) -> usize
    ensures count { result ≡ cut_len cut (min (length buf.new) (length from.now)) }
    ensures fits { result ≤ length buf.new }
    ensures front { take result buf.new ≡ take result from.now }
{
    let count = within_cut(buf.len().min(from.len()), cut);
    buf[..count].copy_from_slice(&from[..count]);
    count
}
