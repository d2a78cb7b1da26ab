// Where bytes come from.
ghost use Rattle.std.specs.Prelude.{◌≡◌, List, ℕ, Option, length, IfSome, MatchOption};
ghost use Rattle.std.specs.Io.{ReadsAtMost};
ghost use Rattle.std.specs.Io.KnownBytes.{Consumes, ReadConsumes};
ghost use Rattle.bridge_io.specs.Causes.{HasCause};

use crate::failed::Failed;
use bytes::Bytes;

/// Gives bytes in pieces, and counts its faults.
pub trait Source {
    /// The bytes still to come, where it tells them.
    ghost left: { Self → Option (List ℕ) };

    /// How often it has failed.
    ghost faults: { Self → ℕ };

    /// Moves the next bytes to the front of `buf`, and answers how many. `Ok(0)` into a buffer with room is the end.
    /// After `Failed` the same bytes are still to come.
    fn read(&mut self, buf: &mut [u8]) -> Result<usize, Failed>
        ensures bound { ReadsAtMost result buf.new }
        ensures bytes { ReadConsumes (left self.old) (left self.new) result buf.new }
        ensures cause { HasCause (faults self.old) (faults self.new) result };

    /// The next `count` bytes as a part of a block that is shared, so that they aren't copied. `None` says nothing of how many there are: a
    /// source that shares none answers it always, and the same bytes are still to come.
    fn lend(&mut self, count: usize) -> Option<Bytes>
        ensures bytes { MatchOption result (left self.new ≡ left self.old) (Consumes (left self.old) (left self.new)) }
        ensures count { IfSome result (λ lent. length lent ≡ count) }
        ensures faults { faults self.new ≡ faults self.old }
    {
        None
    }
}
