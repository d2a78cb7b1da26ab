// Where bytes go.
ghost use Rattle.std.specs.Prelude.{◌≡◌, List, ℕ, Option, OnOk, OnErr};
ghost use Rattle.std.specs.Io.KnownBytes.{WriteAppends, Appends, Keeps};
ghost use Rattle.std.specs.List.{concat};
ghost use Rattle.bridge_io.specs.Causes.{HasCause};
ghost use Rattle.bridge_io.specs.Sink.{WritesSome, AppendsPrefix, IsOut};

use crate::failed::Failed;
use bytes::Bytes;
use rope::Rope;

/// Takes bytes in pieces, and counts its faults.
pub trait Sink {
    /// All bytes so far, where it tells them.
    ghost taken: { Self → Option (List ℕ) };

    /// Those of them that are out, where it tells them: what was taken before the last flush that answered `Ok`.
    ghost flushed: { Self → Option (List ℕ) };

    /// How often it has failed.
    ghost faults: { Self → ℕ };

    /// Takes some front of a piece, at least one byte of one that is not empty, and answers how many bytes it took.
    /// After `Failed` it took none.
    fn write(&mut self, piece: &[u8]) -> Result<usize, Failed>
        ensures bound { WritesSome result piece.now }
        ensures bytes { WriteAppends (taken self.old) (taken self.new) result piece.now }
        ensures out { flushed self.new ≡ flushed self.old }
        ensures cause { HasCause (faults self.old) (faults self.new) result };

    /// Hands on what was taken: after `Ok` all of it is out.
    fn flush(&mut self) -> Result<(), Failed>
        ensures bytes { Keeps (taken self.old) (taken self.new) }
        ensures out { OnOk result (IsOut (flushed self.new) (taken self.new)) }
        ensures kept { OnErr result (flushed self.new ≡ flushed self.old) }
        ensures cause { HasCause (faults self.old) (faults self.new) result };
}

/// Writes all of the bytes. After `Failed` the sink has taken a front of them.
pub fn write_all<O: Sink>(out: &mut O, bytes: &[u8]) -> Result<(), Failed>
    ensures ok { OnOk result (Appends (O.taken out.old) (O.taken out.new) bytes.now) }
    ensures prefix { AppendsPrefix (O.taken out.old) (O.taken out.new) bytes.now }
    ensures out { O.flushed out.new ≡ O.flushed out.old }
    ensures cause { HasCause (O.faults out.old) (O.faults out.new) result }
{
    let mut rest = bytes;
    while !rest.is_empty() {
        let count = out.write(rest)?;
        rest = &rest[count..];
    }
    Ok(())
}

/// Writes all of a text in pieces. After `Failed` the sink has taken a front of it.
pub fn write_rope<O: Sink>(out: &mut O, text: &Rope) -> Result<(), Failed>
    ensures ok { OnOk result (Appends (O.taken out.old) (O.taken out.new) text.now) }
    ensures prefix { AppendsPrefix (O.taken out.old) (O.taken out.new) text.now }
    ensures out { O.flushed out.new ≡ O.flushed out.old }
    ensures cause { HasCause (O.faults out.old) (O.faults out.new) result }
{
    let (pieces, end) = text.pieces();
    write_pieces(out, pieces)?;
    write_all(out, end)
}

// Writes all of the pieces, one behind the other.
fn write_pieces<O: Sink>(out: &mut O, pieces: &[Bytes]) -> Result<(), Failed>
    ensures ok { OnOk result (Appends (O.taken out.old) (O.taken out.new) (concat pieces.now)) }
    ensures prefix { AppendsPrefix (O.taken out.old) (O.taken out.new) (concat pieces.now) }
    ensures out { O.flushed out.new ≡ O.flushed out.old }
    ensures cause { HasCause (O.faults out.old) (O.faults out.new) result }
{
    for piece in pieces {
        write_all(out, piece.as_slice())?;
    }
    Ok(())
}
