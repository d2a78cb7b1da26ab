// Reads that go on until enough bytes came, whatever pieces a source gives.
ghost use Rattle.std.specs.Prelude.{◌≡◌, ◌≤◌, ◌<◌, ◌+◌, ◌^◌, ◌++◌, [], List, ℕ, length, take, IfOk, OnOk, OnErr};
ghost use Rattle.std.specs.Io.KnownBytes.{Consumes, IsAtEnd};
ghost use Rattle.bridge_io.specs.Causes.{HasCause};
ghost use Rattle.bridge_io.specs.Fill.{FillCause};
ghost use Rattle.bridge_io.specs.declared.filling.FillFault.TheVariants.{Read};

use crate::failed::Failed;
use crate::source::Source;

/// How much room bytes get at first. A length that was read is no reason to take more.
const FIRST_ROOM: usize = 1 << 16;

/// How many bytes are skipped at a time.
const SKIPPED: usize = 1 << 12;

/// Why a vector wasn't filled.
#[derive(Clone, Copy, Debug, PartialEq, Eq)]
pub enum FillFault {
    /// The source failed.
    Read,
    /// Memory ran out.
    Memory,
}

impl From<Failed> for FillFault {
    ghost from_gives = { λ _ e. e ≡ Read };

    fn from(_: Failed) -> FillFault {
        FillFault::Read
    }
}

/// Reads until the buffer is full or the source at its end, and says how many bytes came.
pub fn fill<S: Source>(src: &mut S, buf: &mut [u8]) -> Result<usize, Failed>
    ensures bound { IfOk result (λ n. n ≤ length buf.new) }
    ensures bytes { IfOk result (λ n. Consumes (S.left src.old) (S.left src.new) (take n buf.new)) }
    ensures end { IfOk result (λ n. n < length buf.new → IsAtEnd (S.left src.new)) }
    ensures cause { HasCause (S.faults src.old) (S.faults src.new) result }
{
    let mut filled = 0;
    while filled < buf.len() {
        let count = src.read(&mut buf[filled..])?;
        if count == 0 {
            break;
        }
        filled += count;
    }
    Ok(filled)
}

/// Reads `count` bytes, or all there are, into an empty vector, which grows as they come. It is empty again after a
/// fault.
pub fn fill_vec<S: Source>(src: &mut S, into: &mut Vec<u8>, count: usize) -> Result<(), FillFault>
    requires { into.old.items ≡ [] }
    ensures bytes { OnOk result (Consumes (S.left src.old) (S.left src.new) into.new.items) }
    ensures len { OnOk result (length into.new.items ≤ count) }
    ensures end { OnOk result (length into.new.items < count → IsAtEnd (S.left src.new)) }
    ensures err { OnErr result (into.new.items ≡ []) }
    ensures cause { FillCause (S.faults src.old) (S.faults src.new) result }
{
    'pieces: while into.len() < count {
        let room = (count - into.len()).min(into.len().max(FIRST_ROOM));
        let came = match append_piece(src, into, room) {
            Ok(came) => came,
            Err(fault) => {
                into.clear();
                return Err(fault);
            }
        };
        if came < room {
            break;
        }
    }
    Ok(())
}

// Reads `room` bytes, or all there are, behind those that a vector has, and says how many came.
fn append_piece<S: Source>(src: &mut S, into: &mut Vec<u8>, room: usize) -> Result<usize, FillFault>
    requires { length into.old.items + room < 2 ^ 64 }
    ensures bound { IfOk result (λ n. n ≤ room) }
    ensures len { IfOk result (λ n. length into.new.items ≡ length into.old.items + n) }
    ensures bytes { OnOk result ((piece : List ℕ) × (into.new.items ≡ into.old.items ++ piece) × Consumes (S.left src.old) (S.left src.new) piece) }
    ensures end { IfOk result (λ n. n < room → IsAtEnd (S.left src.new)) }
    ensures cause { FillCause (S.faults src.old) (S.faults src.new) result }
{
    let start = into.len();
    if into.resize(start + room, 0).is_err() {
        return Err(FillFault::Memory);
    }
    let came = fill(src, &mut into[start..])?;
    into.truncate(start + came);
    Ok(came)
}

/// Reads `count` bytes, or all there are, and keeps none. It says how many came.
pub fn skip<S: Source>(src: &mut S, count: u64) -> Result<u64, Failed>
    ensures bound { IfOk result (λ n. n ≤ count) }
    ensures bytes { IfOk result (λ n. (bytes : List ℕ) × Consumes (S.left src.old) (S.left src.new) bytes × (length bytes ≡ n)) }
    ensures end { IfOk result (λ n. n < count → IsAtEnd (S.left src.new)) }
    ensures cause { HasCause (S.faults src.old) (S.faults src.new) result }
{
    let mut piece = [0; SKIPPED];
    let mut came = 0;
    'pieces: while came < count {
        let most = (count - came).min(SKIPPED as u64) as usize;
        let more = fill(src, &mut piece[..most])?;
        came += more as u64;
        if more < most {
            break;
        }
    }
    Ok(came)
}
