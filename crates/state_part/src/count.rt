// A line of a word and a number.
ghost use Rattle.std.specs.Prelude.{◌≡◌, ◌++◌, MatchOption, OnOk};
ghost use Rattle.std.specs.Io.{StartsWith};
ghost use Rattle.state_part.specs.Form.{count_line, HasCount, NoCount};

use bridge_text::{NoMemory, cut_at, decimal_into, decimal_of};
use itoa::Buffer;
use rope::Rope;

/// The number in the line of this word that begins the bytes, and what follows the line. `None` exactly where no line of the
/// word and a number below 2^64 begins them.
pub fn read_count<'a>(word: &[u8], bytes: &'a [u8]) -> Option<(u64, &'a [u8])>
    ensures { MatchOption result (NoCount word.now bytes.entry.now) (λ found. HasCount word.now bytes.entry.now found.0 found.1.now) }
{
    let behind = bytes.strip_prefix(word)?;
    let numbered = behind.strip_prefix(b" ")?;
    let (digits, rest) = cut_at(b'\n', numbered)?;
    Some((decimal_of(digits)?, rest))
}

/// Appends the line of a word and a number. After want of memory what `out` was is its beginning.
pub fn put_count(out: &mut Rope, word: &[u8], count: u64) -> Result<(), NoMemory>
    ensures ok { OnOk result (out.new ≡ out.old ++ count_line word.now count) }
    ensures front { StartsWith out.new out.old }
{
    let mut digits = Buffer::new();
    out.put(word)?;
    out.push(b' ')?;
    out.put(digits.format(count).as_bytes())?;
    out.push(b'\n')?;
    Ok(())
}

/// The same at the end of bytes in one piece.
pub fn count_into(out: &mut Vec<u8>, word: &[u8], count: u64) -> Result<(), NoMemory>
    ensures ok { OnOk result (out.new.items ≡ out.old.items ++ count_line word.now count) }
    ensures front { StartsWith out.new.items out.old.items }
{
    out.extend_from_slice(word)?;
    out.push(b' ')?;
    decimal_into(out, count)?;
    out.push(b'\n')?;
    Ok(())
}
