// One byte that is read, and one that is kept.
ghost use Rattle.std.specs.Prelude.{◌≡◌, ◌++◌, [], ◌∷◌, option_to_list, None, IfOk, OnOk};
ghost use Rattle.std.specs.Io.KnownBytes.{Consumes, IsAtEnd};
ghost use Rattle.bridge_io.specs.Causes.{HasCause};

use bridge_io::{Failed, Source};
use bridge_text::NoMemory;

/// Reads one byte, and none at the end.
pub fn next_byte<S: Source>(src: &mut S) -> Result<Option<u8>, Failed>
    ensures bytes { IfOk result (λ byte. Consumes (S.left src.old) (S.left src.new) (option_to_list byte)) }
    ensures end { IfOk result (λ byte. byte ≡ None → IsAtEnd (S.left src.new)) }
    ensures cause { HasCause (S.faults src.old) (S.faults src.new) result }
{
    let mut buf = [0; 1];
    let count = src.read(&mut buf)?;
    if count == 0 {
        Ok(None)
    } else {
        Ok(Some(buf[0]))
    }
}

/// Puts a byte at the end.
pub fn push(out: &mut Vec<u8>, byte: u8) -> Result<(), NoMemory>
    ensures { OnOk result (out.new.items ≡ out.old.items ++ byte ∷ []) }
{
    Ok(out.push(byte)?)
}
