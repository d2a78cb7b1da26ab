// The escapes of extras: `\`, LF, CR and NUL as `\\`, `\n`, `\r` and `\0`.
ghost use Rattle.std.specs.Prelude.{◌≡◌, ◌++◌, OnOk, IfOk, option_map};
ghost use Rattle.std.specs.List.{flat_map};
ghost use Rattle.std.specs.Io.{StartsWith};
ghost use Rattle.hg_model.specs.Changeset.{extra_byte, unescaped, is_literal, spelled_byte};
ghost use Rattle.hg_changeset.specs.Reading.{first_byte};

use bridge_text::{Bytes, NoMemory};
use std::alloc::Global;

/// The bytes that a text spells; `None` where it isn't one of these escapes.
pub fn unescaped(alloc: Global, text: &[u8]) -> Result<Option<Bytes>, NoMemory>
    ensures { IfOk result (λ bytes. bytes ≡ unescaped text.now) }
{
    let mut bytes = Bytes::new(alloc);
    let mut rest = text;
    'bytes: while !rest.is_empty() {
        let Some((byte, after)) = first_byte(rest) else {
            return Ok(None);
        };
        bytes.push(byte)?;
        rest = after;
    }
    Ok(Some(bytes))
}

/// The byte that the text begins with, and what follows it.
fn first_byte(text: &[u8]) -> Option<(u8, &[u8])>
    ensures { option_map (λ x. (x.0, x.1.now)) result ≡ first_byte text.now }
{
    match text {
        [b'\\', letter, rest @ ..] => Some((spelled_byte(*letter)?, rest)),
        [byte, rest @ ..] if is_literal(*byte) => Some((*byte, rest)),
        _ => None,
    }
}

fn spelled_byte(letter: u8) -> Option<u8>
    ensures { result ≡ spelled_byte letter }
{
    match letter {
        b'\\' => Some(b'\\'),
        b'n' => Some(b'\n'),
        b'r' => Some(b'\r'),
        b'0' => Some(b'\0'),
        _ => None,
    }
}

fn is_literal(byte: u8) -> bool
    ensures { result ≡ is_literal byte }
{
    byte != b'\\' && byte != b'\n' && byte != b'\r' && byte != b'\0'
}

/// Appends bytes with their escapes, of which want of memory may leave a part.
pub fn put_escaped(out: &mut Vec<u8>, bytes: &[u8]) -> Result<(), NoMemory>
    ensures ok { OnOk result (out.new.items ≡ out.old.items ++ flat_map extra_byte bytes.now) }
    ensures front { StartsWith out.new.items out.old.items }
{
    for byte in bytes {
        put_byte(out, *byte)?;
    }
    Ok(())
}

fn put_byte(out: &mut Vec<u8>, byte: u8) -> Result<(), NoMemory>
    ensures ok { OnOk result (out.new.items ≡ out.old.items ++ extra_byte byte) }
    ensures front { StartsWith out.new.items out.old.items }
{
    match byte {
        b'\\' => Ok(out.extend_from_slice(b"\\\\")?),
        b'\n' => Ok(out.extend_from_slice(b"\\n")?),
        b'\r' => Ok(out.extend_from_slice(b"\\r")?),
        b'\0' => Ok(out.extend_from_slice(b"\\0")?),
        _ => Ok(out.push(byte)?),
    }
}
