ghost use Rattle.std.specs.Prelude.{◌≡◌, ◌++◌, [], ◌∷◌, option_map, OnOk, OnErr, IfErr};
ghost use Rattle.std.specs.Io.{StartsWith};
ghost use Rattle.text_model.specs.Text.{Bytes};
ghost use Rattle.text_model.specs.Escape.{is_plain, escape, IsEscapeOf};
ghost use Rattle.text_model.specs.Unescape as unescape;
ghost use Rattle.bridge_text.specs.Faults.{IsTextFault};

use crate::memory::NoMemory;
use thiserror::Error;

/// The digits of an escaped byte.
const DIGITS: &[u8; 16] = b"0123456789ABCDEF";

/// Appends the escape of these bytes: each byte outside 0x21 to 0x7E, and `%` and `\`, as `%`
/// and two upper case hex digits, and each other byte as it is. After want of memory `out` is
/// as it was.
pub fn escape_into(out: &mut Vec<u8>, raw: &[u8]) -> Result<(), NoMemory>
    ensures ok { OnOk result (out.new.items ≡ out.old.items ++ escape raw.now) }
    ensures err { OnErr result (out.new.items ≡ out.old.items) }
{
    let start = out.len();
    let result = push_escape(out, raw);
    if result.is_err() {
        out.truncate(start);
    }
    result
}

fn push_escape(out: &mut Vec<u8>, raw: &[u8]) -> Result<(), NoMemory>
    ensures ok { OnOk result (out.new.items ≡ out.old.items ++ escape raw.now) }
    ensures front { StartsWith out.new.items out.old.items }
{
    for byte in raw {
        if is_plain(*byte) {
            out.push(*byte)?;
        } else {
            let high = DIGITS[usize::from(*byte / 16)];
            let low = DIGITS[usize::from(*byte % 16)];
            out.extend_from_slice(&[b'%', high, low])?;
        }
    }
    Ok(())
}

/// Why a text was not unescaped.
#[derive(Clone, Copy, Debug, PartialEq, Eq, Error)]
pub enum TextFault {
    /// The text is no escape of any bytes. This is the offset of its first byte or `%` that
    /// can't stand there.
    #[error("no escape at offset {0}")]
    Shape(usize),
    /// Memory ran out.
    #[error("out of memory")]
    Memory,
}

impl From<NoMemory> for TextFault {
    ghost use Rattle.std.specs.Prelude.{◌≡◌};
    ghost use Rattle.bridge_text.specs.declared.escape.TextFault.TheVariants.{Memory};

    ghost from_gives = { λ _ fault. fault ≡ Memory };

    fn from(_error: NoMemory) -> TextFault {
        TextFault::Memory
    }
}

/// Appends the bytes whose escape the text is. Shape comes exactly where it is the escape of no
/// bytes. After any error `out` is as it was.
pub fn unescape_into(out: &mut Vec<u8>, text: &[u8]) -> Result<(), TextFault>
    ensures ok { OnOk result ((raw : Bytes) × IsEscapeOf text.now raw × (out.new.items ≡ out.old.items ++ raw)) }
    ensures fault { IfErr result (IsTextFault text.now) }
    ensures err { OnErr result (out.new.items ≡ out.old.items) }
{
    let before = out.len();
    let result = push_unescaped(out, text);
    if result.is_err() {
        out.truncate(before);
    }
    result
}

fn push_unescaped(out: &mut Vec<u8>, text: &[u8]) -> Result<(), TextFault>
    ensures ok { OnOk result ((raw : Bytes) × IsEscapeOf text.now raw × (out.new.items ≡ out.old.items ++ raw)) }
    ensures fault { IfErr result (IsTextFault text.now) }
    ensures front { StartsWith out.new.items out.old.items }
{
    let mut rest = text;
    'bytes: while !rest.is_empty() {
        let Some((byte, after)) = first_byte(rest) else {
            return Err(TextFault::Shape(text.len() - rest.len()));
        };
        push(out, byte)?;
        rest = after;
    }
    Ok(())
}

fn push(out: &mut Vec<u8>, byte: u8) -> Result<(), NoMemory>
    ensures ok { OnOk result (out.new.items ≡ out.old.items ++ byte ∷ []) }
    ensures err { OnErr result (out.new.items ≡ out.old.items) }
{
    Ok(out.push(byte)?)
}

/// The byte that an escape begins with, and the rest of the escape.
fn first_byte(text: &[u8]) -> Option<(u8, &[u8])>
    ensures { option_map (λ r. (r.0, r.1.now)) result ≡ unescape.first_byte text.now }
{
    match text {
        [b'%', high, low, rest @ ..] => Some((hex_byte(*high, *low)?, rest)),
        [byte, rest @ ..] if is_plain(*byte) => Some((*byte, rest)),
        _ => None,
    }
}

/// The byte that these two digits name behind a `%`, where it does not stand for itself.
fn hex_byte(high: u8, low: u8) -> Option<u8>
    ensures { result ≡ unescape.hex_byte high low }
{
    let byte = digit_value(high)? * 16 + digit_value(low)?;
    if is_plain(byte) { None } else { Some(byte) }
}

/// The value of an upper case hex digit.
fn digit_value(digit: u8) -> Option<u8>
    ensures { result ≡ unescape.digit_value digit }
{
    match digit {
        b'0'..=b'9' => Some(digit - b'0'),
        b'A'..=b'F' => Some(digit - b'A' + 10),
        _ => None,
    }
}

fn is_plain(byte: u8) -> bool
    ensures { result ≡ is_plain byte }
{
    byte >= b'!' && byte <= b'~' && byte != b'%' && byte != b'\\'
}
