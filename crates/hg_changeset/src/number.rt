// Signed decimals.
ghost use Rattle.std.specs.Prelude.{◌≡◌, ◌≤◌, ◌+◌, ◌^◌, ◌++◌, OnOk};
ghost use Rattle.std.specs.Option.{option_and_then};
ghost use Rattle.std.specs.Io.{StartsWith};
ghost use Rattle.text_model.specs.Text.{signed_decimal, decimal_below};
ghost use Rattle.hg_model.specs.Changeset.{signed_of, negative_of};

use bridge_text::{NoMemory, decimal_into, decimal_of};

/// The number whose decimal the text is, with `-` where it is negative, without leading zeros and
/// not `-0`; `None` where the text is no such decimal or the number's size is above `most`.
pub fn signed_of(text: &[u8], most: u64) -> Option<i64>
    requires { most ≤ 2 ^ 62 }
    ensures { result ≡ signed_of most text.now }
{
    match text {
        [] => None,
        [b'-', digits @ ..] => negative_of(size_of(digits, most)?),
        _ => Some(size_of(text, most)? as i64),
    }
}

fn size_of(digits: &[u8], most: u64) -> Option<u64>
    requires { most ≤ 2 ^ 62 }
    ensures { result ≡ decimal_below (most + 1) digits.now }
{
    let size = decimal_of(digits)?;
    if size <= most { Some(size) } else { None }
}

fn negative_of(size: u64) -> Option<i64>
    requires { size ≤ 2 ^ 62 }
    ensures { result ≡ negative_of size }
{
    if size == 0 {
        None
    } else {
        Some(-(size as i64))
    }
}

/// Appends the decimal of a number, of which want of memory may leave a part.
pub fn put_signed(out: &mut Vec<u8>, number: i64) -> Result<(), NoMemory>
    ensures ok { OnOk result (out.new.items ≡ out.old.items ++ signed_decimal number) }
    ensures front { StartsWith out.new.items out.old.items }
{
    if number < 0 {
        out.push(b'-')?;
    }
    decimal_into(out, number.unsigned_abs())
}
