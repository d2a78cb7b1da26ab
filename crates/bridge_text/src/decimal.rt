ghost use Rattle.std.specs.Prelude.{◌≡◌, ◌++◌, ◌^◌, bytes_eq, nat_lt, if◌then◌else◌, Some, None, decimal, IsTrue, OnOk, OnErr};
ghost use Rattle.std.specs.List.{list_all};
ghost use Rattle.text_model.specs.Text.{is_digit, is_decimal, number_of, decimal_below};

use crate::memory::NoMemory;
use itoa::Buffer;

/// The number below 2^64 whose decimal the text is: digits alone, at least one, the first not
/// `0` unless it stands alone. `None` for any other text.
pub fn decimal_of(text: &[u8]) -> Option<u64>
    ensures { result ≡ decimal_below (2 ^ 64) text.now }
{
    if is_decimal(text) {
        number_of(text)
    } else {
        None
    }
}

/// Whether the text is the decimal of a number.
pub fn is_decimal_of(text: &[u8], number: u64) -> bool
    ensures { result ≡ bytes_eq text.now (decimal number) }
{
    decimal_of(text) == Some(number)
}

/// Appends the decimal of a number. After want of memory `out` is as it was.
pub fn decimal_into(out: &mut Vec<u8>, n: u64) -> Result<(), NoMemory>
    ensures ok { OnOk result (out.new.items ≡ out.old.items ++ decimal n) }
    ensures err { OnErr result (out.new.items ≡ out.old.items) }
{
    let mut buffer = Buffer::new();
    Ok(out.extend_from_slice(buffer.format(n).as_bytes())?)
}

fn is_decimal(text: &[u8]) -> bool
    ensures { result ≡ is_decimal text.now }
{
    !text.is_empty() && are_digits(text) && (text.len() == 1 || text[0] != b'0')
}

fn are_digits(text: &[u8]) -> bool
    ensures { result ≡ list_all is_digit text.now }
{
    text.iter().all(|byte| byte.is_ascii_digit())
}

fn number_of(digits: &[u8]) -> Option<u64>
    requires { IsTrue (list_all is_digit digits.now) }
    ensures { result ≡ (if nat_lt (number_of digits.now) (2 ^ 64) then Some (number_of digits.now) else None) }
{
    let mut number: u64 = 0;
    for digit in digits {
        number = number
            .checked_mul(10)?
            .checked_add(u64::from(*digit - b'0'))?;
    }
    Some(number)
}
