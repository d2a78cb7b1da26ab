ghost use Rattle.std.specs.Prelude.{◌≡◌, ◌==◌, ◌<◌, ◌≤◌, ◌++◌, ◌∷◌, length, option_map, position, IfSome};
ghost use Rattle.text_model.specs.Text.{lf, whole_lines};
ghost use Rattle.text_model.specs.Cuts.{cut_of, place_from};

use bstr::ByteSlice;

/// The bytes before the first of this byte, and those after it; `None` where the byte is absent.
#[tactic(auto, unfolding(text_model::specs::Cuts::cut_of))]
pub fn cut_at(byte: u8, bytes: &[u8]) -> Option<(&[u8], &[u8])>
    ensures { option_map (λ x. (x.0.now, x.1.now)) result ≡ cut_of byte bytes.now }
{
    let place = place_of(byte, bytes)?;
    Some((&bytes[..place], &bytes[place + 1..]))
}

/// The first line of some bytes, with its LF if it has one, and what comes after it.
pub fn first_line(bytes: &[u8]) -> (&[u8], &[u8])
    requires { 0 < length bytes.now }
    ensures lines { whole_lines bytes.now ≡ result.0.now ∷ whole_lines result.1.now }
    ensures whole { bytes.now ≡ result.0.now ++ result.1.now }
    ensures some { 0 < length result.0.now }
{
    match cut_at(b'\n', bytes) {
        Some((front, _)) => bytes.split_at(front.len() + 1),
        None => bytes.split_at(bytes.len()),
    }
}

/// The offset of the first LF at or after the offset `from`, which is at most the length.
pub fn line_end(text: &[u8], from: usize) -> Option<usize>
    requires { from ≤ length text.now }
    ensures { result ≡ place_from lf text.now from }
{
    let (_, rest) = text.split_at(from);
    let place = place_of(b'\n', rest)?;
    Some(from + place)
}

fn place_of(byte: u8, bytes: &[u8]) -> Option<usize>
    ensures first { result ≡ position (λ x. x == byte) bytes.now }
    ensures within { IfSome result (λ place. place < length bytes.now) }
{
    bytes.find_byte(byte)
}
