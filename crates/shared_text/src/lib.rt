//! Texts that share a block of memory: a part of a text, and a text again, copy no byte.
#![tactic(auto)]

ghost use Rattle.std.specs.Prelude.{◌≡◌, ◌≤◌, length, slice_range, IfOk};

use bridge_text::NoMemory;
use bytes::Bytes;
use std::ops::Range;

/// A range of a block of memory that may have several owners. Contracts see its bytes.
pub type Text = Bytes;

/// These very bytes, not copied.
pub fn keep(raw: Vec<u8>) -> Result<Text, NoMemory>
    ensures { IfOk result (λ text. text ≡ raw.items) }
{
    match Bytes::from_vec(raw) {
        Ok(text) => Ok(text),
        Err(_) => Err(NoMemory),
    }
}

/// Another owner of the same bytes.
pub fn again(text: &Text) -> Result<Text, NoMemory>
    ensures { IfOk result (λ other. other ≡ text.now) }
{
    part(text, 0..text.len())
}

/// An owner of a part of the bytes, from the start of the range up to its end.
pub fn part(text: &Text, range: Range<usize>) -> Result<Text, NoMemory>
    requires order { range.start ≤ range.end }
    requires within { range.end ≤ length text.now }
    ensures { IfOk result (λ piece. piece ≡ slice_range text.now range.start range.end) }
{
    Ok(text.slice(range)?)
}
