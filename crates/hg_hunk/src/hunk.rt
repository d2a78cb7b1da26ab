ghost use Rattle.std.specs.Prelude.{◌≡◌, ◌≤◌, ◌↔◌, true, length, option_map};
ghost use Rattle.hg_model.specs.Delta.{first_number32, first_hunk, is_hunk_within};
ghost use Rattle.hg_hunk.specs.Wholes.{IsAlone};

use byteorder::{BigEndian, ByteOrder};

/// How many bytes the three numbers of a hunk have.
const HEADER_LEN: usize = 12;

/// A hunk at the beginning of a delta: its bytes stand in place of the base's from `start` up to
/// `end`.
#[derive(Clone, Copy)]
pub struct Hunk<'a> {
    pub start: usize,
    pub end: usize,
    pub bytes: &'a [u8],
}

impl Hunk<'_> {
    /// Whether it starts at `from` or behind it, and ends at its start or behind it and within a
    /// base of this length.
    pub fn is_within(&self, from: usize, base_len: usize) -> bool
        ensures { result ≡ is_hunk_within from base_len (record { start = self.now.start; finish = self.now.end; bytes = self.now.bytes.now }) }
    {
        from <= self.start && self.start <= self.end && self.end <= base_len
    }

    /// Whether it replaces a whole base of this length, where so many bytes follow it: none.
    pub fn is_alone(&self, behind: usize, base_len: usize) -> bool
        ensures { (result ≡ true) ↔ IsAlone behind base_len self.now.start self.now.end }
    {
        behind == 0 && self.start == 0 && self.end == base_len
    }
}

/// The number in the first four bytes, the highest first.
#[tactic(auto, unfolding(hg_model::specs::Delta::first_number32))]
fn first_number(bytes: &[u8]) -> u32
    requires { 4 ≤ length bytes.now }
    ensures { result ≡ first_number32 bytes.now }
{
    BigEndian::read_u32(bytes)
}

/// The hunk at the beginning and what follows it, unless it is cut. A hunk is its start, its end
/// and the count of its bytes, in four bytes each, and its bytes.
#[tactic(auto, unfolding(hg_model::specs::Delta::first_hunk))]
pub fn next_hunk(delta: &[u8]) -> Option<(Hunk<'_>, &[u8])>
    ensures { option_map (λ x. (record { start = x.0.start; finish = x.0.end; bytes = x.0.bytes.now }, x.1.now)) result ≡ first_hunk delta.now }
{
    if delta.len() < HEADER_LEN {
        return None;
    }
    let len = HEADER_LEN + first_number(&delta[8..]) as usize;
    if delta.len() < len {
        return None;
    }
    let hunk = Hunk {
        start: first_number(delta) as usize,
        end: first_number(&delta[4..]) as usize,
        bytes: &delta[HEADER_LEN..len],
    };
    Some((hunk, &delta[len..]))
}
