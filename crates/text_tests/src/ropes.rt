// Texts in pieces: each call appends what it is given, and long texts that have an owner are pieces of their own.
use rope::Rope;
use shared_text::{Text, keep};
use std::alloc::Global;
use std::test::Fail;

// A call of a rope, and how many bytes it is given. Each byte is pushed alone.
#[derive(Clone, Copy, Debug, PartialEq, Eq)]
enum Call {
    Put(usize),
    Push(usize),
    Share(usize),
}

/// How many bytes a rope is made of, and the calls that append to it.
const CALLS: &[(usize, &[Call])] = &[
    (0, &[]),
    (9, &[]),
    (0, &[Call::Put(0), Call::Push(1), Call::Put(3)]),
    (2, &[Call::Push(2), Call::Put(1)]),
    (0, &[Call::Share(0), Call::Share(5)]),
    (2, &[Call::Put(3), Call::Share(4), Call::Push(1)]),
    (3, &[Call::Share(1_023), Call::Share(1_024), Call::Share(0)]),
    (0, &[Call::Share(5_000), Call::Share(5_000), Call::Push(2)]),
    (0, &[Call::Push(7), Call::Share(5_000), Call::Put(70_000)]),
    (1, &[Call::Put(70_000), Call::Push(3), Call::Share(5_000)]),
    (0, &[Call::Put(40_000), Call::Put(40_000), Call::Put(1)]),
];

/// Bytes from a place on, each unlike those beside it.
pub fn bytes_from(alloc: Global, start: usize, count: usize) -> Result<Vec<u8>, Fail> {
    let mut bytes = Vec::new(alloc);
    for place in start..start.saturating_add(count) {
        bytes.push((place % 251) as u8)?;
    }
    Ok(bytes)
}

fn push_each(rope: &mut Rope, bytes: &[u8]) -> Result<(), Fail> {
    for byte in bytes {
        rope.push(*byte)?;
    }
    Ok(())
}

// Appends to the rope and to its whole text.
fn append(alloc: Global, rope: &mut Rope, whole: &mut Vec<u8>, call: Call) -> Result<(), Fail> {
    let (Call::Put(count) | Call::Push(count) | Call::Share(count)) = call;
    let bytes = bytes_from(alloc, whole.len(), count)?;
    whole.extend_from_slice(&bytes)?;
    match call {
        Call::Put(_) => rope.put(&bytes)?,
        Call::Push(_) => push_each(rope, &bytes)?,
        Call::Share(_) => rope.share(&keep(bytes)?)?,
    }
    Ok(())
}

// What is behind the pieces, where the text begins with them.
fn behind<'a>(pieces: &[Text], text: &'a [u8]) -> Option<&'a [u8]> {
    let mut rest = text;
    for piece in pieces {
        rest = rest.strip_prefix(piece.as_slice())?;
    }
    Some(rest)
}

// Whether this is the text of the rope, in one piece and in its pieces.
fn has_text(rope: &Rope, whole: &[u8]) -> Result<bool, Fail> {
    let (pieces, end) = rope.pieces();
    let joined = rope.joined()?;
    Ok(behind(pieces, whole) == Some(end) && joined.as_slice() == whole)
}

// Whether a rope of so many bytes has its text after these calls.
fn grows(alloc: Global, first: usize, calls: &[Call]) -> Result<bool, Fail> {
    let mut whole = bytes_from(alloc, 0, first)?;
    let mut rope = Rope::of(alloc, bytes_from(alloc, 0, first)?);
    for call in calls {
        append(alloc, &mut rope, &mut whole, *call)?;
    }
    has_text(&rope, &whole)
}

#[test]
fn each_call_appends_what_it_is_given(rt: HostRuntime) -> Result<(), Fail> {
    for (first, calls) in CALLS {
        let grows = grows(rt.alloc(), *first, calls)?;
        assert!(rt; grows);
    }
    Ok(())
}

/// A text in pieces: a copy of its first third, a share of the second, and a copy of the rest.
pub fn in_thirds(alloc: Global, text: &[u8]) -> Result<Rope, Fail> {
    let (front, rest) = text.split_at(text.len() / 3);
    let (middle, end) = rest.split_at(rest.len() / 2);
    let mut rope = Rope::new(alloc);
    rope.put(front)?;
    rope.share(&keep(middle.to_vec(alloc)?)?)?;
    rope.put(end)?;
    Ok(rope)
}

/// How long a text is, and how many pieces stand before the last where its middle is shared.
const THIRDS: &[(usize, usize)] = &[(0, 0), (9, 0), (3_069, 0), (3_072, 2), (15_000, 2)];

#[test]
fn a_long_text_is_a_piece_of_its_own(rt: HostRuntime) -> Result<(), Fail> {
    for (len, want) in THIRDS {
        let text = bytes_from(rt.alloc(), 0, *len)?;
        let rope = in_thirds(rt.alloc(), &text)?;
        let has_text = has_text(&rope, &text)?;
        assert!(rt; has_text && rope.pieces().0.len() == *want);
    }
    Ok(())
}
