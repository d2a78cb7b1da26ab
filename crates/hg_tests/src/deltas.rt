// Deltas: what hunks make of a base.
use hg_hunk::{HunkFault, apply, is_whole, patched_len, replace_into};
use rope::Rope;
use shared_text::keep;
use std::alloc::Global;
use std::test::Fail;

const BASE: &[u8] = b"abcdef";

// (1, 3, `XY`) and (4, 4, `Z`)
const TWO_HUNKS: &[u8] = b"\0\0\0\x01\0\0\0\x03\0\0\0\x02XY\0\0\0\x04\0\0\0\x04\0\0\0\x01Z";

/// Deltas, the most bytes that their texts may have, and the text or the fault.
const DELTAS: &[(&[u8], usize, Result<&[u8], HunkFault>)] = &[
    (TWO_HUNKS, 7, Ok(b"aXYdZef")),
    (TWO_HUNKS, 6, Err(HunkFault::Limit)),
    (b"", 6, Ok(b"abcdef")),
    (b"", 5, Err(HunkFault::Limit)),
    // (0, 6, nothing)
    (b"\0\0\0\0\0\0\0\x06\0\0\0\0", 0, Ok(b"")),
    // (1, 3, `XY`) and (2, 4, nothing)
    (
        b"\0\0\0\x01\0\0\0\x03\0\0\0\x02XY\0\0\0\x02\0\0\0\x04\0\0\0\0",
        9,
        Err(HunkFault::Range(14)),
    ),
    // (3, 2, nothing)
    (b"\0\0\0\x03\0\0\0\x02\0\0\0\0", 9, Err(HunkFault::Range(0))),
    // (0, 7, nothing)
    (b"\0\0\0\0\0\0\0\x07\0\0\0\0", 9, Err(HunkFault::Range(0))),
    (b"\0\0\0\0\0\0\0\0\0\0\0", 9, Err(HunkFault::Shape(0))),
    // (0, 0, three bytes of which there are two)
    (b"\0\0\0\0\0\0\0\0\0\0\0\x03ab", 9, Err(HunkFault::Shape(0))),
    // (1, 3, `XY`) and eleven bytes
    (
        b"\0\0\0\x01\0\0\0\x03\0\0\0\x02XY\0\0\0\x04\0\0\0\x04\0\0\0",
        9,
        Err(HunkFault::Shape(14)),
    ),
    // (3, 2, nothing) and eleven bytes
    (
        b"\0\0\0\x03\0\0\0\x02\0\0\0\0\0\0\0\x04\0\0\0\x04\0\0\0",
        9,
        Err(HunkFault::Shape(12)),
    ),
];

// Whether the delta makes this text of the base.
fn makes(alloc: Global, delta: &[u8], most: usize, text: &[u8]) -> Result<bool, Fail> {
    let made = apply(alloc, BASE, delta, most)?;
    Ok(made.as_slice() == text && patched_len(BASE.len(), delta, most) == Ok(text.len()))
}

// Whether the delta has this fault.
fn is_refused(alloc: Global, delta: &[u8], most: usize, fault: HunkFault) -> bool {
    let has_length = patched_len(BASE.len(), delta, most) == Err(fault);
    has_length && apply(alloc, BASE, delta, most).err() == Some(fault)
}

fn is_answered(
    alloc: Global,
    delta: &[u8],
    most: usize,
    want: &Result<&[u8], HunkFault>,
) -> Result<bool, Fail> {
    match want {
        Ok(text) => makes(alloc, delta, most, text),
        Err(fault) => Ok(is_refused(alloc, delta, most, *fault)),
    }
}

#[test]
fn changes_a_base(rt: HostRuntime) -> Result<(), Fail> {
    for (place, (delta, most, want)) in DELTAS.iter().enumerate() {
        let is_answered = is_answered(rt.alloc(), delta, *most, want)?;
        assert!(rt; is_answered, "at {place}");
    }
    Ok(())
}

/// Lengths of bases, texts, and the deltas that make the one of the other.
const REPLACEMENTS: &[(u32, &[u8], &[u8])] = &[
    (0, b"", b""),
    (258, b"hi", b"\0\0\0\0\0\0\x01\x02\0\0\0\x02hi"),
    (6, b"", b"\0\0\0\0\0\0\0\x06\0\0\0\0"),
    (0, b"hi", b"\0\0\0\0\0\0\0\0\0\0\0\x02hi"),
];

// Whether the delta is appended to what is there.
fn is_appended(alloc: Global, base_len: u32, text: &[u8], want: &[u8]) -> Result<bool, Fail> {
    if text.len() >= 1 << 32 {
        return Ok(false);
    }
    let text = keep(text.to_vec(alloc)?)?;
    let mut delta = Rope::of(alloc, b"7".to_vec(alloc)?);
    replace_into(&mut delta, base_len, &text)?;
    Ok(delta.joined()?.strip_prefix(b"7") == Some(want))
}

#[test]
fn replaces_a_base(rt: HostRuntime) -> Result<(), Fail> {
    for (base_len, text, want) in REPLACEMENTS {
        let is_appended = is_appended(rt.alloc(), *base_len, text, want)?;
        assert!(rt; is_appended);
    }
    Ok(())
}

/// Lengths of bases, deltas, and whether they are one hunk that replaces the whole base.
const WHOLES: &[(usize, &[u8], bool)] = &[
    (0, b"\0\0\0\0\0\0\0\0\0\0\0\x02hi", true),
    (6, b"\0\0\0\0\0\0\0\x06\0\0\0\x02hi", true),
    (6, b"\0\0\0\0\0\0\0\x06\0\0\0\0", true),
    // no hunk
    (0, b"", false),
    // before all of the base, behind it, over a part of it, and out of range
    (6, b"\0\0\0\0\0\0\0\0\0\0\0\x02hi", false),
    (6, b"\0\0\0\x06\0\0\0\x06\0\0\0\x02hi", false),
    (6, b"\0\0\0\x01\0\0\0\x06\0\0\0\x02hi", false),
    (6, b"\0\0\0\0\0\0\0\x07\0\0\0\x02hi", false),
    // a byte is missing, and one is too many
    (6, b"\0\0\0\0\0\0\0\x06\0\0\0\x02h", false),
    (6, b"\0\0\0\0\0\0\0\x06\0\0\0\x02hi!", false),
    // two hunks
    (
        6,
        b"\0\0\0\0\0\0\0\x06\0\0\0\0\0\0\0\x06\0\0\0\x06\0\0\0\0",
        false,
    ),
];

#[test]
fn replaces_the_whole_base(rt: HostRuntime) -> Result<(), Fail> {
    for (place, (base_len, delta, want)) in WHOLES.iter().enumerate() {
        assert!(rt; is_whole(*base_len, delta) == *want, "at {place}");
    }
    Ok(())
}
