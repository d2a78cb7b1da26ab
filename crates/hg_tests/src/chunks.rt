// Chunks of bundles.
use bridge_io::{MemSource, Source};
use hg_chunk::{ChunkFault, ChunkReader, Piece, put_chunk, put_empty};
use rope::Rope;
use shared_text::{Text, keep};
use state_part::SharedPart;
use std::alloc::Global;
use std::test::Fail;

fn source(alloc: Global, bytes: &[u8], cut: usize, fails: &[u64]) -> Result<MemSource, Fail> {
    Ok(MemSource::new(bytes.to_vec(alloc)?, cut, fails.to_vec(alloc)?))
}

// The magic, a chunk whose field is at most 12, and the end, with the payload and the offset of the end.
fn read(src: &mut MemSource, into: &mut Vec<u8>) -> Result<(Piece, u64), ChunkFault> {
    let mut reader = ChunkReader::new();
    reader.magic(src)?;
    let piece = reader.next(src, 12, into)?;
    reader.finish(src)?;
    Ok((piece, reader.offset()))
}

/// Inputs, their payloads, their pieces and the offsets of their ends.
const CHUNKS: &[(&[u8], &[u8], Piece, u64)] = &[
    (b"HG10UN\0\0\0\0", b"", Piece::Empty, 10),
    (b"HG10UN\0\0\0\x05a", b"a", Piece::Full(6), 11),
    (b"HG10UN\0\0\0\x0cabcdefgh", b"abcdefgh", Piece::Full(6), 18),
];

// Whether the input, in pieces of at most `cut` bytes, has this payload, this piece and this end.
fn has_chunk(
    alloc: Global,
    input: &[u8],
    cut: usize,
    payload: &[u8],
    want: (Piece, u64),
) -> Result<bool, Fail> {
    let mut src = source(alloc, input, cut, &[])?;
    let mut into = b"left".to_vec(alloc)?;
    let found = read(&mut src, &mut into);
    Ok(found == Ok(want) && into.as_slice() == payload)
}

#[test]
fn a_chunk_is_read_in_any_pieces(rt: HostRuntime) -> Result<(), Fail> {
    for (input, payload, piece, end) in CHUNKS {
        let at_once = has_chunk(rt.alloc(), input, 0, payload, (*piece, *end))?;
        let byte_by_byte = has_chunk(rt.alloc(), input, 1, payload, (*piece, *end))?;
        assert!(rt; at_once && byte_by_byte, "at {end}");
    }
    Ok(())
}

/// Inputs, and why they aren't read.
const FAULTS: &[(&[u8], ChunkFault)] = &[
    (b"", ChunkFault::Truncated(0)),
    (b"abcde", ChunkFault::Truncated(5)),
    (b"abcdef", ChunkFault::Magic),
    (b"HG10UM\0\0\0\0", ChunkFault::Magic),
    (b"HG10GZ", ChunkFault::OtherBundle),
    (b"HG10BZ", ChunkFault::OtherBundle),
    (b"HG20\0\0", ChunkFault::OtherBundle),
    (b"HG10UN", ChunkFault::Truncated(6)),
    (b"HG10UN\0\0\0", ChunkFault::Truncated(9)),
    (b"HG10UN\0\0\0\x01", ChunkFault::Length(6)),
    (b"HG10UN\0\0\0\x04", ChunkFault::Length(6)),
    (b"HG10UN\xff\xff\xff\xff", ChunkFault::Length(6)),
    (b"HG10UN\x80\0\0\0", ChunkFault::Length(6)),
    (b"HG10UN\0\0\0\x05", ChunkFault::Truncated(10)),
    (b"HG10UN\0\0\0\x07ab", ChunkFault::Truncated(12)),
    (b"HG10UN\0\0\0\x0dabc", ChunkFault::Truncated(13)),
    (b"HG10UN\0\0\0\x0dabcdefghi", ChunkFault::Limit(6)),
    (b"HG10UN\x7f\xff\xff\xffabc", ChunkFault::Truncated(13)),
    (b"HG10UN\0\0\0\x05ab", ChunkFault::Trailing(11)),
];

// Why the input isn't read, in pieces of at most `cut` bytes.
fn fault_of(
    alloc: Global,
    input: &[u8],
    cut: usize,
    fails: &[u64],
) -> Result<Option<ChunkFault>, Fail> {
    let mut src = source(alloc, input, cut, fails)?;
    let mut into = Vec::new(alloc);
    Ok(read(&mut src, &mut into).err())
}

// Whether the input has this fault, in whatever pieces it is given.
fn is_refused(alloc: Global, input: &[u8], want: ChunkFault) -> Result<bool, Fail> {
    let at_once = fault_of(alloc, input, 0, &[])?;
    let byte_by_byte = fault_of(alloc, input, 1, &[])?;
    Ok(at_once == Some(want) && byte_by_byte == Some(want))
}

#[test]
fn each_fault_has_its_place(rt: HostRuntime) -> Result<(), Fail> {
    for (place, (input, want)) in FAULTS.iter().enumerate() {
        let is_refused = is_refused(rt.alloc(), input, *want)?;
        assert!(rt; is_refused, "at {place}");
    }
    Ok(())
}

// The same input, where the payload is lent if the source lends it.
fn read_text<S: Source>(
    src: &mut S,
    into: &mut Vec<u8>,
) -> Result<(Option<Text>, u64), ChunkFault> {
    let mut reader = ChunkReader::new();
    reader.magic(src)?;
    let lent = reader.next_text(src, 12, into)?;
    reader.finish(src)?;
    Ok((lent, reader.offset()))
}

fn shared(alloc: Global, bytes: &[u8]) -> Result<SharedPart, Fail> {
    Ok(SharedPart::new(keep(bytes.to_vec(alloc)?)?))
}

// Whether a source that lends gives this payload as a text that is lent, unless it is empty, and this end.
fn is_lent(alloc: Global, input: &[u8], payload: &[u8], end: u64) -> Result<bool, Fail> {
    let mut src = shared(alloc, input)?;
    let mut into = b"left".to_vec(alloc)?;
    let (lent, at) = read_text(&mut src, &mut into)?;
    let is_payload = match lent {
        Some(text) => text.as_slice() == payload && !payload.is_empty(),
        None => payload.is_empty(),
    };
    Ok(is_payload && into.is_empty() && at == end)
}

// Whether a source that lends nothing puts this payload into the vector.
fn is_put(alloc: Global, input: &[u8], payload: &[u8], end: u64) -> Result<bool, Fail> {
    let mut src = source(alloc, input, 1, &[])?;
    let mut into = b"left".to_vec(alloc)?;
    let (lent, at) = read_text(&mut src, &mut into)?;
    Ok(lent.is_none() && into.as_slice() == payload && at == end)
}

#[test]
fn a_payload_is_lent_or_put(rt: HostRuntime) -> Result<(), Fail> {
    for (input, payload, _, end) in CHUNKS {
        let is_lent = is_lent(rt.alloc(), input, payload, *end)?;
        let is_put = is_put(rt.alloc(), input, payload, *end)?;
        assert!(rt; is_lent && is_put, "at {end}");
    }
    Ok(())
}

// Whether the input has this fault where its payload may be lent, and where it isn't.
fn is_no_text(alloc: Global, input: &[u8], want: ChunkFault) -> Result<bool, Fail> {
    let mut into = Vec::new(alloc);
    let lends = read_text(&mut shared(alloc, input)?, &mut into).err();
    let gives = read_text(&mut source(alloc, input, 1, &[])?, &mut into).err();
    Ok(lends == Some(want) && gives == Some(want))
}

#[test]
fn each_fault_of_a_text_has_its_place(rt: HostRuntime) -> Result<(), Fail> {
    for (place, (input, want)) in FAULTS.iter().enumerate() {
        let is_no_text = is_no_text(rt.alloc(), input, *want)?;
        assert!(rt; is_no_text, "at {place}");
    }
    Ok(())
}

/// The magic, the field, the payload and the end are a call each.
#[test]
fn each_call_may_fail(rt: HostRuntime) -> Result<(), Fail> {
    for call in 0..4 {
        let fault = fault_of(rt.alloc(), b"HG10UN\0\0\0\x05a", 0, &[call])?;
        assert!(rt; fault == Some(ChunkFault::Read), "call {call}");
    }
    Ok(())
}

#[test]
fn chunks_are_written(rt: HostRuntime) -> Result<(), Fail> {
    let mut out = Rope::of(rt.alloc(), b"HG10UN".to_vec(rt.alloc())?);
    put_chunk(&mut out, b"abc")?;
    put_empty(&mut out)?;
    let bytes = out.joined()?;
    assert!(rt; bytes.as_slice() == b"HG10UN\0\0\0\x07abc\0\0\0\0".as_slice());
    Ok(())
}
