// Runs whose input or output fails.
use crate::run_over::{Outside, run_over, sink_of};
use bridge_cli::{Status, without_memory};
use std::alloc::{AllocError, Global};
use std::test::Fail;

// Two manifests without deltas: 186 bytes, of which the listing has 350.
fn two_manifests(alloc: Global) -> Result<Vec<u8>, AllocError> {
    let mut bundle = Vec::from_slice(alloc, b"HG10UN\0\0\0\0")?;
    for _ in 0..2 {
        bundle.extend_from_slice(b"\0\0\0T")?;
        bundle.extend_from_slice(&[0x11; 80])?;
    }
    bundle.extend_from_slice(&[0; 8])?;
    Ok(bundle)
}

/// Words, and the call of the input that fails.
const READS: &[(&[u8], u64)] = &[
    (b"list-hg", 0),
    (b"list-hg", 1),
    (b"list-hg", 7),
    (b"list-hg", 100),
    (b"pull-hg", 0),
    (b"pull-git", 0),
];

// Whether a run whose input fails at a call says so, and nothing else.
fn is_read_fault(alloc: Global, word: &[u8], input: &[u8], call: u64) -> Result<bool, Fail> {
    let outside = Outside {
        input_fails: &[call],
        ..Outside::of(input, 1)
    };
    let made = run_over(alloc, &[word], outside)?;
    let is_told = made.errors.as_slice() == b"read fault\n".as_slice();
    Ok(made.status == Status::ReadFault && made.output.is_empty() && is_told)
}

#[test]
fn a_failed_read_is_told_and_nothing_is_written(rt: HostRuntime) -> Result<(), Fail> {
    let input = two_manifests(rt.alloc())?;
    for (word, call) in READS {
        let is_read_fault = is_read_fault(rt.alloc(), word, &input, *call)?;
        assert!(rt; is_read_fault);
    }
    Ok(())
}

// The output of the listing, which has 350 bytes.
fn listing(alloc: Global, input: &[u8]) -> Result<Vec<u8>, Fail> {
    let made = run_over(alloc, &[b"list-hg"], Outside::of(input, 0))?;
    if made.status != Status::Done {
        return Err("a listing")?;
    }
    Ok(made.output)
}

/// The call of the output that fails, and how much was taken before it.
const WRITES: &[(u64, usize)] = &[(0, 0), (1, 100), (3, 300), (4, 350)];

// Whether a run whose output fails at a call says so, and has put out so much of the listing.
fn is_write_fault(
    alloc: Global,
    input: &[u8],
    call: u64,
    front: usize,
    listing: &[u8],
) -> Result<bool, Fail> {
    let outside = Outside {
        output_fails: &[call],
        ..Outside::of(input, 100)
    };
    let made = run_over(alloc, &[b"list-hg"], outside)?;
    let is_front = made.output.len() == front && listing.starts_with(&made.output);
    let is_told = made.errors.as_slice() == b"write fault\n".as_slice();
    Ok(made.status == Status::WriteFault && is_front && is_told)
}

#[test]
fn a_failed_write_leaves_the_beginning_of_the_output(rt: HostRuntime) -> Result<(), Fail> {
    let input = two_manifests(rt.alloc())?;
    let listing = listing(rt.alloc(), &input)?;
    assert!(rt; listing.len() == 350);
    for (call, front) in WRITES {
        let is_write_fault = is_write_fault(rt.alloc(), &input, *call, *front, &listing)?;
        assert!(rt; is_write_fault);
    }
    Ok(())
}

// Whether a run whose output has 200 bytes of room takes so many.
fn is_cut_off(alloc: Global, input: &[u8]) -> Result<bool, Fail> {
    let outside = Outside {
        room: 200,
        ..Outside::of(input, 0)
    };
    let made = run_over(alloc, &[b"list-hg"], outside)?;
    Ok(made.status == Status::WriteFault && made.output.len() == 200)
}

#[test]
fn an_output_without_room_takes_what_it_can(rt: HostRuntime) -> Result<(), Fail> {
    let input = two_manifests(rt.alloc())?;
    let is_cut_off = is_cut_off(rt.alloc(), &input)?;
    assert!(rt; is_cut_off);
    Ok(())
}

// A program that has no memory to begin with ends as a run does whose memory ran out.
#[test]
fn want_of_memory_is_told(rt: HostRuntime) -> Result<(), Fail> {
    let mut errors = sink_of(rt.alloc(), 100, 0, &[])?;
    let status = without_memory(&mut errors);
    assert!(rt; status == Status::Memory && errors.bytes() == b"no memory\n".as_slice());
    Ok(())
}
