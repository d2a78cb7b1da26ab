// Listings of the entries of bundles.
use bridge_io::MemSource;
use bridge_text::{Fault, Id, Refusal};
use hg_bundle::{BundleFault, list};
use std::alloc::Global;
use std::test::Fail;

// Appends the chunk of an entry whose ids are each one byte twenty times over, where its field is `size`.
fn put_entry(out: &mut Vec<u8>, size: u8, ids: [u8; 4], delta: &[u8]) -> Result<(), Fail> {
    out.extend_from_slice(&[0, 0, 0, size])?;
    for byte in ids {
        out.extend_from_slice(&[byte; 20])?;
    }
    out.extend_from_slice(delta)?;
    Ok(())
}

// Lists a bundle that is given in pieces of `cut` bytes.
fn listed(
    alloc: Global,
    bytes: &[u8],
    cut: usize,
    fails: &[u64],
    out: &mut Vec<u8>,
) -> Result<Result<(), BundleFault>, Fail> {
    let mut src = MemSource::new(bytes.to_vec(alloc)?, cut, fails.to_vec(alloc)?);
    Ok(list(alloc, &mut src, out))
}

// Whether these lines list the bundle, which is given in pieces of `cut` bytes.
fn lists(alloc: Global, input: &[u8], cut: usize, lines: &[u8]) -> Result<bool, Fail> {
    let mut out = Vec::new(alloc);
    let answer = listed(alloc, input, cut, &[], &mut out)?;
    Ok(answer == Ok(()) && out.as_slice() == lines)
}

// Whether these lines list the bundle, in whatever pieces it is given.
fn is_listed(alloc: Global, input: &[u8], lines: &[u8]) -> Result<bool, Fail> {
    let at_once = lists(alloc, input, 0, lines)?;
    let byte_by_byte = lists(alloc, input, 1, lines)?;
    Ok(at_once && byte_by_byte)
}

// The fault of a bundle that is given in pieces of `cut` bytes, where the output is as it was.
fn fault_of(
    alloc: Global,
    input: &[u8],
    cut: usize,
    fails: &[u64],
) -> Result<Option<BundleFault>, Fail> {
    let mut out = b"left".to_vec(alloc)?;
    let fault = listed(alloc, input, cut, fails, &mut out)?.err();
    if out.as_slice() != b"left".as_slice() {
        return Err("another output".into());
    }
    Ok(fault)
}

// No entries.
fn least(alloc: Global) -> Result<Vec<u8>, Fail> {
    Ok(b"HG10UN\0\0\0\0\0\0\0\0\0\0\0\0".to_vec(alloc)?)
}

// One changeset.
fn one(alloc: Global) -> Result<Vec<u8>, Fail> {
    let mut bundle = b"HG10UN".to_vec(alloc)?;
    put_entry(&mut bundle, 84, [0x11, 0, 0, 0x11], b"")?;
    bundle.extend_from_slice(&[0; 12])?;
    Ok(bundle)
}

// The chunks of two changesets, and their end.
fn put_changesets(bundle: &mut Vec<u8>) -> Result<(), Fail> {
    put_entry(bundle, 84, [0x11, 0x22, 0x33, 0x44], b"")?;
    put_entry(bundle, 85, [0x55, 0x11, 0, 0x55], b"x")?;
    Ok(bundle.extend_from_slice(&[0; 4])?)
}

// A manifest, and a revision of one of two files.
fn put_others(bundle: &mut Vec<u8>) -> Result<(), Fail> {
    put_entry(bundle, 96, [0x66, 0x77, 0x88, 0x11], b"twelve bytes")?;
    bundle.extend_from_slice(b"\0\0\0\0\0\0\0\x09a b%\xff")?;
    put_entry(bundle, 84, [0x99, 0xaa, 0xbb, 0x55], b"")?;
    Ok(bundle.extend_from_slice(b"\0\0\0\0\0\0\0\x05c\0\0\0\0\0\0\0\0")?)
}

fn all(alloc: Global) -> Result<Vec<u8>, Fail> {
    let mut bundle = b"HG10UN".to_vec(alloc)?;
    put_changesets(&mut bundle)?;
    put_others(&mut bundle)?;
    Ok(bundle)
}

// No entries of a file whose path is as long as may be.
fn longest_path(alloc: Global) -> Result<Vec<u8>, Fail> {
    let mut bundle = b"HG10UN\0\0\0\0\0\0\0\0\0\0\x10\x04".to_vec(alloc)?;
    bundle.resize(18 + 4096, b'a')?;
    bundle.resize(18 + 4096 + 8, 0)?;
    Ok(bundle)
}

const LINE_OF_ONE: &[u8] = b"changeset 1111111111111111111111111111111111111111 \
    0000000000000000000000000000000000000000 0000000000000000000000000000000000000000 \
    1111111111111111111111111111111111111111 0\n";

const LINES_OF_ALL: &[u8] = b"changeset 1111111111111111111111111111111111111111 \
    2222222222222222222222222222222222222222 3333333333333333333333333333333333333333 \
    4444444444444444444444444444444444444444 0\n\
    changeset 5555555555555555555555555555555555555555 \
    1111111111111111111111111111111111111111 0000000000000000000000000000000000000000 \
    5555555555555555555555555555555555555555 1\n\
    manifest 6666666666666666666666666666666666666666 \
    7777777777777777777777777777777777777777 8888888888888888888888888888888888888888 \
    1111111111111111111111111111111111111111 12\n\
    file a%20b%25%FF 9999999999999999999999999999999999999999 \
    aaaaaaaaaaaaaaaaaaaaaaaaaaaaaaaaaaaaaaaa bbbbbbbbbbbbbbbbbbbbbbbbbbbbbbbbbbbbbbbb \
    5555555555555555555555555555555555555555 0\n";

#[test]
fn entries_are_listed(rt: HostRuntime) -> Result<(), Fail> {
    let one = one(rt.alloc())?;
    let all = all(rt.alloc())?;
    let one_is_listed = is_listed(rt.alloc(), &one, LINE_OF_ONE)?;
    let all_are_listed = is_listed(rt.alloc(), &all, LINES_OF_ALL)?;
    assert!(rt; one_is_listed && all_are_listed);
    Ok(())
}

#[test]
fn no_entries_are_listed(rt: HostRuntime) -> Result<(), Fail> {
    let least = least(rt.alloc())?;
    let longest_path = longest_path(rt.alloc())?;
    let least_is_listed = is_listed(rt.alloc(), &least, b"")?;
    let longest_is_listed = is_listed(rt.alloc(), &longest_path, b"")?;
    assert!(rt; least_is_listed && longest_is_listed);
    Ok(())
}

/// Bundles, what they are refused for, and where.
const FAULTS: &[(&[u8], Fault, u64)] = &[
    (b"HG10UN\0\0\0\x04", Fault::Length, 6),
    (b"HG10UN\xff\xff\xff\xff", Fault::Length, 6),
    (b"HG10UN\0\0\0", Fault::Truncated, 9),
    (b"HG10UN\0\0\0\0\0\0\0\0\0\0\0\0\0", Fault::Trailing, 18),
    (b"HG10UN\0\0\0\0\0\0\0\0", Fault::Truncated, 14),
    (b"HG10GZ", Fault::OtherBundle, 0),
    (b"abcdef", Fault::Magic, 0),
    (b"HG10UN\0\0\0\x14aaaaaaaaaaaaaaaa", Fault::HeaderShort, 6),
    (b"HG10UN\x08\0\0\x01", Fault::Truncated, 10),
];

// Whether the bundle is refused for this, in whatever pieces it is given.
fn is_refused(alloc: Global, input: &[u8], fault: Fault, place: u64) -> Result<bool, Fail> {
    let want = Some(BundleFault::Refused(Refusal {
        fault,
        id: Id::NULL,
        place,
    }));
    let at_once = fault_of(alloc, input, 0, &[])?;
    let byte_by_byte = fault_of(alloc, input, 1, &[])?;
    Ok(at_once == want && byte_by_byte == want)
}

#[test]
fn each_fault_has_its_place(rt: HostRuntime) -> Result<(), Fail> {
    for (at, (input, fault, place)) in FAULTS.iter().enumerate() {
        let is_refused = is_refused(rt.alloc(), input, *fault, *place)?;
        assert!(rt; is_refused, "at {at}");
    }
    assert!(rt; Fault::HeaderShort.name() == b"HeaderShort".as_slice());
    Ok(())
}

/// A path of 4,097 bytes is too long.
#[test]
fn a_path_has_4096_bytes_at_most(rt: HostRuntime) -> Result<(), Fail> {
    let mut bundle = b"HG10UN\0\0\0\0\0\0\0\0\0\0\x10\x05".to_vec(rt.alloc())?;
    bundle.resize(18 + 4097, b'a')?;
    let is_refused = is_refused(rt.alloc(), &bundle, Fault::Limit, 14)?;
    assert!(rt; is_refused);
    Ok(())
}

// A changeset, and an entry that is too short.
fn short(alloc: Global) -> Result<Vec<u8>, Fail> {
    let mut bundle = b"HG10UN".to_vec(alloc)?;
    put_entry(&mut bundle, 84, [0x11, 0, 0, 0x11], b"")?;
    bundle.extend_from_slice(b"\0\0\0\x53")?;
    bundle.resize(94 + 79, 0)?;
    Ok(bundle)
}

#[test]
fn a_short_entry_is_refused(rt: HostRuntime) -> Result<(), Fail> {
    let short = short(rt.alloc())?;
    let is_refused = is_refused(rt.alloc(), &short, Fault::HeaderShort, 90)?;
    let failed = fault_of(rt.alloc(), &short, 0, &[3])?;
    assert!(rt; is_refused && failed == Some(BundleFault::Read));
    Ok(())
}
