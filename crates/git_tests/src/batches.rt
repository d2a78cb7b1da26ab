// Objects as `git cat-file --batch` writes them.
use bridge_io::MemSource;
use bridge_text::{Id, Kind};
use git_batch::{BatchFault, BatchReader, Item, put_object};
use rope::Rope;
use shared_text::keep;
use std::alloc::Global;
use std::test::Fail;

/// The id of a blob with a line that says hello, as `git hash-object` prints it.
const HELLO: &[u8; 40] = b"ce013625030ba8dba906f756967f9e9ca394464a";

fn hello() -> Result<Id, Fail> {
    Ok(Id::from_hex(HELLO).ok_or("40 digits")?)
}

// HELLO, and then these bytes.
fn behind_hello(alloc: Global, rest: &[u8]) -> Result<Vec<u8>, Fail> {
    let mut bytes = HELLO.to_vec(alloc)?;
    bytes.extend_from_slice(rest)?;
    Ok(bytes)
}

fn source(alloc: Global, bytes: &[u8], cut: usize, fails: &[u64]) -> Result<MemSource, Fail> {
    Ok(MemSource::new(bytes.to_vec(alloc)?, cut, fails.to_vec(alloc)?))
}

// Why nothing is read of these bytes, in pieces of at most `cut` bytes.
fn fault_of(alloc: Global, bytes: &[u8], cut: usize) -> Result<Option<BatchFault>, Fail> {
    let mut src = source(alloc, bytes, cut, &[])?;
    let mut into = b"left".to_vec(alloc)?;
    Ok(BatchReader::new().next(&mut src, &mut into).err())
}

/// What `git cat-file --batch` prints of a blob, the empty tree and a tag.
const STREAM: &[u8] = b"ce013625030ba8dba906f756967f9e9ca394464a blob 6\nhello\n\n\
    4b825dc642cb6eb9a060e54bf8d69288fbee4904 tree 0\n\n\
    89724a1baedd77281179bec063374b666045947a tag 1\nx\n";

/// These objects: id, kind, place, content.
const OBJECTS: &[(&[u8], Kind, u64, &[u8])] = &[
    (HELLO, Kind::Blob, 0, b"hello\n"),
    (
        b"4b825dc642cb6eb9a060e54bf8d69288fbee4904",
        Kind::Tree,
        55,
        b"",
    ),
    (
        b"89724a1baedd77281179bec063374b666045947a",
        Kind::Tag,
        104,
        b"x",
    ),
];

// Whether this is the item of an object.
fn is_object(item: &Item, digits: &[u8], kind: Kind, at: u64) -> bool {
    match Id::from_hex(digits) {
        Some(id) => *item == Item::Object { id, kind, at },
        None => false,
    }
}

// Whether the next item is this object.
fn is_next(
    reader: &mut BatchReader,
    src: &mut MemSource,
    into: &mut Vec<u8>,
    object: &(&[u8], Kind, u64, &[u8]),
) -> bool {
    let (digits, kind, at, content) = *object;
    match reader.next_checked(src, into) {
        Ok(item) => is_object(&item, digits, kind, at) && into.as_slice() == content,
        Err(_) => false,
    }
}

// Whether the objects come one after the other, and then the end.
fn are_read(src: &mut MemSource, into: &mut Vec<u8>) -> bool {
    let mut reader = BatchReader::new();
    for object in OBJECTS {
        if !is_next(&mut reader, src, into, object) {
            return false;
        }
    }
    reader.next(src, into) == Ok(Item::End) && into.is_empty()
}

// Whether the stream is read in pieces of at most `cut` bytes.
fn is_read(alloc: Global, cut: usize) -> Result<bool, Fail> {
    let mut src = source(alloc, STREAM, cut, &[])?;
    let mut into = b"left".to_vec(alloc)?;
    Ok(are_read(&mut src, &mut into))
}

#[test]
fn a_stream_is_read_in_any_pieces(rt: HostRuntime) -> Result<(), Fail> {
    for cut in [0, 1, 7] {
        let is_read = is_read(rt.alloc(), cut)?;
        assert!(rt; is_read, "{cut}");
    }
    Ok(())
}

/// What stands behind the digits of an id, and why it is no object.
fn faults(id: Id) -> [(&'static [u8], BatchFault); 19] {
    [
        (b" missing\n", BatchFault::Missing(0)),
        (b" blub 0\n\n", BatchFault::KindUnknown(id, 0)),
        (b" blub 99999999\n", BatchFault::KindUnknown(id, 0)),
        (b" blub 06\n", BatchFault::Line(0)),
        (b" blob 06\nhello\n\n", BatchFault::Line(0)),
        (b"  6\nhello\n\n", BatchFault::Line(0)),
        (b" Blob 6\nhello\n\n", BatchFault::Line(0)),
        (b" blob 6 \nhello\n\n", BatchFault::Line(0)),
        (b" blob \nhello\n\n", BatchFault::Line(0)),
        (b"a blob 6\nhello\n\n", BatchFault::Line(0)),
        (b"\n", BatchFault::Line(0)),
        (b" blob 67108865\n", BatchFault::Limit(0)),
        (b" commit 16777217\n", BatchFault::Limit(0)),
        (b" blob 18446744073709551616\n", BatchFault::Limit(0)),
        (b" commit 16777216\nx", BatchFault::Truncated(58)),
        (b" blob", BatchFault::Truncated(45)),
        (b" blob 6\nhell", BatchFault::Truncated(52)),
        (b" blob 6\nhello\n", BatchFault::Truncated(54)),
        (b" blob 6\nhello\nx", BatchFault::Line(54)),
    ]
}

// Whether what stands behind the digits has this fault, in whatever pieces it is given.
fn is_refused(alloc: Global, rest: &[u8], fault: BatchFault) -> Result<bool, Fail> {
    let bytes = behind_hello(alloc, rest)?;
    let at_once = fault_of(alloc, &bytes, 0)?;
    let byte_by_byte = fault_of(alloc, &bytes, 1)?;
    Ok(at_once == Some(fault) && byte_by_byte == Some(fault))
}

#[test]
fn each_line_has_its_fault(rt: HostRuntime) -> Result<(), Fail> {
    let id = hello()?;
    for (rest, want) in faults(id) {
        let is_refused = is_refused(rt.alloc(), rest, want)?;
        assert!(rt; is_refused, "{want:?}");
    }
    Ok(())
}

/// So many letters, what stands behind them, and why it is no object.
fn long_lines() -> [(usize, &'static [u8], BatchFault); 8] {
    [
        (1, b" missing\n", BatchFault::Missing(0)),
        (4095, b"\n", BatchFault::Line(0)),
        (4096, b"", BatchFault::Truncated(4096)),
        (4096, b"\n", BatchFault::Line(0)),
        (4087, b" missing\n", BatchFault::Missing(0)),
        (4088, b" missing", BatchFault::Truncated(4096)),
        (4088, b" missing\n", BatchFault::Missing(0)),
        (4089, b" missing\n", BatchFault::Line(0)),
    ]
}

fn long_line(alloc: Global, letters: usize, rest: &[u8]) -> Result<Vec<u8>, Fail> {
    let mut bytes = Vec::new(alloc);
    bytes.resize(letters, b'x')?;
    bytes.extend_from_slice(rest)?;
    Ok(bytes)
}

// Whether the line of so many letters and this has the fault.
fn is_long(alloc: Global, letters: usize, rest: &[u8], fault: BatchFault) -> Result<bool, Fail> {
    let bytes = long_line(alloc, letters, rest)?;
    let found = fault_of(alloc, &bytes, 0)?;
    Ok(found == Some(fault))
}

#[test]
fn a_line_has_4096_bytes_at_most(rt: HostRuntime) -> Result<(), Fail> {
    for (letters, rest, want) in long_lines() {
        let is_long = is_long(rt.alloc(), letters, rest, want)?;
        assert!(rt; is_long);
    }
    Ok(())
}

/// A blob with the id of another.
fn other_blob(alloc: Global) -> Result<MemSource, Fail> {
    let bytes = behind_hello(alloc, b" blob 6\nhallo\n\n")?;
    source(alloc, &bytes, 0, &[])
}

// Whether the next item, whose id isn't compared, is the object with this id.
fn is_taken(src: &mut MemSource, into: &mut Vec<u8>) -> bool {
    match BatchReader::new().next(src, into) {
        Ok(item) => is_object(&item, HELLO, Kind::Blob, 0)
            && into.as_slice() == b"hallo\n".as_slice(),
        Err(_) => false,
    }
}

#[test]
fn ids_are_not_compared(rt: HostRuntime) -> Result<(), Fail> {
    let mut src = other_blob(rt.alloc())?;
    let mut into = Vec::new(rt.alloc());
    let is_taken = is_taken(&mut src, &mut into);
    assert!(rt; is_taken);
    Ok(())
}

// Why the next item, whose id is compared, isn't given, where nothing is left of it.
fn fault_of_checked(src: &mut MemSource, into: &mut Vec<u8>) -> Option<BatchFault> {
    let fault = BatchReader::new().next_checked(src, into).err();
    if into.is_empty() { fault } else { None }
}

#[test]
fn another_id_is_seen_where_ids_are_compared(rt: HostRuntime) -> Result<(), Fail> {
    let id = hello()?;
    let mut src = other_blob(rt.alloc())?;
    let mut into = Vec::new(rt.alloc());
    let fault = fault_of_checked(&mut src, &mut into);
    assert!(rt; fault == Some(BatchFault::IdWrong(id, 0)));
    Ok(())
}

// The blob, whose reading byte by byte fails at a call.
fn failing(alloc: Global, call: u64) -> Result<MemSource, Fail> {
    let bytes = behind_hello(alloc, b" blob 6\nhello\n\n")?;
    source(alloc, &bytes, 1, &[call])
}

// Why the blob isn't read.
fn fault_at_call(alloc: Global, call: u64) -> Result<Option<BatchFault>, Fail> {
    let mut src = failing(alloc, call)?;
    let mut into = Vec::new(alloc);
    Ok(fault_of_checked(&mut src, &mut into))
}

/// A read that fails in a line or in a content.
#[test]
fn a_failed_read_is_told(rt: HostRuntime) -> Result<(), Fail> {
    for call in [0, 5, 47, 48, 50, 54] {
        let fault = fault_at_call(rt.alloc(), call)?;
        assert!(rt; fault == Some(BatchFault::Read));
    }
    Ok(())
}

// Whether a reader gives the blob, and then this.
fn ends(src: &mut MemSource, into: &mut Vec<u8>, end: Result<Item, BatchFault>) -> bool {
    let mut reader = BatchReader::new();
    let is_blob = reader.next(src, into).is_ok();
    is_blob && reader.next(src, into) == end
}

/// A read that fails where the end is due.
#[test]
fn a_failed_read_is_no_end(rt: HostRuntime) -> Result<(), Fail> {
    let mut src = failing(rt.alloc(), 55)?;
    let mut into = Vec::new(rt.alloc());
    let ends = ends(&mut src, &mut into, Err(BatchFault::Read));
    assert!(rt; ends);
    Ok(())
}

#[test]
fn objects_are_written_as_git_writes_them(rt: HostRuntime) -> Result<(), Fail> {
    let mut out = Rope::of(rt.alloc(), b"> ".to_vec(rt.alloc())?);
    let blob = keep(b"hello\n".to_vec(rt.alloc())?)?;
    let commit = keep(b"x".to_vec(rt.alloc())?)?;
    let is_first_put = put_object(&mut out, Kind::Blob, &blob).is_ok();
    let is_second_put = put_object(&mut out, Kind::Commit, &commit).is_ok();
    let want = b"> ce013625030ba8dba906f756967f9e9ca394464a blob 6\nhello\n\n\
        eaa562e454681104aee02c9809ea2ca6ec4aa5cd commit 1\nx\n";
    assert!(rt; is_first_put && is_second_put && out.joined()?.as_slice() == want.as_slice());
    Ok(())
}

/// A long content gets another owner, and a short one is copied.
#[test]
fn long_contents_are_shared(rt: HostRuntime) -> Result<(), Fail> {
    let mut out = Rope::new(rt.alloc());
    let short = keep(b"hello\n".to_vec(rt.alloc())?)?;
    let long = keep([b'x'; 4096].to_vec(rt.alloc())?)?;
    put_object(&mut out, Kind::Blob, &short)?;
    put_object(&mut out, Kind::Blob, &long)?;
    assert!(rt; short.is_unique() && !long.is_unique());
    Ok(())
}
