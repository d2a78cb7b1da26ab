// Streams that are read into a store.
use bridge_io::MemSource;
use bridge_text::{Fault, Id, IdList, Kind, Refusal};
use git_batch::{ObjectArrivals, StreamFault, commit_ids, count_objects, read_into};
use git_store::GitStore;
use std::alloc::Global;
use std::test::Fail;

/// What `git cat-file --batch` prints of a blob, two trees, two commits and a tag.
const STREAM: &[u8] = b"ce013625030ba8dba906f756967f9e9ca394464a blob 6\nhello\n\n\
    4b825dc642cb6eb9a060e54bf8d69288fbee4904 tree 0\n\n\
    b4d01e9b0c4a9356736dfddf8830ba9a54f5271c tree 33\n\
    100644 hello\0\xce\x016%\x03\x0b\xa8\xdb\xa9\x06\xf7V\x96\x7f\x9e\x9c\xa3\x94FJ\n\
    c5cf3bd9ade6fb41c22f9681bbd807760a70eaf9 commit 100\n\
    tree 4b825dc642cb6eb9a060e54bf8d69288fbee4904\n\
    author u <u@v> 0 +0000\ncommitter u <u@v> 0 +0000\n\none\n\n\
    2447c7d968aeca418f317cdb4ac802d8dced6a01 commit 148\n\
    tree b4d01e9b0c4a9356736dfddf8830ba9a54f5271c\n\
    parent c5cf3bd9ade6fb41c22f9681bbd807760a70eaf9\n\
    author u <u@v> 0 +0000\ncommitter u <u@v> 0 +0000\n\ntwo\n\n\
    b3de357af948ab2b86d35ab47b50ccea539a995e tag 97\n\
    object c5cf3bd9ade6fb41c22f9681bbd807760a70eaf9\ntype commit\ntag v1\n\
    tagger u <u@v> 0 +0000\n\nfirst\n\n";

/// The stream of the blob alone.
const BLOB: &[u8] = b"ce013625030ba8dba906f756967f9e9ca394464a blob 6\nhello\n\n";

const TWO: &[u8] = b"2447c7d968aeca418f317cdb4ac802d8dced6a01";

const OBJECTS: &[(&[u8], Kind, u64)] = &[
    (b"ce013625030ba8dba906f756967f9e9ca394464a", Kind::Blob, 0),
    (b"4b825dc642cb6eb9a060e54bf8d69288fbee4904", Kind::Tree, 55),
    (b"b4d01e9b0c4a9356736dfddf8830ba9a54f5271c", Kind::Tree, 104),
    (
        b"c5cf3bd9ade6fb41c22f9681bbd807760a70eaf9",
        Kind::Commit,
        187,
    ),
    (TWO, Kind::Commit, 340),
    (b"b3de357af948ab2b86d35ab47b50ccea539a995e", Kind::Tag, 541),
];

const NULL: &[u8] = b"0000000000000000000000000000000000000000";

fn id(digits: &[u8]) -> Result<Id, Fail> {
    Ok(Id::from_hex(digits).ok_or("40 digits")?)
}

fn source(alloc: Global, bytes: &[u8], cut: usize, fails: &[u64]) -> Result<MemSource, Fail> {
    Ok(MemSource::new(bytes.to_vec(alloc)?, cut, fails.to_vec(alloc)?))
}

// Whether the arrivals are the objects of the stream.
fn are_all(arrivals: &ObjectArrivals) -> bool {
    arrivals.len() == 6
        && !arrivals.is_empty()
        && arrivals.as_slice().iter().zip(OBJECTS).all(|(arrival, (digits, kind, at))| {
            arrival.id.hex().as_slice() == *digits && arrival.kind == *kind && arrival.at == *at
        })
        && count_objects(arrivals, Kind::Blob) == 1
        && count_objects(arrivals, Kind::Tree) == 2
        && count_objects(arrivals, Kind::Commit) == 2
        && count_objects(arrivals, Kind::Tag) == 1
        && arrivals.at(4).kind == Kind::Commit
}

// Whether the id is the last of these.
fn is_last(ids: &IdList, id: &Id) -> bool {
    match ids.as_slice().last() {
        Some(last) => last == id,
        None => false,
    }
}

// Whether the stream is read in pieces of at most `cut` bytes, and brings this commit.
fn is_read(alloc: Global, cut: usize, commit: &Id) -> Result<bool, Fail> {
    let mut src = source(alloc, STREAM, cut, &[])?;
    match read_into(alloc, &mut src, GitStore::new(alloc)) {
        Ok((store, arrivals)) => {
            let commits = commit_ids(alloc, &arrivals)?;
            Ok(are_all(&arrivals) && store.commit(commit).is_some() && is_last(&commits, commit))
        }
        Err(_) => Ok(false),
    }
}

#[test]
fn a_stream_is_read_in_any_pieces(rt: HostRuntime) -> Result<(), Fail> {
    let two = id(TWO)?;
    for cut in [0, 1, 7] {
        let is_read = is_read(rt.alloc(), cut, &two)?;
        assert!(rt; is_read, "{cut}");
    }
    Ok(())
}

/// What follows the blob of the stream, and what it is refused for.
type Bad = (&'static [u8], Fault, &'static [u8], &'static [u8], u64);

const BAD: &[Bad] = &[
    (b"4b82", Fault::Truncated, b"Truncated", NULL, 59),
    (b"x\n", Fault::Line, b"Line", NULL, 55),
    (b"x missing\n", Fault::Missing, b"Missing", NULL, 55),
    (
        b"4b825dc642cb6eb9a060e54bf8d69288fbee4904 blub 0\n\n",
        Fault::KindUnknown,
        b"KindUnknown",
        b"4b825dc642cb6eb9a060e54bf8d69288fbee4904",
        55,
    ),
    (
        b"4b825dc642cb6eb9a060e54bf8d69288fbee4904 commit 16777217\n",
        Fault::Limit,
        b"Limit",
        NULL,
        55,
    ),
    (
        b"ce013625030ba8dba906f756967f9e9ca394464a blob 6\nhellO\n\n",
        Fault::IdWrong,
        b"IdWrong",
        b"ce013625030ba8dba906f756967f9e9ca394464a",
        55,
    ),
    (
        b"89724a1baedd77281179bec063374b666045947a tag 1\nx\n",
        Fault::ObjectShape,
        b"ObjectShape",
        b"89724a1baedd77281179bec063374b666045947a",
        55,
    ),
    (
        b"8f5fedba526c52f716588349740caff3b1648dfb tree 31\n100775 sub\0aaaaaaaaaaaaaaaaaaaa\n",
        Fault::ModeOut,
        b"ModeOut",
        b"8f5fedba526c52f716588349740caff3b1648dfb",
        55,
    ),
    (
        b"204b60738bbf3fc0ec4c396e0e23c8c062a70d36 tree 32\n100644 .git\0aaaaaaaaaaaaaaaaaaaa\n",
        Fault::NameUnfit,
        b"NameUnfit",
        b"204b60738bbf3fc0ec4c396e0e23c8c062a70d36",
        55,
    ),
    (
        b"c2bcffb82821ccf73b7a020aad3731d6888fbd36 commit 198\n\
        tree b4d01e9b0c4a9356736dfddf8830ba9a54f5271c\n\
        parent c5cf3bd9ade6fb41c22f9681bbd807760a70eaf9\n\
        parent c5cf3bd9ade6fb41c22f9681bbd807760a70eaf9\n\
        author u <u@v> 0 +0000\ncommitter u <u@v> 0 +0000\n\ntwice\n\n",
        Fault::ParentTwice,
        b"ParentTwice",
        b"c2bcffb82821ccf73b7a020aad3731d6888fbd36",
        55,
    ),
];

// Why these bytes are refused, in pieces of at most `cut` bytes.
fn fault_of(
    alloc: Global,
    bytes: &[u8],
    cut: usize,
    fails: &[u64],
) -> Result<Option<StreamFault>, Fail> {
    let mut src = source(alloc, bytes, cut, fails)?;
    Ok(read_into(alloc, &mut src, GitStore::new(alloc)).err())
}

// Why the blob of the stream and these bytes are refused.
fn fault_behind(alloc: Global, rest: &[u8]) -> Result<Option<StreamFault>, Fail> {
    let mut bytes = BLOB.to_vec(alloc)?;
    bytes.extend_from_slice(rest)?;
    fault_of(alloc, &bytes, 0, &[])
}

fn is_refused(alloc: Global, bad: &Bad) -> Result<bool, Fail> {
    let (rest, fault, name, digits, place) = *bad;
    let id = id(digits)?;
    let found = fault_behind(alloc, rest)?;
    let want = StreamFault::Refused(Refusal { fault, id, place });
    Ok(found == Some(want) && fault.name() == name)
}

#[test]
fn the_first_fault_is_told(rt: HostRuntime) -> Result<(), Fail> {
    for (i, bad) in BAD.iter().enumerate() {
        let is_refused = is_refused(rt.alloc(), bad)?;
        assert!(rt; is_refused, "at {i}");
    }
    Ok(())
}

#[test]
fn a_failed_read_is_told(rt: HostRuntime) -> Result<(), Fail> {
    for call in [0, 1, 50, 60] {
        let fault = fault_of(rt.alloc(), STREAM, 1, &[call])?;
        assert!(rt; fault == Some(StreamFault::Read));
    }
    Ok(())
}
