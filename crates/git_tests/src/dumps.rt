ghost use Rattle.std.specs.Prelude.{List, OnOk, IfOk};
ghost use Rattle.view_model.specs.View.{CommitView};
ghost use Rattle.git_dump.specs.Commits.{IsWalkableCommit, AreWalkableCommits};

// Streams of what a store has.
use bridge_text::{Id, IdList, Kind, decimal_into, object_id};
use git_dump::{Dump, append_objects, is_in_order, objects_len, write, written_len};
use git_store::GitStore;
use git_view::commits_are_held;
use rope::Rope;
use shared_text::keep;
use std::alloc::Global;
use std::process::Abort;
use std::test::Fail;
use tree_shape::flatten;

/// An object: its kind, its id as `git hash-object` prints it, and its content.
struct Object(Kind, &'static [u8], &'static [u8]);

/// A commit of the file `a`; one of `a.b`, `a/c` and `a0`; one over it, which has its directory `a` and the blob of `a.b`
/// again, and a file of its own; and one of two files with one blob.
const OBJECTS: &[Object] = &[
    Object(
        Kind::Blob,
        b"ce013625030ba8dba906f756967f9e9ca394464a",
        b"hello\n",
    ),
    Object(
        Kind::Tree,
        b"0976950c1fdbcb52435a433913017bf044b3a58f",
        b"100644 a\0\xce\x016%\x03\x0b\xa8\xdb\xa9\x06\xf7V\x96\x7f\x9e\x9c\xa3\x94FJ",
    ),
    Object(
        Kind::Commit,
        b"fb8491d27293299d600326567e91d35289f99b8d",
        b"tree 0976950c1fdbcb52435a433913017bf044b3a58f\nauthor Ann <ann@x> 0 +0000\ncommitter Ann <ann@x> 0 +0000\n\none\n",
    ),
    Object(
        Kind::Blob,
        b"d00491fd7e5bb6fa28c517a0bb32b8b506539d4d",
        b"1\n",
    ),
    Object(
        Kind::Blob,
        b"0cfbf08886fca9a91cb753ec8734c84fcbe52c9f",
        b"2\n",
    ),
    Object(
        Kind::Tree,
        b"b5deaeddc40882f01c0700e2204b7f4885f3c4af",
        b"100644 c\0\x0c\xfb\xf0\x88\x86\xfc\xa9\xa9\x1c\xb7S\xec\x874\xc8O\xcb\xe5,\x9f",
    ),
    Object(
        Kind::Blob,
        b"00750edc07d6415dcc07ae0351e9397b0222b7ba",
        b"3\n",
    ),
    Object(
        Kind::Tree,
        b"6d41058519603cc02de5425f1134e3cdfd08d3a5",
        b"100644 a.b\0\xd0\x04\x91\xfd~[\xb6\xfa(\xc5\x17\xa0\xbb2\xb8\xb5\x06S\x9dM40000 a\0\xb5\xde\xae\xdd\xc4\x08\x82\xf0\x1c\x07\0\xe2 K\x7fH\x85\xf3\xc4\xaf100644 a0\0\0u\x0e\xdc\x07\xd6A]\xcc\x07\xae\x03Q\xe99{\x02\"\xb7\xba",
    ),
    Object(
        Kind::Commit,
        b"2a76fbc591421693280948ec3900f5e572faa928",
        b"tree 6d41058519603cc02de5425f1134e3cdfd08d3a5\nauthor Ann <ann@x> 0 +0000\ncommitter Ann <ann@x> 0 +0000\n\npaths\n",
    ),
    Object(
        Kind::Blob,
        b"b8626c4cff2849624fb67f87cd0ad72b163671ad",
        b"4\n",
    ),
    Object(
        Kind::Tree,
        b"a0da6ef94635fe271cc6853d46b54c0232613440",
        b"40000 a\0\xb5\xde\xae\xdd\xc4\x08\x82\xf0\x1c\x07\0\xe2 K\x7fH\x85\xf3\xc4\xaf100644 b\0\xd0\x04\x91\xfd~[\xb6\xfa(\xc5\x17\xa0\xbb2\xb8\xb5\x06S\x9dM100644 d\0\xb8blL\xff(IbO\xb6\x7f\x87\xcd\n\xd7+\x166q\xad",
    ),
    Object(
        Kind::Commit,
        b"9886aac9711e1641679e0f4f32e318d1b0ce3d62",
        b"tree a0da6ef94635fe271cc6853d46b54c0232613440\nparent 2a76fbc591421693280948ec3900f5e572faa928\nauthor Ann <ann@x> 0 +0000\ncommitter Ann <ann@x> 0 +0000\n\nmore\n",
    ),
    Object(
        Kind::Tree,
        b"4cd2530da4fdb0fcbf568df61f87222cecf36f11",
        b"100644 a\0\xce\x016%\x03\x0b\xa8\xdb\xa9\x06\xf7V\x96\x7f\x9e\x9c\xa3\x94FJ100755 b\0\xce\x016%\x03\x0b\xa8\xdb\xa9\x06\xf7V\x96\x7f\x9e\x9c\xa3\x94FJ",
    ),
    Object(
        Kind::Commit,
        b"34deb98eddfb600596cd5fbbfb16642968ab9c6f",
        b"tree 4cd2530da4fdb0fcbf568df61f87222cecf36f11\nauthor Ann <ann@x> 0 +0000\ncommitter Ann <ann@x> 0 +0000\n\ntwice\n",
    ),
];

/// The stream of the first commit.
const ONE: &[u8] =
    b"ce013625030ba8dba906f756967f9e9ca394464a blob 6\nhello\n\n0976950c1fdbcb52435a433913017bf044b3a58f tree 29\n100644 a\0\xce\x016%\x03\x0b\xa8\xdb\xa9\x06\xf7V\x96\x7f\x9e\x9c\xa3\x94FJ\nfb8491d27293299d600326567e91d35289f99b8d commit 108\ntree 0976950c1fdbcb52435a433913017bf044b3a58f\nauthor Ann <ann@x> 0 +0000\ncommitter Ann <ann@x> 0 +0000\n\none\n\n";

/// Commits by their places among the objects, the place from which on they are written, and the objects of the stream.
struct Case(&'static [usize], usize, &'static [usize]);

const CASES: &[Case] = &[
    Case(&[], 0, &[]),
    Case(&[2], 0, &[0, 1, 2]),
    Case(&[8], 0, &[3, 4, 5, 6, 7, 8]),
    Case(&[8, 11], 0, &[3, 4, 5, 6, 7, 8, 9, 10, 11]),
    Case(&[8, 11], 1, &[9, 10, 11]),
    Case(&[8, 11], 2, &[]),
    Case(&[13], 0, &[0, 12, 13]),
    Case(&[2, 13], 1, &[12, 13]),
    Case(&[2, 2], 0, &[0, 1, 2]),
    Case(&[2, 2], 1, &[]),
];

/// Objects by their places, in the order in which a store has them; commits among them; and whether the store has just the
/// objects of the stream of these commits, in its order.
struct OrderCase(&'static [usize], &'static [usize], bool);

const ORDERS: &[OrderCase] = &[
    OrderCase(&[], &[], true),
    OrderCase(&[0], &[], false),
    OrderCase(&[0, 1, 2], &[2], true),
    OrderCase(&[0, 1, 2], &[2, 2], true),
    OrderCase(&[1, 0, 2], &[2], false),
    OrderCase(&[0, 1, 2, 3], &[2], false),
    OrderCase(&[3, 0, 1, 2], &[2], false),
    OrderCase(&[3, 4, 5, 6, 7, 8], &[8], true),
    OrderCase(&[4, 3, 5, 6, 7, 8], &[8], false),
    OrderCase(&[3, 4, 5, 6, 7, 8, 9, 10, 11], &[8, 11], true),
    OrderCase(&[3, 4, 5, 6, 7, 8, 9, 10, 11], &[11, 8], false),
    OrderCase(&[3, 4, 5, 6, 7, 8, 9, 10, 11], &[8], false),
];

fn object_at(place: usize) -> Result<&'static Object, Fail> {
    Ok(OBJECTS.get(place).ok_or("an object")?)
}

fn id(place: usize) -> Result<Id, Fail> {
    let Object(_, digits, _) = object_at(place)?;
    Ok(Id::from_hex(digits).ok_or("40 digits")?)
}

// Adds an object; whether it has its id.
fn add(alloc: Global, store: &mut GitStore, object: &Object) -> Result<bool, Fail> {
    let Object(kind, digits, content) = object;
    let its_id = object_id(*kind, content);
    let content = keep(content.to_vec(alloc)?)?;
    let is_added = store.add(its_id, *kind, content).is_ok();
    Ok(is_added && its_id.hex().as_slice() == *digits)
}

fn filled(rt: &impl Abort, alloc: Global) -> Result<GitStore, Fail> {
    let mut store = GitStore::new(alloc);
    for object in OBJECTS {
        let is_added = add(alloc, &mut store, object)?;
        assert!(rt; is_added);
    }
    Ok(store)
}

// Sees that the commit is known, and that its tree can be walked through.
fn check_commit(alloc: Global, store: &GitStore, id: &Id) -> Result<(), Fail>
    ensures { OnOk result ((c : CommitView) × IsWalkableCommit store.now id.now c) }
{
    let Some(commit) = store.commit(id) else {
        return Err(Fail::from("a commit"));
    };
    let _files = flatten(alloc, store, &commit.tree).map_err(|_| "a tree")?;
    commits_are_held(store, id);
    Ok(())
}

fn order_of(alloc: Global, store: &GitStore, places: &[usize]) -> Result<IdList, Fail>
    ensures { IfOk result (λ order. (cs : List CommitView) × AreWalkableCommits store.now order cs) }
{
    let mut order = IdList::new(alloc);
    for place in places {
        let id = id(*place)?;
        check_commit(alloc, store, &id)?;
        order.push(id)?;
    }
    Ok(order)
}

// The line before the content of an object.
fn put_line(stream: &mut Vec<u8>, object: &Object) -> Result<(), Fail> {
    let Object(kind, digits, content) = object;
    stream.extend_from_slice(digits)?;
    stream.push(b' ')?;
    stream.extend_from_slice(kind.word())?;
    stream.push(b' ')?;
    decimal_into(stream, content.len() as u64)?;
    Ok(stream.push(b'\n')?)
}

fn put_object(stream: &mut Vec<u8>, object: &Object) -> Result<(), Fail> {
    put_line(stream, object)?;
    stream.extend_from_slice(object.2)?;
    Ok(stream.push(b'\n')?)
}

// The stream of these objects.
fn stream_of(alloc: Global, places: &[usize]) -> Result<Vec<u8>, Fail> {
    let mut stream = Vec::new(alloc);
    for place in places {
        let object = object_at(*place)?;
        put_object(&mut stream, object)?;
    }
    Ok(stream)
}

fn is_written(rt: &impl Abort, alloc: Global, store: &GitStore, case: &Case) -> Result<bool, Fail> {
    let Case(commits, from, want) = case;
    let order = order_of(alloc, store, commits)?;
    assert!(rt; *from <= order.len());
    let len = written_len(alloc, store, order.as_slice())?;
    let bytes = write(alloc, store, &order, *from)?.joined()?;
    let want = stream_of(alloc, want)?;
    let mut out = Rope::of(alloc, b"front ".to_vec(alloc)?);
    let dump = Dump::collect(alloc, store, order.as_slice(), *from)?;
    dump.append(&mut out)?;
    let is_appended = out.joined()?.strip_prefix(b"front ") == Some(want.as_slice())
        && dump.len() == want.len() as u64;
    Ok(bytes == want && is_appended && (*from > 0 || len == want.len() as u64))
}

// A store with these objects.
fn store_of(rt: &impl Abort, alloc: Global, places: &[usize]) -> Result<GitStore, Fail> {
    let mut store = GitStore::new(alloc);
    for place in places {
        let is_added = add(alloc, &mut store, object_at(*place)?)?;
        assert!(rt; is_added);
    }
    Ok(store)
}

fn is_told(rt: &impl Abort, alloc: Global, case: &OrderCase) -> Result<bool, Fail> {
    let OrderCase(objects, commits, want) = case;
    let store = store_of(rt, alloc, objects)?;
    let order = order_of(alloc, &store, commits)?;
    Ok(is_in_order(alloc, &store, order.as_slice())? == *want)
}

#[test]
fn streams(rt: HostRuntime) -> Result<(), Fail> {
    let store = filled(&rt, rt.alloc())?;
    for (i, case) in CASES.iter().enumerate() {
        let is_written = is_written(&rt, rt.alloc(), &store, case)?;
        assert!(rt; is_written, "at {i}");
    }
    let one = stream_of(rt.alloc(), &[0, 1, 2])?;
    assert!(rt; one.as_slice() == ONE);
    Ok(())
}

#[test]
fn orders(rt: HostRuntime) -> Result<(), Fail> {
    for (i, case) in ORDERS.iter().enumerate() {
        let is_told = is_told(&rt, rt.alloc(), case)?;
        assert!(rt; is_told, "at {i}");
    }
    Ok(())
}

// Objects that are listed by their ids, one of them twice and one that the store lacks.
#[test]
fn listed_objects(rt: HostRuntime) -> Result<(), Fail> {
    let store = store_of(&rt, rt.alloc(), &[0, 1, 2])?;
    let ids = [id(2)?, id(3)?, id(0)?, id(2)?];
    let want = stream_of(rt.alloc(), &[2, 0, 2])?;
    let mut out = Rope::new(rt.alloc());
    append_objects(&mut out, &store, &ids)?;
    let text = out.joined()?;
    assert!(rt; text == want);
    assert!(rt; objects_len(&store, &ids) == want.len() as u64);
    Ok(())
}
