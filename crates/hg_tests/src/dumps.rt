// Bundles of what a store has.
ghost use Rattle.std.specs.Prelude.{[]};
ghost use Rattle.hg_dump.specs.Told.{TellsTexts};

use bridge_text::{Id, IdList, fit_path};
use hg_dump::{Dump, are_held, read_is_dump, write, written_len};
use hg_store::{Group, HgStore};
use rope::Rope;
use shared_text::{Text, keep};
use std::alloc::Global;
use std::process::Abort;
use std::test::Fail;

const NULL: &[u8] = b"0000000000000000000000000000000000000000";

const ONE: &[u8] = b"a4ea4b987a267e07d9e0d37626d8ca8509814b76";

const TWO: &[u8] = b"9b71ae143605c7f3fecf53026620b693f053e1bd";

const THREE: &[u8] = b"91e326253d17246871f843c09115e06e6afff048";

const MERGE: &[u8] = b"54dd90b44d182739f69aedac8d3354ce3174f691";

const AGAIN: &[u8] = b"7c2eba1175c5b6d789343b8a4a50bb4ead36428e";

const EMPTY: &[u8] = b"8b9a982217e19fab416a091e160c7a34e41d5c70";

const OF_ONE: &[u8] = b"d51f7835c8978f5a11f9a33e09d3852ff4979e7c";

const OF_TWO: &[u8] = b"79bcbea83e2380c3cece79e6c6652b4e325c59dd";

const OF_THREE: &[u8] = b"bcdaf8e125902377212c7eb65da75f7e104dff84";

const OF_MERGE: &[u8] = b"eb14e052b328d9857839b052975a070fe6c6aaae";

const HELLO: &[u8] = b"2c186c8c5bc0df5af5b951afe407d803f9e6b8c9";

const HELLO2: &[u8] = b"c093b423870d8b2114889160cb1dee55fd1cca9b";

const W: &[u8] = b"418585866c8b42a1b33104a41522053cd3009060";

const MERGED: &[u8] = b"8ec3d4c06f11ead5d66601498b313b3a577ac2b3";

const G: &[u8] = b"0973eb1b2ecc4de7fafe7447ce1b7462108b4848";

const ONE_TEXT: &[u8] = b"d51f7835c8978f5a11f9a33e09d3852ff4979e7c\nAnn <ann@x>\n0 0\na\n\none";

const TWO_TEXT: &[u8] = b"79bcbea83e2380c3cece79e6c6652b4e325c59dd\nAnn <ann@x>\n1 0\na\n\ntwo";

const THREE_TEXT: &[u8] = b"bcdaf8e125902377212c7eb65da75f7e104dff84\nAnn <ann@x>\n2 0\na\n\nthree";

const MERGE_TEXT: &[u8] =
    b"eb14e052b328d9857839b052975a070fe6c6aaae\nAnn <ann@x>\n3 0\nA\na\n\nmerge";

const AGAIN_TEXT: &[u8] = b"eb14e052b328d9857839b052975a070fe6c6aaae\nAnn <ann@x>\n4 0\n\nsame";

const EMPTY_TEXT: &[u8] = b"0000000000000000000000000000000000000000\nAnn <ann@x>\n5 0\n\nnone";

const OF_ONE_TEXT: &[u8] = b"a\02c186c8c5bc0df5af5b951afe407d803f9e6b8c9\n";

const OF_TWO_TEXT: &[u8] = b"a\0c093b423870d8b2114889160cb1dee55fd1cca9b\n";

const OF_THREE_TEXT: &[u8] = b"a\0418585866c8b42a1b33104a41522053cd3009060\n";

const OF_MERGE_TEXT: &[u8] =
    b"A\00973eb1b2ecc4de7fafe7447ce1b7462108b4848\na\08ec3d4c06f11ead5d66601498b313b3a577ac2b3\n";

const HELLO_TEXT: &[u8] = b"hello\n";

const HELLO2_TEXT: &[u8] = b"hello2\n";

const W_TEXT: &[u8] = b"w\n";

const MERGED_TEXT: &[u8] = b"merge\n";

const G_TEXT: &[u8] = b"g\n";

/// A revision in the store: its group, its node, its parents as they came, its link and its text.
type Step = (
    Group<'static>,
    &'static [u8],
    [&'static [u8]; 2],
    &'static [u8],
    &'static [u8],
);

const C: Group<'static> = Group::Changesets;

const M: Group<'static> = Group::Manifests;

const UPPER: Group<'static> = Group::FilesAt(b"A");

const LOWER: Group<'static> = Group::FilesAt(b"a");

/// The manifests and the files come in another order than the changesets refer to them, and some parents are turned.
const STEPS: &[Step] = &[
    (C, ONE, [NULL, NULL], ONE, ONE_TEXT),
    (C, TWO, [ONE, NULL], TWO, TWO_TEXT),
    (C, THREE, [ONE, NULL], THREE, THREE_TEXT),
    (C, MERGE, [TWO, THREE], MERGE, MERGE_TEXT),
    (C, AGAIN, [MERGE, NULL], AGAIN, AGAIN_TEXT),
    (C, EMPTY, [AGAIN, NULL], EMPTY, EMPTY_TEXT),
    (M, OF_ONE, [NULL, NULL], ONE, OF_ONE_TEXT),
    (M, OF_THREE, [NULL, OF_ONE], THREE, OF_THREE_TEXT),
    (M, OF_TWO, [OF_ONE, NULL], AGAIN, OF_TWO_TEXT),
    (M, OF_MERGE, [OF_THREE, OF_TWO], AGAIN, OF_MERGE_TEXT),
    (LOWER, HELLO, [NULL, NULL], ONE, HELLO_TEXT),
    (LOWER, W, [HELLO, NULL], THREE, W_TEXT),
    (LOWER, HELLO2, [NULL, HELLO], TWO, HELLO2_TEXT),
    (LOWER, MERGED, [HELLO2, W], MERGE, MERGED_TEXT),
    (UPPER, G, [NULL, NULL], MERGE, G_TEXT),
];

fn id(digits: &[u8]) -> Result<Id, Fail> {
    Ok(Id::from_hex(digits).ok_or("40 digits")?)
}

// The ids of a revision, of its parents and of its link.
fn ids(step: &Step) -> Result<[Id; 4], Fail> {
    let (_, node, [p, q], link, _) = *step;
    Ok([id(node)?, id(p)?, id(q)?, id(link)?])
}

fn add(rt: &impl Abort, store: &mut HgStore, group: Group, ids: [Id; 4], text: Text) -> bool {
    assert!(rt; text.len() <= 1 << 26);
    let [node, p, q, link] = ids;
    let added = match group {
        Group::Changesets => store.add_changeset(node, p, q, link, text),
        Group::Manifests => store.add_manifest(node, p, q, link, text),
        Group::FilesAt(path) => {
            assert!(rt; fit_path(path));
            store.add_file(path, node, p, q, link, text)
        }
    };
    added.is_ok()
}

/// A piece of a bundle: the bytes of an id that is given in hex digits, or bytes.
#[derive(Clone, Copy)]
enum Piece {
    Id(&'static [u8]),
    Bytes(&'static [u8]),
}

const NONE: &[Piece] = &[Piece::Bytes(b"HG10UN\0\0\0\0\0\0\0\0\0\0\0\0")];

/// 427 bytes.
const FIRST: &[Piece] = &[
    Piece::Bytes(b"HG10UN"),
    Piece::Bytes(b"\0\0\0\x9f"),
    Piece::Id(ONE),
    Piece::Id(NULL),
    Piece::Id(NULL),
    Piece::Id(ONE),
    Piece::Bytes(b"\0\0\0\0\0\0\0\0\0\0\0?"),
    Piece::Bytes(ONE_TEXT),
    Piece::Bytes(b"\0\0\0\0"),
    Piece::Bytes(b"\0\0\0\x8b"),
    Piece::Id(OF_ONE),
    Piece::Id(NULL),
    Piece::Id(NULL),
    Piece::Id(ONE),
    Piece::Bytes(b"\0\0\0\0\0\0\0\0\0\0\0+"),
    Piece::Bytes(OF_ONE_TEXT),
    Piece::Bytes(b"\0\0\0\0"),
    Piece::Bytes(b"\0\0\0\x05a"),
    Piece::Bytes(b"\0\0\0f"),
    Piece::Id(HELLO),
    Piece::Id(NULL),
    Piece::Id(NULL),
    Piece::Id(ONE),
    Piece::Bytes(b"\0\0\0\0\0\0\0\0\0\0\0\x06"),
    Piece::Bytes(HELLO_TEXT),
    Piece::Bytes(b"\0\0\0\0"),
    Piece::Bytes(b"\0\0\0\0"),
];

const SECOND: &[Piece] = &[
    Piece::Bytes(b"HG10UN"),
    Piece::Bytes(b"\0\0\0\x9f"),
    Piece::Id(TWO),
    Piece::Id(ONE),
    Piece::Id(NULL),
    Piece::Id(TWO),
    Piece::Bytes(b"\0\0\0\0\0\0\0?\0\0\0?"),
    Piece::Bytes(TWO_TEXT),
    Piece::Bytes(b"\0\0\0\0"),
    Piece::Bytes(b"\0\0\0\x8b"),
    Piece::Id(OF_TWO),
    Piece::Id(OF_ONE),
    Piece::Id(NULL),
    Piece::Id(TWO),
    Piece::Bytes(b"\0\0\0\0\0\0\0+\0\0\0+"),
    Piece::Bytes(OF_TWO_TEXT),
    Piece::Bytes(b"\0\0\0\0"),
    Piece::Bytes(b"\0\0\0\x05a"),
    Piece::Bytes(b"\0\0\0g"),
    Piece::Id(HELLO2),
    Piece::Id(HELLO),
    Piece::Id(NULL),
    Piece::Id(TWO),
    Piece::Bytes(b"\0\0\0\0\0\0\0\x06\0\0\0\x07"),
    Piece::Bytes(HELLO2_TEXT),
    Piece::Bytes(b"\0\0\0\0"),
    Piece::Bytes(b"\0\0\0\0"),
];

const MORE: &[Piece] = &[
    Piece::Bytes(b"HG10UN"),
    Piece::Bytes(b"\0\0\0\x9f"),
    Piece::Id(TWO),
    Piece::Id(ONE),
    Piece::Id(NULL),
    Piece::Id(TWO),
    Piece::Bytes(b"\0\0\0\0\0\0\0?\0\0\0?"),
    Piece::Bytes(TWO_TEXT),
    Piece::Bytes(b"\0\0\0\xa1"),
    Piece::Id(THREE),
    Piece::Id(ONE),
    Piece::Id(NULL),
    Piece::Id(THREE),
    Piece::Bytes(b"\0\0\0\0\0\0\0?\0\0\0A"),
    Piece::Bytes(THREE_TEXT),
    Piece::Bytes(b"\0\0\0\xa3"),
    Piece::Id(MERGE),
    Piece::Id(TWO),
    Piece::Id(THREE),
    Piece::Id(MERGE),
    Piece::Bytes(b"\0\0\0\0\0\0\0A\0\0\0C"),
    Piece::Bytes(MERGE_TEXT),
    Piece::Bytes(b"\0\0\0\x9e"),
    Piece::Id(AGAIN),
    Piece::Id(MERGE),
    Piece::Id(NULL),
    Piece::Id(AGAIN),
    Piece::Bytes(b"\0\0\0\0\0\0\0C\0\0\0>"),
    Piece::Bytes(AGAIN_TEXT),
    Piece::Bytes(b"\0\0\0\x9e"),
    Piece::Id(EMPTY),
    Piece::Id(AGAIN),
    Piece::Id(NULL),
    Piece::Id(EMPTY),
    Piece::Bytes(b"\0\0\0\0\0\0\0>\0\0\0>"),
    Piece::Bytes(EMPTY_TEXT),
    Piece::Bytes(b"\0\0\0\0"),
    Piece::Bytes(b"\0\0\0\x8b"),
    Piece::Id(OF_TWO),
    Piece::Id(OF_ONE),
    Piece::Id(NULL),
    Piece::Id(TWO),
    Piece::Bytes(b"\0\0\0\0\0\0\0+\0\0\0+"),
    Piece::Bytes(OF_TWO_TEXT),
    Piece::Bytes(b"\0\0\0\x8b"),
    Piece::Id(OF_THREE),
    Piece::Id(OF_ONE),
    Piece::Id(NULL),
    Piece::Id(THREE),
    Piece::Bytes(b"\0\0\0\0\0\0\0+\0\0\0+"),
    Piece::Bytes(OF_THREE_TEXT),
    Piece::Bytes(b"\0\0\0\xb6"),
    Piece::Id(OF_MERGE),
    Piece::Id(OF_TWO),
    Piece::Id(OF_THREE),
    Piece::Id(MERGE),
    Piece::Bytes(b"\0\0\0\0\0\0\0+\0\0\0V"),
    Piece::Bytes(OF_MERGE_TEXT),
    Piece::Bytes(b"\0\0\0\0"),
    Piece::Bytes(b"\0\0\0\x05A"),
    Piece::Bytes(b"\0\0\0b"),
    Piece::Id(G),
    Piece::Id(NULL),
    Piece::Id(NULL),
    Piece::Id(MERGE),
    Piece::Bytes(b"\0\0\0\0\0\0\0\0\0\0\0\x02"),
    Piece::Bytes(G_TEXT),
    Piece::Bytes(b"\0\0\0\0"),
    Piece::Bytes(b"\0\0\0\x05a"),
    Piece::Bytes(b"\0\0\0g"),
    Piece::Id(HELLO2),
    Piece::Id(HELLO),
    Piece::Id(NULL),
    Piece::Id(TWO),
    Piece::Bytes(b"\0\0\0\0\0\0\0\x06\0\0\0\x07"),
    Piece::Bytes(HELLO2_TEXT),
    Piece::Bytes(b"\0\0\0b"),
    Piece::Id(W),
    Piece::Id(HELLO),
    Piece::Id(NULL),
    Piece::Id(THREE),
    Piece::Bytes(b"\0\0\0\0\0\0\0\x07\0\0\0\x02"),
    Piece::Bytes(W_TEXT),
    Piece::Bytes(b"\0\0\0f"),
    Piece::Id(MERGED),
    Piece::Id(W),
    Piece::Id(HELLO2),
    Piece::Id(MERGE),
    Piece::Bytes(b"\0\0\0\0\0\0\0\x02\0\0\0\x06"),
    Piece::Bytes(MERGED_TEXT),
    Piece::Bytes(b"\0\0\0\0"),
    Piece::Bytes(b"\0\0\0\0"),
];

fn put_piece(bytes: &mut Vec<u8>, piece: &Piece) -> Result<(), Fail> {
    match piece {
        Piece::Id(digits) => {
            let id = id(digits)?;
            Ok(bytes.extend_from_slice(&id.bytes())?)
        }
        Piece::Bytes(raw) => Ok(bytes.extend_from_slice(raw)?),
    }
}

fn joined(alloc: Global, pieces: &[Piece]) -> Result<Vec<u8>, Fail> {
    let mut bytes = Vec::new(alloc);
    for piece in pieces {
        put_piece(&mut bytes, piece)?;
    }
    Ok(bytes)
}

/// The changesets of a list, the place from which they are written, and the bundle.
type Case = (&'static [&'static [u8]], usize, &'static [Piece]);

const CASES: &[Case] = &[
    (&[], 0, NONE),
    (&[ONE], 0, FIRST),
    (&[ONE, TWO], 1, SECOND),
    (&[ONE, TWO], 2, NONE),
    (&[ONE, TWO, THREE, MERGE, AGAIN, EMPTY], 1, MORE),
];

fn listed(alloc: Global, nodes: &[&[u8]]) -> Result<IdList, Fail> {
    let mut order = IdList::new(alloc);
    for node in nodes {
        order.push(id(node)?)?;
    }
    Ok(order)
}

fn is_added(
    rt: &impl Abort,
    alloc: Global,
    store: &mut HgStore,
    step: &Step,
) -> Result<bool, Fail> {
    let ids = ids(step)?;
    let text = keep(step.4.to_vec(alloc)?)?;
    Ok(add(rt, store, step.0, ids, text))
}

fn filled(rt: &impl Abort, alloc: Global) -> Result<HgStore, Fail> {
    let mut store = HgStore::new(alloc);
    for step in STEPS {
        let is_added = is_added(rt, alloc, &mut store, step)?;
        assert!(rt; is_added);
    }
    Ok(store)
}

fn written(
    rt: &impl Abort,
    alloc: Global,
    store: &HgStore,
    order: &IdList,
    from: usize,
) -> Result<Vec<u8>, Fail> {
    assert!(rt; from <= order.len());
    let is_held = are_held(alloc, store, order)?;
    assert!(rt; is_held);
    let len = written_len(alloc, store, order.as_slice())?;
    let bytes = write(alloc, store, order, from)?.joined()?;
    assert!(rt; from > 0 || len == bytes.len() as u64);
    let dump = Dump::collect(alloc, store, order.as_slice(), from)?;
    assert!(rt; dump.len() == bytes.len() as u64);
    let mut out = Rope::of(alloc, b"front ".to_vec(alloc)?);
    dump.append(&mut out)?;
    assert!(rt; out.joined()?.strip_prefix(b"front ") == Some(bytes.as_slice()));
    Ok(bytes)
}

fn is_written(rt: &impl Abort, alloc: Global, store: &HgStore, case: &Case) -> Result<bool, Fail> {
    let (nodes, from, want) = *case;
    let order = listed(alloc, nodes)?;
    let bytes = written(rt, alloc, store, &order, from)?;
    let want = joined(alloc, want)?;
    Ok(bytes == want)
}

#[test]
fn bundles(rt: HostRuntime) -> Result<(), Fail> {
    let store = filled(&rt, rt.alloc())?;
    for case in CASES {
        let is_written = is_written(&rt, rt.alloc(), &store, case)?;
        assert!(rt; is_written);
    }
    Ok(())
}

// Whether bytes are the bundle of no changesets of a store without revisions.
fn is_dump_of_nothing(alloc: Global, bytes: &[u8]) -> Result<bool, Fail>
    requires { TellsTexts [] bytes.now }
{
    let store = HgStore::new(alloc);
    let order = IdList::new(alloc);
    Ok(read_is_dump(alloc, &store, &order, bytes)?)
}

/// The bundle of no changesets has no path.
#[test]
fn dumps_of_nothing(rt: HostRuntime) -> Result<(), Fail> {
    let empty = is_dump_of_nothing(rt.alloc(), b"HG10UN\0\0\0\0\0\0\0\0\0\0\0\0")?;
    assert!(rt; empty);
    let path = is_dump_of_nothing(
        rt.alloc(),
        b"HG10UN\0\0\0\0\0\0\0\0\0\0\0\x05a\0\0\0\0\0\0\0\0",
    )?;
    assert!(rt; !path);
    Ok(())
}
