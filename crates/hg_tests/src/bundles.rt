// Whole bundles that are read into a store. Nodes, deltas and offsets were made by Python's hashlib and struct.
use bridge_io::MemSource;
use bridge_text::{Fault, Id, Refusal};
use hg_bundle::{Arrival, Arrivals, BundleFault, RevKind, count_entries, read_into};
use hg_store::HgStore;
use shared_text::keep;
use state_part::SharedPart;
use std::alloc::Global;
use std::test::Fail;

const NULL: &[u8] = b"0000000000000000000000000000000000000000";

const FILE: &[u8] = b"3ad15d6a027e0547c2cae3fe5bceaeb088eb8870";

const SECOND_FILE: &[u8] = b"db1832564c6bbda69f3890e751e04a42039e29a2";

const THIRD_FILE: &[u8] = b"21e5cc8c9049e11cf2cf713ebcb600797609137e";

const FOURTH_FILE: &[u8] = b"033ee8a745ad4af17feafb1f414282a9fd23fffe";

const MANIFEST: &[u8] = b"80d410a90e94ba756a8c6edb4661a6c8c94623a6";

const FIRST: &[u8] = b"54e41389358212bfdddb64d96e32339da52ec16a";

const SECOND: &[u8] = b"e9850cacb73bb92dc477f810508e2f82e9fa7049";

const MERGE: &[u8] = b"8393b154bf4e0dc047d119510e348c9e694067d0";

const EMPTY: &[u8] = b"b80de5d138758541c5f05265ad144ab9fa86d1db";

const BAD_MANIFEST: &[u8] = b"b789fdd96dc2f3bd229c1dd8eedf0fc60e2b68e3";

const UNFIT_MANIFEST: &[u8] = b"92d208b42da5ef15d673ebfd8b0323f136bb1857";

const BAD_FILE: &[u8] = b"a3d70ac3294370c35c6c06022de5a6b6ee4a3743";

const FIRST_TEXT: &[u8] = b"80d410a90e94ba756a8c6edb4661a6c8c94623a6\nAnn\n0 0\na\n\nfirst";

const MERGE_TEXT: &[u8] = b"80d410a90e94ba756a8c6edb4661a6c8c94623a6\nBob\n0 0\na\n\nmerge";

const MANIFEST_TEXT: &[u8] = b"a\x003ad15d6a027e0547c2cae3fe5bceaeb088eb8870\n";

// An entry: what stands before it, its node, parents and link, and its delta.
#[derive(Clone, Copy)]
struct Part(&'static [u8], [&'static [u8]; 4], &'static [u8]);

const PARTS: [Part; 9] = [
    // the first changeset, on the empty text
    Part(
        b"",
        [FIRST, NULL, NULL, FIRST],
        b"\0\0\0\0\0\0\0\0\0\0\x00980d410a90e94ba756a8c6edb4661a6c8c94623a6\nAnn\n0 0\na\n\nfirst",
    ),
    // its child, by two hunks
    Part(
        b"",
        [SECOND, FIRST, NULL, SECOND],
        b"\0\0\0)\0\0\0,\0\0\0\x03Bob\0\0\x004\0\0\x009\0\0\0\x06second",
    ),
    // a merge
    Part(
        b"",
        [MERGE, FIRST, SECOND, MERGE],
        b"\0\0\x004\0\0\0:\0\0\0\x05merge",
    ),
    // the first changeset again, on the text of the merge
    Part(
        b"",
        [FIRST, NULL, NULL, FIRST],
        b"\0\0\0)\0\0\0,\0\0\0\x03Ann\0\0\x004\0\0\x009\0\0\0\x05first",
    ),
    // the manifest
    Part(
        b"\0\0\0\0",
        [MANIFEST, NULL, NULL, FIRST],
        b"\0\0\0\0\0\0\0\0\0\0\0+a\x003ad15d6a027e0547c2cae3fe5bceaeb088eb8870\n",
    ),
    // the file `a`
    Part(
        b"\0\0\0\0\0\0\0\x05a",
        [FILE, NULL, NULL, FIRST],
        b"\0\0\0\0\0\0\0\0\0\0\0\x0chello\nworld\n",
    ),
    // by two hunks
    Part(
        b"",
        [SECOND_FILE, FILE, NULL, SECOND],
        b"\0\0\0\0\0\0\0\x01\0\0\0\x01J\0\0\0\x06\0\0\0\x0b\0\0\0\x04moon",
    ),
    // another child, whose three hunks change the text before it
    Part(
        b"",
        [THIRD_FILE, FILE, NULL, MERGE],
        b"\0\0\0\0\0\0\0\x05\0\0\0\x03bye\0\0\0\x06\0\0\0\x06\0\0\0\x03my \0\0\0\n\0\0\0\x0b\0\0\0\x02!\n",
    ),
    // the file `a` once more: its first delta changes the text of the parent
    Part(
        b"\0\0\0\0\0\0\0\x05a",
        [FOURTH_FILE, SECOND_FILE, NULL, MERGE],
        b"\0\0\0\x0b\0\0\0\x0b\0\0\0\x04end\n",
    ),
];

fn id(hex: &[u8]) -> Result<Id, Fail> {
    Ok(Id::from_hex(hex).ok_or("40 digits")?)
}

fn put_part(out: &mut Vec<u8>, part: Part) -> Result<(), Fail> {
    out.extend_from_slice(part.0)?;
    out.extend_from_slice(&[0, 0, 0, u8::try_from(84 + part.2.len())?])?;
    for hex in part.1 {
        out.extend_from_slice(&id(hex)?.bytes())?;
    }
    out.extend_from_slice(part.2)?;
    Ok(())
}

// The beginning of a bundle, with so many of the parts.
fn front(alloc: Global, count: usize) -> Result<Vec<u8>, Fail> {
    let mut out = b"HG10UN".to_vec(alloc)?;
    for part in PARTS.into_iter().take(count) {
        put_part(&mut out, part)?;
    }
    Ok(out)
}

// Reads a bundle that is given in pieces of `cut` bytes into an empty store.
fn read(
    alloc: Global,
    bytes: &[u8],
    cut: usize,
    fails: &[u64],
) -> Result<Result<(HgStore, Arrivals), BundleFault>, Fail> {
    let mut src = MemSource::new(bytes.to_vec(alloc)?, cut, fails.to_vec(alloc)?);
    Ok(read_into(alloc, &mut src, HgStore::new(alloc)))
}

/// The arrivals of the parts: kind, path, node, offset, and whether the revision was new.
const ARRIVALS: &[(RevKind, &[u8], &[u8], u64, bool)] = &[
    (RevKind::Changeset, b"", FIRST, 6, true),
    (RevKind::Changeset, b"", SECOND, 159, true),
    (RevKind::Changeset, b"", MERGE, 276, true),
    (RevKind::Changeset, b"", FIRST, 377, false),
    (RevKind::Manifest, b"", MANIFEST, 497, true),
    (RevKind::File, b"a", FILE, 645, true),
    (RevKind::File, b"a", SECOND_FILE, 753, true),
    (RevKind::File, b"a", THIRD_FILE, 866, true),
    (RevKind::File, b"a", FOURTH_FILE, 1003, true),
];

fn are_wanted(arrivals: &[Arrival]) -> bool {
    arrivals.len() == ARRIVALS.len()
        && arrivals.iter().zip(ARRIVALS).all(|(arrival, (kind, path, node, at, fresh))| {
            arrival.kind == *kind
                && arrival.path.as_slice() == *path
                && arrival.node.hex().as_slice() == *node
                && arrival.at == *at
                && arrival.fresh == *fresh
        })
}

fn have_counts(arrivals: &Arrivals) -> bool {
    arrivals.len() == 9
        && !arrivals.is_empty()
        && arrivals.at(1).at == 159
        && count_entries(arrivals, RevKind::Changeset) == 4
        && count_entries(arrivals, RevKind::Manifest) == 1
        && count_entries(arrivals, RevKind::File) == 4
}

// The text of a changeset or a manifest, or of the file `a`.
fn text_of<'a>(store: &'a HgStore, kind: RevKind, node: &Id) -> Option<&'a [u8]> {
    match kind {
        RevKind::Changeset => store.text_of(node),
        RevKind::Manifest => store.manifest_text(node),
        RevKind::File => store.file_text(b"a", node),
    }
}

/// Texts of the parts: kind, node, text.
const TEXTS: &[(RevKind, &[u8], &[u8])] = &[
    (RevKind::Changeset, FIRST, FIRST_TEXT),
    (RevKind::Changeset, MERGE, MERGE_TEXT),
    (RevKind::Manifest, MANIFEST, MANIFEST_TEXT),
    (RevKind::File, THIRD_FILE, b"bye\nmy moon!\n"),
    (RevKind::File, FOURTH_FILE, b"Jello\nmoon\nend\n"),
];

fn has_text(store: &HgStore, kind: RevKind, node: &[u8], text: &[u8]) -> Result<bool, Fail> {
    let node = id(node)?;
    Ok(text_of(store, kind, &node) == Some(text))
}

fn has_texts(store: &HgStore) -> Result<bool, Fail> {
    for (kind, node, text) in TEXTS {
        if !has_text(store, *kind, node, text)? {
            return Ok(false);
        }
    }
    Ok(true)
}

fn whole(alloc: Global) -> Result<Vec<u8>, Fail> {
    let mut bytes = front(alloc, 9)?;
    bytes.extend_from_slice(&[0; 8])?;
    Ok(bytes)
}

// Whether a bundle that is given in pieces of `cut` bytes brings the parts.
fn is_read(alloc: Global, bytes: &[u8], cut: usize) -> Result<bool, Fail> {
    let (store, arrivals) = read(alloc, bytes, cut, &[])??;
    let has_texts = has_texts(&store)?;
    Ok(has_texts && are_wanted(arrivals.as_slice()) && have_counts(&arrivals))
}

#[test]
fn a_bundle_is_read(rt: HostRuntime) -> Result<(), Fail> {
    let bytes = whole(rt.alloc())?;
    let at_once = is_read(rt.alloc(), &bytes, 0)?;
    let byte_by_byte = is_read(rt.alloc(), &bytes, 1)?;
    assert!(rt; at_once && byte_by_byte);
    Ok(())
}

// Texts that stand whole in the bundle are parts of it. It is given up before they are looked at.
fn is_read_shared(alloc: Global, bytes: Vec<u8>) -> Result<bool, Fail> {
    let mut src = SharedPart::new(keep(bytes)?);
    let (store, arrivals) = read_into(alloc, &mut src, HgStore::new(alloc))?;
    drop(src);
    Ok(has_texts(&store)? && are_wanted(arrivals.as_slice()) && have_counts(&arrivals))
}

#[test]
fn a_bundle_is_read_of_shared_bytes(rt: HostRuntime) -> Result<(), Fail> {
    let bytes = whole(rt.alloc())?;
    let is_read = is_read_shared(rt.alloc(), bytes)?;
    assert!(rt; is_read);
    Ok(())
}

#[test]
fn a_read_fails(rt: HostRuntime) -> Result<(), Fail> {
    let bytes = whole(rt.alloc())?;
    let failed = read(rt.alloc(), &bytes, 0, &[9])?;
    assert!(rt; failed.err() == Some(BundleFault::Read));
    Ok(())
}

/// An entry behind so many of the parts, and its fault and place.
struct Entry(usize, Part, Fault, u64);

const ENTRIES: &[Entry] = &[
    Entry(
        0,
        Part(b"", [SECOND, NULL, FIRST, SECOND], b""),
        Fault::ParentOrder,
        6,
    ),
    Entry(
        0,
        Part(b"", [SECOND, FIRST, NULL, SECOND], b""),
        Fault::ParentUnknown,
        6,
    ),
    Entry(
        0,
        Part(
            b"",
            [FIRST, NULL, NULL, SECOND],
            b"\0\0\0\0\0\0\0\x01\0\0\0\0",
        ),
        Fault::LinkUnknown,
        6,
    ),
    Entry(
        0,
        Part(
            b"",
            [FIRST, NULL, NULL, FIRST],
            b"\0\0\0\0\0\0\0\0\0\0\0\x01x\0\0\0\0\0\0\0\x01\0\0\0",
        ),
        Fault::HunkShape,
        103,
    ),
    Entry(
        0,
        Part(
            b"",
            [FIRST, NULL, NULL, FIRST],
            b"\0\0\0\0\0\0\0\0\0\0\0\x01x\0\0\0\0\0\0\0\x01\0\0\0\0",
        ),
        Fault::HunkRange,
        103,
    ),
    Entry(
        0,
        Part(b"", [FIRST, NULL, NULL, FIRST], b""),
        Fault::NodeWrong,
        6,
    ),
    Entry(
        0,
        Part(b"", [EMPTY, NULL, NULL, EMPTY], b""),
        Fault::ChangesetShape,
        6,
    ),
    Entry(
        3,
        Part(b"", [MERGE, SECOND, FIRST, MERGE], b""),
        Fault::Collision,
        377,
    ),
    Entry(
        4,
        Part(b"\0\0\0\0", [MANIFEST, NULL, NULL, EMPTY], b""),
        Fault::LinkUnknown,
        497,
    ),
    Entry(
        4,
        Part(
            b"\0\0\0\0",
            [BAD_MANIFEST, NULL, NULL, FIRST],
            b"\0\0\0\0\0\0\0\0\0\0\0\x02a\n",
        ),
        Fault::ManifestShape,
        497,
    ),
    Entry(
        4,
        Part(
            b"\0\0\0\0",
            [UNFIT_MANIFEST, NULL, NULL, FIRST],
            b"\0\0\0\0\0\0\0\0\0\0\0..git\x003ad15d6a027e0547c2cae3fe5bceaeb088eb8870\n",
        ),
        Fault::PathUnfit,
        497,
    ),
    Entry(
        4,
        Part(
            b"\0\0\0\0\0\0\0\0\0\0\0\x05a",
            [BAD_FILE, NULL, NULL, FIRST],
            b"\0\0\0\0\0\0\0\0\0\0\0\x02\x01\n",
        ),
        Fault::FileShape,
        506,
    ),
    Entry(
        4,
        Part(
            b"\0\0\0\0\0\0\0\0\0\0\0\x08.git",
            [NULL, NULL, NULL, NULL],
            b"",
        ),
        Fault::PathUnfit,
        501,
    ),
    Entry(
        9,
        Part(
            b"\0\0\0\0\0\0\0\x05b",
            [SECOND_FILE, FILE, NULL, FIRST],
            b"",
        ),
        Fault::ParentUnknown,
        1112,
    ),
];

fn with_entry(alloc: Global, count: usize, part: Part) -> Result<Vec<u8>, Fail> {
    let mut bytes = front(alloc, count)?;
    put_part(&mut bytes, part)?;
    Ok(bytes)
}

// Why a bundle that ends with an entry isn't read.
fn fault_of(alloc: Global, count: usize, part: Part) -> Result<Option<BundleFault>, Fail> {
    let bytes = with_entry(alloc, count, part)?;
    let answer = read(alloc, &bytes, 0, &[])?;
    Ok(answer.err())
}

fn is_refused(alloc: Global, entry: &Entry) -> Result<bool, Fail> {
    let Entry(count, part, fault, place) = entry;
    let refusal = Refusal {
        fault: *fault,
        id: id(part.1[0])?,
        place: *place,
    };
    let found = fault_of(alloc, *count, *part)?;
    Ok(found == Some(BundleFault::Refused(refusal)))
}

#[test]
fn each_entry_is_checked(rt: HostRuntime) -> Result<(), Fail> {
    for (place, entry) in ENTRIES.iter().enumerate() {
        let is_refused = is_refused(rt.alloc(), entry)?;
        assert!(rt; is_refused, "at {place}");
    }
    Ok(())
}
