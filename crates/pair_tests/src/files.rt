// Whether a file of a changeset is the one that the rule gives.
use crate::sides::{NULL, Revision, id, store_of};
use bridge_text::Id;
use file_rule::{is_plain, is_ruled, parents_over};
use hg_manifest::{Flag, Manifest, Near};
use hg_store::{Group, HgStore};
use pair_known::HgRow;
use shared_text::{Text, keep};
use std::alloc::Global;
use std::test::Fail;

const ONE: &[u8] = b"b470b8df2f97b19e505a12557fca38e48d59561c";

/// Revisions of the file `a`: x, y over x, z over both, and w, which names a copy.
const X: &[u8] = b"d00600e0b09ff8a1909934023a08399f084bc6bc";

const Y: &[u8] = b"c4cb1824dbcc4c8bfed5b6ade3c31783a979f9ec";

const Z: &[u8] = b"baed9c37ab96a3d570674bdfa24c956f711797f4";

const COPY: &[u8] = b"cebcfa19f27ab49a648e2686ecf970353c4a8d51";

const COPY_TEXT: &[u8] =
    b"\x01\ncopy: b\ncopyrev: d00600e0b09ff8a1909934023a08399f084bc6bc\n\x01\nw";

const REVISIONS: &[Revision] = &[
    Revision(
        Group::Changesets,
        [ONE, NULL, NULL],
        ONE,
        b"0000000000000000000000000000000000000000\nu\n0 0\n\none",
    ),
    Revision(Group::FilesAt(b"a"), [X, NULL, NULL], ONE, b"x"),
    Revision(Group::FilesAt(b"a"), [Y, X, NULL], ONE, b"y"),
    Revision(Group::FilesAt(b"a"), [Z, X, Y], ONE, b"z"),
    Revision(Group::FilesAt(b"a"), [COPY, X, NULL], ONE, COPY_TEXT),
];

// The manifest of one file; of none for the null id.
fn manifest_of(alloc: Global, path: &[u8], node: &[u8]) -> Result<Manifest, Fail> {
    let mut text = Vec::new(alloc);
    if node != NULL {
        text.extend_from_slice(path)?;
        text.push(b'\0')?;
        text.extend_from_slice(node)?;
        text.push(b'\n')?;
    }
    Ok(Manifest::read(alloc, &keep(text)?, Near::none()).map_err(|_| "a manifest")?)
}

fn row_of(alloc: Global, store: &HgStore, path: &[u8], node: Id) -> Result<HgRow, Fail> {
    let path = Text::copy_from_slice(alloc, path)?;
    match store.file_blob(path.as_slice(), &node) {
        Some(blob) => Ok(HgRow {
            path,
            flag: Flag::Exec,
            node,
            blob,
        }),
        None => Err("a file revision that is known")?,
    }
}

/// The node of a file, those of its path in the parents, and whether the file comes back.
const CASES: &[(&'static [u8], [&'static [u8]; 2], bool)] = &[
    (X, [NULL, NULL], true),
    (X, [X, NULL], true),
    (X, [Y, X], true),
    (X, [Y, NULL], false),
    (Y, [X, NULL], true),
    (Y, [X, X], true),
    (Y, [NULL, X], true),
    (Y, [NULL, NULL], false),
    (Z, [X, Y], true),
    (Z, [Y, X], true),
    (Z, [X, NULL], false),
    (COPY, [X, NULL], false),
    (COPY, [COPY, NULL], true),
];

// Whether the file `a` comes back.
fn comes_back(
    alloc: Global,
    store: &HgStore,
    node: &'static [u8],
    parents: &[&'static [u8]; 2],
) -> Result<bool, Fail> {
    let [first, second] = *parents;
    let row = row_of(alloc, store, b"a", id(node)?)?;
    let first = manifest_of(alloc, b"a", first)?;
    let second = manifest_of(alloc, b"a", second)?;
    Ok(is_ruled(store, &row, first.get(b"a"), second.get(b"a")))
}

#[test]
fn files_that_come_back(rt: HostRuntime) -> Result<(), Fail> {
    let store = store_of(&rt, rt.alloc(), REVISIONS)?;
    for (node, parents, want) in CASES {
        let comes_back = comes_back(rt.alloc(), &store, node, parents)?;
        assert!(rt; comes_back == *want);
    }
    Ok(())
}

/// The nodes of a file in two parents, and the parents of a new revision over them.
const PARENTS: &[([u8; 2], [u8; 2])] = &[
    ([0, 0], [0, 0]),
    ([1, 0], [1, 0]),
    ([0, 1], [1, 0]),
    ([1, 1], [1, 0]),
    ([2, 1], [1, 2]),
];

#[test]
fn parents_of_revisions(rt: HostRuntime) {
    for ([first, second], [p, q]) in PARENTS {
        let parents = parents_over(Id::new([*first; 20]), Id::new([*second; 20]));
        assert!(rt; parents == (Id::new([*p; 20]), Id::new([*q; 20])));
    }
}

/// Metadata and bodies, and whether the rule gives the one to the other.
const METADATA: [(Option<&[u8]>, &[u8], bool); 4] = [
    (None, b"x", true),
    (Some(b""), b"\x01\nx", true),
    (Some(b""), b"x", false),
    (Some(b"copy: b\n"), b"x", false),
];

#[test]
fn plain_metadata(rt: HostRuntime) -> Result<(), Fail> {
    for (meta, body, want) in METADATA {
        assert!(rt; is_plain(meta, body) == want);
    }
    Ok(())
}
