// Manifests and lists of files that the rule gives.
use crate::sides::{NULL, Revision, id, store_of};
use bridge_text::{Id, Paths};
use file_rule::Parent;
use hg_manifest::{Entry, Manifest, ManifestRev, Near};
use hg_store::{Group, HgStore};
use manifest_rule::{are_same_paths, is_ruled_manifest, lines_fit, make_manifest, ruled_files};
use pair_known::{HgRow, HgRows};
use shared_text::{again, keep};
use std::alloc::Global;
use std::test::Fail;

/// A file: its path, a digit that stands 40 times in its node, and its flag.
type File = (&'static [u8], u8, &'static [u8]);

fn put_line(text: &mut Vec<u8>, path: &[u8], digit: u8, flag: &[u8]) -> Result<(), Fail> {
    text.extend_from_slice(path)?;
    text.push(b'\0')?;
    text.extend_from_slice(&[digit; 40])?;
    text.extend_from_slice(flag)?;
    Ok(text.push(b'\n')?)
}

fn manifest_of(alloc: Global, files: &[File]) -> Result<Manifest, Fail> {
    let mut text = Vec::new(alloc);
    for (path, digit, flag) in files {
        put_line(&mut text, path, *digit, flag)?;
    }
    Ok(Manifest::read(alloc, &keep(text)?, Near::none()).map_err(|_| "a manifest")?)
}

fn row_of(entry: &Entry) -> Result<HgRow, Fail> {
    Ok(HgRow {
        path: again(&entry.path)?,
        flag: entry.flag,
        node: entry.node,
        blob: Id::NULL,
    })
}

fn rows_of(alloc: Global, manifest: &Manifest) -> Result<HgRows, Fail> {
    let mut rows = HgRows::with_capacity(alloc, manifest.len())?;
    for place in 0..manifest.len() {
        let row = row_of(manifest.at(place))?;
        rows.push(row)?;
    }
    Ok(rows)
}

/// The files of a changeset and of its parents, and what it lists.
struct Case {
    rows: &'static [File],
    first: Option<&'static [File]>,
    second: Option<&'static [File]>,
    listed: &'static [&'static [u8]],
}

const BASE: &[File] = &[(b"a", b'1', b""), (b"b", b'2', b""), (b"c", b'3', b"")];

const CASES: &[Case] = &[
    Case {
        rows: BASE,
        first: None,
        second: None,
        listed: &[b"a", b"b", b"c"],
    },
    Case {
        rows: &[],
        first: None,
        second: None,
        listed: &[],
    },
    Case {
        rows: BASE,
        first: Some(BASE),
        second: None,
        listed: &[],
    },
    Case {
        rows: &[],
        first: Some(BASE),
        second: None,
        listed: &[b"a", b"b", b"c"],
    },
    Case {
        rows: &[
            (b"a", b'1', b"x"),
            (b"b", b'4', b""),
            (b"b0", b'1', b""),
            (b"d", b'1', b"l"),
        ],
        first: Some(BASE),
        second: None,
        listed: &[b"a", b"b", b"b0", b"c", b"d"],
    },
    Case {
        rows: &[(b"a", b'1', b""), (b"b", b'5', b""), (b"e", b'6', b"")],
        first: Some(BASE),
        second: Some(&[(b"a", b'7', b""), (b"b", b'8', b""), (b"c", b'9', b"")]),
        listed: &[b"b", b"c", b"e"],
    },
    Case {
        rows: &[(b"a", b'7', b""), (b"c", b'3', b"")],
        first: Some(BASE),
        second: Some(&[(b"a", b'7', b""), (b"d", b'1', b"")]),
        listed: &[],
    },
];

// The manifest, where there is one.
fn there<'a>(files: Option<&'static [File]>, manifest: &'a Manifest) -> Option<&'a Manifest> {
    match files {
        Some(_) => Some(manifest),
        None => None,
    }
}

fn files_of(alloc: Global, files: &[File]) -> Result<HgRows, Fail> {
    let manifest = manifest_of(alloc, files)?;
    rows_of(alloc, &manifest)
}

// Whether the rule lists what the case says.
fn are_listed(alloc: Global, case: &Case) -> Result<bool, Fail> {
    let rows = files_of(alloc, case.rows)?;
    let first = manifest_of(alloc, case.first.unwrap_or(&[]))?;
    let second = manifest_of(alloc, case.second.unwrap_or(&[]))?;
    let first = there(case.first, &first);
    let second = there(case.second, &second);
    let paths = ruled_files(alloc, &rows, first, second)?;
    let none = Paths::new(alloc);
    let is_none = are_same_paths(&paths, &none);
    Ok(
        are_paths(&paths, case.listed)
            && are_same_paths(&paths, &paths)
            && is_none == case.listed.is_empty(),
    )
}

fn are_paths(paths: &Paths, want: &[&[u8]]) -> bool {
    if paths.len() != want.len() {
        return false;
    }
    for (place, path) in want.iter().enumerate() {
        if paths.at(place).as_slice() != *path {
            return false;
        }
    }
    true
}

#[test]
fn listed_files(rt: HostRuntime) -> Result<(), Fail> {
    for case in CASES {
        let are_listed = are_listed(rt.alloc(), case)?;
        assert!(rt; are_listed);
    }
    Ok(())
}

const ONE: &[u8] = b"b470b8df2f97b19e505a12557fca38e48d59561c";

/// The manifest of the one file `a` with a node of ones, over null parents, and over one of twos.
const OF_ONES: &[u8] = b"6c5053c163dcb67eb3f93b9687cfede08c9e3f04";

const OVER_TWOS: &[u8] = b"6b5541cc5173bc7592e2710ce822f410a5c64ec3";

const OF_TWOS: &[u8] = b"4ef3c3ee1c826ddf832532cafbadb2ae981b83dd";

const REVISIONS: &[Revision] = &[
    Revision(
        Group::Changesets,
        [ONE, NULL, NULL],
        ONE,
        b"0000000000000000000000000000000000000000\nu\n0 0\n\none",
    ),
    Revision(
        Group::Manifests,
        [OF_ONES, NULL, NULL],
        ONE,
        b"a\01111111111111111111111111111111111111111\n",
    ),
    Revision(
        Group::Manifests,
        [OF_TWOS, NULL, NULL],
        ONE,
        b"a\02222222222222222222222222222222222222222\n",
    ),
];

/// The node of the first parent's manifest, and the node and the first parent of the manifest that the rule gives to the file `a` of ones.
const RULED: &[[&'static [u8]; 3]] = &[
    [NULL, OF_ONES, NULL],
    [OF_ONES, OF_ONES, NULL],
    [OF_TWOS, OVER_TWOS, OF_TWOS],
];

// The parent with this manifest; that there is none, where its node is the null id.
fn parent_with(node: Id, manifest: &Manifest) -> Parent<'_> {
    Parent {
        is_there: !node.is_null(),
        manifest_node: node,
        manifest,
    }
}

// Whether the rule gives the rows the manifest of this node over these parents, and no other.
fn is_ruled(
    alloc: Global,
    store: &HgStore,
    rows: &HgRows,
    first: &Parent<'_>,
    node: &Id,
    over: &ManifestRev,
) -> Result<bool, Fail> {
    let none = store.manifest(&Id::NULL).ok_or("the empty manifest")?;
    let second = parent_with(Id::NULL, none);
    let made = make_manifest(alloc, store, rows, first, &second)?;
    let is_made = made.node == *node && made.manifest == *over;
    let is_other = is_ruled_manifest(store, rows, &ManifestRev::Null, first, &second);
    Ok(is_made && !is_other && is_ruled_manifest(store, rows, over, first, &second))
}

// Whether the rule gives the rows what stands in the table.
fn holds(
    alloc: Global,
    store: &HgStore,
    rows: &HgRows,
    ruled: &[&'static [u8]; 3],
) -> Result<bool, Fail> {
    let [node, ruled, over] = *ruled;
    let (node, ruled) = (id(node)?, id(ruled)?);
    let manifest = store.manifest(&node).ok_or("a manifest that is known")?;
    let first = parent_with(node, manifest);
    let over = ManifestRev::Over {
        p: id(over)?,
        q: Id::NULL,
    };
    is_ruled(alloc, store, rows, &first, &ruled, &over)
}

#[test]
fn ruled_manifests(rt: HostRuntime) -> Result<(), Fail> {
    let store = store_of(&rt, rt.alloc(), REVISIONS)?;
    let rows = files_of(rt.alloc(), &[(b"a", b'1', b"")])?;
    assert!(rt; lines_fit(&rows));
    for ruled in RULED {
        let holds = holds(rt.alloc(), &store, &rows, ruled)?;
        assert!(rt; holds);
    }
    Ok(())
}
