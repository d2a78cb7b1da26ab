// Which walks through trees pass, by what stands below the trees.
use crate::trees::{keep, keep_entry, keep_leaves, nested, one_entry};
use bridge_text::{Id, Kind};
use git_store::GitStore;
use std::alloc::Global;
use std::test::Fail;
use tree_sum::Sums;

/// Adds a tree with two entries of one id, and gives its id.
fn keep_twice(alloc: Global, store: &mut GitStore, mode: &[u8], id: &Id) -> Result<Id, Fail> {
    let mut content = one_entry(alloc, mode, b'a', id)?;
    let other = one_entry(alloc, mode, b'b', id)?;
    content.extend_from_slice(&other)?;
    keep(alloc, store, Kind::Tree, &content)
}

/// Adds a tree that has a tree twice and so on, so many of them, over a blob: each doubles the rows.
fn doubled(alloc: Global, store: &mut GitStore, count: u16) -> Result<Id, Fail> {
    let mut inner = keep(alloc, store, Kind::Blob, b"x")?;
    let mut mode = b"100644".as_slice();
    for _ in 0..count {
        inner = keep_twice(alloc, store, mode, &inner)?;
        mode = b"40000";
    }
    Ok(inner)
}

/// Adds a blob below names of such lengths, the innermost first.
fn named(alloc: Global, store: &mut GitStore, lengths: &[u16]) -> Result<Id, Fail> {
    let mut inner = keep(alloc, store, Kind::Blob, b"x")?;
    let mut mode = b"100644 ".as_slice();
    for length in lengths {
        let mut content = mode.to_vec(alloc)?;
        content.resize(mode.len() + usize::from(*length), b'n')?;
        content.push(b'\0')?;
        content.extend_from_slice(&inner.bytes())?;
        inner = keep(alloc, store, Kind::Tree, &content)?;
        mode = b"40000 ";
    }
    Ok(inner)
}

/// Trees through which walks pass: one with no entries; a commit of another repository; 256 names; 2^19 rows of 37 bytes,
/// 41,418,752 with 42 for each; and a path of 4,096 bytes.
fn passing(alloc: Global, store: &mut GitStore) -> Result<[Id; 5], Fail> {
    let [_, empty] = keep_leaves(alloc, store)?;
    let gitlink = keep_entry(alloc, store, b"160000", &Id::NULL)?;
    let deep = nested(alloc, store, 256)?;
    let wide = doubled(alloc, store, 19)?;
    let long = named(alloc, store, &[1024, 1023, 1023, 1023])?;
    Ok([empty, gitlink, deep, wide, long])
}

/// Roots through which walks don't pass: a blob in place of a tree; a tree in place of a blob; a blob; no object; 257
/// names; 2^20 rows of 39 bytes, 84,934,656 with 42 for each; and a path of 4,097 bytes.
fn refused(alloc: Global, store: &mut GitStore) -> Result<[Id; 7], Fail> {
    let [blob, empty] = keep_leaves(alloc, store)?;
    let above_blob = keep_entry(alloc, store, b"40000", &blob)?;
    let tree_as_blob = keep_entry(alloc, store, b"100644", &empty)?;
    let deep = nested(alloc, store, 257)?;
    let wide = doubled(alloc, store, 20)?;
    let long = named(alloc, store, &[1024, 1024, 1023, 1023])?;
    Ok([above_blob, tree_as_blob, blob, Id::NULL, deep, wide, long])
}

/// What is answered of a root by sums that were asked for another.
fn answer_behind(alloc: Global, store: &GitStore, other: &Id, root: &Id) -> Result<bool, Fail> {
    let mut sums = Sums::new(alloc);
    sums.walks(store, other)?;
    Ok(sums.walks(store, root)?)
}

/// Whether each root gets this answer, when it is asked for again and behind another.
fn get_answer(
    alloc: Global,
    store: &GitStore,
    roots: &[Id],
    other: &Id,
    answer: bool,
) -> Result<bool, Fail> {
    for root in roots {
        let again = answer_behind(alloc, store, root, root)?;
        let behind = answer_behind(alloc, store, other, root)?;
        if again != answer || behind != answer {
            return Ok(false);
        }
    }
    Ok(true)
}

/// The tree of 256 names stands in that of 257.
#[test]
fn walks_by_sums(rt: HostRuntime) -> Result<(), Fail> {
    let mut store = GitStore::new(rt.alloc());
    let passing = passing(rt.alloc(), &mut store)?;
    let refused = refused(rt.alloc(), &mut store)?;
    let deep = nested(rt.alloc(), &mut store, 256)?;
    let pass = get_answer(rt.alloc(), &store, &passing, &deep, true)?;
    let are_refused = get_answer(rt.alloc(), &store, &refused, &deep, false)?;
    assert!(rt; pass && are_refused);
    Ok(())
}
