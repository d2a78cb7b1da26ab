// The changesets and the commits of a saved state, read from their dumps.
use crate::values::{BLOB, BUNDLE, COMMIT, NODE, STREAM, id, text};
use bridge_text::Id;
use git_batch::{Contents, NoContents};
use git_section::read_commits;
use hg_section::read_changesets;
use known_blobs::KnownBlobs;
use std::alloc::Global;
use std::test::Fail;

// Whether the bytes are the dump of the one changeset with this node, which the store has.
fn is_changeset(alloc: Global, bytes: &[u8], node: &Id) -> Result<bool, Fail> {
    match read_changesets(alloc, &text(alloc, bytes)?)? {
        Some(section) => Ok(
            section.nodes.as_slice() == [*node].as_slice()
                && section.store.changeset(node).is_some(),
        ),
        None => Ok(false),
    }
}

// Whether the bytes are the dump of the one commit with this id, which the store has.
fn is_commit(alloc: Global, bytes: &[u8], commit: &Id) -> Result<bool, Fail> {
    match read_commits(alloc, &text(alloc, bytes)?, &NoContents)? {
        Some(section) => Ok(
            section.ids.as_slice() == [*commit].as_slice()
                && section.store.commit(commit).is_some(),
        ),
        None => Ok(false),
    }
}

#[test]
fn changesets_are_read_from_their_dump(rt: HostRuntime) -> Result<(), Fail> {
    let node = id(NODE)?;
    let whole = is_changeset(rt.alloc(), BUNDLE, &node)?;
    assert!(rt; whole);
    let cut = is_changeset(rt.alloc(), &BUNDLE[..426], &node)?;
    assert!(rt; !cut);
    let empty = text(rt.alloc(), b"HG10UN\0\0\0\0\0\0\0\0\0\0\0\0")?;
    let nothing = read_changesets(rt.alloc(), &empty)?;
    assert!(rt; nothing.is_some());
    Ok(())
}

#[test]
fn commits_are_read_from_their_dump(rt: HostRuntime) -> Result<(), Fail> {
    let commit = id(COMMIT)?;
    let whole = is_commit(rt.alloc(), STREAM, &commit)?;
    assert!(rt; whole);
    let cut = is_commit(rt.alloc(), &STREAM[..55], &commit)?;
    assert!(rt; !cut);
    let without_its_blob = text(rt.alloc(), &STREAM[55..])?;
    let refused = read_commits(rt.alloc(), &without_its_blob, &NoContents)?;
    assert!(rt; refused.is_none());
    let nothing = read_commits(rt.alloc(), &text(rt.alloc(), b"")?, &NoContents)?;
    assert!(rt; nothing.is_some());
    Ok(())
}

#[test]
fn bodies_of_files_are_known_as_blobs(rt: HostRuntime) -> Result<(), Fail> {
    let section = read_changesets(rt.alloc(), &text(rt.alloc(), BUNDLE)?)?.ok_or("a bundle")?;
    let known = KnownBlobs::new(rt.alloc(), &section.store, &section.arrivals)?;
    let blob = id(BLOB)?;
    let other = id(COMMIT)?;
    let is_known = known.has_blob(&blob, b"hello\n");
    assert!(rt; is_known);
    let with_other_bytes = known.has_blob(&blob, b"hullo\n");
    assert!(rt; !with_other_bytes);
    let with_other_id = known.has_blob(&other, b"hello\n");
    assert!(rt; !with_other_id);
    let commits = read_commits(rt.alloc(), &text(rt.alloc(), STREAM)?, &known)?;
    assert!(rt; commits.is_some());
    Ok(())
}
