// Drafts of a changeset and of a commit that are held.
use crate::sides::{BLOB, PLAIN, PLAIN_COMMIT, id, with_changeset, with_commit};
use bridge_text::Id;
use file_rule::content_text;
use git_view::commits_are_held;
use hg_manifest::ManifestRev;
use hg_store::ViewFault;
use pair_known::{
    DraftFault, GitDraft, HgDraft, Known, draft_near, draft_of_changeset, draft_of_commit,
    manifest_of_node, read_changeset_draft, read_commit_draft,
};
use std::alloc::Global;
use std::test::Fail;

/// The node of the manifest of the changeset.
const MANIFEST: &[u8] = b"d51f7835c8978f5a11f9a33e09d3852ff4979e7c";

// Whether this is the draft of the changeset.
fn is_changeset(known: &Known, h: &HgDraft) -> Result<bool, Fail> {
    let manifest = id(MANIFEST)?;
    let has_fields = h.changeset.manifest == manifest && h.p1.is_null() && h.p2.is_null();
    let has_manifest = h.manifest == manifest_of_node(&known.hg, &manifest);
    let has_file = h.rows.len() == 1 && h.rows.at(0).path.as_slice() == b"a".as_slice();
    Ok(has_fields && has_manifest && has_file && h.fresh.is_empty())
}

// Whether a changeset that is held is read.
fn reads_changeset(alloc: Global, known: &Known, node: &Id) -> Result<bool, Fail> {
    if known.hg.view_of(node).is_err() {
        return Ok(false);
    }
    let h = draft_of_changeset(alloc, known, node)?;
    is_changeset(known, &h)
}

// Whether it is read beside its own rows.
fn reads_near(alloc: Global, known: &Known, node: &Id) -> Result<bool, Fail> {
    if known.hg.view_of(node).is_err() {
        return Ok(false);
    }
    let near = draft_near(alloc, known, node, &[])?.into_rows();
    let h = draft_near(alloc, known, node, near.as_slice())?;
    let has_blob = h.rows.len() == 1 && h.rows.at(0).blob == id(BLOB)?;
    Ok(is_changeset(known, &h)? && has_blob)
}

// Whether one that may be missing is.
fn finds_changeset(alloc: Global, known: &Known, node: &Id) -> Result<bool, Fail> {
    let h = read_changeset_draft(alloc, known, node, &[])?;
    is_changeset(known, &h)
}

// Why a node has no draft.
fn draft_fault(alloc: Global, known: &Known, node: &Id) -> Option<DraftFault> {
    read_changeset_draft(alloc, known, node, &[]).err()
}

#[test]
fn drafts_of_changesets(rt: HostRuntime) -> Result<(), Fail> {
    let known = with_changeset(&rt, rt.alloc())?;
    let node = id(PLAIN)?;
    let reads = reads_changeset(rt.alloc(), &known, &node)?;
    let near = reads_near(rt.alloc(), &known, &node)?;
    let finds = finds_changeset(rt.alloc(), &known, &node)?;
    assert!(rt; reads && near && finds);
    let unknown = draft_fault(rt.alloc(), &known, &Id::NULL);
    assert!(rt; unknown == Some(DraftFault::Unknown(ViewFault::ChangesetUnknown)));
    assert!(rt; manifest_of_node(&known.hg, &Id::NULL) == ManifestRev::Null);
    Ok(())
}

// Whether this is the draft of the commit.
fn is_commit(c: &GitDraft) -> bool {
    c.commit.parents.is_empty()
        && c.commit.message.as_slice() == b"one\n".as_slice()
        && c.files.len() == 1
        && c.fresh.is_empty()
        && c.trees.is_empty()
}

// Whether this is the content of a blob that the store holds and the draft doesn't bring.
fn lends_content(known: &Known, c: &GitDraft, id: &Id, want: &[u8]) -> bool {
    if c.fresh.get(id).is_some() {
        return false;
    }
    if known.git.shared_object(id).is_none() {
        return false;
    }
    content_text(known, c, id).as_slice() == want
}

// Reads it twice: as one whose tree may stand for no files, and as one whose tree does.
fn reads_commit(alloc: Global, known: &Known, id: &Id, blob: &Id) -> Result<bool, Fail> {
    commits_are_held(&known.git, id);
    if known.git.commit(id).is_none() {
        return Ok(false);
    }
    let read = read_commit_draft(alloc, known, id, &[])?;
    let c = draft_of_commit(alloc, known, id)?;
    Ok(is_commit(&read) && is_commit(&c) && lends_content(known, &c, blob, b"hello\n"))
}

#[test]
fn drafts_of_commits(rt: HostRuntime) -> Result<(), Fail> {
    let known = with_commit(&rt, rt.alloc())?;
    let commit = id(PLAIN_COMMIT)?;
    let blob = id(BLOB)?;
    let reads = reads_commit(rt.alloc(), &known, &commit, &blob)?;
    assert!(rt; reads);
    Ok(())
}
