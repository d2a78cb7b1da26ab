// Partners, and the parts of drafts.
use bridge_text::{Bytes, Id, Paths};
use hg_changeset::{Changeset, DateLine, Extras};
use hg_manifest::{Flag, ManifestRev};
use pair_known::{
    DraftTexts, FreshBlob, FreshBlobs, FreshFile, FreshFiles, HgDraft, HgDrafts, HgRow, HgRows,
    Partners,
};
use shared_text::{Text, keep};
use std::alloc::Global;
use std::test::Fail;

fn id(byte: u8) -> Id {
    Id::new([byte; 20])
}

// Makes two partners, unless one of them has one.
fn pair(partners: &mut Partners, node: Id, commit: Id) -> Result<bool, Fail> {
    if partners.git_of(&node).is_some() {
        return Ok(false);
    }
    if partners.hg_of(&commit).is_some() {
        return Ok(false);
    }
    partners.add(node, commit)?;
    Ok(true)
}

/// A changeset and a commit, and whether neither has a partner yet.
const PAIRS: &[(u8, u8, bool)] = &[(1, 11, true), (2, 12, true), (1, 13, false), (3, 12, false)];

// The partners of the pairs, each of which is made or not as its row says; `None` where one isn't.
fn paired(alloc: Global) -> Result<Option<Partners>, Fail> {
    let mut partners = Partners::new(alloc);
    for (node, commit, want) in PAIRS {
        let is_new = pair(&mut partners, id(*node), id(*commit))?;
        if is_new != *want {
            return Ok(None);
        }
    }
    Ok(Some(partners))
}

#[test]
fn partners(rt: HostRuntime) -> Result<(), Fail> {
    let partners = paired(rt.alloc())?.ok_or("partners")?;
    assert!(rt; partners.len() == 2 && !partners.is_empty());
    assert!(rt; partners.git_of(&id(2)) == Some(id(12)) && partners.hg_of(&id(11)) == Some(id(1)));
    assert!(rt; partners.git_of(&id(3)).is_none() && partners.hg_of(&id(13)).is_none());
    Ok(())
}

fn fresh_file(alloc: Global) -> Result<FreshFile, Fail> {
    let path = Bytes::of(alloc, b"a")?;
    let text = keep(Vec::new(alloc))?;
    Ok(FreshFile {
        path,
        node: id(1),
        p: Id::NULL,
        q: Id::NULL,
        text,
    })
}

#[test]
fn fresh_files(rt: HostRuntime) -> Result<(), Fail> {
    let mut files = FreshFiles::new(rt.alloc());
    let file = fresh_file(rt.alloc())?;
    files.push(file)?;
    assert!(rt; files.len() == 1 && !files.is_empty() && files.at(0).node == id(1));
    assert!(rt; files.get(b"a", &id(1)).is_some() && files.get(b"a", &id(2)).is_none());
    assert!(rt; files.get(b"b", &id(1)).is_none());
    Ok(())
}

#[test]
fn fresh_blobs(rt: HostRuntime) -> Result<(), Fail> {
    let mut blobs = FreshBlobs::new(rt.alloc());
    let content = keep(Vec::new(rt.alloc()))?;
    blobs.push(FreshBlob { id: id(1), content })?;
    assert!(rt; blobs.len() == 1 && !blobs.is_empty() && blobs.at(0).id == id(1));
    assert!(rt; blobs.get(&id(1)).is_some() && blobs.get(&id(2)).is_none());
    Ok(())
}

#[test]
fn rows(rt: HostRuntime) -> Result<(), Fail> {
    let mut rows = HgRows::new(rt.alloc());
    rows.push(HgRow {
        path: Text::new(),
        flag: Flag::Exec,
        node: id(1),
        blob: id(2),
    })?;
    assert!(rt; rows.len() == 1 && !rows.is_empty());
    assert!(rt; rows.at(0).flag == Flag::Exec && rows.at(0).blob == id(2));
    Ok(())
}

// The fields of a changeset without files.
fn bare_changeset(alloc: Global) -> Result<Changeset, Fail> {
    let user = Bytes::of(alloc, b"u")?;
    Ok(Changeset {
        manifest: Id::NULL,
        user,
        date: DateLine::Plain {
            time: 0,
            tz: 0,
            extras: Extras::new(alloc),
        },
        files: Paths::new(alloc),
        desc: Bytes::new(alloc),
    })
}

// The draft of a changeset without parents and files.
fn bare_draft(alloc: Global) -> Result<HgDraft, Fail> {
    let changeset = bare_changeset(alloc)?;
    Ok(HgDraft {
        p1: Id::NULL,
        p2: Id::NULL,
        changeset,
        manifest: ManifestRev::Null,
        rows: HgRows::new(alloc),
        fresh: FreshFiles::new(alloc),
        texts: DraftTexts::none(),
    })
}

#[test]
fn drafts(rt: HostRuntime) -> Result<(), Fail> {
    let mut drafts = HgDrafts::new(rt.alloc());
    let draft = bare_draft(rt.alloc())?;
    drafts.push(draft)?;
    assert!(rt; drafts.len() == 1 && !drafts.is_empty());
    assert!(rt;
        drafts.at(0).manifest == ManifestRev::Null && drafts.at(0).texts.changeset.is_none()
    );
    Ok(())
}
