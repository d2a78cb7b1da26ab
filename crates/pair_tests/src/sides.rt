// Stores of revisions, and a changeset and its commit. The nodes and the ids are those that hg and git give.
use bridge_text::{Added, Id, Kind, fit_path, object_id};
use git_store::GitStore;
use hg_store::{Group, HgStore};
use pair_known::{Known, Partners};
use shared_text::{Text, keep};
use std::alloc::Global;
use std::process::Abort;
use std::test::Fail;

pub const NULL: &[u8] = b"0000000000000000000000000000000000000000";

/// A changeset of one file, and the commit that the rule gives for it.
pub const PLAIN: &[u8] = b"a4ea4b987a267e07d9e0d37626d8ca8509814b76";

pub const PLAIN_COMMIT: &[u8] = b"fb8491d27293299d600326567e91d35289f99b8d";

/// The blob of its file.
pub const BLOB: &[u8] = b"ce013625030ba8dba906f756967f9e9ca394464a";

/// A revision: the group, the node with the parents, the changeset that brought it, and the text.
pub struct Revision(
    pub Group<'static>,
    pub [&'static [u8]; 3],
    pub &'static [u8],
    pub &'static [u8],
);

const REVISIONS: &[Revision] = &[
    Revision(
        Group::Changesets,
        [PLAIN, NULL, NULL],
        PLAIN,
        b"d51f7835c8978f5a11f9a33e09d3852ff4979e7c\nAnn <ann@x>\n0 0\na\n\none",
    ),
    Revision(
        Group::Manifests,
        [b"d51f7835c8978f5a11f9a33e09d3852ff4979e7c", NULL, NULL],
        PLAIN,
        b"a\02c186c8c5bc0df5af5b951afe407d803f9e6b8c9\n",
    ),
    Revision(
        Group::FilesAt(b"a"),
        [b"2c186c8c5bc0df5af5b951afe407d803f9e6b8c9", NULL, NULL],
        PLAIN,
        b"hello\n",
    ),
];

/// An object: its kind, its id and its content.
struct Object(Kind, &'static [u8], &'static [u8]);

const OBJECTS: &[Object] = &[
    Object(Kind::Blob, BLOB, b"hello\n"),
    Object(
        Kind::Tree,
        b"0976950c1fdbcb52435a433913017bf044b3a58f",
        b"100644 a\0\xce\x016%\x03\x0b\xa8\xdb\xa9\x06\xf7V\x96\x7f\x9e\x9c\xa3\x94FJ",
    ),
    Object(
        Kind::Commit,
        PLAIN_COMMIT,
        b"tree 0976950c1fdbcb52435a433913017bf044b3a58f\nauthor Ann <ann@x> 0 +0000\ncommitter Ann <ann@x> 0 +0000\n\none\n",
    ),
];

pub fn id(digits: &[u8]) -> Result<Id, Fail> {
    Ok(Id::from_hex(digits).ok_or("40 digits")?)
}

fn ids(digits: &[&'static [u8]; 3]) -> Result<[Id; 3], Fail> {
    let [node, p, q] = *digits;
    Ok([id(node)?, id(p)?, id(q)?])
}

// Adds a revision; whether it is new.
fn add(
    rt: &impl Abort,
    store: &mut HgStore,
    group: Group,
    ids: [Id; 3],
    link: Id,
    text: Text,
) -> bool {
    assert!(rt; text.len() <= 1 << 26);
    let [node, p, q] = ids;
    let answer = match group {
        Group::Changesets => store.add_changeset(node, p, q, link, text),
        Group::Manifests => store.add_manifest(node, p, q, link, text),
        Group::FilesAt(path) => {
            assert!(rt; fit_path(path));
            store.add_file(path, node, p, q, link, text)
        }
    };
    answer == Ok(Added::New)
}

fn add_revision(
    rt: &impl Abort,
    alloc: Global,
    store: &mut HgStore,
    revision: &Revision,
) -> Result<bool, Fail> {
    let Revision(group, digits, link, text) = revision;
    let ids = ids(digits)?;
    let link = id(link)?;
    let text = keep(text.to_vec(alloc)?)?;
    Ok(add(rt, store, *group, ids, link, text))
}

/// The store of these revisions.
pub fn store_of(rt: &impl Abort, alloc: Global, revisions: &[Revision]) -> Result<HgStore, Fail> {
    let mut store = HgStore::new(alloc);
    for revision in revisions {
        let is_new = add_revision(rt, alloc, &mut store, revision)?;
        assert!(rt; is_new);
    }
    Ok(store)
}

// Adds an object; whether it has its id and is new.
fn add_object(alloc: Global, store: &mut GitStore, object: &Object) -> Result<bool, Fail> {
    let Object(kind, digits, content) = object;
    let its_id = object_id(*kind, content);
    let content = keep(content.to_vec(alloc)?)?;
    let is_new = store.add(its_id, *kind, content) == Ok(Added::New);
    Ok(is_new && its_id.hex().as_slice() == *digits)
}

/// The changeset, over no objects.
pub fn with_changeset(rt: &impl Abort, alloc: Global) -> Result<Known, Fail> {
    let hg = store_of(rt, alloc, REVISIONS)?;
    Ok(Known {
        hg,
        git: GitStore::new(alloc),
        partners: Partners::new(alloc),
    })
}

/// The commit, over no revisions.
pub fn with_commit(rt: &impl Abort, alloc: Global) -> Result<Known, Fail> {
    let mut git = GitStore::new(alloc);
    for object in OBJECTS {
        let is_new = add_object(alloc, &mut git, object)?;
        assert!(rt; is_new);
    }
    Ok(Known {
        hg: HgStore::new(alloc),
        git,
        partners: Partners::new(alloc),
    })
}
