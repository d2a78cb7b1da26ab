// Revisions in a store.
use bridge_text::Added::{Known, New};
use bridge_text::{Added, Id, fit_path, node_id};
use hg_store::AddFault::{
    ChangesetShape, Collision, FileShape, LinkUnknown, ManifestShape, NodeWrong, ParentOrder,
    ParentUnknown, PathUnfit,
};
use hg_store::{AddFault, Addition, Group, HgStore, ViewFault};
use shared_text::{Text, keep};
use std::alloc::Global;
use std::process::Abort;
use std::test::Fail;

const NULL: &[u8] = b"0000000000000000000000000000000000000000";

/// Changesets of the texts below: one, two over one, three over one and two.
const ONE: &[u8] = b"b470b8df2f97b19e505a12557fca38e48d59561c";

const TWO: &[u8] = b"ebce90621f1e6c10c59e51bc37653fa384f58819";

const THREE: &[u8] = b"670e96ea38520a3d800474b4d6aaf1f7cd0d6a60";

const ONE_TEXT: &[u8] = b"0000000000000000000000000000000000000000\nu\n0 0\n\none";

const TWO_TEXT: &[u8] = b"0000000000000000000000000000000000000000\nu\n0 0\n\ntwo";

const THREE_TEXT: &[u8] = b"0000000000000000000000000000000000000000\nu\n0 0\n\nthree";

/// Revisions of the file `a`: x, y over x, z over both, and one that is a copy of x.
const X: &[u8] = b"d00600e0b09ff8a1909934023a08399f084bc6bc";

const Y: &[u8] = b"c4cb1824dbcc4c8bfed5b6ade3c31783a979f9ec";

const Z: &[u8] = b"baed9c37ab96a3d570674bdfa24c956f711797f4";

const COPY: &[u8] = b"cebcfa19f27ab49a648e2686ecf970353c4a8d51";

const COPY_TEXT: &[u8] =
    b"\x01\ncopy: b\ncopyrev: d00600e0b09ff8a1909934023a08399f084bc6bc\n\x01\nw";

/// Manifests: of x, of y over it, of x over both, and of x with a file `b` that never comes.
const OF_X: &[u8] = b"a9a7a53cdc4cd219d6752c9f693084b39ea06995";

const OF_Y: &[u8] = b"8a36f59bfe102e5ff614c0f923e40d778f8256bc";

const OF_BOTH: &[u8] = b"443e99a18b1192c5f63ddc6c950e8d4647c12edd";

const WITH_B: &[u8] = b"6c8a944390acd49e2c0c76432b7d963d1ce9163b";

const OF_X_TEXT: &[u8] = b"a\0d00600e0b09ff8a1909934023a08399f084bc6bc\n";

const OF_Y_TEXT: &[u8] = b"a\0c4cb1824dbcc4c8bfed5b6ade3c31783a979f9ec\n";

const WITH_B_TEXT: &[u8] =
    b"a\0d00600e0b09ff8a1909934023a08399f084bc6bc\nb\0d00600e0b09ff8a1909934023a08399f084bc6bcx\n";

/// Changesets with the manifest of x, with that which names `b`, and with one that never comes.
const SEEN: &[u8] = b"3c69d2d35e078e265fcfcaabc0af9ca2fb2c44f2";

const LACKS_B: &[u8] = b"0081cdc22ce14eb37a0c60b17281a756c1f5eca9";

const LACKS_ALL: &[u8] = b"3a6745efec5423ca11442b07e2e5bbaefc27f2f1";

const SEEN_TEXT: &[u8] = b"a9a7a53cdc4cd219d6752c9f693084b39ea06995\nu\n0 0\n\nv";

const LACKS_B_TEXT: &[u8] = b"6c8a944390acd49e2c0c76432b7d963d1ce9163b\nu\n0 0\n\nv";

const LACKS_ALL_TEXT: &[u8] = b"1111111111111111111111111111111111111111\nu\n0 0\n\nv";

/// The node of null parents and no text.
const EMPTY: &[u8] = b"b80de5d138758541c5f05265ad144ab9fa86d1db";

/// A manifest of a line without a node, one of a path that isn't fit, and a file revision whose metadata have no end.
const SHAPELESS: &[u8] = b"b789fdd96dc2f3bd229c1dd8eedf0fc60e2b68e3";

const UNFIT: &[u8] = b"69602900dfdb709b7ae8801657f54210850835fd";

const UNFIT_TEXT: &[u8] = b".hg\0d00600e0b09ff8a1909934023a08399f084bc6bc\n";

const ENDLESS: &[u8] = b"8cecdf3b6e53d475f0d5a3cfe4c121fedbde20af";

/// The groups: changesets, manifests, and the revisions of the files at `a`, `b` and `c/d`.
const C: Group<'static> = Group::Changesets;

const M: Group<'static> = Group::Manifests;

const A: Group<'static> = Group::FilesAt(b"a");

const B: Group<'static> = Group::FilesAt(b"b");

const D: Group<'static> = Group::FilesAt(b"c/d");

/// An addition and what it answers: group, node, parents, link, text, answer.
type Step = (
    Group<'static>,
    &'static [u8],
    [&'static [u8]; 2],
    &'static [u8],
    &'static [u8],
    Result<Added, AddFault>,
);

const CHANGESETS: &[Step] = &[
    (C, TWO, [ONE, NULL], TWO, TWO_TEXT, Err(ParentUnknown)),
    (C, ONE, [NULL, NULL], ONE, ONE_TEXT, Ok(New)),
    (C, ONE, [NULL, NULL], ONE, ONE_TEXT, Ok(Known)),
    (C, TWO, [NULL, ONE], TWO, TWO_TEXT, Err(ParentOrder)),
    (C, TWO, [ONE, ONE], TWO, TWO_TEXT, Err(ParentOrder)),
    (C, TWO, [TWO, TWO], ONE, b"", Err(ParentOrder)),
    (C, TWO, [ONE, TWO], ONE, b"", Err(ParentUnknown)),
    (C, TWO, [ONE, NULL], ONE, b"", Err(LinkUnknown)),
    (C, TWO, [ONE, NULL], TWO, ONE_TEXT, Err(NodeWrong)),
    (C, EMPTY, [NULL, NULL], EMPTY, b"", Err(ChangesetShape)),
    (C, TWO, [ONE, NULL], TWO, TWO_TEXT, Ok(New)),
    (C, THREE, [ONE, TWO], THREE, THREE_TEXT, Ok(New)),
    (C, THREE, [TWO, ONE], THREE, THREE_TEXT, Err(Collision)),
    (C, THREE, [ONE, TWO], THREE, THREE_TEXT, Ok(Known)),
    (C, THREE, [ONE, TWO], ONE, THREE_TEXT, Err(LinkUnknown)),
    (C, SEEN, [NULL, NULL], SEEN, SEEN_TEXT, Ok(New)),
    (C, LACKS_B, [NULL, NULL], LACKS_B, LACKS_B_TEXT, Ok(New)),
    (
        C,
        LACKS_ALL,
        [NULL, NULL],
        LACKS_ALL,
        LACKS_ALL_TEXT,
        Ok(New),
    ),
];

const MANIFESTS: &[Step] = &[
    (M, OF_X, [NULL, NULL], OF_X, OF_X_TEXT, Err(LinkUnknown)),
    (M, OF_X, [ONE, NULL], ONE, OF_X_TEXT, Err(ParentUnknown)),
    (M, OF_X, [NULL, NULL], ONE, OF_Y_TEXT, Err(NodeWrong)),
    (M, OF_X, [NULL, NULL], ONE, OF_X_TEXT, Ok(New)),
    (M, OF_X, [NULL, NULL], TWO, OF_X_TEXT, Ok(Known)),
    (M, OF_Y, [NULL, OF_X], ONE, OF_Y_TEXT, Ok(New)),
    (M, OF_Y, [OF_X, NULL], ONE, OF_Y_TEXT, Ok(Known)),
    (M, OF_BOTH, [OF_X, OF_Y], ONE, OF_X_TEXT, Ok(New)),
    (M, OF_BOTH, [OF_Y, OF_X], ONE, OF_X_TEXT, Ok(Known)),
    (M, WITH_B, [NULL, NULL], ONE, WITH_B_TEXT, Ok(New)),
    (M, SHAPELESS, [NULL, NULL], ONE, b"a\n", Err(ManifestShape)),
    (M, UNFIT, [NULL, NULL], ONE, UNFIT_TEXT, Err(PathUnfit)),
];

const FILES: &[Step] = &[
    (A, X, [NULL, NULL], X, b"x", Err(LinkUnknown)),
    (A, X, [NULL, NULL], ONE, b"y", Err(NodeWrong)),
    (A, X, [NULL, NULL], ONE, b"x", Ok(New)),
    (A, X, [NULL, NULL], ONE, b"x", Ok(Known)),
    (B, Y, [X, NULL], ONE, b"y", Err(ParentUnknown)),
    (A, Y, [NULL, X], ONE, b"y", Ok(New)),
    (A, Z, [X, Y], ONE, b"z", Ok(New)),
    (A, Z, [Y, X], ONE, b"z", Ok(Known)),
    (A, COPY, [X, NULL], ONE, COPY_TEXT, Ok(New)),
    (D, EMPTY, [NULL, NULL], ONE, b"", Ok(New)),
    (A, ENDLESS, [NULL, NULL], ONE, b"\x01\nabc", Err(FileShape)),
];

fn id(digits: &[u8]) -> Result<Id, Fail> {
    Ok(Id::from_hex(digits).ok_or("40 digits")?)
}

// The ids of a revision, of its parents and of its link.
fn ids(node: &[u8], parents: &[&[u8]; 2], link: &[u8]) -> Result<[Id; 4], Fail> {
    let [p, q] = *parents;
    Ok([id(node)?, id(p)?, id(q)?, id(link)?])
}

// What the addition to its group answers.
fn add(
    rt: &impl Abort,
    store: &mut HgStore,
    group: Group,
    ids: [Id; 4],
    text: Text,
) -> Result<Added, AddFault> {
    assert!(rt; text.len() <= 1 << 26);
    let [node, p, q, link] = ids;
    match group {
        Group::Changesets => store.add_changeset(node, p, q, link, text),
        Group::Manifests => store.add_manifest(node, p, q, link, text),
        Group::FilesAt(path) => {
            assert!(rt; fit_path(path));
            store.add_file(path, node, p, q, link, text)
        }
    }
}

fn is_answered(
    rt: &impl Abort,
    alloc: Global,
    store: &mut HgStore,
    step: &Step,
) -> Result<bool, Fail> {
    let (group, node, parents, link, text, want) = step;
    let ids = ids(node, parents, link)?;
    let text = keep(Vec::from_slice(alloc, text)?)?;
    Ok(add(rt, store, *group, ids, text) == *want)
}

fn take(rt: &impl Abort, alloc: Global, store: &mut HgStore, steps: &[Step]) -> Result<(), Fail> {
    for (i, step) in steps.iter().enumerate() {
        let is_answered = is_answered(rt, alloc, store, step)?;
        assert!(rt; is_answered, "at {i}");
    }
    Ok(())
}

fn filled(rt: &impl Abort, alloc: Global) -> Result<HgStore, Fail> {
    let mut store = HgStore::new(alloc);
    take(rt, alloc, &mut store, CHANGESETS)?;
    take(rt, alloc, &mut store, MANIFESTS)?;
    take(rt, alloc, &mut store, FILES)?;
    Ok(store)
}

/// An addition to the store of all these, what the check of its ancestry says, and what it answers.
type Check = (
    Group<'static>,
    &'static [u8],
    [&'static [u8]; 2],
    &'static [u8],
    Result<(), AddFault>,
    Result<Added, AddFault>,
);

const CHECKS: &[Check] = &[
    (C, X, [ONE, TWO], X, Ok(()), Err(NodeWrong)),
    (C, X, [NULL, TWO], ONE, Err(ParentOrder), Err(ParentOrder)),
    (M, X, [NULL, OF_X], ONE, Ok(()), Err(NodeWrong)),
    (M, X, [NULL, ONE], X, Err(ParentUnknown), Err(ParentUnknown)),
    (M, EMPTY, [NULL, NULL], ONE, Ok(()), Ok(New)),
    (D, EMPTY, [NULL, NULL], TWO, Ok(()), Ok(Known)),
    (A, X, [X, NULL], ONE, Ok(()), Err(NodeWrong)),
    (A, X, [X, Y], X, Err(LinkUnknown), Err(LinkUnknown)),
];

// An addition without text.
fn addition_of(check: &Check) -> Result<Addition<'static>, Fail> {
    let (group, node, parents, link, _, _) = check;
    let [node, p, q, link] = ids(node, parents, link)?;
    Ok(Addition {
        group: *group,
        node,
        p,
        q,
        link,
        text: Text::new(),
    })
}

fn is_checked(rt: &impl Abort, store: &mut HgStore, check: &Check) -> Result<bool, Fail> {
    let addition = addition_of(check)?;
    if let Group::FilesAt(path) = addition.group {
        assert!(rt; fit_path(path));
    }
    assert!(rt; addition.text.len() <= 1 << 26);
    let has_ancestry = store.check_ancestry(&addition) == check.4;
    Ok(has_ancestry && store.add(addition) == check.5)
}

#[test]
fn additions(rt: HostRuntime) -> Result<(), Fail> {
    let mut store = filled(&rt, rt.alloc())?;
    for (i, check) in CHECKS.iter().enumerate() {
        let is_checked = is_checked(&rt, &mut store, check)?;
        assert!(rt; is_checked, "at {i}");
    }
    Ok(())
}

/// What is held at a node of a group: its text, its parents, and the id of its body as a Git blob.
type Found = (
    Group<'static>,
    &'static [u8],
    Option<&'static [u8]>,
    Option<[&'static [u8]; 2]>,
    Option<&'static [u8]>,
);

/// The ids are those that `git hash-object` prints.
const FOUND: &[Found] = &[
    (C, TWO, Some(TWO_TEXT), Some([ONE, NULL]), None),
    (C, THREE, Some(THREE_TEXT), Some([ONE, TWO]), None),
    (C, NULL, None, None, None),
    (C, OF_X, None, None, None),
    (C, EMPTY, None, None, None),
    (M, OF_Y, Some(OF_Y_TEXT), Some([OF_X, NULL]), None),
    (M, OF_BOTH, Some(OF_X_TEXT), Some([OF_Y, OF_X]), None),
    (M, NULL, Some(b""), None, None),
    (M, TWO, None, None, None),
    (
        A,
        X,
        Some(b"x"),
        Some([NULL, NULL]),
        Some(b"c1b0730e0133447badcfd47fd144e254807b06e1"),
    ),
    (
        A,
        Y,
        Some(b"y"),
        Some([X, NULL]),
        Some(b"e25f1814e51579d5f55c0f1fe0135ddb28a47f4a"),
    ),
    (
        A,
        Z,
        Some(b"z"),
        Some([Y, X]),
        Some(b"fa7af8bf5fdd704f73beb3adc5612682a98e1af5"),
    ),
    (
        A,
        COPY,
        Some(COPY_TEXT),
        Some([NULL, X]),
        Some(b"6bf0c97a7f84620a0bb4cf6380ec307748e043bd"),
    ),
    (B, COPY, None, None, None),
    (
        D,
        EMPTY,
        Some(b""),
        Some([NULL, NULL]),
        Some(b"e69de29bb2d1d6434b8b29ae775ad8c2e48c5391"),
    ),
    (Group::FilesAt(b"c"), EMPTY, None, None, None),
];

fn text_at<'a>(store: &'a HgStore, group: Group, node: &Id) -> Option<&'a [u8]> {
    match group {
        Group::Changesets => store.text_of(node),
        Group::Manifests => store.manifest_text(node),
        Group::FilesAt(path) => store.file_text(path, node),
    }
}

// Whether the text of a revision, as it is lent and as it is lent to be owned again, is this one. The null id is that of none.
fn is_revision(store: &HgStore, group: Group, node: &Id, text: Option<&[u8]>) -> bool {
    let is_shared = match store.shared_text(group, node) {
        Some(shared) => text == Some(shared.as_slice()),
        None => text.is_none(),
    };
    node.is_null() || is_shared && store.revision_text(group, node) == text
}

fn parents_at(store: &HgStore, group: Group, node: &Id) -> Option<(Id, Id)> {
    match group {
        Group::Changesets => store.parents_of(node),
        Group::Manifests => store.manifest_parents(node),
        Group::FilesAt(path) => store.file_parents(path, node),
    }
}

fn blob_at(store: &HgStore, group: Group, node: &Id) -> Option<Id> {
    match group {
        Group::FilesAt(path) => store.file_blob(path, node),
        _ => None,
    }
}

fn maybe_pair(pair: &Option<[&'static [u8]; 2]>) -> Result<Option<(Id, Id)>, Fail> {
    match pair {
        Some([p, q]) => Ok(Some((id(p)?, id(q)?))),
        None => Ok(None),
    }
}

fn is_blob(blob: Option<Id>, digits: Option<&[u8]>) -> bool {
    match (blob, digits) {
        (Some(blob), Some(digits)) => blob.hex().as_slice() == digits,
        (None, None) => true,
        _ => false,
    }
}

fn is_found(store: &HgStore, found: &Found) -> Result<bool, Fail> {
    let (group, node, text, parents, blob) = *found;
    let node = id(node)?;
    let pair = maybe_pair(&parents)?;
    let has_text = text_at(store, group, &node) == text;
    let has_parents = parents_at(store, group, &node) == pair;
    let has_blob = is_blob(blob_at(store, group, &node), blob);
    let has_revision = is_revision(store, group, &node, text);
    Ok(has_text && has_parents && has_blob && has_revision)
}

#[test]
fn what_is_held(rt: HostRuntime) -> Result<(), Fail> {
    let store = filled(&rt, rt.alloc())?;
    for (i, found) in FOUND.iter().enumerate() {
        let is_found = is_found(&store, found)?;
        assert!(rt; is_found, "at {i}");
    }
    Ok(())
}

/// A changeset, its parents, and the node and the number of lines of its manifest.
type Seen = (&'static [u8], [&'static [u8]; 2], &'static [u8], usize);

const SEEN_ONES: &[Seen] = &[
    (ONE, [NULL, NULL], NULL, 0),
    (THREE, [ONE, TWO], NULL, 0),
    (SEEN, [NULL, NULL], OF_X, 1),
];

/// Nodes without a view, and why.
const UNSEEN_ONES: &[(&[u8], ViewFault)] = &[
    (LACKS_B, ViewFault::FileUnknown(1)),
    (LACKS_ALL, ViewFault::ManifestUnknown),
    (OF_X, ViewFault::ChangesetUnknown),
    (NULL, ViewFault::ChangesetUnknown),
];

fn is_seen(store: &HgStore, seen: &Seen) -> Result<bool, Fail> {
    let (node, [p1, p2], manifest, len) = *seen;
    match store.view_of(&id(node)?) {
        Ok(view) => Ok(
            view.p1.hex().as_slice() == p1
                && view.p2.hex().as_slice() == p2
                && view.changeset.manifest.hex().as_slice() == manifest
                && view.manifest_node.hex().as_slice() == manifest
                && view.manifest.len() == len,
        ),
        Err(_) => Ok(false),
    }
}

fn is_unseen(store: &HgStore, unseen: &(&[u8], ViewFault)) -> Result<bool, Fail> {
    let (node, want) = unseen;
    match store.view_of(&id(node)?) {
        Ok(_) => Ok(false),
        Err(fault) => Ok(fault == *want),
    }
}

#[test]
fn views(rt: HostRuntime) -> Result<(), Fail> {
    let store = filled(&rt, rt.alloc())?;
    for (i, seen) in SEEN_ONES.iter().enumerate() {
        let is_seen = is_seen(&store, seen)?;
        assert!(rt; is_seen, "at {i}");
    }
    Ok(())
}

#[test]
fn nodes_without_views(rt: HostRuntime) -> Result<(), Fail> {
    let store = filled(&rt, rt.alloc())?;
    for (i, unseen) in UNSEEN_ONES.iter().enumerate() {
        let is_unseen = is_unseen(&store, unseen)?;
        assert!(rt; is_unseen, "at {i}");
    }
    Ok(())
}

/// An addition over null parents whose node is hashed before, and what it answers: group, link, text, answer.
type Hashed = (
    Group<'static>,
    &'static [u8],
    &'static [u8],
    Result<Added, AddFault>,
);

const HASHED: &[Hashed] = &[
    (C, ONE, ONE_TEXT, Ok(New)),
    (C, ONE, ONE_TEXT, Ok(Known)),
    (C, ONE, TWO_TEXT, Err(LinkUnknown)),
    (M, ONE, OF_X_TEXT, Ok(New)),
    (M, TWO, OF_Y_TEXT, Err(LinkUnknown)),
    (M, ONE, b"a\n", Err(ManifestShape)),
    (A, ONE, COPY_TEXT, Ok(New)),
    (A, ONE, b"\x01\nabc", Err(FileShape)),
];

fn is_added(
    rt: &impl Abort,
    alloc: Global,
    store: &mut HgStore,
    addition: &Hashed,
) -> Result<bool, Fail> {
    let (group, link, text, want) = *addition;
    assert!(rt; text.len() <= 1 << 26);
    if let Group::FilesAt(path) = group {
        assert!(rt; fit_path(path));
    }
    let text = keep(Vec::from_slice(alloc, text)?)?;
    let addition = Addition {
        group,
        node: node_id(&Id::NULL, &Id::NULL, text.as_slice()),
        p: Id::NULL,
        q: Id::NULL,
        link: id(link)?,
        text,
    };
    Ok(store.add_hashed(addition, None) == want)
}

fn lines(store: &HgStore, manifest: &Id) -> Option<usize> {
    match store.manifest(manifest) {
        Some(manifest) => Some(manifest.len()),
        None => None,
    }
}

// Whether a store has this changeset and this manifest of one line, each in its group alone.
fn has_both(store: &HgStore, changeset: &Id, manifest: &Id) -> bool {
    store.changeset(changeset).is_some()
        && store.changeset(manifest).is_none()
        && lines(store, manifest) == Some(1)
        && lines(store, &Id::NULL) == Some(0)
        && lines(store, changeset).is_none()
}

#[test]
fn hashed_additions(rt: HostRuntime) -> Result<(), Fail> {
    let mut store = HgStore::new(rt.alloc());
    for (i, addition) in HASHED.iter().enumerate() {
        let is_added = is_added(&rt, rt.alloc(), &mut store, addition)?;
        assert!(rt; is_added, "at {i}");
    }
    let (one, of_x) = (id(ONE)?, id(OF_X)?);
    assert!(rt; has_both(&store, &one, &of_x));
    Ok(())
}
