// Objects in a store.
use bridge_text::{Added, Id, Kind, object_id};
use git_batch::put_with_id;
use git_object::Objects;
use git_store::{GitAddFault, GitStore};
use rope::Rope;
use shared_text::{Text, keep};
use std::alloc::Global;
use std::process::Abort;
use std::test::Fail;

/// What `git hash-object` and `git mktree` print of these contents.
const HELLO: &[u8] = b"ce013625030ba8dba906f756967f9e9ca394464a";

const EMPTY: &[u8] = b"4b825dc642cb6eb9a060e54bf8d69288fbee4904";

const TREE: &[u8] = b"b4d01e9b0c4a9356736dfddf8830ba9a54f5271c";

const ONE: &[u8] = b"c5cf3bd9ade6fb41c22f9681bbd807760a70eaf9";

const TWO: &[u8] = b"2447c7d968aeca418f317cdb4ac802d8dced6a01";

const TAG: &[u8] = b"b3de357af948ab2b86d35ab47b50ccea539a995e";

const TREE_CONTENT: &[u8] =
    b"100644 hello\0\xce\x016%\x03\x0b\xa8\xdb\xa9\x06\xf7V\x96\x7f\x9e\x9c\xa3\x94FJ";

const ONE_CONTENT: &[u8] =
    b"tree 4b825dc642cb6eb9a060e54bf8d69288fbee4904\nauthor u <u@v> 0 +0000\ncommitter u <u@v> 0 +0000\n\none\n";

const TWO_CONTENT: &[u8] =
    b"tree b4d01e9b0c4a9356736dfddf8830ba9a54f5271c\nparent c5cf3bd9ade6fb41c22f9681bbd807760a70eaf9\nauthor u <u@v> 0 +0000\ncommitter u <u@v> 0 +0000\n\ntwo\n";

const TWICE_CONTENT: &[u8] =
    b"tree b4d01e9b0c4a9356736dfddf8830ba9a54f5271c\nparent c5cf3bd9ade6fb41c22f9681bbd807760a70eaf9\nparent c5cf3bd9ade6fb41c22f9681bbd807760a70eaf9\nauthor u <u@v> 0 +0000\ncommitter u <u@v> 0 +0000\n\ntwice\n";

const TAG_CONTENT: &[u8] =
    b"object c5cf3bd9ade6fb41c22f9681bbd807760a70eaf9\ntype commit\ntag v1\ntagger u <u@v> 0 +0000\n\nfirst\n";

/// An object, its id and what its addition answers.
struct Step(
    Kind,
    &'static [u8],
    &'static [u8],
    Result<Added, GitAddFault>,
);

const STEPS: &[Step] = &[
    Step(Kind::Blob, b"hello\n", HELLO, Ok(Added::New)),
    Step(Kind::Blob, b"hello\n", HELLO, Ok(Added::Known)),
    Step(Kind::Tree, b"", EMPTY, Ok(Added::New)),
    Step(Kind::Tree, TREE_CONTENT, TREE, Ok(Added::New)),
    Step(
        Kind::Tree,
        b"x",
        b"f42941c78e101ff62b3e2f6e468c3e310f703259",
        Err(GitAddFault::ObjectShape),
    ),
    Step(
        Kind::Tree,
        b"100775 sub\0aaaaaaaaaaaaaaaaaaaa",
        b"8f5fedba526c52f716588349740caff3b1648dfb",
        Err(GitAddFault::ModeOut),
    ),
    Step(
        Kind::Tree,
        b"100644 .git\0aaaaaaaaaaaaaaaaaaaa",
        b"204b60738bbf3fc0ec4c396e0e23c8c062a70d36",
        Err(GitAddFault::NameUnfit),
    ),
    Step(Kind::Commit, TWO_CONTENT, TWO, Ok(Added::New)),
    Step(Kind::Commit, ONE_CONTENT, ONE, Ok(Added::New)),
    Step(Kind::Commit, TWO_CONTENT, TWO, Ok(Added::Known)),
    Step(
        Kind::Commit,
        b"x",
        b"eaa562e454681104aee02c9809ea2ca6ec4aa5cd",
        Err(GitAddFault::ObjectShape),
    ),
    Step(
        Kind::Commit,
        TWICE_CONTENT,
        b"c2bcffb82821ccf73b7a020aad3731d6888fbd36",
        Err(GitAddFault::ParentTwice),
    ),
    Step(Kind::Tag, TAG_CONTENT, TAG, Ok(Added::New)),
    Step(
        Kind::Tag,
        b"x",
        b"89724a1baedd77281179bec063374b666045947a",
        Err(GitAddFault::ObjectShape),
    ),
];

fn id(digits: &[u8]) -> Result<Id, Fail> {
    Ok(Id::from_hex(digits).ok_or("40 digits")?)
}

// Whether an object has this id, and its addition this answer.
fn is_answered(
    store: &mut GitStore,
    kind: Kind,
    content: Text,
    digits: &[u8],
    want: &Result<Added, GitAddFault>,
) -> bool {
    let its_id = object_id(kind, content.as_slice());
    let is_its_id = its_id.hex().as_slice() == digits;
    is_its_id && store.add(its_id, kind, content) == *want
}

fn is_taken(alloc: Global, store: &mut GitStore, step: &Step) -> Result<bool, Fail> {
    let Step(kind, content, digits, want) = step;
    let content = keep(content.to_vec(alloc)?)?;
    Ok(is_answered(store, *kind, content, digits, want))
}

fn filled(rt: &impl Abort, alloc: Global) -> Result<GitStore, Fail> {
    let mut store = GitStore::new(alloc);
    for (i, step) in STEPS.iter().enumerate() {
        let is_taken = is_taken(alloc, &mut store, step)?;
        assert!(rt; is_taken, "at {i}");
    }
    Ok(store)
}

// A commit with parents of 20 bytes 0, 20 bytes 1 and so on, so many of them, and then the first once more.
fn commit_of(alloc: Global, parents: u8, again: bool) -> Result<Vec<u8>, Fail> {
    let mut content = b"tree 4b825dc642cb6eb9a060e54bf8d69288fbee4904\n".to_vec(alloc)?;
    for byte in 0..parents {
        put_parent(&mut content, byte)?;
    }
    if again {
        put_parent(&mut content, 0)?;
    }
    content.extend_from_slice(b"author \ncommitter \n\n")?;
    Ok(content)
}

fn put_parent(content: &mut Vec<u8>, byte: u8) -> Result<(), Fail> {
    content.extend_from_slice(b"parent ")?;
    content.extend_from_slice(&Id::new([byte; 20]).hex())?;
    Ok(content.push(b'\n')?)
}

/// So many parents, whether the first stands once more, the id, and what the addition answers.
type Many = (u8, bool, &'static [u8], Result<Added, GitAddFault>);

const MANY_PARENTS: &[Many] = &[
    (
        64,
        false,
        b"06a59526db68c22c758a1bbb93dc056cf17d3bd8",
        Ok(Added::New),
    ),
    (
        65,
        false,
        b"d126d2731ebdb699606b49777377056c60ef2ec3",
        Err(GitAddFault::ParentLimit),
    ),
    (
        64,
        true,
        b"5da01936821a250a2a2a1a675a02e11b680c6090",
        Err(GitAddFault::ParentTwice),
    ),
    (
        2,
        true,
        b"cb489d7009e7493b874e0d6976d91b461a1be5ca",
        Err(GitAddFault::ParentTwice),
    ),
];

// Whether the commit of so many parents has its answer.
fn is_counted(alloc: Global, row: &Many) -> Result<bool, Fail> {
    let (parents, again, digits, want) = row;
    let mut store = GitStore::new(alloc);
    let content = keep(commit_of(alloc, *parents, *again)?)?;
    Ok(is_answered(&mut store, Kind::Commit, content, digits, want))
}

#[test]
fn many_parents(rt: HostRuntime) -> Result<(), Fail> {
    for row in MANY_PARENTS {
        let is_counted = is_counted(rt.alloc(), row)?;
        assert!(rt; is_counted);
    }
    Ok(())
}

fn kind_in<G: Objects>(objects: &G, id: &Id) -> Option<Kind> {
    match objects.content(id) {
        Some((kind, _)) => Some(kind),
        None => None,
    }
}

fn has_tree<G: Objects>(objects: &G, id: &Id) -> bool {
    objects.tree(id).is_some()
}

// Whether the object, if there is one, is of this kind, and of no other.
fn is_of(store: &GitStore, id: &Id, kind: Option<Kind>) -> bool {
    kind_in(store, id) == kind
        && store.commit(id).is_some() == (kind == Some(Kind::Commit))
        && store.tag(id).is_some() == (kind == Some(Kind::Tag))
        && has_tree(store, id) == (kind == Some(Kind::Tree))
}

/// Ids, and the kinds of their objects.
const KINDS: &[(&[u8], Option<Kind>)] = &[
    (HELLO, Some(Kind::Blob)),
    (TREE, Some(Kind::Tree)),
    (TWO, Some(Kind::Commit)),
    (TAG, Some(Kind::Tag)),
    (b"204b60738bbf3fc0ec4c396e0e23c8c062a70d36", None),
];

#[test]
fn kinds(rt: HostRuntime) -> Result<(), Fail> {
    let store = filled(&rt, rt.alloc())?;
    for (i, (digits, want)) in KINDS.iter().enumerate() {
        let id = id(digits)?;
        assert!(rt; is_of(&store, &id, *want), "at {i}");
    }
    Ok(())
}

fn has_two(store: &GitStore, two: &Id) -> bool {
    match store.commit(two) {
        Some(commit) => {
            commit.tree.hex().as_slice() == TREE && commit.message.as_slice() == b"two\n".as_slice()
        }
        None => false,
    }
}

fn has_tag(store: &GitStore, tag: &Id) -> bool {
    match store.tag(tag) {
        Some(tag) => {
            tag.target.hex().as_slice() == ONE && tag.name.as_slice() == b"v1".as_slice()
        }
        None => false,
    }
}

#[test]
fn fields(rt: HostRuntime) -> Result<(), Fail> {
    let store = filled(&rt, rt.alloc())?;
    let (two, tag) = (id(TWO)?, id(TAG)?);
    assert!(rt; has_two(&store, &two) && has_tag(&store, &tag));
    Ok(())
}

/// Ids, and the places of their objects, in the order in which they came first.
const PLACES: &[(&[u8], Option<usize>)] = &[
    (HELLO, Some(0)),
    (EMPTY, Some(1)),
    (TREE, Some(2)),
    (TWO, Some(3)),
    (ONE, Some(4)),
    (TAG, Some(5)),
    (b"204b60738bbf3fc0ec4c396e0e23c8c062a70d36", None),
];

// Whether the object stands at this place, or isn't there.
fn stands_at(store: &GitStore, id: &Id, want: Option<usize>) -> bool {
    let Some(place) = want else {
        return store.place(id).is_none();
    };
    match store.object_at(place) {
        Some((found, _, _)) => *found == *id && store.place(id) == want,
        None => false,
    }
}

#[test]
fn places(rt: HostRuntime) -> Result<(), Fail> {
    let store = filled(&rt, rt.alloc())?;
    for (i, (digits, want)) in PLACES.iter().enumerate() {
        let id = id(digits)?;
        assert!(rt; stands_at(&store, &id, *want), "at {i}");
    }
    assert!(rt; store.len() == 6 && store.object_at(6).is_none());
    Ok(())
}

// How many objects the text has that the store keeps of its first ones, and how long the text is.
fn written_of(store: &GitStore) -> Option<(usize, usize)> {
    let written = store.written()?;
    Some((written.count, written.text.len()))
}

// A store without objects that keeps the text of their stream.
#[tactic(auto, unfolding(git_model::specs::Stream::stream_text))]
fn empty_and_written(alloc: Global) -> Result<GitStore, Fail> {
    let mut store = GitStore::new(alloc);
    store.keep_written(keep(Vec::new(alloc))?);
    Ok(store)
}

// A store of one blob that keeps the text of its stream.
#[tactic(auto, unfolding(git_model::specs::Stream::stream_text))]
fn one_and_written(alloc: Global) -> Result<GitStore, Fail> {
    let blob = keep(b"hello\n".to_vec(alloc)?)?;
    let its_id = object_id(Kind::Blob, blob.as_slice());
    let mut out = Rope::new(alloc);
    put_with_id(&mut out, &its_id, Kind::Blob, &blob)?;
    let text = keep(out.joined()?)?;
    let mut store = GitStore::new(alloc);
    store.add(its_id, Kind::Blob, blob).map_err(|_| "a blob")?;
    store.keep_written(text);
    Ok(store)
}

#[test]
fn written(rt: HostRuntime) -> Result<(), Fail> {
    let new = GitStore::new(rt.alloc());
    let empty = empty_and_written(rt.alloc())?;
    let one = one_and_written(rt.alloc())?;
    assert!(rt; written_of(&new).is_none() && written_of(&empty) == Some((0, 0)));
    assert!(rt; written_of(&one) == Some((1, 55)));
    Ok(())
}
