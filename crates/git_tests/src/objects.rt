// Contents of trees, commits and tags, and lines of authors.
use bridge_text::{Id, Kind};
use git_object::{Commit, CommitFault, Ident, Mode, Tag, TagFault, Tree, TreeReadFault};
use std::test::Fail;

type IdentRow = (&'static [u8], &'static [u8], &'static [u8], u64, [u8; 5]);

/// Lines of authors, and the parts of their idents.
const IDENTS: &[IdentRow] = &[
    (b"Ann <ann@x> 0 +0000", b"Ann", b"ann@x", 0, *b"+0000"),
    (b"Ann <ann@x> 0 -0000", b"Ann", b"ann@x", 0, *b"-0000"),
    (b"Bob <bob@x> 5 +0530", b"Bob", b"bob@x", 5, *b"+0530"),
    (b" <> 1 +0000", b"", b"", 1, *b"+0000"),
    (b"A. B  <a b> 12 -9999", b"A. B ", b"a b", 12, *b"-9999"),
    (
        b"A <a> 4611686018427387904 +0000",
        b"A",
        b"a",
        1 << 62,
        *b"+0000",
    ),
];

/// Lines that are no ident.
const OTHER_LINES: &[&'static [u8]] = &[
    b"",
    b"Ann",
    b"Ann<ann@x> 0 +0000",
    b"<ann@x> 0 +0000",
    b"A>n <ann@x> 0 +0000",
    b"A<n <ann@x> 0 +0000",
    b"Ann <a<n@x> 0 +0000",
    b"Ann <ann@x>0 +0000",
    b"Ann <ann@x>  0 +0000",
    b"Ann <ann@x> 00 +0000",
    b"Ann <ann@x> 4611686018427387905 +0000",
    b"Ann <ann@x> 0 0000",
    b"Ann <ann@x> 0 +000",
    b"Ann <ann@x> 0 +0000 ",
];

// Whether the line has these parts.
fn is_ident(row: &IdentRow) -> bool {
    let (line, name, email, seconds, zone) = *row;
    match Ident::read(line) {
        Some(ident) => {
            ident.name == name
                && ident.email == email
                && ident.seconds == seconds
                && ident.zone == zone
        }
        None => false,
    }
}

#[test]
fn idents(rt: HostRuntime) {
    for row in IDENTS {
        assert!(rt; is_ident(row));
    }
}

#[test]
fn lines_without_idents(rt: HostRuntime) {
    for line in OTHER_LINES {
        assert!(rt; Ident::read(line).is_none());
    }
}

/// A commit with three parents and a header of three lines, whose message has no LF at its end.
fn rich_commit() -> &'static [u8] {
    b"tree 1111111111111111111111111111111111111111\nparent 2222222222222222222222222222222222222222\nparent 3333333333333333333333333333333333333333\nparent 2222222222222222222222222222222222222222\nauthor Ann <ann@x> 0 -0000\ncommitter Bob <bob@x> 5 +0000\ngpgsig -----BEGIN\n one\n -----END\n\none"
}

/// A commit whose author, committer and message are empty, and a header that begins as the line
/// of a parent.
fn bare_commit() -> &'static [u8] {
    b"tree 1111111111111111111111111111111111111111\nauthor \ncommitter \nparent 22\n\n"
}

fn is_rich(commit: &Commit) -> bool {
    let twos = Id::new([0x22; 20]);
    commit.tree == Id::new([0x11; 20])
        && commit.parents.as_slice() == [twos, Id::new([0x33; 20]), twos].as_slice()
        && commit.author.as_slice() == b"Ann <ann@x> 0 -0000".as_slice()
        && commit.committer.as_slice() == b"Bob <bob@x> 5 +0000".as_slice()
        && commit.headers.as_slice() == b"gpgsig -----BEGIN\n one\n -----END\n".as_slice()
        && commit.message.as_slice() == b"one".as_slice()
}

fn is_bare(commit: &Commit) -> bool {
    commit.parents.is_empty()
        && commit.author.is_empty()
        && commit.committer.is_empty()
        && commit.headers.as_slice() == b"parent 22\n".as_slice()
        && commit.message.is_empty()
}

#[test]
fn commits(rt: HostRuntime) -> Result<(), Fail> {
    let rich = Commit::read(rt.alloc(), rich_commit())?;
    let mut out = Vec::new(rt.alloc());
    rich.write_into(&mut out)?;
    assert!(rt; is_rich(&rich) && out.as_slice() == rich_commit());
    Ok(())
}

#[test]
fn bare_commits(rt: HostRuntime) -> Result<(), Fail> {
    let bare = Commit::read(rt.alloc(), bare_commit())?;
    assert!(rt; is_bare(&bare));
    Ok(())
}

#[test]
fn contents_of_no_commit(rt: HostRuntime) {
    for (content, at) in BAD_COMMITS {
        let fault = Commit::read(rt.alloc(), content).err();
        assert!(rt; fault == Some(CommitFault::Shape(*at)));
    }
}

/// Contents that are no commit's, with the offset of the first line that doesn't fit.
const BAD_COMMITS: &[(&'static [u8], usize)] = &[
    (b"", 0),
    (b"tree 1111111111111111111111111111111111111111", 0),
    (b"tree 111111111111111111111111111111111111111\n", 0),
    (b"tree 111111111111111111111111111111111111111A\n", 0),
    (b"author A\ncommitter B\n\n", 0),
    (
        b"tree 1111111111111111111111111111111111111111\ncommitter B\n\n",
        46,
    ),
    (
        b"tree 1111111111111111111111111111111111111111\nparent 22\nauthor A\ncommitter B\n\n",
        46,
    ),
    (
        b"tree 1111111111111111111111111111111111111111\nauthor A\nparent 2222222222222222222222222222222222222222\ncommitter B\n\n",
        55,
    ),
    (
        b"tree 1111111111111111111111111111111111111111\nauthor A\n\ncommitter B\n\n",
        55,
    ),
    (
        b"tree 1111111111111111111111111111111111111111\nauthor A\ncommitter B\n",
        67,
    ),
    (
        b"tree 1111111111111111111111111111111111111111\nauthor A\ncommitter B\nx y\nz",
        71,
    ),
];

/// A tag with a tagger.
fn whole_tag() -> &'static [u8] {
    b"object 1111111111111111111111111111111111111111\ntype commit\ntag v1\ntagger Ann <ann@x> 0 +0000\n\none\n"
}

fn is_whole(tag: &Tag) -> bool {
    tag.target == Id::new([0x11; 20])
        && tag.target_kind == Kind::Commit
        && tag.name.as_slice() == b"v1".as_slice()
        && tag.rest.as_slice() == b"tagger Ann <ann@x> 0 +0000\n\none\n".as_slice()
}

#[test]
fn tags(rt: HostRuntime) -> Result<(), Fail> {
    let tag = Tag::read(rt.alloc(), whole_tag())?;
    let mut out = Vec::new(rt.alloc());
    tag.write_into(&mut out)?;
    assert!(rt; is_whole(&tag) && out.as_slice() == whole_tag());
    Ok(())
}

#[test]
fn tags_without_names(rt: HostRuntime) -> Result<(), Fail> {
    for (content, kind) in BARE_TAGS {
        let tag = Tag::read(rt.alloc(), content)?;
        assert!(rt; tag.target_kind == *kind && tag.name.is_empty() && tag.rest.is_empty());
    }
    Ok(())
}

#[test]
fn contents_of_no_tag(rt: HostRuntime) {
    for (content, at) in BAD_TAGS {
        let fault = Tag::read(rt.alloc(), content).err();
        assert!(rt; fault == Some(TagFault::Shape(*at)));
    }
}

/// Tags without a name and with nothing behind it, of each kind.
const BARE_TAGS: &[(&'static [u8], Kind)] = &[
    (
        b"object 1111111111111111111111111111111111111111\ntype blob\ntag \n",
        Kind::Blob,
    ),
    (
        b"object 1111111111111111111111111111111111111111\ntype tree\ntag \n",
        Kind::Tree,
    ),
    (
        b"object 1111111111111111111111111111111111111111\ntype tag\ntag \n",
        Kind::Tag,
    ),
];

/// Contents that are no tag's, with the offset of the first line that doesn't fit.
const BAD_TAGS: &[(&'static [u8], usize)] = &[
    (b"", 0),
    (b"object 1111\ntype commit\ntag v1\n", 0),
    (
        b"object 1111111111111111111111111111111111111111\ntype Commit\ntag v1\n",
        48,
    ),
    (
        b"object 1111111111111111111111111111111111111111\ntag v1\ntype commit\n",
        48,
    ),
    (
        b"object 1111111111111111111111111111111111111111\ntype commit\ntag v1",
        60,
    ),
    (
        b"object 1111111111111111111111111111111111111111\ntype commit\n\n",
        60,
    ),
];

/// A tree in its order, in which the name of a directory has a slash at its end.
fn whole_tree() -> &'static [u8] {
    b"100644 a.b\0aaaaaaaaaaaaaaaaaaaa40000 a\0bbbbbbbbbbbbbbbbbbbb100755 a0\0cccccccccccccccccccc120000 z\0dddddddddddddddddddd"
}

/// Whether the tree has this entry at this place, with an id of 20 equal bytes.
fn has_entry(tree: &Tree, i: usize, name: &[u8], mode: Mode, byte: u8) -> bool {
    if i < tree.len() {
        let entry = tree.at(i);
        entry.name() == name && entry.mode() == mode && *entry.id() == Id::new([byte; 20])
    } else {
        false
    }
}

fn has_entries(tree: &Tree) -> bool {
    tree.entries().len() == 4
        && !tree.is_empty()
        && has_entry(tree, 0, b"a.b", Mode::File, b'a')
        && has_entry(tree, 1, b"a", Mode::Dir, b'b')
        && has_entry(tree, 2, b"a0", Mode::Exec, b'c')
        && has_entry(tree, 3, b"z", Mode::Link, b'd')
}

#[test]
fn trees(rt: HostRuntime) -> Result<(), Fail> {
    let tree = Tree::read(rt.alloc(), whole_tree())?;
    let mut out = Vec::new(rt.alloc());
    tree.write_into(&mut out)?;
    assert!(rt; has_entries(&tree) && out.as_slice() == whole_tree());
    Ok(())
}

#[test]
fn further_trees(rt: HostRuntime) {
    for content in GOOD_TREES {
        assert!(rt; Tree::read(rt.alloc(), content).is_ok());
    }
}

#[test]
fn contents_of_no_tree(rt: HostRuntime) {
    for (content, want) in BAD_TREES {
        let fault = Tree::read(rt.alloc(), content).err();
        assert!(rt; fault == Some(*want));
    }
}

/// Contents of further trees.
const GOOD_TREES: &[&'static [u8]] = &[
    b"",
    b"100664 a\0aaaaaaaaaaaaaaaaaaaa160000 b\0bbbbbbbbbbbbbbbbbbbb",
    b"100644 a\0aaaaaaaaaaaaaaaaaaaa40000 b\0bbbbbbbbbbbbbbbbbbbb",
    b"40000 a\0aaaaaaaaaaaaaaaaaaaa40000 a0\0bbbbbbbbbbbbbbbbbbbb",
    b"40000 a-\0aaaaaaaaaaaaaaaaaaaa40000 a\0bbbbbbbbbbbbbbbbbbbb",
    b"100644 a\0aaaaaaaaaaaaaaaaaaaa40000 a-\0bbbbbbbbbbbbbbbbbbbb",
    b"100644 a\0aaaaaaaaaaaaaaaaaaaa100644 a-\0bbbbbbbbbbbbbbbbbbbb40000 b\0cccccccccccccccccccc",
];

/// Contents that are no tree's, with the offset of the first entry that doesn't fit: its form is
/// asked first, then its mode, then its name.
const BAD_TREES: &[(&'static [u8], TreeReadFault)] = &[
    (b"100644", TreeReadFault::Shape(0)),
    (b"100644 a", TreeReadFault::Shape(0)),
    (b"100644 a\0aaaaaaaaaaaaaaaaaaa", TreeReadFault::Shape(0)),
    (b" a\0aaaaaaaaaaaaaaaaaaaa", TreeReadFault::Shape(0)),
    (b"100648 a\0aaaaaaaaaaaaaaaaaaaa", TreeReadFault::Shape(0)),
    (b"040000 a\0aaaaaaaaaaaaaaaaaaaa", TreeReadFault::ModeOut(0)),
    (b"100775 a\0aaaaaaaaaaaaaaaaaaaa", TreeReadFault::ModeOut(0)),
    (b"7 .git\0aaaaaaaaaaaaaaaaaaaa", TreeReadFault::ModeOut(0)),
    (b"8 .git\0aaaaaaaaaaaaaaaaaaaa", TreeReadFault::Shape(0)),
    (
        b"100644 .git\0aaaaaaaaaaaaaaaaaaaa",
        TreeReadFault::NameUnfit(0),
    ),
    (
        b"100644 a/b\0aaaaaaaaaaaaaaaaaaaa",
        TreeReadFault::NameUnfit(0),
    ),
    (
        b"100644 \0aaaaaaaaaaaaaaaaaaaa",
        TreeReadFault::NameUnfit(0),
    ),
    (
        b"100644 a\0aaaaaaaaaaaaaaaaaaaa100644 a\0bbbbbbbbbbbbbbbbbbbb",
        TreeReadFault::Shape(29),
    ),
    (
        b"100644 b\0aaaaaaaaaaaaaaaaaaaa100644 a\0bbbbbbbbbbbbbbbbbbbb",
        TreeReadFault::Shape(29),
    ),
    (
        b"100644 a\0aaaaaaaaaaaaaaaaaaaa40000 a\0bbbbbbbbbbbbbbbbbbbb",
        TreeReadFault::Shape(29),
    ),
    (
        b"100644 a\0aaaaaaaaaaaaaaaaaaaa100644 a.b\0bbbbbbbbbbbbbbbbbbbb40000 a\0cccccccccccccccccccc",
        TreeReadFault::Shape(60),
    ),
    (
        b"40000 a\0aaaaaaaaaaaaaaaaaaaa100644 a.b\0bbbbbbbbbbbbbbbbbbbb",
        TreeReadFault::Shape(28),
    ),
    (
        b"100644 a0\0aaaaaaaaaaaaaaaaaaaa40000 a\0bbbbbbbbbbbbbbbbbbbb",
        TreeReadFault::Shape(30),
    ),
    (
        b"100644 a\0aaaaaaaaaaaaaaaaaaaa7 a\0bbbbbbbbbbbbbbbbbbbb",
        TreeReadFault::Shape(29),
    ),
    (
        b"100644 b\0aaaaaaaaaaaaaaaaaaaa160000 b\0bbbbbbbbbbbbbbbbbbbb",
        TreeReadFault::Shape(29),
    ),
    (
        b"100644 a\0aaaaaaaaaaaaaaaaaaaa100666 b\0bbbbbbbbbbbbbbbbbbbbx",
        TreeReadFault::ModeOut(29),
    ),
];
