// Trees and the rows that they stand for.
use bridge_text::{Id, Kind, object_id};
use git_object::ResidueKind::{Empty, Group, Link};
use git_object::{Mode, Residue, ResidueKind};
use git_store::GitStore;
use shared_text::Text;
use std::alloc::Global;
use std::test::Fail;
use tree_rebuild::{rebuild, rebuild_over};
use tree_residue::{carry, is_same_residue, residue_at, residue_of};
use tree_shape::{BuildFault, FileRow, Files, TreeFault, TreeItem, build, flatten, flatten_near};

/// A row: its path, its mode, and the byte that stands 20 times in its id.
type Row = (&'static [u8], Mode, u8);

/// Adds an object, and gives its id.
pub fn keep(alloc: Global, store: &mut GitStore, kind: Kind, content: &[u8]) -> Result<Id, Fail> {
    let text = shared_text::keep(content.to_vec(alloc)?)?;
    let its_id = object_id(kind, content);
    store.add(its_id, kind, text).map_err(|_| "an object")?;
    Ok(its_id)
}

fn id(digits: &[u8]) -> Result<Id, Fail> {
    Ok(Id::from_hex(digits).ok_or("40 digits")?)
}

fn row_of(alloc: Global, row: &Row) -> Result<FileRow, Fail> {
    let (path, mode, byte) = *row;
    let path = Text::copy_from_slice(alloc, path)?;
    Ok(FileRow {
        path,
        mode,
        blob: Id::new([byte; 20]),
    })
}

/// These rows, each with a blob id of 20 equal bytes.
fn listed(alloc: Global, rows: &[Row]) -> Result<Vec<FileRow>, Fail> {
    let mut list = Vec::new(alloc);
    for row in rows {
        let row = row_of(alloc, row)?;
        list.push(row)?;
    }
    Ok(list)
}

fn files(alloc: Global, rows: &[Row]) -> Result<Files, Fail> {
    Ok(Files::from_rows(listed(alloc, rows)?).ok_or("files")?)
}

const THREE_ROWS: &[Row] = &[
    (b"a.b", Mode::File, 0x11),
    (b"a/c", Mode::File, 0x22),
    (b"a0", Mode::Link, 0x33),
];

// Whether the trees are that of the file `c` and the root.
fn are_two(made: &[TreeItem]) -> bool {
    let [first, last] = made else {
        return false;
    };
    first.content() == b"100644 c\0\"\"\"\"\"\"\"\"\"\"\"\"\"\"\"\"\"\"\"\"".as_slice()
        && first.id().hex().as_slice() == b"c71263b47c34258e0fe8230e9162a8a37fa1372b".as_slice()
        && last.id().hex().as_slice() == b"dc19504b320e98015af1a0ac28a3e74365d3bb82".as_slice()
}

/// Three files, whose tree has its entries in the order `a.b`, `a`, `a0`. The ids are SHA-1 of the two contents with
/// their headers, worked out apart.
#[test]
fn trees_of_files(rt: HostRuntime) -> Result<(), Fail> {
    let files = files(rt.alloc(), THREE_ROWS)?;
    let trees = build(rt.alloc(), &files)?;
    let root = trees.root.hex();
    assert!(rt; root.as_slice() == b"dc19504b320e98015af1a0ac28a3e74365d3bb82".as_slice());
    assert!(rt; are_two(trees.made.as_slice()));
    Ok(())
}

/// Rows of which one lies below another, with the place of the first such row.
const CLASHES: &[(&'static [Row], usize)] = &[
    (&[(b"a", Mode::File, 0), (b"a/b", Mode::File, 0)], 1),
    (
        &[
            (b"a", Mode::File, 0),
            (b"a.b", Mode::Exec, 0),
            (b"a/c", Mode::File, 0),
        ],
        2,
    ),
    (
        &[
            (b"b/a", Mode::File, 0),
            (b"b/a-/c", Mode::File, 0),
            (b"b/a.", Mode::File, 0),
            (b"b/a/d/e", Mode::File, 0),
            (b"b/a/d/e/f", Mode::File, 0),
        ],
        3,
    ),
];

#[test]
fn rows_without_trees(rt: HostRuntime) -> Result<(), Fail> {
    for (rows, place) in CLASHES {
        let files = files(rt.alloc(), rows)?;
        let fault = build(rt.alloc(), &files).err();
        assert!(rt; fault == Some(BuildFault::PathClash(*place)));
    }
    Ok(())
}

/// Rows that are no files: one doesn't rise, one has a path that isn't fit, one is a directory that isn't empty.
const OTHER_ROWS: &[&'static [Row]] = &[
    &[(b"a", Mode::File, 0), (b"a", Mode::File, 0)],
    &[(b"a//b", Mode::File, 0)],
    &[(b"a", Mode::Dir, 0)],
];

#[test]
fn rows_that_are_no_files(rt: HostRuntime) -> Result<(), Fail> {
    for rows in OTHER_ROWS {
        let listed = listed(rt.alloc(), rows)?;
        assert!(rt; Files::from_rows(listed).is_none());
    }
    Ok(())
}

/// The content of a tree with one entry.
pub fn one_entry(alloc: Global, mode: &[u8], name: u8, id: &Id) -> Result<Vec<u8>, Fail> {
    let mut content = mode.to_vec(alloc)?;
    content.push(b' ')?;
    content.push(name)?;
    content.push(b'\0')?;
    content.extend_from_slice(&id.bytes())?;
    Ok(content)
}

fn fault_at(alloc: Global, store: &GitStore, root: &Id) -> Option<TreeFault> {
    flatten(alloc, store, root).err()
}

/// Adds a tree with one entry, and gives its id.
pub fn keep_entry(alloc: Global, store: &mut GitStore, mode: &[u8], id: &Id) -> Result<Id, Fail> {
    let content = one_entry(alloc, mode, b'd', id)?;
    keep(alloc, store, Kind::Tree, &content)
}

/// The ids of a blob and the empty tree, which it adds.
pub fn keep_leaves(alloc: Global, store: &mut GitStore) -> Result<[Id; 2], Fail> {
    let blob = keep(alloc, store, Kind::Blob, b"x")?;
    let empty = keep(alloc, store, Kind::Tree, b"")?;
    Ok([blob, empty])
}

fn has_no_files(alloc: Global, store: &GitStore, root: &Id) -> Result<bool, Fail> {
    let files = flatten(alloc, store, root)?;
    Ok(files.is_empty())
}

/// Roots that stand for no files, and the empty tree.
#[test]
fn faults_of_walks(rt: HostRuntime) -> Result<(), Fail> {
    let mut store = GitStore::new(rt.alloc());
    let [blob, empty] = keep_leaves(rt.alloc(), &mut store)?;
    let above_blob = keep_entry(rt.alloc(), &mut store, b"40000", &blob)?;
    let tree_as_blob = keep_entry(rt.alloc(), &mut store, b"100644", &empty)?;
    let has_no_files = has_no_files(rt.alloc(), &store, &empty)?;
    assert!(rt; has_no_files);
    for (root, unknown) in [
        (above_blob, blob),
        (blob, blob),
        (tree_as_blob, empty),
        (Id::NULL, Id::NULL),
    ] {
        let fault = fault_at(rt.alloc(), &store, &root);
        assert!(rt; fault == Some(TreeFault::ObjectUnknown(unknown)));
    }
    Ok(())
}

/// Adds a tree in a tree and so on, so many of them, over a blob, and gives the outermost.
pub fn nested(alloc: Global, store: &mut GitStore, count: u16) -> Result<Id, Fail> {
    let mut inner = keep(alloc, store, Kind::Blob, b"x")?;
    let mut mode = b"100644".as_slice();
    for _ in 0..count {
        inner = keep_entry(alloc, store, mode, &inner)?;
        mode = b"40000";
    }
    Ok(inner)
}

// Whether the tree has one file, in so many trees, beside its own rows too.
fn is_nested(alloc: Global, store: &GitStore, tree: &Id, count: usize) -> Result<bool, Fail> {
    let near = flatten(alloc, store, tree)?;
    let files = flatten_near(alloc, store, tree, near.as_slice())?;
    let trees = build(alloc, &files)?;
    Ok(files.len() == 1 && trees.made.len() == count)
}

/// A path of 256 names is fit, and one of 257 isn't.
#[test]
fn a_path_has_256_names_at_most(rt: HostRuntime) -> Result<(), Fail> {
    let mut store = GitStore::new(rt.alloc());
    let tree = nested(rt.alloc(), &mut store, 256)?;
    let deeper = nested(rt.alloc(), &mut store, 257)?;
    let is_nested = is_nested(rt.alloc(), &store, &tree, 256)?;
    let fault = fault_at(rt.alloc(), &store, &deeper);
    assert!(rt; is_nested && fault == Some(TreeFault::PathUnfit));
    Ok(())
}

// The row of a path, a mode and an id.
fn file_row(alloc: Global, row: &(&[u8], Mode, Id)) -> Result<FileRow, Fail> {
    let (path, mode, blob) = *row;
    let path = Text::copy_from_slice(alloc, path)?;
    Ok(FileRow { path, mode, blob })
}

// The files of these rows, which rise.
fn files_of(alloc: Global, rows: &[(&[u8], Mode, Id)]) -> Result<Files, Fail> {
    let mut list = Vec::new(alloc);
    for row in rows {
        let row = file_row(alloc, row)?;
        list.push(row)?;
    }
    Ok(Files::from_rows(list).ok_or("files")?)
}

fn same_rows(files: &Files, others: &Files) -> bool {
    files.len() == others.len()
        && files.as_slice().iter().zip(others.as_slice()).all(|(row, other)| row.path()
            == other.path()
            && row.mode() == other.mode()
            && row.blob() == other.blob())
}

fn are_items(residue: &Residue, items: &[(&[u8], ResidueKind)]) -> bool {
    residue.as_slice().len() == items.len()
        && residue.as_slice().iter().zip(items).all(|(item, (path, kind))| item.path() == *path
            && item.kind() == *kind)
}

// Adds the trees of these files, and gives the root.
fn keep_trees(alloc: Global, store: &mut GitStore, files: &Files) -> Result<Id, Fail> {
    let trees = build(alloc, files)?;
    for made in trees.made.as_slice() {
        keep(alloc, store, Kind::Tree, made.content())?;
    }
    Ok(trees.root)
}

// Whether the walk gives these files, over which no tree is new.
fn come_back(alloc: Global, store: &GitStore, root: &Id, files: &Files) -> Result<bool, Fail> {
    let again = flatten(alloc, store, root)?;
    let over = rebuild_over(alloc, store, root, files)?;
    Ok(same_rows(&again, files) && over.root == *root && over.made.is_empty())
}

// Whether these items are what the files and their tree have beside files.
fn have_items(
    alloc: Global,
    store: &GitStore,
    root: &Id,
    files: &Files,
    items: &[(&[u8], ResidueKind)],
) -> Result<bool, Fail> {
    let of_files = residue_of(alloc, files)?;
    let of_tree = residue_at(alloc, store, root)?;
    let are_there = are_items(&of_files, items) && are_items(&of_tree, items);
    Ok(are_there && is_same_residue(&of_files, &of_tree))
}

// Whether the trees of these files have this root, from which the files come back with these items beside them.
fn are_kept(
    alloc: Global,
    store: &mut GitStore,
    root: &Id,
    files: &Files,
    items: &[(&[u8], ResidueKind)],
) -> Result<bool, Fail> {
    let kept = keep_trees(alloc, store, files)?;
    let come_back = come_back(alloc, store, root, files)?;
    let have_items = have_items(alloc, store, root, files, items)?;
    Ok(kept == *root && come_back && have_items)
}

fn blob_of(letter: u8) -> Id {
    object_id(Kind::Blob, &[letter])
}

// The files `a.b`, `a/c` and `a0`, whose contents are these letters.
fn three_files(alloc: Global, letters: &[u8; 3]) -> Result<Files, Fail> {
    let [first, inner, last] = *letters;
    files_of(
        alloc,
        &[
            (b"a.b", Mode::File, blob_of(first)),
            (b"a/c", Mode::Exec, blob_of(inner)),
            (b"a0", Mode::Link, blob_of(last)),
        ],
    )
}

fn with_letters(alloc: Global) -> Result<GitStore, Fail> {
    let mut store = GitStore::new(alloc);
    keep(alloc, &mut store, Kind::Blob, b"x")?;
    keep(alloc, &mut store, Kind::Blob, b"y")?;
    Ok(store)
}

/// The root is that which `git mktree` prints.
#[test]
fn files_come_back(rt: HostRuntime) -> Result<(), Fail> {
    let mut store = with_letters(rt.alloc())?;
    let files = three_files(rt.alloc(), b"xyx")?;
    let root = id(b"084f82933eef1697d79978d0c6383ba25d6e3377")?;
    let are_kept = are_kept(rt.alloc(), &mut store, &root, &files, &[])?;
    assert!(rt; are_kept);
    Ok(())
}

/// A file `d.x`, an empty subtree `d` and the commit of another repository: Git has `d.x` before `d`, and the rows have it
/// behind. The root is that which `git mktree` prints.
#[test]
fn what_stands_beside_files_comes_back(rt: HostRuntime) -> Result<(), Fail> {
    let mut store = GitStore::new(rt.alloc());
    let [x, empty] = keep_leaves(rt.alloc(), &mut store)?;
    let other = id(b"084f82933eef1697d79978d0c6383ba25d6e3377")?;
    let rows: [(&[u8], Mode, Id); 3] = [
        (b"d", Mode::Dir, empty),
        (b"d.x", Mode::Group, x),
        (b"lib", Mode::Gitlink, other),
    ];
    let items: [(&[u8], ResidueKind); 3] = [(b"d", Empty), (b"d.x", Group), (b"lib", Link(other))];
    let files = files_of(rt.alloc(), &rows)?;
    let root = id(b"c1b489772a8e088d2c625e76f0636aff74dedcf9")?;
    let are_kept = are_kept(rt.alloc(), &mut store, &root, &files, &items)?;
    assert!(rt; are_kept);
    Ok(())
}

// Whether a commit with these files hands these items on to a child with those.
fn hands_on(
    alloc: Global,
    parent: &Files,
    child: &Files,
    items: &[(&[u8], ResidueKind)],
) -> Result<bool, Fail> {
    let residue = residue_of(alloc, parent)?;
    let handed = carry(alloc, &residue, child)?;
    Ok(are_items(&handed, items))
}

/// What a commit hands on to a child with these files: `d.x` is a plain file again, and a file lies below `lib`.
#[test]
fn what_fits_is_handed_on(rt: HostRuntime) -> Result<(), Fail> {
    let id = Id::new([0x11; 20]);
    let rows: [(&[u8], Mode, Id); 4] = [
        (b"d", Mode::Dir, object_id(Kind::Tree, b"")),
        (b"d.x", Mode::Group, id),
        (b"e", Mode::Group, id),
        (b"lib", Mode::Gitlink, id),
    ];
    let of_child: [(&[u8], Mode, Id); 3] = [
        (b"d.x", Mode::File, id),
        (b"e", Mode::Exec, id),
        (b"lib/a", Mode::File, id),
    ];
    let parent = files_of(rt.alloc(), &rows)?;
    let child = files_of(rt.alloc(), &of_child)?;
    let hands_on = hands_on(
        rt.alloc(),
        &parent,
        &child,
        &[(b"d", Empty), (b"d.x", Group)],
    )?;
    assert!(rt; hands_on);
    Ok(())
}

// Whether the trees are these, by their ids.
fn are_trees(made: &[TreeItem], ids: &[&[u8]]) -> bool {
    made.len() == ids.len()
        && made
            .iter()
            .zip(ids)
            .all(|(tree, digits)| tree.id().hex().as_slice() == *digits)
}

// Whether these files over a tree make these trees alone.
fn make_alone(
    alloc: Global,
    store: &GitStore,
    old: &Id,
    files: &Files,
    ids: &[&[u8]],
) -> Result<bool, Fail> {
    let old_files = flatten(alloc, store, old)?;
    let trees = rebuild(alloc, store, old, &old_files, files)?;
    let has_root = match trees.made.as_slice().last() {
        Some(made) => *made.id() == trees.root,
        None => trees.root == *old,
    };
    Ok(has_root && are_trees(trees.made.as_slice(), ids))
}

/// Contents of the three files, and the ids of the trees that they make over those of `xyx`, as `git mktree` prints them.
const OVER_OLD: &[(&[u8; 3], &[&[u8]])] = &[
    (
        b"xxx",
        &[
            b"3b78ffb8fb4c81551d805944d10dd5ad15e5f34e",
            b"af4b695875af22aaa69d6378e6fee7e0c1046ce1",
        ],
    ),
    (b"xyy", &[b"73abc9c3d65eff728b76320607ee8aa9768c8e3f"]),
    (b"xyx", &[]),
];

// Adds the trees of the old files, and gives the root.
fn keep_old(alloc: Global, store: &mut GitStore) -> Result<Id, Fail> {
    let files = three_files(alloc, b"xyx")?;
    keep_trees(alloc, store, &files)
}

// Whether the files with these contents make these trees.
fn make_over(
    alloc: Global,
    store: &GitStore,
    old: &Id,
    letters: &[u8; 3],
    ids: &[&[u8]],
) -> Result<bool, Fail> {
    let files = three_files(alloc, letters)?;
    make_alone(alloc, store, old, &files, ids)
}

/// A tree with the same rows in the same place is not made again.
#[test]
fn trees_that_stay_are_not_made(rt: HostRuntime) -> Result<(), Fail> {
    let mut store = with_letters(rt.alloc())?;
    let old = keep_old(rt.alloc(), &mut store)?;
    for (letters, ids) in OVER_OLD {
        let make_over = make_over(rt.alloc(), &store, &old, letters, ids)?;
        assert!(rt; make_over);
    }
    Ok(())
}

/// A file and the commit of another repository: 29 and 31 bytes.
#[test]
fn a_gitlink_is_an_entry(rt: HostRuntime) -> Result<(), Fail> {
    let rows: &[Row] = &[(b"a", Mode::File, 0x11), (b"lib", Mode::Gitlink, 0x22)];
    let files = files(rt.alloc(), rows)?;
    let trees = build(rt.alloc(), &files)?;
    let made = trees.made.as_slice();
    assert!(rt; made.len() == 1 && made[0].content().len() == 60);
    Ok(())
}
