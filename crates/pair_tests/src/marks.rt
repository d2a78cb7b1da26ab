// Marks, as headers of commits and as extras of changesets.
use bridge_text::Id;
use hg_changeset::{DateLine, ExtraItem, Extras};
use hg_manifest::ManifestRev;
use mark_code::{ChangesetMarks, CommitMarks, Mark};
use std::alloc::Global;
use std::test::Fail;

/// Headers, and how many marks they are; none where they are no mark list.
const HEADERS: &[(&[u8], Option<usize>)] = &[
    (b"", Some(0)),
    (b"HG:rename b a\n", Some(1)),
    (
        b"HG:file b 0000000000000000000000000000000000000000 0000000000000000000000000000000000000000 =copy:%20a%0Acopyrev:%201111111111111111111111111111111111111111%0A\n",
        Some(1),
    ),
    (
        b"HG:file a 1111111111111111111111111111111111111111 2222222222222222222222222222222222222222 -\n",
        Some(1),
    ),
    (
        b"HG:file a 1111111111111111111111111111111111111111 2222222222222222222222222222222222222222 =\nHG:rename b \n",
        Some(2),
    ),
    (b"HG:user a<b>c\n", Some(1)),
    (b"HG:user \n", Some(1)),
    (b"HG:date 0 90\n", Some(1)),
    (b"HG:date -4611686018427387904 2147483648\n", Some(1)),
    (b"HG:extra branch stable\n", Some(1)),
    (b"HG:extra %FF \nHG:raw x\n", None),
    (b"HG:extra %01 x\nHG:extra ! x\n", Some(2)),
    (b"HG:extra ! x\nHG:extra %01 x\n", None),
    (b"HG:manifest null\n", Some(1)),
    (
        b"HG:manifest 1111111111111111111111111111111111111111 2222222222222222222222222222222222222222\n",
        Some(1),
    ),
    (
        b"HG:manifest 1111111111111111111111111111111111111111\n",
        None,
    ),
    (b"HG:files 0\n", Some(1)),
    (b"HG:files 2 a b\n", Some(1)),
    (b"HG:files 1 \n", Some(1)),
    (b"HG:files 0 \n", None),
    (b"HG:files 1 a b\n", None),
    (b"HG:files 02 a b\n", None),
    (b"HG:raw \n", Some(1)),
    (b"HG:raw\n", None),
    (b"HG:raw 0\nHG:extra a b\n", None),
    (b"HG:date 0 0\nHG:raw 0\n", None),
    (b"HG:date 0 90\nHG:date 0 90\n", None),
    (b"HG:date 00 0\n", None),
    (b"HG:date -0 0\n", None),
    (b"HG:date 4611686018427387905 0\n", None),
    (b"HG:date 0 2147483649\n", None),
    (b"HG:date 0 0 a:b\n", None),
    (b"HG:user Ann%2a\n", None),
    (b"HG:user Ann%41\n", None),
    (b"HG:user Ann x\n", None),
    (b"HG:user Ann", None),
    (b"HG:rename b a\nHG:rename a b\n", None),
    (b"HG:rename a b\nHG:rename a c\n", None),
    (b"HG:user a\nHG:files 0\n", None),
    (
        b"HG:rename a b\nHG:manifest null\nHG:files 0\nHG:user %0A%25\nHG:date 1 -60\nHG:extra a b\nHG:extra c \n",
        Some(7),
    ),
    (b"X-Other: y\n", None),
    (b"\n", None),
];

// Whether the lines of the marks are the headers, appended to what is there.
fn are_written(alloc: Global, marks: &CommitMarks, headers: &[u8]) -> Result<bool, Fail> {
    let mut out = Vec::from_slice(alloc, b"front ")?;
    marks.write_into(&mut out)?;
    Ok(out.starts_with(b"front ") && out.ends_with(headers) && out.len() == 6 + headers.len())
}

// Whether the headers are those of so many marks, or of none.
fn are_read(alloc: Global, headers: &[u8], count: &Option<usize>) -> Result<bool, Fail> {
    match CommitMarks::read(alloc, headers)? {
        Some(marks) => {
            let are_written = are_written(alloc, &marks, headers)?;
            Ok(are_written && *count == Some(marks.len()) && marks.is_empty() == headers.is_empty())
        }
        None => Ok(count.is_none()),
    }
}

#[test]
fn headers_read_and_write(rt: HostRuntime) -> Result<(), Fail> {
    for (headers, count) in HEADERS {
        let are_read = are_read(rt.alloc(), headers, count)?;
        assert!(rt; are_read);
    }
    Ok(())
}

// Whether the mark is that of this manifest.
fn is_manifest(mark: &Mark, want: &ManifestRev) -> bool {
    match mark {
        Mark::Manifest(manifest) => manifest == want,
        _ => false,
    }
}

#[test]
fn marks_hold_their_parts(rt: HostRuntime) -> Result<(), Fail> {
    let node = Id::new([0x11; 20]);
    let manifest = ManifestRev::Over {
        p: node,
        q: Id::NULL,
    };
    let mut marks = CommitMarks::new(rt.alloc());
    marks.push(Mark::Manifest(manifest))?;
    assert!(rt; marks.len() == 1 && is_manifest(marks.at(0), &manifest));
    Ok(())
}

/// A date line with extras, and the author's line and the number of parents that these mark; none
/// where they are no marks.
struct Line {
    text: &'static [u8],
    marks: Option<(Option<&'static [u8]>, Option<u8>)>,
}

const LINES: &[Line] = &[
    Line {
        text: b"0 0",
        marks: Some((None, None)),
    },
    Line {
        text: b"0 0 hg-git-author:Ann%20<ann@x>%200%20-0000",
        marks: Some((Some(b"Ann <ann@x> 0 -0000"), None)),
    },
    Line {
        text: b"0 0 hg-git-author:a\0hg-git-committer:b\0hg-git-headers:encoding%20x%0A\0hg-git-message:\0hg-git-parents:64",
        marks: Some((Some(b"a"), Some(64))),
    },
    Line {
        text: b"0 0 hg-git-parents:4",
        marks: Some((None, Some(4))),
    },
    Line {
        text: b"0 0 hg-git-parents:03",
        marks: None,
    },
    Line {
        text: b"0 0 hg-git-parents:2",
        marks: None,
    },
    Line {
        text: b"0 0 hg-git-parents:65",
        marks: None,
    },
    Line {
        text: b"0 0 hg-git-x:a",
        marks: None,
    },
    Line {
        text: b"0 0 branch:stable\0hg-git-author:a",
        marks: None,
    },
    Line {
        text: b"0 0 hg-git-author:a\0hg-git-x:a",
        marks: None,
    },
    Line {
        text: b"0 0 hg-git-headers:a%41",
        marks: None,
    },
];

fn is_item(item: &ExtraItem, want: &ExtraItem) -> bool {
    item.key.as_slice() == want.key.as_slice() && item.value.as_slice() == want.value.as_slice()
}

fn are_items(items: &Extras, want: &Extras) -> bool {
    if items.len() != want.len() {
        return false;
    }
    for place in 0..items.len() {
        if !is_item(items.at(place), want.at(place)) {
            return false;
        }
    }
    true
}

// Whether the marks are those of the line.
fn is_marked(marks: &ChangesetMarks, line: &Line) -> bool {
    let Some((author, parents)) = line.marks else {
        return false;
    };
    let has_author = marks.author.as_ref().map(|line| line.as_slice()) == author;
    has_author && marks.parents == parents
}

fn holds(alloc: Global, line: &Line) -> Result<bool, Fail> {
    let DateLine::Plain { extras, .. } = DateLine::read(alloc, line.text)? else {
        return Ok(false);
    };
    match ChangesetMarks::read(alloc, &extras)? {
        Some(marks) => {
            let items = marks.to_extras(alloc)?;
            Ok(is_marked(&marks, line) && are_items(&items, &extras))
        }
        None => Ok(line.marks.is_none()),
    }
}

#[test]
fn extras_read_and_write(rt: HostRuntime) -> Result<(), Fail> {
    for line in LINES {
        let holds = holds(rt.alloc(), line)?;
        assert!(rt; holds);
    }
    Ok(())
}

/// A date line with an extra of a residue, and how many items the residue has; none where the
/// extras are no marks.
const TREES: &[(&[u8], Option<usize>)] = &[
    (b"0 0 hg-git-tree:", Some(0)),
    (
        b"0 0 hg-git-tree:link:2222222222222222222222222222222222222222:lib",
        Some(1),
    ),
    (b"0 0 hg-git-tree:group:a", Some(1)),
    (b"0 0 hg-git-tree:empty:d", Some(1)),
    (b"0 0 hg-git-tree:empty:", Some(1)),
    (
        b"0 0 hg-git-tree:group:a%20b empty:c:d link:0f0f0f0f0f0f0f0f0f0f0f0f0f0f0f0f0f0f0f0f:e%25",
        Some(3),
    ),
    (
        b"0 0 hg-git-author:a\0hg-git-parents:3\0hg-git-tree:group:a",
        Some(1),
    ),
    (b"0 0 hg-git-tree:group:b group:a", None),
    (b"0 0 hg-git-tree:group:a empty:a", None),
    (b"0 0 hg-git-tree:group:a  group:b", None),
    (b"0 0 hg-git-tree:group:a ", None),
    (b"0 0 hg-git-tree: group:a", None),
    (b"0 0 hg-git-tree:group", None),
    (b"0 0 hg-git-tree:file:a", None),
    (b"0 0 hg-git-tree:group:a%62", None),
    (b"0 0 hg-git-tree:group:a\xff", None),
    (b"0 0 hg-git-tree:link:22:lib", None),
    (
        b"0 0 hg-git-tree:link:222222222222222222222222222222222222222A:lib",
        None,
    ),
    (
        b"0 0 hg-git-tree:link:2222222222222222222222222222222222222222",
        None,
    ),
    (b"0 0 hg-git-tree:group:a\0hg-git-x:a", None),
];

// Whether the extras of the line are those of a residue of so many items, or of no marks.
fn has_residue(alloc: Global, text: &[u8], items: &Option<usize>) -> Result<bool, Fail> {
    let DateLine::Plain { extras, .. } = DateLine::read(alloc, text)? else {
        return Ok(false);
    };
    let Some(marks) = ChangesetMarks::read(alloc, &extras)? else {
        return Ok(items.is_none());
    };
    let written = marks.to_extras(alloc)?;
    let count = marks.tree.as_ref().map(|tree| tree.len());
    Ok(count.is_some() && count == *items && are_items(&written, &extras))
}

#[test]
fn residues_read_and_write(rt: HostRuntime) -> Result<(), Fail> {
    for (text, items) in TREES {
        let has_residue = has_residue(rt.alloc(), text, items)?;
        assert!(rt; has_residue);
    }
    Ok(())
}
