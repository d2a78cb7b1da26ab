// Texts of manifests.
use bridge_text::{Id, NoMemory, fit_path};
use hg_manifest::{Beside, Cursor, Entry, Flag, Manifest, ManifestFault, Near, put_line};
use shared_text::{Text, keep};
use std::alloc::Global;
use std::process::Abort;
use std::test::Fail;

/// A manifest of three entries.
const THREE: &[u8] =
    b"a\01111111111111111111111111111111111111111x\na/b\01111111111111111111111111111111111111111l\nb\01111111111111111111111111111111111111111\n";

/// A text, and how many entries its manifest has, or why it is none.
struct Case {
    text: &'static [u8],
    answer: Result<usize, ManifestFault>,
}

const CASES: &[Case] = &[
    Case {
        text: b"",
        answer: Ok(0),
    },
    Case {
        text: b"a\01111111111111111111111111111111111111111\n",
        answer: Ok(1),
    },
    Case {
        text: THREE,
        answer: Ok(3),
    },
    // A line of the three is lacking, another node stands in one, and one more stands between two of them.
    Case {
        text: b"a/b\01111111111111111111111111111111111111111l\nb\01111111111111111111111111111111111111111\n",
        answer: Ok(2),
    },
    Case {
        text: b"a\02222222222222222222222222222222222222222x\na/b\01111111111111111111111111111111111111111l\n",
        answer: Ok(2),
    },
    Case {
        text: b"a\01111111111111111111111111111111111111111x\na-\01111111111111111111111111111111111111111\na/b\01111111111111111111111111111111111111111l\n",
        answer: Ok(3),
    },
    Case {
        text: b"b\01111111111111111111111111111111111111111\na\01111111111111111111111111111111111111111x\n",
        answer: Err(ManifestFault::Shape(43)),
    },
    Case {
        text: b"a\01111111111111111111111111111111111111111x\na\01111111111111111111111111111111111111111x\n",
        answer: Err(ManifestFault::Shape(44)),
    },
    Case {
        text: b"\n",
        answer: Err(ManifestFault::Shape(0)),
    },
    Case {
        text: b"a1111111111111111111111111111111111111111\n",
        answer: Err(ManifestFault::Shape(0)),
    },
    Case {
        text: b"a\0111111111111111111111111111111111111111\n",
        answer: Err(ManifestFault::Shape(0)),
    },
    Case {
        text: b"a\0AAAAAAAAAAAAAAAAAAAAAAAAAAAAAAAAAAAAAAAA\n",
        answer: Err(ManifestFault::Shape(0)),
    },
    Case {
        text: b"a\01111111111111111111111111111111111111111t\n",
        answer: Err(ManifestFault::Shape(0)),
    },
    Case {
        text: b"a\01111111111111111111111111111111111111111xl\n",
        answer: Err(ManifestFault::Shape(0)),
    },
    Case {
        text: b"a\0\01111111111111111111111111111111111111111\n",
        answer: Err(ManifestFault::Shape(0)),
    },
    Case {
        text: b"a\01111111111111111111111111111111111111111",
        answer: Err(ManifestFault::Shape(0)),
    },
    Case {
        text: b"a\01111111111111111111111111111111111111111\nb\01111111111111111111111111111111111111111x",
        answer: Err(ManifestFault::Shape(43)),
    },
    Case {
        text: b"b\01111111111111111111111111111111111111111\na\01111111111111111111111111111111111111111\n",
        answer: Err(ManifestFault::Shape(43)),
    },
    Case {
        text: b"a\01111111111111111111111111111111111111111\na\01111111111111111111111111111111111111111\n",
        answer: Err(ManifestFault::Shape(43)),
    },
    Case {
        text: b"../b\01111111111111111111111111111111111111111\n",
        answer: Err(ManifestFault::PathUnfit(0)),
    },
    Case {
        text: b"a\01111111111111111111111111111111111111111x\na/../b\01111111111111111111111111111111111111111\n",
        answer: Err(ManifestFault::PathUnfit(44)),
    },
    Case {
        text: b"a\01111111111111111111111111111111111111111\n../b\01111111111111111111111111111111111111111\n",
        answer: Err(ManifestFault::Shape(43)),
    },
    Case {
        text: b"\01111111111111111111111111111111111111111\n",
        answer: Err(ManifestFault::PathUnfit(0)),
    },
    Case {
        text: b"a\01111111111111111111111111111111111111111\n\01111111111111111111111111111111111111111\n",
        answer: Err(ManifestFault::Shape(43)),
    },
    Case {
        text: b"a//b\01111111111111111111111111111111111111111\n\n",
        answer: Err(ManifestFault::PathUnfit(0)),
    },
];

// Whether the text of the manifest is this one, appended to what is there.
fn is_appended(alloc: Global, manifest: &Manifest, text: &[u8]) -> Result<bool, Fail> {
    let mut out = Vec::from_slice(alloc, b"front ")?;
    manifest.write_into(&mut out)?;
    Ok(out.strip_prefix(b"front ") == Some(text))
}

fn is_answered(alloc: Global, case: &Case, near: Near<'_>) -> Result<bool, Fail> {
    match Manifest::read(alloc, &text(alloc, case.text)?, near) {
        Ok(manifest) => {
            let is_appended = is_appended(alloc, &manifest, case.text)?;
            Ok(is_appended && case.answer == Ok(manifest.len()))
        }
        Err(fault) => Ok(case.answer == Err(fault)),
    }
}

fn text(alloc: Global, bytes: &[u8]) -> Result<Text, Fail> {
    Ok(keep(bytes.to_vec(alloc)?)?)
}

#[test]
fn texts_read_and_write(rt: HostRuntime) -> Result<(), Fail> {
    for (i, case) in CASES.iter().enumerate() {
        let is_answered = is_answered(rt.alloc(), case, Near::none())?;
        assert!(rt; is_answered, "at {i}");
    }
    Ok(())
}

// The answers are the same near a manifest that has some of the lines.
#[test]
fn texts_near_others(rt: HostRuntime) -> Result<(), Fail> {
    let three = text(rt.alloc(), THREE)?;
    let other = Manifest::read(rt.alloc(), &three, Near::none()).map_err(|_| "a manifest")?;
    for (i, case) in CASES.iter().enumerate() {
        let is_answered = is_answered(rt.alloc(), case, Near::of(&other, three.as_slice()))?;
        assert!(rt; is_answered, "at {i}");
    }
    Ok(())
}

/// An entry and its line, for a list of them.
struct Row {
    path: &'static [u8],
    flag: Flag,
}

const ROWS: &[Row] = &[
    Row {
        path: b"a",
        flag: Flag::Exec,
    },
    Row {
        path: b"a/b",
        flag: Flag::Link,
    },
    Row {
        path: b"b",
        flag: Flag::Plain,
    },
];

fn is_row(entry: &Entry, row: &Row) -> bool {
    entry.path.as_slice() == row.path
        && entry.node.hex().as_slice() == b"1111111111111111111111111111111111111111".as_slice()
        && entry.flag == row.flag
}

fn has_row_at(manifest: &Manifest, row: &Row) -> bool {
    match manifest.get(row.path) {
        Some(entry) => is_row(entry, row),
        None => false,
    }
}

fn has_any(manifest: &Manifest, paths: &[&[u8]]) -> bool {
    paths.iter().any(|path| manifest.get(path).is_some())
}

#[test]
fn entries_by_place_and_path(rt: HostRuntime) -> Result<(), Fail> {
    let three = text(rt.alloc(), THREE)?;
    let manifest = Manifest::read(rt.alloc(), &three, Near::none()).map_err(|_| "a manifest")?;
    assert!(rt; manifest.len() == ROWS.len() && !manifest.is_empty());
    for (i, row) in ROWS.iter().enumerate() {
        assert!(rt; is_row(manifest.at(i), row) && has_row_at(&manifest, row));
    }
    assert!(rt; !has_any(&manifest, &[b"", b"a/", b"aa", b"c"]));
    Ok(())
}

#[test]
fn a_new_manifest_has_no_entries(rt: HostRuntime) -> Result<(), Fail> {
    let manifest = Manifest::new(rt.alloc());
    assert!(rt; manifest.is_empty() && manifest.len() == 0);
    let is_appended = is_appended(rt.alloc(), &manifest, b"")?;
    assert!(rt; is_appended);
    Ok(())
}

/// Paths, the byte that a node has twenty times, and whether a line of the manifest of three has both.
const LINES: [(&[u8], u8, bool); 5] = [
    (b"a", 0x11, true),
    (b"b", 0x11, true),
    (b"a/b", 0x11, true),
    (b"b", 0, false),
    (b"c", 0x11, false),
];

#[test]
fn lines_by_a_cursor(rt: HostRuntime) -> Result<(), Fail> {
    let three = text(rt.alloc(), THREE)?;
    let manifest = Manifest::read(rt.alloc(), &three, Near::none()).map_err(|_| "a manifest")?;
    let mut cursor = Cursor::new(&manifest);
    for (path, byte, want) in LINES {
        assert!(rt; cursor.has_line(path, &Id::new([byte; 20])) == want);
    }
    Ok(())
}

// The lines of forty files, of which this one has another node.
fn forty(alloc: Global, changed: u8) -> Result<Text, NoMemory> {
    let mut lines = Vec::new(alloc);
    for number in 0..40u8 {
        let byte = if number == changed { 0x22 } else { 0x11 };
        let path = [b'f', b'0' + number / 10, b'0' + number % 10];
        put_line(&mut lines, &path, &Id::new([byte; 20]), Flag::Plain)?;
    }
    keep(lines)
}

fn is_at(entry: Option<&Entry>, path: &[u8]) -> bool {
    match entry {
        Some(entry) => entry.path.as_slice() == path,
        None => false,
    }
}

#[test]
fn lines_beside_others(rt: HostRuntime) -> Result<(), Fail> {
    let before = forty(rt.alloc(), 7)?;
    let after = forty(rt.alloc(), 23)?;
    let old = Manifest::read(rt.alloc(), &before, Near::none()).map_err(|_| "a manifest")?;
    let near = Near::of(&old, before.as_slice());
    let (new, newer) = Manifest::read_near(rt.alloc(), &after, near.again()).map_err(
        |_| "a manifest",
    )?;
    let is_appended = is_appended(rt.alloc(), &new, after.as_slice())?;
    assert!(rt; is_appended);
    let lines = Near::of(&new, after.as_slice());
    assert!(rt; tells_both(Beside::of(lines.again(), near.again(), None)));
    assert!(rt; tells_both(Beside::of(lines, near, Some(&newer))));
    Ok(())
}

// Whether the two lines that differ are told, and no other.
fn tells_both(mut walk: Beside<'_>) -> bool {
    is_at(walk.next(), b"f07") && is_at(walk.next(), b"f23") && walk.next().is_none()
}
