// Texts of changesets.
use bridge_text::{Bytes, Id, Paths};
use hg_changeset::{Changeset, ChangesetFault, DateLine, ExtraItem, Extras};
use std::alloc::Global;
use std::test::Fail;

/// A text, and what its changeset is or why it is none.
struct Case {
    text: &'static [u8],
    answer: Result<Shown, ChangesetFault>,
}

/// Parts of a changeset.
#[derive(Clone, Copy)]
struct Shown {
    user: &'static [u8],
    files: &'static [&'static [u8]],
    desc: &'static [u8],
    canonical: bool,
}

const CASES: &[Case] = &[
    Case {
        text: b"1111111111111111111111111111111111111111\nAnn <ann@x>\n0 0\na\n\none",
        answer: Ok(Shown {
            user: b"Ann <ann@x>",
            files: &[b"a"],
            desc: b"one",
            canonical: true,
        }),
    },
    Case {
        text: b"1111111111111111111111111111111111111111\na\n0 0\n\n",
        answer: Ok(Shown {
            user: b"a",
            files: &[],
            desc: b"",
            canonical: true,
        }),
    },
    Case {
        text: b"1111111111111111111111111111111111111111\na\n0 0 b:1\0a:2\nx\ny/z\n\n\none\n\ntwo\n",
        answer: Ok(Shown {
            user: b"a",
            files: &[b"x", b"y/z"],
            desc: b"\none\n\ntwo\n",
            canonical: false,
        }),
    },
    Case {
        text: b"1111111111111111111111111111111111111111\na\n\n\nno date",
        answer: Ok(Shown {
            user: b"a",
            files: &[],
            desc: b"no date",
            canonical: false,
        }),
    },
    Case {
        text: b"",
        answer: Err(ChangesetFault::Shape(0)),
    },
    Case {
        text: b"1111111111111111111111111111111111111111",
        answer: Err(ChangesetFault::Shape(0)),
    },
    Case {
        text: b"111111111111111111111111111111111111111\na\n0 0\n\n",
        answer: Err(ChangesetFault::Shape(0)),
    },
    Case {
        text: b"A111111111111111111111111111111111111111\na\n0 0\n\n",
        answer: Err(ChangesetFault::Shape(0)),
    },
    Case {
        text: b"1111111111111111111111111111111111111111\n\n0 0\n\n",
        answer: Err(ChangesetFault::Shape(41)),
    },
    Case {
        text: b"1111111111111111111111111111111111111111\na",
        answer: Err(ChangesetFault::Shape(41)),
    },
    Case {
        text: b"1111111111111111111111111111111111111111\nann\n0 0",
        answer: Err(ChangesetFault::Shape(45)),
    },
    Case {
        text: b"1111111111111111111111111111111111111111\na\n0 0\n",
        answer: Err(ChangesetFault::Shape(47)),
    },
    Case {
        text: b"1111111111111111111111111111111111111111\na\n0 0\nx\ny\n",
        answer: Err(ChangesetFault::Shape(51)),
    },
];

fn are_paths(paths: &Paths, want: &[&[u8]]) -> bool {
    paths.len() == want.len()
        && paths
            .as_slice()
            .iter()
            .zip(want)
            .all(|(path, want)| path.as_slice() == *want)
}

// Whether a changeset has these parts, and the manifest of ones.
fn is_shown(changeset: &Changeset, shown: &Shown) -> bool {
    changeset.manifest == Id::new([0x11; 20])
        && changeset.user.as_slice() == shown.user
        && changeset.desc.as_slice() == shown.desc
        && changeset.is_canonical() == shown.canonical
        && are_paths(&changeset.files, shown.files)
}

// Whether the text of the changeset is this one, appended to what is there.
fn is_appended(alloc: Global, changeset: &Changeset, text: &[u8]) -> Result<bool, Fail> {
    let mut out = Vec::from_slice(alloc, b"front ")?;
    changeset.write_into(&mut out)?;
    Ok(out.strip_prefix(b"front ") == Some(text))
}

// Whether a changeset is the one of the case.
fn is_wanted(alloc: Global, changeset: &Changeset, case: &Case) -> Result<bool, Fail> {
    let is_appended = is_appended(alloc, changeset, case.text)?;
    match &case.answer {
        Ok(shown) => Ok(is_appended && is_shown(changeset, shown)),
        Err(_) => Ok(false),
    }
}

fn is_answered(alloc: Global, case: &Case) -> Result<bool, Fail> {
    match Changeset::read(alloc, case.text) {
        Ok(changeset) => is_wanted(alloc, &changeset, case),
        Err(fault) => Ok(case.answer.err() == Some(fault)),
    }
}

#[test]
fn texts_read_and_write(rt: HostRuntime) -> Result<(), Fail> {
    for (i, case) in CASES.iter().enumerate() {
        let is_answered = is_answered(rt.alloc(), case)?;
        assert!(rt; is_answered, "at {i}");
    }
    Ok(())
}

/// A date line, and its numbers and items where it is Plain.
struct Line {
    text: &'static [u8],
    plain: Option<(i64, i64, &'static [(&'static [u8], &'static [u8])])>,
}

const LINES: &[Line] = &[
    Line {
        text: b"0 0",
        plain: Some((0, 0, &[])),
    },
    Line {
        text: b"1700000000 -7200",
        plain: Some((1700000000, -7200, &[])),
    },
    Line {
        text: b"-4611686018427387904 2147483648 branch:stable",
        plain: Some((-4611686018427387904, 2147483648, &[(b"branch", b"stable")])),
    },
    Line {
        text: b"4611686018427387904 -2147483648",
        plain: Some((4611686018427387904, -2147483648, &[])),
    },
    Line {
        text: b"1 2 a:\0b:x y:z\0c:\\\\n\\n\\r\\0",
        plain: Some((1, 2, &[(b"a", b""), (b"b", b"x y:z"), (b"c", b"\\n\n\r\0")])),
    },
    Line {
        text: b"1 2 \\n\\\\:v",
        plain: Some((1, 2, &[(b"\n\\", b"v")])),
    },
    Line {
        text: b"4611686018427387905 0",
        plain: None,
    },
    Line {
        text: b"-4611686018427387905 0",
        plain: None,
    },
    Line {
        text: b"0 2147483649",
        plain: None,
    },
    Line {
        text: b"0 -2147483649",
        plain: None,
    },
    Line {
        text: b"99999999999999999999999 0",
        plain: None,
    },
    Line {
        text: b"0 0 b:1\0a:2",
        plain: None,
    },
    Line {
        text: b"0 0 a:1\0a:2",
        plain: None,
    },
    Line {
        text: b"00 0",
        plain: None,
    },
    Line {
        text: b"-0 0",
        plain: None,
    },
    Line {
        text: b"- 0",
        plain: None,
    },
    Line {
        text: b"+1 0",
        plain: None,
    },
    Line {
        text: b"-01 0",
        plain: None,
    },
    Line {
        text: b"1  0",
        plain: None,
    },
    Line {
        text: b"1 0 ",
        plain: None,
    },
    Line {
        text: b"1",
        plain: None,
    },
    Line {
        text: b"",
        plain: None,
    },
    Line {
        text: b"1 0 a",
        plain: None,
    },
    Line {
        text: b"1 0 :a",
        plain: None,
    },
    Line {
        text: b"1 0 a:b\0",
        plain: None,
    },
    Line {
        text: b"1 0 a:\\",
        plain: None,
    },
    Line {
        text: b"1 0 a:\\t",
        plain: None,
    },
    Line {
        text: b"1 0 a:\r",
        plain: None,
    },
];

// The text of a changeset with this date line.
fn text_with(alloc: Global, date: &[u8]) -> Result<Vec<u8>, Fail> {
    let mut text = Vec::from_slice(alloc, b"0000000000000000000000000000000000000000\nu\n")?;
    text.extend_from_slice(date)?;
    text.extend_from_slice(b"\n\n")?;
    Ok(text)
}

// Whether the text is what the changeset that is read of it writes.
fn comes_back(alloc: Global, text: &[u8]) -> Result<bool, Fail> {
    match Changeset::read(alloc, text) {
        Ok(changeset) => {
            let mut out = Vec::new(alloc);
            changeset.write_into(&mut out)?;
            Ok(out.as_slice() == text)
        }
        Err(_) => Ok(false),
    }
}

// Reads and writes a changeset with this date line.
fn is_written(alloc: Global, date: &[u8]) -> Result<bool, Fail> {
    let text = text_with(alloc, date)?;
    comes_back(alloc, &text)
}

fn has_item(extras: &Extras, place: usize, key: &[u8], value: &[u8]) -> bool {
    if place >= extras.len() {
        return false;
    }
    let item = extras.at(place);
    item.key.as_slice() == key && item.value.as_slice() == value && extras.get(key) == Some(value)
}

fn are_items(extras: &Extras, items: &[(&[u8], &[u8])]) -> bool {
    for (place, (key, value)) in items.iter().enumerate() {
        if !has_item(extras, place, key, value) {
            return false;
        }
    }
    extras.len() == items.len() && extras.get(b"d").is_none() && extras.get(b"").is_none()
}

// Whether the line is a plain one with these parts.
fn is_plain(line: &Line, time: i64, tz: i64, extras: &Extras) -> bool {
    let Some((want_time, want_tz, items)) = line.plain else {
        return false;
    };
    time == want_time && tz == want_tz && are_items(extras, items)
}

fn is_read(alloc: Global, line: &Line) -> Result<bool, Fail> {
    match DateLine::read(alloc, line.text)? {
        DateLine::Plain { time, tz, extras } => Ok(is_plain(line, time, tz, &extras)),
        DateLine::Raw(text) => Ok(line.plain.is_none() && text.as_slice() == line.text),
    }
}

#[test]
fn date_lines(rt: HostRuntime) -> Result<(), Fail> {
    for (i, line) in LINES.iter().enumerate() {
        let is_written = is_written(rt.alloc(), line.text)?;
        let is_read = is_read(rt.alloc(), line)?;
        assert!(rt; is_written && is_read, "at {i}");
    }
    Ok(())
}

#[test]
fn extras_pushed(rt: HostRuntime) -> Result<(), Fail> {
    let mut extras = Extras::new(rt.alloc());
    assert!(rt; extras.is_empty());
    extras.push(ExtraItem {
        key: Bytes::of(rt.alloc(), b"branch")?,
        value: Bytes::of(rt.alloc(), b"a\rb")?,
    })?;
    assert!(rt; extras.len() == 1);
    assert!(rt; extras.get(b"branch") == Some(b"a\rb".as_slice()));
    Ok(())
}
