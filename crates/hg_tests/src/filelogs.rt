// Texts of file revisions.
use bridge_text::Id;
use hg_filelog::{FileShape, copy_of, has_copy, join_into, plain_into, split};
use std::alloc::Global;
use std::test::Fail;

/// The node 0xFF, 0xFF, .. that the copies below name.
const DIGITS: &[u8] = b"ffffffffffffffffffffffffffffffffffffffff";

/// A text of a file revision, and its metadata and body if it has any.
struct Case {
    text: &'static [u8],
    parts: Result<(Option<&'static [u8]>, &'static [u8]), FileShape>,
}

const CASES: &[Case] = &[
    Case {
        text: b"",
        parts: Ok((None, b"")),
    },
    Case {
        text: b"body",
        parts: Ok((None, b"body")),
    },
    Case {
        text: b"\x01",
        parts: Ok((None, b"\x01")),
    },
    Case {
        text: b" \x01\nx",
        parts: Ok((None, b" \x01\nx")),
    },
    Case {
        text: b"\x01\nx",
        parts: Err(FileShape),
    },
    Case {
        text: b"\x01\n\nx",
        parts: Err(FileShape),
    },
    Case {
        text: b"\x01\n\x01\n\x01\nx",
        parts: Ok((Some(b""), b"\x01\nx")),
    },
    Case {
        text: b"\x01\n\x01\x01\nx",
        parts: Ok((Some(b"\x01"), b"x")),
    },
    Case {
        text: b"\x01\na: b\n\x01\n",
        parts: Ok((Some(b"a: b\n"), b"")),
    },
];

// Whether a text has these parts, and is what they are joined to behind what is there.
fn is_split(alloc: Global, case: &Case) -> Result<bool, Fail> {
    let parts = split(case.text);
    if parts != case.parts {
        return Ok(false);
    }
    let Ok((meta, body)) = parts else {
        return Ok(true);
    };
    let mut out = Vec::from_slice(alloc, b"front ")?;
    join_into(&mut out, meta, body)?;
    Ok(out.strip_prefix(b"front ") == Some(case.text))
}

#[test]
fn texts_split_and_join(rt: HostRuntime) -> Result<(), Fail> {
    for (i, case) in CASES.iter().enumerate() {
        let is_split = is_split(rt.alloc(), case)?;
        assert!(rt; is_split, "at {i}");
    }
    Ok(())
}

#[test]
fn plain_bodies(rt: HostRuntime) -> Result<(), Fail> {
    let mut out = Vec::new(rt.alloc());
    plain_into(&mut out, b"x")?;
    plain_into(&mut out, b"\x01\nx")?;
    assert!(rt; out.as_slice() == b"x\x01\n\x01\n\x01\nx".as_slice());
    Ok(())
}

/// Metadata without their node's digits, the path of the copy if they are one, and whether a line names a copy.
struct Copy {
    front: &'static [u8],
    digits: &'static [u8],
    end: &'static [u8],
    path: Option<&'static [u8]>,
    names: bool,
}

const COPIES: &[Copy] = &[
    Copy {
        front: b"copy: a\ncopyrev: ",
        digits: DIGITS,
        end: b"\n",
        path: Some(b"a"),
        names: true,
    },
    Copy {
        front: b"copy: a b\ncopyrev: ",
        digits: DIGITS,
        end: b"\n",
        path: Some(b"a b"),
        names: true,
    },
    Copy {
        front: b"copy: a\ncopyrev: ",
        digits: b"FFFFFFFFFFFFFFFFFFFFFFFFFFFFFFFFFFFFFFFF",
        end: b"\n",
        path: None,
        names: true,
    },
    Copy {
        front: b"copy: \ncopyrev: ",
        digits: DIGITS,
        end: b"\n",
        path: None,
        names: true,
    },
    Copy {
        front: b"copy: a\ncopyrev: ",
        digits: DIGITS,
        end: b"\nmore: 1\n",
        path: None,
        names: true,
    },
    Copy {
        front: b"copy: a\ncopyrev: ",
        digits: DIGITS,
        end: b"",
        path: None,
        names: true,
    },
    Copy {
        front: b"xcopy: a\ncopyrev: ",
        digits: DIGITS,
        end: b"\n",
        path: None,
        names: false,
    },
    Copy {
        front: b"a: b\ncopy: ",
        digits: b"",
        end: b"",
        path: None,
        names: true,
    },
    Copy {
        front: b"",
        digits: b"",
        end: b"",
        path: None,
        names: false,
    },
];

fn meta_of(alloc: Global, copy: &Copy) -> Result<Vec<u8>, Fail> {
    let mut meta = Vec::from_slice(alloc, copy.front)?;
    meta.extend_from_slice(copy.digits)?;
    meta.extend_from_slice(copy.end)?;
    Ok(meta)
}

// Whether the metadata name what the row says.
fn is_copy(meta: &[u8], copy: &Copy) -> bool {
    let names_path = match copy_of(meta) {
        Some((path, node)) => copy.path == Some(path) && node == Id::new([0xff; 20]),
        None => copy.path == None,
    };
    names_path && has_copy(meta) == copy.names
}

#[test]
fn copies(rt: HostRuntime) -> Result<(), Fail> {
    for (i, copy) in COPIES.iter().enumerate() {
        let meta = meta_of(rt.alloc(), copy)?;
        assert!(rt; is_copy(&meta, copy), "at {i}");
    }
    Ok(())
}
