use bridge_text::{
    Bytes, Id, IdList, IdSet, Kind, Paths, TextFault, cut_at, decimal_into, decimal_of,
    escape_into, first_line, fit_name, fit_path, is_decimal_of, line_end, node_id, object_id,
    unescape_into,
};
use std::alloc::Global;
use std::test::Fail;

#[test]
fn ids(rt: HostRuntime) -> Result<(), Fail> {
    let text = b"b80de5d138758541c5f05265ad144ab9fa86d1db";
    let id = Id::from_hex(text).ok_or("40 digits")?;
    assert!(rt; id.hex() == *text);
    assert!(rt; Id::new(id.bytes()) == id);
    assert!(rt; Id::from_hex(&[b'0'; 40]) == Some(Id::NULL));
    assert!(rt; Id::NULL.is_null() && !id.is_null());
    assert!(rt; Id::NULL < id);
    assert!(rt; Id::from_hex(b"B80de5d138758541c5f05265ad144ab9fa86d1db").is_none());
    assert!(rt; Id::from_hex(b"b80de5d138758541c5f05265ad144ab9fa86d1d").is_none());
    assert!(rt; Id::from_hex(b"b80de5d138758541c5f05265ad144ab9fa86d1db0").is_none());
    assert!(rt; Id::from_hex(b"b80de5d138758541c5f05265ad144ab9fa86d1dg").is_none());
    Ok(())
}

/// Nodes by Mercurial, and by SHA-1 of the parents in rising order and the text; objects by Git.
#[test]
fn hashes(rt: HostRuntime) -> Result<(), Fail> {
    let ones = Id::new([0x11; 20]);
    let twos = Id::new([0x22; 20]);
    let nodes: [(Id, Id, &[u8], &[u8]); 4] = [
        (
            Id::NULL,
            Id::NULL,
            b"",
            b"b80de5d138758541c5f05265ad144ab9fa86d1db",
        ),
        (
            ones,
            twos,
            b"hello\n",
            b"6ca69a14a7121f195664d755346e036eb0bb38bf",
        ),
        (
            twos,
            ones,
            b"hello\n",
            b"6ca69a14a7121f195664d755346e036eb0bb38bf",
        ),
        (
            twos,
            Id::NULL,
            b"text",
            b"7db2b37fd1486c2f02043edf36f232a7544c06b7",
        ),
    ];
    for (p, q, text, want) in nodes {
        assert!(rt; node_id(&p, &q, text).hex().as_slice() == want);
    }
    let objects: [(Kind, &[u8], &[u8]); 5] = [
        (Kind::Blob, b"", b"e69de29bb2d1d6434b8b29ae775ad8c2e48c5391"),
        (
            Kind::Blob,
            b"hello\n",
            b"ce013625030ba8dba906f756967f9e9ca394464a",
        ),
        (Kind::Tree, b"", b"4b825dc642cb6eb9a060e54bf8d69288fbee4904"),
        (
            Kind::Commit,
            b"x",
            b"eaa562e454681104aee02c9809ea2ca6ec4aa5cd",
        ),
        (Kind::Tag, b"x", b"89724a1baedd77281179bec063374b666045947a"),
    ];
    for (kind, content, want) in objects {
        assert!(rt; object_id(kind, content).hex().as_slice() == want);
    }
    Ok(())
}

/// Texts, and what they are escaped.
const ESCAPED: &[(&[u8], &[u8])] = &[
    (b"", b""),
    (b"a b%\\", b"a%20b%25%5C"),
    (b"!~\x7F\0\xFF", b"!~%7F%00%FF"),
    (b"a/b\n", b"a/b%0A"),
    (b"\xC3\xA9", b"%C3%A9"),
];

// Whether escaping appends this.
fn is_escaped(alloc: Global, raw: &[u8], text: &[u8]) -> Result<bool, Fail> {
    let mut out = b">".to_vec(alloc)?;
    escape_into(&mut out, raw)?;
    Ok(out.strip_prefix(b">") == Some(text))
}

// Whether unescaping appends this.
fn is_unescaped(alloc: Global, text: &[u8], raw: &[u8]) -> Result<bool, Fail> {
    let mut out = b">".to_vec(alloc)?;
    let is_text = unescape_into(&mut out, text).is_ok();
    Ok(is_text && out.strip_prefix(b">") == Some(raw))
}

#[test]
fn escapes(rt: HostRuntime) -> Result<(), Fail> {
    for (raw, text) in ESCAPED {
        let is_escaped = is_escaped(rt.alloc(), raw, text)?;
        let is_unescaped = is_unescaped(rt.alloc(), text, raw)?;
        assert!(rt; is_escaped && is_unescaped);
    }
    Ok(())
}

/// Texts that aren't escaped, and the place of the first byte that shows it.
const UNESCAPED: &[(&[u8], usize)] = &[
    (b"%41", 0),
    (b"%2a", 0),
    (b"%7E", 0),
    (b"a%2", 1),
    (b"%20%", 3),
    (b"ab c", 2),
    (b"%5C\\", 3),
    (b"%20%G0", 3),
    (b"%25%255\n", 7),
    (b"\xE9", 0),
];

// Whether a text is refused at this place, and nothing is appended.
fn is_refused(alloc: Global, text: &[u8], place: usize) -> Result<bool, Fail> {
    let mut out = b">".to_vec(alloc)?;
    let fault = unescape_into(&mut out, text);
    Ok(fault == Err(TextFault::Shape(place)) && out.as_slice() == b">".as_slice())
}

#[test]
fn texts_that_are_not_escaped(rt: HostRuntime) -> Result<(), Fail> {
    for (text, place) in UNESCAPED {
        let is_refused = is_refused(rt.alloc(), text, *place)?;
        assert!(rt; is_refused);
    }
    Ok(())
}

#[test]
fn decimals(rt: HostRuntime) -> Result<(), Fail> {
    let both: [(u64, &[u8]); 4] = [
        (0, b"0"),
        (7, b"7"),
        (1_234_567_890, b"1234567890"),
        (18_446_744_073_709_551_615, b"18446744073709551615"),
    ];
    for (n, text) in both {
        assert!(rt; decimal_of(text) == Some(n));
        assert!(rt; is_decimal_of(text, n) && !is_decimal_of(text, 8));
        let mut out = Vec::new(rt.alloc());
        decimal_into(&mut out, n)?;
        assert!(rt; out.as_slice() == text);
    }
    let bad: [&[u8]; 8] = [
        b"",
        b"00",
        b"07",
        b"+1",
        b"-1",
        b"1 ",
        b"18446744073709551616",
        b"184467440737095516150",
    ];
    for text in bad {
        assert!(rt; decimal_of(text).is_none());
        assert!(rt; !is_decimal_of(text, 7) && !is_decimal_of(text, 0));
    }
    Ok(())
}

/// Paths of files.
const FIT: &[&[u8]] = &[
    b"a",
    b"a/b",
    b".gitignore",
    b"a/.hgtags",
    b"...",
    b".Git",
    b"a b/\xFF",
];

/// Texts that are no such paths.
const UNFIT: &[&[u8]] = &[
    b"",
    b"/a",
    b"a/",
    b"a//b",
    b".",
    b"a/.",
    b"..",
    b"../a",
    b".git",
    b"a/.git/b",
    b".hg/a",
    b"a\0",
    b"a\nb",
    b"\ra",
];

#[test]
fn paths(rt: HostRuntime) {
    for path in FIT {
        assert!(rt; fit_path(path));
    }
    for text in UNFIT {
        assert!(rt; !fit_path(text));
    }
    assert!(rt; fit_path(&[b'a'; 4096]) && !fit_path(&[b'a'; 4097]));
    assert!(rt; fit_name(b"a") && !fit_name(b"a/b") && !fit_name(b".git") && !fit_name(b""));
}

// A path of so many names and one.
fn deep_path(alloc: Global, names: usize) -> Result<Vec<u8>, Fail> {
    let mut path = b"a".to_vec(alloc)?;
    for _ in 0..names {
        path.extend_from_slice(b"/a")?;
    }
    Ok(path)
}

#[test]
fn deep_paths(rt: HostRuntime) -> Result<(), Fail> {
    let deep = deep_path(rt.alloc(), 255)?;
    let too_deep = deep_path(rt.alloc(), 256)?;
    assert!(rt; fit_path(&deep) && !fit_path(&too_deep));
    Ok(())
}

#[test]
fn lines(rt: HostRuntime) -> Result<(), Fail> {
    let text = b"\nab\n\nc";
    let ends = [Some(0), Some(3), Some(3), Some(3), Some(4), None, None];
    for (from, want) in ends.iter().enumerate() {
        assert!(rt; line_end(text, from) == *want);
    }
    assert!(rt; cut_at(b'b', text) == Some((b"\na".as_slice(), b"\n\nc".as_slice())));
    assert!(rt; cut_at(b'x', text).is_none());
    assert!(rt; first_line(text) == (b"\n".as_slice(), b"ab\n\nc".as_slice()));
    assert!(rt; first_line(b"ab\n") == (b"ab\n".as_slice(), b"".as_slice()));
    assert!(rt; first_line(b"c") == (b"c".as_slice(), b"".as_slice()));
    Ok(())
}

#[test]
fn bytes(rt: HostRuntime) -> Result<(), Fail> {
    let mut bytes = Bytes::of(rt.alloc(), b"a")?;
    bytes.push(b'b')?;
    assert!(rt; bytes.len() == 2 && *bytes.at(1) == b'b' && !bytes.is_empty());
    assert!(rt; Bytes::keep(bytes.into_vec()).as_slice() == b"ab".as_slice());
    assert!(rt; Bytes::new(rt.alloc()).is_empty());
    Ok(())
}

#[test]
fn lists_of_ids(rt: HostRuntime) -> Result<(), Fail> {
    let mut ids = IdList::new(rt.alloc());
    ids.push(Id::NULL)?;
    assert!(rt; ids.len() == 1 && *ids.at(0) == Id::NULL);
    assert!(rt; ids.as_slice() == [Id::NULL].as_slice());
    Ok(())
}

#[test]
fn lists_of_paths(rt: HostRuntime) -> Result<(), Fail> {
    let mut paths = Paths::new(rt.alloc());
    assert!(rt; paths.is_empty());
    let path = Bytes::of(rt.alloc(), b"a/b")?;
    paths.push(path)?;
    assert!(rt; paths.len() == 1 && paths.at(0).as_slice() == b"a/b".as_slice());
    Ok(())
}

#[test]
fn sets_of_ids(rt: HostRuntime) -> Result<(), Fail> {
    let mut set = IdSet::new(rt.alloc());
    for (byte, want) in [(1, true), (1, false), (3, true)] {
        let is_new = set.insert(Id::new([byte; 20]))?;
        assert!(rt; is_new == want);
    }
    assert!(rt; set.contains(&Id::new([1; 20])) && !set.contains(&Id::new([2; 20])));
    let listed = IdSet::of(rt.alloc(), &[Id::new([2; 20]), Id::new([2; 20])])?;
    assert!(rt; listed.contains(&Id::new([2; 20])) && !listed.contains(&Id::new([1; 20])));
    Ok(())
}
