// The form of a state's text.
use crate::values::{BUNDLE, COMMIT, NODE, STREAM, id, text};
use rope::Rope;
use state_part::{
    HeadFault, IdPair, IdPairs, count_into, dumps_in, put_count, put_head, put_map, put_pair,
    put_section, put_sorted_map, read_count, read_head, read_map, read_section, section_laws,
};
use std::alloc::Global;
use std::test::Fail;

fn pair() -> Result<IdPair, Fail> {
    Ok(IdPair {
        commit: id(COMMIT)?,
        node: id(NODE)?,
    })
}

// The first line and three sections of the state of one changeset.
fn written(alloc: Global) -> Result<Vec<u8>, Fail> {
    let mut text = Rope::new(alloc);
    put_head(&mut text)?;
    put_section(&mut text, b"hg", BUNDLE)?;
    put_section(&mut text, b"git", STREAM)?;
    let mut pairs = Vec::new(alloc);
    put_map(&mut pairs, &[pair()?])?;
    text.put(pairs.as_slice())?;
    Ok(text.joined()?)
}

#[test]
fn sections_are_read_as_they_were_written(rt: HostRuntime) -> Result<(), Fail> {
    section_laws();
    let text = written(rt.alloc())?;
    let rest = read_head(&text).map_err(|_| "a first line")?;
    assert!(rt; rest.starts_with(b"hg 427\nHG10UN"));
    let hg = read_section(b"hg", rest).ok_or("a section")?;
    assert!(rt; hg.text == BUNDLE);
    assert!(rt; read_section(b"hg", hg.rest).is_none());
    let git = read_section(b"git", hg.rest).ok_or("a section")?;
    assert!(rt; git.text == STREAM);
    assert!(rt; git.rest.starts_with(b"map 1\nfb8491d27293299d600326567e91d35289f99b8d a4ea4b98"));
    let map = read_map(rt.alloc(), git.rest)?.ok_or("pairs")?;
    assert!(rt; map.pairs.as_slice() == [pair()?].as_slice());
    assert!(rt; map.pairs.len() == 1 && !map.pairs.is_empty() && *map.pairs.at(0) == pair()?);
    assert!(rt; map.rest.is_empty());
    Ok(())
}

#[test]
fn dumps_are_parts_of_a_text(rt: HostRuntime) -> Result<(), Fail> {
    let whole = written(rt.alloc())?;
    let dumps = dumps_in(&text(rt.alloc(), &whole)?)?.ok_or("two dumps")?;
    assert!(rt; dumps.bundle.as_slice() == BUNDLE && dumps.stream.as_slice() == STREAM);
    let none = text(rt.alloc(), b"hg-git-bridge 2\nhg 0\n")?;
    assert!(rt; dumps_in(&none)?.is_none());
    Ok(())
}

/// A first line, and why it is none.
const HEADS: &[(&[u8], Option<HeadFault>)] = &[
    (b"hg-git-bridge 2\n", None),
    (b"hg-git-bridge 1\n", Some(HeadFault::OtherVersion)),
    (
        b"hg-git-bridge 99999999999999999999999\n",
        Some(HeadFault::OtherVersion),
    ),
    (b"hg-git-bridge 02\n", Some(HeadFault::Shape)),
    (b"hg-git-bridge 2", Some(HeadFault::Shape)),
    (b"abc", Some(HeadFault::Shape)),
];

#[test]
fn the_first_line_names_the_version(rt: HostRuntime) {
    for (line, want) in HEADS {
        assert!(rt; read_head(line).err() == *want);
    }
}

/// The line of a word and a number, and the number and how many bytes follow.
const COUNTS: &[(&[u8], Option<(u64, usize)>)] = &[
    (b"map 0\n", Some((0, 0))),
    (
        b"map 18446744073709551615\nrest",
        Some((18446744073709551615, 4)),
    ),
    (b"map 18446744073709551616\n", None),
    (b"map 01\n", None),
    (b"map 1", None),
    (b"tags 1\n", None),
];

#[test]
fn counts_are_read_to_their_limit(rt: HostRuntime) {
    for (line, want) in COUNTS {
        let found = read_count(b"map", line);
        assert!(rt; found.map(|(count, rest)| (count, rest.len())) == *want);
    }
}

#[test]
fn pairs_are_written_in_order_of_their_nodes(rt: HostRuntime) -> Result<(), Fail> {
    let (one, two) = (
        pair()?,
        IdPair {
            commit: id(COMMIT)?,
            node: id(COMMIT)?,
        },
    );
    let mut pairs = IdPairs::new(rt.alloc());
    pairs.push(two)?;
    pairs.push(one)?;
    let mut sorted = Vec::new(rt.alloc());
    put_sorted_map(&mut sorted, pairs)?;
    let mut lines = Vec::new(rt.alloc());
    put_pair(&mut lines, &one)?;
    put_pair(&mut lines, &two)?;
    assert!(rt; sorted == lines);
    let mut count = Rope::new(rt.alloc());
    put_count(&mut count, b"map", 2)?;
    let mut same = Vec::new(rt.alloc());
    count_into(&mut same, b"map", 2)?;
    assert!(rt; same.as_slice() == b"map 2\n".as_slice() && count.joined()? == same);
    Ok(())
}
