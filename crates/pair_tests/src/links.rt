// Changesets that are links.
use bridge_text::Id;
use hg_changeset::Changeset;
use link_rule::is_link;
use std::alloc::Global;
use std::process::Abort;
use std::test::Fail;

/// The date line of a changeset with the user and the description of a link, and whether it is one.
const CASES: &[(&[u8], bool)] = &[
    (
        b"0 0 hg-git-link:1111111111111111111111111111111111111111:1:3",
        true,
    ),
    (
        b"0 0 hg-git-link:1111111111111111111111111111111111111111:62:64",
        true,
    ),
    (
        b"0 0 hg-git-link:1111111111111111111111111111111111111111:63:65",
        false,
    ),
    (
        b"0 0 hg-git-link:1111111111111111111111111111111111111111:2:3",
        false,
    ),
    (
        b"0 0 hg-git-link:1111111111111111111111111111111111111111:0:3",
        false,
    ),
    (
        b"0 0 hg-git-link:1111111111111111111111111111111111111111:01:3",
        false,
    ),
    (
        b"0 0 hg-git-link:1111111111111111111111111111111111111111:1:3:3",
        false,
    ),
    (
        b"0 0 hg-git-link:111111111111111111111111111111111111111:1:3",
        false,
    ),
    (
        b"1 0 hg-git-link:1111111111111111111111111111111111111111:1:3",
        false,
    ),
    (
        b"0 1 hg-git-link:1111111111111111111111111111111111111111:1:3",
        false,
    ),
    (
        b"0 0 hg-git:1111111111111111111111111111111111111111:1:3",
        false,
    ),
    (b"0 0", false),
];

fn read_link(alloc: Global, date: &[u8], p: &Id, q: &Id) -> Result<bool, Fail> {
    let mut text = Vec::from_slice(alloc, b"0000000000000000000000000000000000000000\nhg-git\n")?;
    text.extend_from_slice(date)?;
    text.extend_from_slice(b"\n\noctopus link")?;
    let x = Changeset::read(alloc, text.as_slice()).map_err(|_| "a changeset")?;
    Ok(is_link(&x, p, q))
}

#[test]
fn links(rt: HostRuntime) -> Result<(), Fail> {
    let (p, q) = (Id::new([1; 20]), Id::new([2; 20]));
    for (date, want) in CASES {
        let is_link = read_link(rt.alloc(), date, &p, &q)?;
        let with_one_parent = read_link(rt.alloc(), date, &p, &Id::NULL)?;
        assert!(rt; is_link == *want && !with_one_parent);
    }
    Ok(())
}
