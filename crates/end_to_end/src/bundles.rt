// The listing and the checking of bundles.
use crate::inputs::{
    CHANGED_HUNKS, EMPTY_FILE, LEAST, MARKED_BODY, ODD_PATH, ONE_CHANGESET, ONE_ENTRY, ORPHANED,
    SWAPPED_PARENTS,
};
use crate::table::{Answer, Row, check};
use std::test::Fail;

const LIST_HG: &[&[u8]] = &[b"list-hg"];

const CHECK_HG: &[&[u8]] = &[b"check-hg"];

const LISTED: &[Row] = &[
    Row(LIST_HG, LEAST, Answer::Done(b"")),
    Row(
        LIST_HG,
        ONE_ENTRY,
        Answer::Done(
            b"changeset 1111111111111111111111111111111111111111 0000000000000000000000000000000000000000 0000000000000000000000000000000000000000 1111111111111111111111111111111111111111 0\n",
        ),
    ),
    Row(
        LIST_HG,
        ODD_PATH,
        Answer::Done(
            b"file a%20b%25%5C 1111111111111111111111111111111111111111 0000000000000000000000000000000000000000 0000000000000000000000000000000000000000 1111111111111111111111111111111111111111 0\n",
        ),
    ),
    Row(
        LIST_HG,
        ONE_CHANGESET,
        Answer::Done(
            b"changeset a4ea4b987a267e07d9e0d37626d8ca8509814b76 0000000000000000000000000000000000000000 0000000000000000000000000000000000000000 a4ea4b987a267e07d9e0d37626d8ca8509814b76 75\n\
        manifest d51f7835c8978f5a11f9a33e09d3852ff4979e7c 0000000000000000000000000000000000000000 0000000000000000000000000000000000000000 a4ea4b987a267e07d9e0d37626d8ca8509814b76 55\n\
        file a 2c186c8c5bc0df5af5b951afe407d803f9e6b8c9 0000000000000000000000000000000000000000 0000000000000000000000000000000000000000 a4ea4b987a267e07d9e0d37626d8ca8509814b76 18\n",
        ),
    ),
    Row(&[], LEAST, Answer::Done(b"")),
];

#[test]
fn bundles_are_listed(rt: HostRuntime) -> Result<(), Fail> {
    check(&rt, LISTED)
}

const NO_BUNDLES: &[Row] = &[
    Row(
        LIST_HG,
        b"",
        Answer::Refused(b"refused Truncated 0000000000000000000000000000000000000000 0\n"),
    ),
    Row(
        LIST_HG,
        b"HG10U",
        Answer::Refused(b"refused Truncated 0000000000000000000000000000000000000000 5\n"),
    ),
    Row(
        LIST_HG,
        b"abcdef",
        Answer::Refused(b"refused Magic 0000000000000000000000000000000000000000 0\n"),
    ),
    Row(
        LIST_HG,
        b"HG10GZ",
        Answer::Refused(b"refused OtherBundle 0000000000000000000000000000000000000000 0\n"),
    ),
    Row(
        LIST_HG,
        b"HG10BZ",
        Answer::Refused(b"refused OtherBundle 0000000000000000000000000000000000000000 0\n"),
    ),
    Row(
        LIST_HG,
        b"HG20\0\0",
        Answer::Refused(b"refused OtherBundle 0000000000000000000000000000000000000000 0\n"),
    ),
    Row(
        LIST_HG,
        b"HG10UN\0\0\0",
        Answer::Refused(b"refused Truncated 0000000000000000000000000000000000000000 9\n"),
    ),
    Row(
        LIST_HG,
        b"HG10UN\0\0\0\x04",
        Answer::Refused(b"refused Length 0000000000000000000000000000000000000000 6\n"),
    ),
    Row(
        LIST_HG,
        b"HG10UN\xff\xff\xff\xff",
        Answer::Refused(b"refused Length 0000000000000000000000000000000000000000 6\n"),
    ),
    Row(
        LIST_HG,
        b"HG10UN\x08\0\0\x01",
        Answer::Refused(b"refused Truncated 0000000000000000000000000000000000000000 10\n"),
    ),
    Row(
        LIST_HG,
        b"HG10UN\0\0\0\x14aaaaaaaaaaaaaaaa\0\0\0\0\0\0\0\0\0\0\0\0",
        Answer::Refused(b"refused HeaderShort 0000000000000000000000000000000000000000 6\n"),
    ),
    Row(
        LIST_HG,
        b"HG10UN\0\0\0\0\0\0\0\0\0\0\0\0\0",
        Answer::Refused(b"refused Trailing 0000000000000000000000000000000000000000 18\n"),
    ),
];

#[test]
fn what_is_no_bundle_is_refused(rt: HostRuntime) -> Result<(), Fail> {
    check(&rt, NO_BUNDLES)
}

const CHECKED: &[Row] = &[
    Row(
        CHECK_HG,
        LEAST,
        Answer::Done(b"changesets 0\nmanifests 0\nfiles 0\n"),
    ),
    Row(
        CHECK_HG,
        ONE_CHANGESET,
        Answer::Done(b"changesets 1\nmanifests 1\nfiles 1\n"),
    ),
    Row(
        CHECK_HG,
        EMPTY_FILE,
        Answer::Done(b"changesets 1\nmanifests 1\nfiles 1\n"),
    ),
    Row(
        CHECK_HG,
        MARKED_BODY,
        Answer::Done(b"changesets 1\nmanifests 1\nfiles 1\n"),
    ),
    Row(
        CHECK_HG,
        ONE_ENTRY,
        Answer::Refused(b"refused NodeWrong 1111111111111111111111111111111111111111 6\n"),
    ),
    Row(
        CHECK_HG,
        ODD_PATH,
        Answer::Refused(b"refused LinkUnknown 1111111111111111111111111111111111111111 23\n"),
    ),
    Row(
        CHECK_HG,
        ORPHANED,
        Answer::Refused(b"refused ParentUnknown 9b71ae143605c7f3fecf53026620b693f053e1bd 6\n"),
    ),
    Row(
        CHECK_HG,
        SWAPPED_PARENTS,
        Answer::Refused(b"refused Collision aa789cf29dd7477773d8419cab97c44565deb434 475\n"),
    ),
    Row(
        CHECK_HG,
        CHANGED_HUNKS,
        Answer::Refused(b"refused HunkRange 5233c814c9a56ccc941e5f00f450e6b93a8eb484 517\n"),
    ),
];

#[test]
fn bundles_are_checked(rt: HostRuntime) -> Result<(), Fail> {
    check(&rt, CHECKED)
}

const OTHER_WORDS: &[Row] = &[
    Row(&[b"frob"], b"", Answer::Usage),
    Row(&[b"list-hg", b"list-hg"], b"", Answer::Usage),
    Row(&[b""], b"", Answer::Usage),
    Row(&[b"list-hg "], b"", Answer::Usage),
    Row(&[b"--help"], b"", Answer::Usage),
];

#[test]
fn other_words_are_usage(rt: HostRuntime) -> Result<(), Fail> {
    check(&rt, OTHER_WORDS)
}
