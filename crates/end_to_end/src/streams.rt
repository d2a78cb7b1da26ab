// The listing and the checking of streams.
use crate::table::{Answer, Row, check};
use std::test::Fail;

// The blob, the tree and the commit of a history of one commit.
const ONE_COMMIT: &[u8] =
    b"ce013625030ba8dba906f756967f9e9ca394464a blob 6\nhello\n\n0976950c1fdbcb52435a433913017bf044b3a5\
    8f tree 29\n100644 a\0\xce\x016%\x03\x0b\xa8\xdb\xa9\x06\xf7V\x96\x7f\x9e\x9c\xa3\x94FJ\nfb8491d\
    27293299d600326567e91d35289f99b8d commit 108\ntree 0976950c1fdbcb52435a433913017bf044b3a58f\naut\
    hor Ann <ann@x> 0 +0000\ncommitter Ann <ann@x> 0 +0000\n\none\n\n";

const LIST_GIT: &[&[u8]] = &[b"list-git"];

const CHECK_GIT: &[&[u8]] = &[b"check-git"];

const LISTED: &[Row] = &[
    Row(LIST_GIT, b"", Answer::Done(b"")),
    Row(
        LIST_GIT,
        ONE_COMMIT,
        Answer::Done(
            b"ce013625030ba8dba906f756967f9e9ca394464a blob 6\n\
        0976950c1fdbcb52435a433913017bf044b3a58f tree 29\n\
        fb8491d27293299d600326567e91d35289f99b8d commit 108\n",
        ),
    ),
];

#[test]
fn streams_are_listed(rt: HostRuntime) -> Result<(), Fail> {
    check(&rt, LISTED)
}

const NO_STREAMS: &[Row] = &[
    Row(
        LIST_GIT,
        b"x missing\n",
        Answer::Refused(b"refused Missing 0000000000000000000000000000000000000000 0\n"),
    ),
    Row(
        LIST_GIT,
        b"x missing",
        Answer::Refused(b"refused Truncated 0000000000000000000000000000000000000000 9\n"),
    ),
    Row(
        LIST_GIT,
        b"\n",
        Answer::Refused(b"refused Line 0000000000000000000000000000000000000000 0\n"),
    ),
    Row(
        LIST_GIT,
        b"ce013625030ba8dba906f756967f9e9ca394464a blub 6\nhello\n\n",
        Answer::Refused(b"refused KindUnknown ce013625030ba8dba906f756967f9e9ca394464a 0\n"),
    ),
    Row(
        LIST_GIT,
        b"ce013625030ba8dba906f756967f9e9ca394464a blob 06\nhello\n\n",
        Answer::Refused(b"refused Line 0000000000000000000000000000000000000000 0\n"),
    ),
    Row(
        LIST_GIT,
        b"ce013625030ba8dba906f756967f9e9ca394464a blob 67108865\n",
        Answer::Refused(b"refused Limit 0000000000000000000000000000000000000000 0\n"),
    ),
    Row(
        LIST_GIT,
        b"ce013625030ba8dba906f756967f9e9ca394464a blob 6\nhello\n",
        Answer::Refused(b"refused Truncated 0000000000000000000000000000000000000000 54\n"),
    ),
    Row(
        LIST_GIT,
        b"ce013625030ba8dba906f756967f9e9ca394464a blob 6\nhello\n!",
        Answer::Refused(b"refused Line 0000000000000000000000000000000000000000 54\n"),
    ),
];

#[test]
fn what_is_no_stream_is_refused(rt: HostRuntime) -> Result<(), Fail> {
    check(&rt, NO_STREAMS)
}

const CHECKED: &[Row] = &[
    Row(
        CHECK_GIT,
        b"",
        Answer::Done(b"commits 0\ntrees 0\nblobs 0\ntags 0\n"),
    ),
    Row(
        CHECK_GIT,
        ONE_COMMIT,
        Answer::Done(b"commits 1\ntrees 1\nblobs 1\ntags 0\n"),
    ),
    Row(
        CHECK_GIT,
        b"x missing\n",
        Answer::Refused(b"refused Missing 0000000000000000000000000000000000000000 0\n"),
    ),
    Row(
        CHECK_GIT,
        b"c1b0730e0133447badcfd47fd144e254807b06e1 blob 06\nxxxxxx\n",
        Answer::Refused(b"refused Line 0000000000000000000000000000000000000000 0\n"),
    ),
    Row(
        CHECK_GIT,
        b"c1b0730e0133447badcfd47fd144e254807b06e1 blub 1\nx\n",
        Answer::Refused(b"refused KindUnknown c1b0730e0133447badcfd47fd144e254807b06e1 0\n"),
    ),
    Row(
        CHECK_GIT,
        b"e25f1814e51579d5f55c0f1fe0135ddb28a47f4a blob 1\ny\nc1b0730e0133447badcfd47fd144\
        e254807b06e1 blob 1\nz\n",
        Answer::Refused(b"refused IdWrong c1b0730e0133447badcfd47fd144e254807b06e1 50\n"),
    ),
    Row(
        CHECK_GIT,
        b"b2b0cebfcc522b9a38c49339fcdc1991b28de6f2 tree 31\n100775 lib\0\"\"\"\"\"\"\"\"\"\
        \"\"\"\"\"\"\"\"\"\"\"\n",
        Answer::Refused(b"refused ModeOut b2b0cebfcc522b9a38c49339fcdc1991b28de6f2 0\n"),
    ),
    Row(
        CHECK_GIT,
        b"6ffd96c0e54255f1418482b2158270c314f2ab0f tree 88\n100644 a\0\"\"\"\"\"\"\"\"\"\"\
        \"\"\"\"\"\"\"\"\"\"100644 a.b\0\"\"\"\"\"\"\"\"\"\"\"\"\"\"\"\"\"\"\"\"40000 a\
        \0\"\"\"\"\"\"\"\"\"\"\"\"\"\"\"\"\"\"\"\"\n",
        Answer::Refused(b"refused ObjectShape 6ffd96c0e54255f1418482b2158270c314f2ab0f 0\n"),
    ),
    Row(
        CHECK_GIT,
        b"9cbdb63bb9a2bad06898a06c69052fa5a389a490 tree 32\n100644 .git\0\"\"\"\"\"\"\"\"\
        \"\"\"\"\"\"\"\"\"\"\"\"\n",
        Answer::Refused(b"refused NameUnfit 9cbdb63bb9a2bad06898a06c69052fa5a389a490 0\n"),
    ),
    Row(
        CHECK_GIT,
        b"f0abe8ab57437183b2f0ddebb1a34c38bdcde346 commit 67\ntree 0976950c1fdbcb52435a433\
        913017bf044b3a58f\nauthor x\ncommitter y\n\n",
        Answer::Refused(b"refused ObjectShape f0abe8ab57437183b2f0ddebb1a34c38bdcde346 0\n"),
    ),
    Row(
        CHECK_GIT,
        b"d4cd71476e8a8c921894effd14ee8af3d849db28 tag 96\nobject fb8491d27293299d60032656\
        7e91d35289f99b8d\ntype blub\ntag v1\ntagger Ann <ann@x> 0 +0000\n\nv1\n\n",
        Answer::Refused(b"refused ObjectShape d4cd71476e8a8c921894effd14ee8af3d849db28 0\n"),
    ),
];

#[test]
fn streams_are_checked(rt: HostRuntime) -> Result<(), Fail> {
    check(&rt, CHECKED)
}
