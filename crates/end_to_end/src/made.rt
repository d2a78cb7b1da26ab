// Runs that make a history.
use crate::table::{Answer, Row, check};
use std::test::Fail;

/// No changesets, one, too many, and words that are no command: a number is missing, has a leading zero, is no number or is 2^64, or there is a word too many.
const WORDS: &[Row] = &[
    Row(
        &[b"make", b"0", b"5"],
        b"",
        Answer::Done(
            b"changesets 0\ncommits 0\nmarked 0\nlast 0000000000000000000000000000000000000000 0000\
            000000000000000000000000000000000000\n",
        ),
    ),
    Row(
        &[b"make", b"1", b"1"],
        b"",
        Answer::Done(
            b"changesets 1\ncommits 1\nmarked 1\nlast e8abae74a1cd4b55e549fac9181ce214172805d4 256a\
            2f6b57bc0cace357dfb669802eea92e543e6\n",
        ),
    ),
    Row(
        &[b"make", b"20001", b"7"],
        b"",
        Answer::Refused(b"refused CountLimit 0000000000000000000000000000000000000000 0\n"),
    ),
    Row(&[b"make"], b"", Answer::Usage),
    Row(&[b"make", b"5"], b"", Answer::Usage),
    Row(&[b"make", b"01", b"7"], b"", Answer::Usage),
    Row(&[b"make", b"1", b"07"], b"", Answer::Usage),
    Row(&[b"make", b"1", b"x"], b"", Answer::Usage),
    Row(&[b"make", b"", b"1"], b"", Answer::Usage),
    Row(
        &[b"make", b"18446744073709551616", b"1"],
        b"",
        Answer::Usage,
    ),
    Row(
        &[b"make", b"1", b"18446744073709551616"],
        b"",
        Answer::Usage,
    ),
    Row(&[b"make", b"1", b"1", b"1"], b"", Answer::Usage),
    Row(&[b"made", b"1", b"1"], b"", Answer::Usage),
];

#[test]
fn two_numbers_make_a_history(rt: HostRuntime) -> Result<(), Fail> {
    check(&rt, WORDS)
}
