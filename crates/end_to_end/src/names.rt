// Runs of the commands on names.
use crate::inputs::{LEAST, ONE_CHANGESET};
use crate::run_over::{Outside, run_over};
use crate::saved::{ONE, SIDES, TAG, is_done, text_of};
use crate::table::{Answer, Row, check};
use bridge_cli::Status;
use std::alloc::{AllocError, Global};
use std::test::Fail;

/// The refs of a branch, a phase, a note and the tag, in their order.
const REFS: &[u8] =
    b"fb8491d27293299d600326567e91d35289f99b8d refs/heads/main\nfb8491d27293299d600326567e91d352\
    89f99b8d refs/hg/phase/1/a4ea4b987a267e07d9e0d37626d8ca8509814b76\nfb8491d27293299d6003265\
    67e91d35289f99b8d refs/notes/x\n4e026e3f8efe351cd7c35b98f6e630d8bc384c32 refs/tags/v1\n";

/// The same in another order.
const MIXED: &[u8] =
    b"fb8491d27293299d600326567e91d35289f99b8d refs/notes/x\n4e026e3f8efe351cd7c35b98f6e630d8bc3\
    84c32 refs/tags/v1\nfb8491d27293299d600326567e91d35289f99b8d refs/hg/phase/1/a4ea4b987a267\
    e07d9e0d37626d8ca8509814b76\nfb8491d27293299d600326567e91d35289f99b8d refs/heads/main\n";

/// The same names as Mercurial's side has them.
const NAMES: &[u8] =
    b"bookmark a4ea4b987a267e07d9e0d37626d8ca8509814b76 main\nphase 1 a4ea4b987a267e07d9e0d37626\
    d8ca8509814b76\nref fb8491d27293299d600326567e91d35289f99b8d refs/notes/x\nannotated 4e026\
    e3f8efe351cd7c35b98f6e630d8bc384c32 v1\n";

/// Another branch alone, and as a bookmark.
const TWO: &[u8] = b"fb8491d27293299d600326567e91d35289f99b8d refs/heads/two\n";

const BOOKMARK: &[u8] = b"bookmark a4ea4b987a267e07d9e0d37626d8ca8509814b76 two\n";

/// A run over the state with the tag and names, and what comes of it. Names are their refs.
struct Run {
    /// The command.
    word: &'static [u8],
    /// What it reads.
    input: &'static [u8],
    /// The names that the slot holds before.
    before: &'static [u8],
    /// What it writes.
    output: &'static [u8],
    /// The names that the slot holds behind it.
    after: &'static [u8],
}

/// Names that are set take the place of all others, and come back from either side; a pull leaves them.
const RUNS: &[Run] = &[
    Run {
        word: b"set-names-git",
        input: REFS,
        before: b"",
        output: b"",
        after: REFS,
    },
    Run {
        word: b"set-names-git",
        input: MIXED,
        before: b"",
        output: b"",
        after: REFS,
    },
    Run {
        word: b"names-hg",
        input: b"",
        before: REFS,
        output: NAMES,
        after: REFS,
    },
    Run {
        word: b"names-git",
        input: b"",
        before: REFS,
        output: REFS,
        after: REFS,
    },
    Run {
        word: b"set-names-hg",
        input: NAMES,
        before: b"",
        output: b"",
        after: REFS,
    },
    Run {
        word: b"set-names-git",
        input: REFS,
        before: REFS,
        output: b"",
        after: REFS,
    },
    Run {
        word: b"set-names-hg",
        input: BOOKMARK,
        before: REFS,
        output: b"",
        after: TWO,
    },
    Run {
        word: b"set-names-git",
        input: TWO,
        before: REFS,
        output: b"",
        after: TWO,
    },
    Run {
        word: b"names-hg",
        input: b"",
        before: TWO,
        output: BOOKMARK,
        after: TWO,
    },
    Run {
        word: b"pull-hg",
        input: LEAST,
        before: REFS,
        output: b"",
        after: REFS,
    },
    Run {
        word: b"pull-git",
        input: TAG,
        before: REFS,
        output: LEAST,
        after: REFS,
    },
    Run {
        word: b"pull-hg",
        input: ONE_CHANGESET,
        before: TWO,
        output: b"",
        after: TWO,
    },
    Run {
        word: b"set-names-hg",
        input: b"",
        before: REFS,
        output: b"",
        after: b"",
    },
    Run {
        word: b"set-names-git",
        input: b"",
        before: REFS,
        output: b"",
        after: b"",
    },
    Run {
        word: b"names-git",
        input: b"",
        before: b"",
        output: b"",
        after: b"",
    },
];

// The text of the state with the tag and these names.
fn named(alloc: Global, refs: &[u8]) -> Result<Vec<u8>, AllocError> {
    let mut text = text_of(alloc, SIDES)?;
    let head = format!(in alloc; "\nnames {}\n", refs.len())?;
    text.extend_from_slice(head.as_bytes())?;
    text.extend_from_slice(refs)?;
    text.push(b'\n')?;
    Ok(text)
}

fn comes_out(alloc: Global, row: &Run) -> Result<bool, Fail> {
    let before = named(alloc, row.before)?;
    let after = named(alloc, row.after)?;
    let outside = Outside::over(row.input, before.as_slice());
    let made = run_over(alloc, &[row.word], outside)?;
    Ok(is_done(&made, row.output, after.as_slice()))
}

#[test]
fn names_come_back_from_either_side(rt: HostRuntime) -> Result<(), Fail> {
    for row in RUNS {
        let comes_out = comes_out(rt.alloc(), row)?;
        assert!(rt; comes_out);
    }
    Ok(())
}

/// Over a slot that holds nothing.
const NOTHING: &[Row] = &[
    Row(&[b"names-hg"], b"", Answer::Done(b"")),
    Row(&[b"names-git"], b"", Answer::Done(b"")),
    Row(&[b"set-names-hg"], b"", Answer::Done(b"")),
    Row(&[b"set-names-git"], b"", Answer::Done(b"")),
    Row(
        &[b"set-names-git"],
        b"\n",
        Answer::Refused(b"refused NameShape 0000000000000000000000000000000000000000 1\n"),
    ),
    Row(&[b"names-hg", b"names-hg"], b"", Answer::Usage),
    Row(&[b"set-names"], b"", Answer::Usage),
];

#[test]
fn names_of_nothing(rt: HostRuntime) -> Result<(), Fail> {
    check(&rt, NOTHING)
}

/// A text of names that is refused over the state of one changeset, which has no tags: the command, the text, and the fault with its line.
const REFUSED: &[(&[u8], &[u8], &[u8])] = &[
    (
        b"set-names-git",
        b"fb8491d27293299d600326567e91d35289f99b8d refs/heads/main\nfb8491d27293299d600326567e91d352\
        89f99b8d refs/heads/main\n",
        b"refused NameTwice 0000000000000000000000000000000000000000 2\n",
    ),
    (
        b"set-names-git",
        b"fb8491d27293299d600326567e91d35289f99b8d refs/heads/a..b\n",
        b"refused RefUnfit 0000000000000000000000000000000000000000 1\n",
    ),
    (
        b"set-names-git",
        b"fb8491d27293299d600326567e91d35289f99b8d HEAD\n",
        b"refused RefUnfit 0000000000000000000000000000000000000000 1\n",
    ),
    (
        b"set-names-git",
        b"fb8491d27293299d600326567e91d35289f99b8d refs/heads/main\nfb8491d27293299d600326567e91d352\
        89f99b8d refs/x",
        b"refused NameShape 0000000000000000000000000000000000000000 2\n",
    ),
    (
        b"set-names-git",
        b"0000000000000000000000000000000000000000 refs/heads/x\n",
        b"refused TargetUnknown 0000000000000000000000000000000000000000 1\n",
    ),
    (
        b"set-names-git",
        b"4e026e3f8efe351cd7c35b98f6e630d8bc384c32 refs/tags/v1\n",
        b"refused TargetUnknown 0000000000000000000000000000000000000000 1\n",
    ),
    (
        b"set-names-git",
        b"a4ea4b987a267e07d9e0d37626d8ca8509814b76 refs/heads/x\n",
        b"refused TargetUnknown 0000000000000000000000000000000000000000 1\n",
    ),
    (
        b"set-names-hg",
        b"ref fb8491d27293299d600326567e91d35289f99b8d refs/heads/main\n",
        b"refused NameShape 0000000000000000000000000000000000000000 1\n",
    ),
    (
        b"set-names-hg",
        b"annotated 4e026e3f8efe351cd7c35b98f6e630d8bc384c32 v1\n",
        b"refused TagUnknown 0000000000000000000000000000000000000000 1\n",
    ),
    (
        b"set-names-hg",
        b"bookmark a4ea4b987a267e07d9e0d37626d8ca8509814b76 \n",
        b"refused RefUnfit 0000000000000000000000000000000000000000 1\n",
    ),
    (
        b"set-names-hg",
        b"bookmark a4ea4b987a267e07d9e0d37626d8ca8509814b76 main\nbookmark 0000000000000000000000000\
        000000000000000 two\n",
        b"refused TargetUnknown 0000000000000000000000000000000000000000 2\n",
    ),
    (
        b"set-names-hg",
        b"tag a4ea4b987a267e07d9e0d37626d8ca8509814b76 v1\nref fb8491d27293299d600326567e91d35289f99\
        b8d refs/x\ntag a4ea4b987a267e07d9e0d37626d8ca8509814b76 v1\n",
        b"refused NameTwice 0000000000000000000000000000000000000000 3\n",
    ),
    (
        b"set-names-hg",
        b"phase 3 a4ea4b987a267e07d9e0d37626d8ca8509814b76\n",
        b"refused NameShape 0000000000000000000000000000000000000000 1\n",
    ),
    (
        b"set-names-hg",
        b"bookmark a4ea4b987a267e07d9e0d37626d8ca8509814b76 main",
        b"refused NameShape 0000000000000000000000000000000000000000 1\n",
    ),
];

// Whether the text is refused for this, and the slot holds what it held.
fn is_refused(alloc: Global, word: &[u8], text: &[u8], line: &[u8]) -> Result<bool, Fail> {
    let before = text_of(alloc, ONE)?;
    let made = run_over(alloc, &[word], Outside::over(text, before.as_slice()))?;
    let is_left = match &made.held {
        Some(held) => held.as_slice() == before.as_slice(),
        None => false,
    };
    let is_told = made.errors.as_slice() == line;
    Ok(made.status == Status::Refused && made.output.is_empty() && is_told && is_left)
}

#[test]
fn names_are_refused_at_their_line(rt: HostRuntime) -> Result<(), Fail> {
    for (word, text, line) in REFUSED {
        let is_refused = is_refused(rt.alloc(), word, text, line)?;
        assert!(rt; is_refused);
    }
    Ok(())
}
