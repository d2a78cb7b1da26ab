// Runs of the audit.
use crate::inputs::ONE_CHANGESET;
use crate::pulls::ONE_COMMIT;
use crate::run_over::{Outcome, Outside, run_over};
use crate::saved::{ONE, TAG, text_of};
use crate::table::{Answer, Row, check};
use bridge_cli::Status;
use std::alloc::Global;
use std::test::Fail;

/// The objects of `ONE_COMMIT`, with another message.
const OTHER_COMMIT: &[u8] =
    b"ce013625030ba8dba906f756967f9e9ca394464a blob 6\nhello\n\n0976950c1fdbcb52435a433913017b\
    f044b3a58f tree 29\n100644 a\0\xce\x016%\x03\x0b\xa8\xdb\xa9\x06\xf7V\x96\x7f\x9e\x9c\
    \xa3\x94FJ\nfa3eb92ad14da182a8acf90176d96d071a339fca commit 108\ntree 0976950c1fdbcb5243\
    5a433913017bf044b3a58f\nauthor Ann <ann@x> 0 +0000\ncommitter Ann <ann@x> 0 +0000\n\nuno\
    \n\n";

/// The state of `ONE_CHANGESET` with this commit, which isn't the one that its changeset gets.
const OTHER: &[&[u8]] = &[
    b"hg-git-bridge 2\nhg 427\n",
    ONE_CHANGESET,
    b"\ngit 295\n",
    OTHER_COMMIT,
    b"\nmap 1\n",
    b"fa3eb92ad14da182a8acf90176d96d071a339fca a4ea4b987a267e07d9e0d37626d8ca8509814b76\n",
    b"tags 0\n\nnames 0\n\n",
];

/// The text of the state of `ONE_CHANGESET` with another number of pairs.
const TWO_PAIRS: &[&[u8]] = &[
    b"hg-git-bridge 2\nhg 427\n",
    ONE_CHANGESET,
    b"\ngit 295\n",
    ONE_COMMIT,
    b"\nmap 2\n",
    b"fb8491d27293299d600326567e91d35289f99b8d a4ea4b987a267e07d9e0d37626d8ca8509814b76\n",
    b"tags 0\n\nnames 0\n\n",
];

/// The state of `ONE_CHANGESET` with a tag of its commit.
const TAGGED: &[&[u8]] = &[
    b"hg-git-bridge 2\nhg 427\n",
    ONE_CHANGESET,
    b"\ngit 295\n",
    ONE_COMMIT,
    b"\nmap 1\n",
    b"fb8491d27293299d600326567e91d35289f99b8d a4ea4b987a267e07d9e0d37626d8ca8509814b76\n",
    b"tags 146\n",
    TAG,
    b"\nnames 0\n\n",
];

/// A state, by the parts of its text, and what its audit says.
struct Audit {
    state: &'static [&'static [u8]],
    status: Status,
    output: &'static [u8],
    errors: &'static [u8],
}

const AUDITS: &[Audit] = &[
    Audit {
        state: ONE,
        status: Status::Done,
        output: b"verified 1\n",
        errors: b"",
    },
    Audit {
        state: TAGGED,
        status: Status::Done,
        output: b"verified 1\n",
        errors: b"",
    },
    Audit {
        state: OTHER,
        status: Status::Mismatch,
        output: b"",
        errors: b"mismatch fa3eb92ad14da182a8acf90176d96d071a339fca fb8491d27293299d600326567e91d3\
            5289f99b8d\n",
    },
    Audit {
        state: TWO_PAIRS,
        status: Status::StateBad,
        output: b"",
        errors: b"state StateShape 3\n",
    },
    Audit {
        state: &[b"abc"],
        status: Status::StateBad,
        output: b"",
        errors: b"state StateShape 0\n",
    },
];

// Whether a run said this and left the text that the slot holds.
fn says(made: &Outcome, audit: &Audit, text: &[u8]) -> bool {
    let is_left = match &made.held {
        Some(held) => held.as_slice() == text,
        None => false,
    };
    let is_told = made.errors.as_slice() == audit.errors;
    made.status == audit.status && made.output.as_slice() == audit.output && is_told && is_left
}

fn comes_out(alloc: Global, audit: &Audit) -> Result<bool, Fail> {
    let text = text_of(alloc, audit.state)?;
    let made = run_over(alloc, &[b"verify"], Outside::over(b"", text.as_slice()))?;
    Ok(says(&made, audit, text.as_slice()))
}

#[test]
fn an_audit_tells_the_first_block_that_is_wrong(rt: HostRuntime) -> Result<(), Fail> {
    for audit in AUDITS {
        let comes_out = comes_out(rt.alloc(), audit)?;
        assert!(rt; comes_out);
    }
    Ok(())
}

/// Over nothing there are no blocks; the input isn't read; and words that are no command.
const WORDS: &[Row] = &[
    Row(&[b"verify"], b"", Answer::Done(b"verified 0\n")),
    Row(&[b"verify"], b"no input", Answer::Done(b"verified 0\n")),
    Row(&[b"verify", b"1"], b"", Answer::Usage),
    Row(&[b"verify", b"1", b"1"], b"", Answer::Usage),
    Row(&[b"Verify"], b"", Answer::Usage),
];

#[test]
fn nothing_is_right(rt: HostRuntime) -> Result<(), Fail> {
    check(&rt, WORDS)
}
