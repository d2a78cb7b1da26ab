// Runs over a saved state.
use crate::inputs::{LEAST, ONE_CHANGESET};
use crate::pulls::ONE_COMMIT;
use crate::run_over::{Outcome, Outside, run_over};
use bridge_cli::Status;
use std::alloc::{AllocError, Global};
use std::test::Fail;

/// The text of the empty state.
const EMPTY: &[&[u8]] = &[
    b"hg-git-bridge 2\nhg 18\n",
    LEAST,
    b"\ngit 0\n\nmap 0\ntags 0\n\nnames 0\n\n",
];

/// The text of the state of `ONE_CHANGESET`.
pub const ONE: &[&[u8]] = &[
    b"hg-git-bridge 2\nhg 427\n",
    ONE_CHANGESET,
    b"\ngit 295\n",
    ONE_COMMIT,
    b"\nmap 1\n",
    LINE,
    b"tags 0\n\nnames 0\n\n",
];

/// Its line of the map.
const LINE: &[u8] =
    b"fb8491d27293299d600326567e91d35289f99b8d a4ea4b987a267e07d9e0d37626d8ca8509814b76\n";

/// A tag of its commit.
pub const TAG: &[u8] =
    b"4e026e3f8efe351cd7c35b98f6e630d8bc384c32 tag 97\nobject fb8491d27293299d600326567e91d35289f9\
    9b8d\ntype commit\ntag v1\ntagger u <u@v> 0 +0000\n\nfirst\n\n";

/// The beginning of the state with the tag, without its names.
pub const SIDES: &[&[u8]] = &[
    b"hg-git-bridge 2\nhg 427\n",
    ONE_CHANGESET,
    b"\ngit 295\n",
    ONE_COMMIT,
    b"\nmap 1\n",
    LINE,
    b"tags 146\n",
    TAG,
];

/// The state with the tag.
const TAGGED: &[&[u8]] = &[
    b"hg-git-bridge 2\nhg 427\n",
    ONE_CHANGESET,
    b"\ngit 295\n",
    ONE_COMMIT,
    b"\nmap 1\n",
    LINE,
    b"tags 146\n",
    TAG,
    b"\nnames 0\n\n",
];

/// The text whose parts these are.
pub fn text_of(alloc: Global, parts: &[&[u8]]) -> Result<Vec<u8>, AllocError> {
    let mut text = Vec::new(alloc);
    for part in parts {
        text.extend_from_slice(part)?;
    }
    Ok(text)
}

/// A run over a saved state, and what comes of it. A state is the parts of its text.
struct Step {
    /// The command.
    word: &'static [u8],
    /// What it reads.
    input: &'static [u8],
    /// The state that the slot holds before.
    before: &'static [&'static [u8]],
    /// What it writes.
    output: &'static [u8],
    /// The state that the slot holds behind it.
    after: &'static [&'static [u8]],
}

/// Pulls over the empty state, and the same again.
const PULLS: &[Step] = &[
    Step {
        word: b"pull-hg",
        input: LEAST,
        before: EMPTY,
        output: b"",
        after: EMPTY,
    },
    Step {
        word: b"pull-hg",
        input: ONE_CHANGESET,
        before: EMPTY,
        output: ONE_COMMIT,
        after: ONE,
    },
    Step {
        word: b"pull-git",
        input: ONE_COMMIT,
        before: EMPTY,
        output: ONE_CHANGESET,
        after: ONE,
    },
    Step {
        word: b"pull-hg",
        input: ONE_CHANGESET,
        before: ONE,
        output: b"",
        after: ONE,
    },
    Step {
        word: b"pull-git",
        input: ONE_COMMIT,
        before: ONE,
        output: LEAST,
        after: ONE,
    },
];

/// A tag behind its commit, and the same again.
const TAGS: &[Step] = &[
    Step {
        word: b"pull-git",
        input: TAG,
        before: ONE,
        output: LEAST,
        after: TAGGED,
    },
    Step {
        word: b"pull-git",
        input: TAG,
        before: TAGGED,
        output: LEAST,
        after: TAGGED,
    },
];

/// What is written of a saved state.
const DUMPS: &[Step] = &[
    Step {
        word: b"dump-hg",
        input: b"",
        before: EMPTY,
        output: LEAST,
        after: EMPTY,
    },
    Step {
        word: b"dump-hg",
        input: b"",
        before: ONE,
        output: ONE_CHANGESET,
        after: ONE,
    },
    Step {
        word: b"dump-git",
        input: b"",
        before: ONE,
        output: ONE_COMMIT,
        after: ONE,
    },
    Step {
        word: b"map",
        input: b"",
        before: ONE,
        output: LINE,
        after: ONE,
    },
    Step {
        word: b"map",
        input: b"",
        before: EMPTY,
        output: b"",
        after: EMPTY,
    },
];

/// Whether a run is done, with this output and this state behind it.
pub fn is_done(made: &Outcome, output: &[u8], held: &[u8]) -> bool {
    let is_held = match &made.held {
        Some(text) => text.as_slice() == held,
        None => false,
    };
    made.status == Status::Done && made.output.as_slice() == output && is_held
}

fn comes_out(alloc: Global, step: &Step) -> Result<bool, Fail> {
    let Step {
        word,
        input,
        before,
        output,
        after,
    } = step;
    let before = text_of(alloc, before)?;
    let after = text_of(alloc, after)?;
    let made = run_over(alloc, &[word], Outside::over(input, before.as_slice()))?;
    Ok(is_done(&made, output, after.as_slice()))
}

fn come_out(alloc: Global, steps: &[Step]) -> Result<bool, Fail> {
    for step in steps {
        if !comes_out(alloc, step)? {
            return Ok(false);
        }
    }
    Ok(true)
}

#[test]
fn commands_go_on_from_a_saved_state(rt: HostRuntime) -> Result<(), Fail> {
    let pulls = come_out(rt.alloc(), PULLS)?;
    assert!(rt; pulls);
    let tags = come_out(rt.alloc(), TAGS)?;
    assert!(rt; tags);
    let dumps = come_out(rt.alloc(), DUMPS)?;
    assert!(rt; dumps);
    Ok(())
}

/// The commands that begin with the saved state.
const OVER_A_STATE: &[&[u8]] = &[
    b"pull-hg",
    b"pull-git",
    b"dump-hg",
    b"dump-git",
    b"map",
    b"verify",
    b"set-names-hg",
    b"set-names-git",
    b"names-hg",
    b"names-git",
];

/// A text of no state, and the line on the errors.
const BAD: &[(&[u8], &[u8])] = &[
    (b"hg-git-bridge 9\n", b"state StateVersion 0\n"),
    (b"abc", b"state StateShape 0\n"),
    (b"hg-git-bridge 2\n", b"state StateShape 1\n"),
];

// Whether the command says of this text that it is no state, and leaves it.
fn is_bad_for(alloc: Global, word: &[u8], text: &[u8], line: &[u8]) -> Result<bool, Fail> {
    let made = run_over(alloc, &[word], Outside::over(LEAST, text))?;
    let is_left = match &made.held {
        Some(held) => held.as_slice() == text,
        None => false,
    };
    let is_told = made.errors.as_slice() == line;
    Ok(made.status == Status::StateBad && made.output.is_empty() && is_told && is_left)
}

// Whether each command says of this text that it is no state, and leaves it.
fn is_bad(alloc: Global, text: &[u8], line: &[u8]) -> Result<bool, Fail> {
    for word in OVER_A_STATE {
        if !is_bad_for(alloc, word, text, line)? {
            return Ok(false);
        }
    }
    Ok(true)
}

#[test]
fn a_text_of_no_state_is_told(rt: HostRuntime) -> Result<(), Fail> {
    for (text, line) in BAD {
        let is_bad = is_bad(rt.alloc(), text, line)?;
        assert!(rt; is_bad);
    }
    Ok(())
}

/// The call of the slot that fails, and what was written by then.
const SLOT_FAILS: &[(u64, &[u8])] = &[(0, b""), (1, ONE_COMMIT)];

// Whether a run whose slot fails at a call says so, and leaves what it held.
fn is_slot_fault(alloc: Global, call: u64, output: &[u8]) -> Result<bool, Fail> {
    let outside = Outside {
        slot_fails: &[call],
        ..Outside::of(ONE_CHANGESET, 0)
    };
    let made = run_over(alloc, &[b"pull-hg"], outside)?;
    let is_told = made.errors.as_slice() == b"slot fault\n".as_slice();
    let is_written = made.output.as_slice() == output;
    Ok(made.status == Status::SlotFault && is_told && is_written && made.held.is_none())
}

#[test]
fn a_slot_that_fails_is_told(rt: HostRuntime) -> Result<(), Fail> {
    for (call, output) in SLOT_FAILS {
        let is_slot_fault = is_slot_fault(rt.alloc(), *call, output)?;
        assert!(rt; is_slot_fault);
    }
    Ok(())
}

// Whether a pull whose output fails saves nothing.
fn saves_nothing(alloc: Global) -> Result<bool, Fail> {
    let outside = Outside {
        output_fails: &[1],
        ..Outside::of(ONE_CHANGESET, 100)
    };
    let made = run_over(alloc, &[b"pull-hg"], outside)?;
    Ok(made.status == Status::WriteFault && made.output.len() == 100 && made.held.is_none())
}

#[test]
fn an_output_that_fails_leaves_the_slot(rt: HostRuntime) -> Result<(), Fail> {
    let saves_nothing = saves_nothing(rt.alloc())?;
    assert!(rt; saves_nothing);
    Ok(())
}
