// Tables of runs.
use crate::run_over::{Outcome, Outside, run_over};
use bridge_cli::Status;
use std::alloc::Global;
use std::process::Abort;
use std::test::Fail;

/// What comes of a run.
pub enum Answer {
    /// It is done, with this output.
    Done(&'static [u8]),
    /// Its input is refused, with this line.
    Refused(&'static [u8]),
    /// Its words are no command.
    Usage,
}

/// The words, the input, and what comes of them.
pub struct Row(pub &'static [&'static [u8]], pub &'static [u8], pub Answer);

// Whether a run has this answer.
fn is_answered(made: &Outcome, answer: &Answer) -> bool {
    let (status, output, errors): (Status, &[u8], &[u8]) = match answer {
        Answer::Done(output) => (Status::Done, output, b""),
        Answer::Refused(line) => (Status::Refused, b"", line),
        Answer::Usage => (Status::Usage, b"", b"usage\n"),
    };
    made.status == status && made.output.as_slice() == output && made.errors.as_slice() == errors
}

// Whether the row comes out, where the input comes in pieces of at most `cut` bytes.
fn comes_out(alloc: Global, row: &Row, cut: usize) -> Result<bool, Fail> {
    let Row(words, input, answer) = row;
    let made = run_over(alloc, words, Outside::of(input, cut))?;
    Ok(is_answered(&made, answer))
}

/// Runs each row with an input in one piece, and with one that comes byte by byte.
pub fn check(rt: &(impl Abort + AllocGlobal), rows: &[Row]) -> Result<(), Fail> {
    for row in rows {
        let at_once = comes_out(rt.alloc(), row, 0)?;
        let byte_by_byte = comes_out(rt.alloc(), row, 1)?;
        assert!(rt; at_once && byte_by_byte);
    }
    Ok(())
}
