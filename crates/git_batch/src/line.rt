// The line of an object, up to where it is cut off.
ghost use Rattle.std.specs.Prelude.{◌≡◌, ◌≤◌, ℕ, [], length, IfOk, IfErr, IfSome};
ghost use Rattle.text_model.specs.Limits.{input_limit, line_limit};
ghost use Rattle.git_model.specs.Stream.{line_reading};
ghost use Rattle.git_batch.specs.Faults.{AnswerCause, IsDevice, IsFraming};
ghost use Rattle.git_batch.specs.Line.{HasLine, piece_reading};
ghost use Rattle.git_batch.specs.Header.{ReadsLine, IsTextOf, HasHeader};

use crate::BatchFault;
use crate::byte::{next_byte, push};
use crate::header::{Header, header_of};
use crate::input::{input_ends, within_limit};
use bridge_io::Source;
use bridge_text::LINE_LIMIT;

/// How the line of a missing object ends.
const MISSING: &[u8; 8] = b" missing";

/// What a line ended at.
#[derive(Clone, Copy, Debug, PartialEq, Eq)]
pub enum LineEnd {
    /// Its LF.
    Lf,
    /// The end of the input.
    Input,
    /// Its limit, and the input goes on.
    Limit,
}

/// Reads the line of an object and puts it, without its LF, into an empty vector. `None` is the end of the input.
pub fn read_header<S: Source>(
    src: &mut S,
    at: u64,
    line: &mut Vec<u8>,
) -> Result<Option<Header>, BatchFault>
    requires empty { line.old.items ≡ [] }
    requires at { at ≤ input_limit }
    ensures reads { IfSome (S.left src.old) (λ bytes. ReadsLine (line_reading at bytes) result) }
    ensures header { IfOk result (HasHeader (S.left src.old) (S.left src.new) at line.new.items) }
    ensures names { IfErr result IsFraming }
    ensures cause { AnswerCause (S.faults src.old) (S.faults src.new) result }
{
    let end = read_line(src, line)?;
    judge_line(at, end, line)
}

// Reads a line into an empty vector, without its LF, and says what it ended at.
fn read_line<S: Source>(src: &mut S, line: &mut Vec<u8>) -> Result<LineEnd, BatchFault>
    requires { line.old.items ≡ [] }
    ensures line { IfOk result (λ end. HasLine (S.left src.old) (S.left src.new) end line.new.items) }
    ensures device { IfErr result IsDevice }
    ensures cause { AnswerCause (S.faults src.old) (S.faults src.new) result }
{
    'bytes: while line.len() < LINE_LIMIT {
        match next_byte(src)? {
            None => return Ok(LineEnd::Input),
            Some(b'\n') => return Ok(LineEnd::Lf),
            Some(byte) => push(line, byte)?,
        }
    }
    match next_byte(src)? {
        None => Ok(LineEnd::Input),
        Some(_) => Ok(LineEnd::Limit),
    }
}

// Judges a line at an offset by what it ended at and its bytes before that.
fn judge_line(at: u64, end: LineEnd, text: &[u8]) -> Result<Option<Header>, BatchFault>
    requires at { at ≤ input_limit }
    requires text { length text.now ≤ line_limit }
    ensures reads { ReadsLine (piece_reading at end text.now) result }
    ensures header { IfOk result (IsTextOf at end text.now) }
    ensures names { IfErr result IsFraming }
    ensures cause { (faults : ℕ) → AnswerCause faults faults result }
{
    let len = text.len() as u64;
    match end {
        LineEnd::Input if text.is_empty() => Ok(None),
        LineEnd::Input => Err(input_ends(at + len)),
        LineEnd::Limit => {
            within_limit(at + len)?;
            Err(if text.ends_with(MISSING) {
                BatchFault::Missing(at)
            } else {
                BatchFault::Line(at)
            })
        }
        LineEnd::Lf => {
            within_limit(at + len + 1)?;
            if text.ends_with(MISSING) {
                return Err(BatchFault::Missing(at));
            }
            Ok(Some(header_of(at, text)?))
        }
    }
}
