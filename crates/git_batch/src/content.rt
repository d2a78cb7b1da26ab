// The content of an object and the LF behind it.
ghost use Rattle.std.specs.Prelude.{◌≡◌, ◌+◌, ◌≤◌, [], length, IfOk, OnOk, IfErr, IfSome};
ghost use Rattle.std.specs.Io.KnownBytes.{Consumes};
ghost use Rattle.text_model.specs.Limits.{input_limit, text_limit};
ghost use Rattle.text_model.specs.Text.{line};
ghost use Rattle.git_model.specs.Stream.{body_fault};
ghost use Rattle.git_batch.specs.Faults.{AnswerCause, IsFraming, Judges};

use crate::BatchFault;
use crate::input::{input_ends, within_limit};
use bridge_io::{Source, fill_vec};
use shared_text::{Text, keep};
use std::alloc::Global;

/// Reads the content at an offset, and the LF behind it, and puts the content into an empty vector.
#[tactic(auto, unfolding(git_model::specs::Stream::body_fault))]
pub fn read_content<S: Source>(
    src: &mut S,
    at: u64,
    size: usize,
    into: &mut Vec<u8>,
) -> Result<(), BatchFault>
    requires empty { into.old.items ≡ [] }
    requires at { at ≤ input_limit }
    requires size { size ≤ text_limit }
    ensures bytes { OnOk result (Consumes (S.left src.old) (S.left src.new) (line into.new.items)) }
    ensures len { OnOk result (length into.new.items ≡ size) }
    ensures fits { OnOk result (at + size + 1 ≤ input_limit) }
    ensures judged { IfSome (S.left src.old) (λ bytes. Judges (body_fault at size bytes) result) }
    ensures names { IfErr result IsFraming }
    ensures cause { AnswerCause (S.faults src.old) (S.faults src.new) result }
{
    fill_vec(src, into, size + 1)?;
    let end = at + into.len() as u64;
    if into.len() <= size {
        return Err(input_ends(end));
    }
    within_limit(end)?;
    if into.pop() != Some(b'\n') {
        return Err(BatchFault::Line(at + size as u64));
    }
    Ok(())
}

/// Reads the content at an offset, and the LF behind it, as a text: a part of what the source lends, or else bytes of
/// its own.
#[tactic(auto, unfolding(git_model::specs::Stream::body_fault))]
pub fn read_text<S: Source>(
    alloc: Global,
    src: &mut S,
    at: u64,
    size: usize,
) -> Result<Text, BatchFault>
    requires at { at ≤ input_limit }
    requires size { size ≤ text_limit }
    ensures bytes { IfOk result (λ text. Consumes (S.left src.old) (S.left src.new) (line text)) }
    ensures len { IfOk result (λ text. length text ≡ size) }
    ensures fits { OnOk result (at + size + 1 ≤ input_limit) }
    ensures judged { IfSome (S.left src.old) (λ bytes. Judges (body_fault at size bytes) result) }
    ensures names { IfErr result IsFraming }
    ensures cause { AnswerCause (S.faults src.old) (S.faults src.new) result }
{
    if let Some(lent) = src.lend(size + 1) {
        let mut text = lent;
        within_limit(at + text.len() as u64)?;
        if text.as_slice()[size] != b'\n' {
            return Err(BatchFault::Line(at + size as u64));
        }
        text.truncate(size);
        return Ok(text);
    }
    let mut content = Vec::new(alloc);
    read_content(src, at, size, &mut content)?;
    Ok(keep(content)?)
}
