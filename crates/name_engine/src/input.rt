// The whole of an input.
ghost use Rattle.std.specs.Prelude.{◌≡◌, ◌≤◌, length, IfOk, IfErr, IfSome, OnOk};
ghost use Rattle.std.specs.Io.KnownBytes.{IsAtEnd};
ghost use Rattle.text_model.specs.Fault.{input_limit};
ghost use Rattle.name_engine.specs.Faults.{AnswerCause, IsTooLong};
ghost use Rattle.name_engine.specs.Names.{IsOfInput};

use crate::fault::{SetFault, refused};
use bridge_io::{Source, fill_vec};
use bridge_text::{Fault, INPUT_LIMIT};
use std::alloc::Global;

/// All bytes that a source gives. `Refused` for `InputLimit`, with 2^29 as its place, comes exactly where these are more than 2^29, `Read`
/// where the source failed, and `Memory` where memory is wanted.
pub fn read_whole<S: Source>(alloc: Global, src: &mut S) -> Result<Vec<u8>, SetFault>
    ensures bytes { IfOk result (λ text. IfSome (S.left src.old) (λ bytes. text.items ≡ bytes)) }
    ensures short { IfOk result (λ text. length text.items ≤ input_limit) }
    ensures long { IfErr result (λ fault. IfSome (S.left src.old) (λ bytes. IsTooLong bytes fault)) }
    ensures names { IfErr result IsOfInput }
    ensures end { OnOk result (IsAtEnd (S.left src.new)) }
    ensures cause { AnswerCause (S.faults src.old) (S.faults src.new) result }
{
    let mut text = Vec::new(alloc);
    fill_vec(src, &mut text, INPUT_LIMIT as usize + 1)?;
    if text.len() as u64 > INPUT_LIMIT {
        return Err(refused(Fault::InputLimit, INPUT_LIMIT));
    }
    Ok(text)
}
