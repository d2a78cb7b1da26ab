// Whether an item of the input is whole.
ghost use Rattle.std.specs.Prelude.{◌≡◌, ℕ, ◌+◌, ◌≤◌, ◌<◌, ◌^◌, OnOk, IfErr};
ghost use Rattle.text_model.specs.Fault.{reach, input_limit};
ghost use Rattle.hg_chunk.specs.Reader.{AnswerCause};
ghost use Rattle.hg_chunk.specs.Faults.{Judges, IsItemFault, IsCut};

use crate::ChunkFault;
use bridge_text::INPUT_LIMIT;

/// Judges an item of `need` bytes at an offset, of which `came` came.
pub fn whole(at: u64, need: u64, came: u64) -> Result<(), ChunkFault>
    requires came { came ≤ need }
    requires fits { at + need < 2 ^ 64 }
    ensures all { OnOk result ((came ≡ need) × (at + need ≤ input_limit)) }
    ensures judged { Judges (reach (at + came) (at + need)) result }
    ensures names { IfErr result IsItemFault }
    ensures start { at + need ≤ input_limit → IfErr result IsCut }
    ensures cause { (faults : ℕ) → AnswerCause faults faults result }
{
    if at + came > INPUT_LIMIT {
        return Err(ChunkFault::InputLimit);
    }
    if came < need {
        return Err(ChunkFault::Truncated(at + came));
    }
    Ok(())
}
