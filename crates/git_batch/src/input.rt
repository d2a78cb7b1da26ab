// The limit and the end of the input.
ghost use Rattle.std.specs.Prelude.{ℕ, ◌≤◌, ◌<◌, IfErr, OnOk};
ghost use Rattle.text_model.specs.Fault.{reach, input_limit};
ghost use Rattle.git_batch.specs.Faults.{AnswerCause, FaultCause, Judges, IsFault, IsFraming};

use crate::BatchFault;
use bridge_text::INPUT_LIMIT;

/// Judges bytes of the input up to an offset, which are there.
pub fn within_limit(end: u64) -> Result<(), BatchFault>
    ensures all { OnOk result (end ≤ input_limit) }
    ensures judged { (total : ℕ) → end ≤ total → Judges (reach total end) result }
    ensures names { IfErr result IsFraming }
    ensures cause { (faults : ℕ) → AnswerCause faults faults result }
{
    if end > INPUT_LIMIT {
        return Err(BatchFault::InputLimit);
    }
    Ok(())
}

/// The fault of an object that goes on at the offset where the input ends.
pub fn input_ends(total: u64) -> BatchFault
    ensures is { (end : ℕ) → total < end → IsFault (reach total end) result }
    ensures names { IsFraming result }
    ensures cause { (faults : ℕ) → FaultCause faults faults result }
{
    if total > INPUT_LIMIT {
        BatchFault::InputLimit
    } else {
        BatchFault::Truncated(total)
    }
}
