// Why a stream is refused.
ghost use Rattle.std.specs.Prelude.{◌≡◌};
ghost use Rattle.git_batch.specs.StreamFaults.{stream_fault, addition_fault_at, IsOfStream};
ghost use Rattle.git_batch.specs.declared.stream_fault.StreamFault.TheVariants.{Memory};

use crate::BatchFault;
use bridge_text::{Fault, INPUT_LIMIT, Id, NoMemory, Refusal};
use git_store::GitAddFault;
use thiserror::Error;

/// Why no stream was read.
#[derive(Clone, Copy, Debug, PartialEq, Eq, Error)]
pub enum StreamFault {
    /// The bytes are refused; the place is an offset in the input.
    #[error("the stream is refused")]
    Refused(Refusal),
    /// The source failed.
    #[error("the source failed")]
    Read,
    /// Memory ran out.
    #[error("out of memory")]
    Memory,
}

impl From<NoMemory> for StreamFault {
    ghost from_gives = { λ _ e. e ≡ Memory };

    fn from(_: NoMemory) -> StreamFault {
        StreamFault::Memory
    }
}

impl From<BatchFault> for StreamFault {
    ghost from_gives = { λ fault e. e ≡ stream_fault fault };

    fn from(fault: BatchFault) -> StreamFault {
        let refused = |fault, id, place| StreamFault::Refused(Refusal { fault, id, place });
        match fault {
            BatchFault::Read => StreamFault::Read,
            BatchFault::Line(at) => refused(Fault::Line, Id::NULL, at),
            BatchFault::Missing(at) => refused(Fault::Missing, Id::NULL, at),
            BatchFault::KindUnknown(id, at) => refused(Fault::KindUnknown, id, at),
            BatchFault::Limit(at) => refused(Fault::Limit, Id::NULL, at),
            BatchFault::Truncated(at) => refused(Fault::Truncated, Id::NULL, at),
            BatchFault::InputLimit => refused(Fault::InputLimit, Id::NULL, INPUT_LIMIT),
            BatchFault::IdWrong(id, at) => refused(Fault::IdWrong, id, at),
            BatchFault::Memory => StreamFault::Memory,
        }
    }
}

/// The fault of an object that can't be added to a store.
pub fn addition_fault(fault: GitAddFault, id: Id, at: u64) -> StreamFault
    ensures fault { result ≡ addition_fault_at fault id at }
    ensures names { IsOfStream result }
{
    let refused = |fault| StreamFault::Refused(Refusal {
        fault,
        id,
        place: at,
    });
    match fault {
        GitAddFault::ObjectShape => refused(Fault::ObjectShape),
        GitAddFault::ModeOut => refused(Fault::ModeOut),
        GitAddFault::NameUnfit => refused(Fault::NameUnfit),
        GitAddFault::ParentTwice => refused(Fault::ParentTwice),
        GitAddFault::ParentLimit => refused(Fault::ParentLimit),
        GitAddFault::Collision => refused(Fault::Collision),
        GitAddFault::Memory => StreamFault::Memory,
    }
}
