// Why no object was read.
ghost use Rattle.std.specs.Prelude.{◌≡◌};
ghost use Rattle.git_batch.specs.Faults.{fault_of_fill, name_of};
ghost use Rattle.git_batch.specs.declared.fault.BatchFault.TheVariants.{Read, Memory};

use bridge_io::{Failed, FillFault};
use bridge_text::{Fault, Id, NoMemory};
use thiserror::Error;

/// Why no object was read. Each number is an offset in the input.
#[derive(Clone, Copy, Debug, PartialEq, Eq, Error)]
pub enum BatchFault {
    /// The source failed.
    #[error("the source failed")]
    Read,
    /// A line that begins at the offset is of another form or has no LF in 4,096 bytes, or the byte at the offset, which
    /// follows a content, is no LF.
    #[error("no line of an object at {0}")]
    Line(u64),
    /// The line at the offset says that an object is missing.
    #[error("an object is missing at {0}")]
    Missing(u64),
    /// The line of this object, at the offset, names another kind.
    #[error("an object of an unknown kind at {1}")]
    KindUnknown(Id, u64),
    /// The size in the line at the offset is over the limit of its kind.
    #[error("a size over its limit at {0}")]
    Limit(u64),
    /// The input ends at the offset, in an object.
    #[error("the input ends at {0}, in an object")]
    Truncated(u64),
    /// The object goes past the limit of an input, and so does the input.
    #[error("more than 2^29 bytes of input")]
    InputLimit,
    /// The object whose line stands at the offset has another id than this, which its line names.
    #[error("an object of another id at {1}")]
    IdWrong(Id, u64),
    /// Memory ran out.
    #[error("out of memory")]
    Memory,
}

impl BatchFault {
    /// The word that is printed: the variant's name.
    #[tactic(auto, unfolding(text_model::specs::Fault::fault_word))]
    pub fn name(&self) -> &'static [u8]
        ensures { result.now ≡ name_of self.now }
    {
        match self {
            BatchFault::Read => b"Read",
            BatchFault::Line(_) => Fault::Line.name(),
            BatchFault::Missing(_) => Fault::Missing.name(),
            BatchFault::KindUnknown(_, _) => Fault::KindUnknown.name(),
            BatchFault::Limit(_) => Fault::Limit.name(),
            BatchFault::Truncated(_) => Fault::Truncated.name(),
            BatchFault::InputLimit => Fault::InputLimit.name(),
            BatchFault::IdWrong(_, _) => Fault::IdWrong.name(),
            BatchFault::Memory => b"Memory",
        }
    }
}

impl From<Failed> for BatchFault {
    ghost from_gives = { λ _ e. e ≡ Read };

    fn from(_: Failed) -> BatchFault {
        BatchFault::Read
    }
}

impl From<FillFault> for BatchFault {
    ghost from_gives = { λ fault e. e ≡ fault_of_fill fault };

    fn from(fault: FillFault) -> BatchFault {
        match fault {
            FillFault::Read => BatchFault::Read,
            FillFault::Memory => BatchFault::Memory,
        }
    }
}

impl From<NoMemory> for BatchFault {
    ghost from_gives = { λ _ e. e ≡ Memory };

    fn from(_: NoMemory) -> BatchFault {
        BatchFault::Memory
    }
}
