ghost use Rattle.std.specs.Prelude.{◌≡◌};
ghost use Rattle.hg_hunk.specs.declared.fault.HunkFault.TheVariants.{Memory};

use std::alloc::AllocError;
use thiserror::Error;

/// Why a delta makes no text of a base.
#[derive(Clone, Copy, Debug, PartialEq, Eq, Error)]
pub enum HunkFault {
    /// The delta ends inside the hunk at this offset.
    #[error("the hunk at {0} is cut")]
    Shape(usize),
    /// The hunk at this offset starts before the end of the one before it, ends before its start,
    /// or ends past the base. It is the first such hunk of a delta of whole hunks.
    #[error("the hunk at {0} is out of range")]
    Range(usize),
    /// The text is longer than the caller allows.
    #[error("the text is too long")]
    Limit,
    /// Memory ran out.
    #[error("out of memory")]
    Memory,
}

impl From<AllocError> for HunkFault {
    ghost from_gives = { λ _ e. e ≡ Memory };

    fn from(_error: AllocError) -> HunkFault {
        HunkFault::Memory
    }
}
