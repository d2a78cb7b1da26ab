ghost use Rattle.std.specs.Prelude.{◌≡◌};
ghost use Rattle.pair_known.specs.Fault.{choice_fault};
ghost use Rattle.pair_known.specs.declared.choice_fault.ChoiceFault.TheVariants.{Memory};

use crate::fault::PairFault;
use bridge_text::NoMemory;
use thiserror::Error;

/// Why a member has no partner.
#[derive(Clone, Copy, Debug, PartialEq, Eq, Error)]
pub enum ChoiceFault {
    /// A path of the changeset lies below another.
    #[error("a path lies below another")]
    PathClash,
    /// A parent of the changeset has no partner, as a link has none, and the changeset has no unmarking.
    #[error("a parent is a link")]
    ParentIsLink,
    /// Of a changeset that is to be unmarked on the way to the depth two files have one blob id and different bodies, or the blob id of a file is that of
    /// another object.
    #[error("two bodies have one blob id")]
    Collision,
    /// Sixteen unmarkings stand below the member.
    #[error("too many unmarkings stand below the member")]
    NestLimit,
    /// A text, an object or the rows of a tree of the partner, or a text of its links, are too large.
    #[error("a text, an object or a tree of the partner is too large")]
    PairLimit,
    /// Memory ran out.
    #[error("out of memory")]
    Memory,
}

impl From<NoMemory> for ChoiceFault {
    ghost from_gives = { λ _ fault. fault ≡ Memory };

    fn from(_error: NoMemory) -> ChoiceFault {
        ChoiceFault::Memory
    }
}

impl From<PairFault> for ChoiceFault {
    ghost from_gives = { λ error fault. fault ≡ choice_fault error };

    fn from(error: PairFault) -> ChoiceFault {
        match error {
            PairFault::PairLimit => ChoiceFault::PairLimit,
            PairFault::Memory => ChoiceFault::Memory,
        }
    }
}
