ghost use Rattle.std.specs.Prelude.{◌≡◌};
ghost use Rattle.pair_known.specs.declared.fault.PairFault.TheVariants.{Memory};

use bridge_text::NoMemory;
use thiserror::Error;

/// Why a member has no draft of its partner.
#[derive(Clone, Copy, Debug, PartialEq, Eq, Error)]
pub enum PairFault {
    /// A text, an object or the rows of a tree of the partner are too large.
    #[error("a text, an object or a tree of the partner is too large")]
    PairLimit,
    /// Memory ran out.
    #[error("out of memory")]
    Memory,
}

impl From<NoMemory> for PairFault {
    ghost from_gives = { λ _ fault. fault ≡ Memory };

    fn from(_error: NoMemory) -> PairFault {
        PairFault::Memory
    }
}
