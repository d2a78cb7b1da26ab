ghost use Rattle.std.specs.Prelude.{◌≡◌};
ghost use Rattle.pair_state.specs.declared.fault.PushFault.TheVariants.{Memory};

use bridge_text::NoMemory;
use thiserror::Error;

/// Why a block is not added.
#[derive(Clone, Copy, Debug, PartialEq, Eq, Error)]
pub enum PushFault {
    /// An id of the block is known with another value, or the other side of the block stands in a block already.
    #[error("an id is known with another value")]
    Collision,
    /// Memory ran out.
    #[error("out of memory")]
    Memory,
}

impl From<NoMemory> for PushFault {
    ghost from_gives = { λ _ fault. fault ≡ Memory };

    fn from(_error: NoMemory) -> PushFault {
        PushFault::Memory
    }
}
