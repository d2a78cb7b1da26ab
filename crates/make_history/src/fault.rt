ghost use Rattle.std.specs.Prelude.{◌≡◌};
ghost use Rattle.make_history.specs.Made.{make_refused};
ghost use Rattle.make_history.specs.declared.fault.MakeFault.TheVariants.{Memory};

use bridge_text::NoMemory;
use pair_state::PushFault;
use std::alloc::AllocError;
use thiserror::Error;

/// Why a history is not made.
#[derive(Clone, Copy, Debug, PartialEq, Eq, Error)]
pub enum MakeFault {
    /// More than 20,000 changesets are asked for.
    #[error("more than 20,000 changesets are asked for")]
    CountLimit,
    /// A revision of the history has the null id, or is known with another text or other parents when those before it are held.
    #[error("two revisions of the history have one id")]
    Collision,
    /// Memory ran out.
    #[error("out of memory")]
    Memory,
}

impl From<NoMemory> for MakeFault {
    ghost from_gives = { λ _ fault. fault ≡ Memory };

    fn from(_error: NoMemory) -> MakeFault {
        MakeFault::Memory
    }
}

impl From<AllocError> for MakeFault {
    ghost from_gives = { λ _ fault. fault ≡ Memory };

    fn from(_error: AllocError) -> MakeFault {
        MakeFault::Memory
    }
}

impl From<PushFault> for MakeFault {
    ghost from_gives = { λ error fault. fault ≡ make_refused error };

    fn from(error: PushFault) -> MakeFault {
        match error {
            PushFault::Collision => MakeFault::Collision,
            PushFault::Memory => MakeFault::Memory,
        }
    }
}
