ghost use Rattle.std.specs.Prelude.{◌≡◌};
ghost use Rattle.state_text.specs.declared.fault.StateFault.TheVariants.{Memory};
ghost use Rattle.state_text.specs.Faults.{head_refused};

use bridge_text::NoMemory;
use state_part::HeadFault;
use thiserror::Error;

/// Why bytes are not read as the text of a state.
#[derive(Clone, Copy, Debug, PartialEq, Eq, Error)]
pub enum StateFault {
    /// The first line names another version.
    #[error("the state is of another version")]
    StateVersion,
    /// The first section that doesn't fit, from 0 to 5.
    #[error("section {0} of the state does not fit")]
    StateShape(u8),
    /// Memory ran out.
    #[error("out of memory")]
    Memory,
}

impl From<NoMemory> for StateFault {
    ghost from_gives = { λ _ fault. fault ≡ Memory };

    fn from(_error: NoMemory) -> StateFault {
        StateFault::Memory
    }
}

impl From<HeadFault> for StateFault {
    ghost from_gives = { λ error fault. fault ≡ head_refused error };

    fn from(error: HeadFault) -> StateFault {
        match error {
            HeadFault::OtherVersion => StateFault::StateVersion,
            HeadFault::Shape => StateFault::StateShape(0),
        }
    }
}
