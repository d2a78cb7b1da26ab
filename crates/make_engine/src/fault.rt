// Why nothing is counted.
ghost use Rattle.std.specs.Prelude.{◌≡◌, ◌≢◌};
ghost use Rattle.make_engine.specs.Faults.{make_fault, pull_fault};
ghost use Rattle.make_engine.specs.declared.fault.CountsFault.TheVariants.{Memory};
ghost use Rattle.pull_outcome.specs.declared.refused.PullFault.TheVariants as pull;

use bridge_text::{Fault, NoMemory, Refusal};
use make_history::MakeFault;
use pull_engine::PullFault;
use std::alloc::AllocError;
use thiserror::Error;

/// Why nothing is counted of a history.
#[derive(Clone, Copy, Debug, PartialEq, Eq, Error)]
pub enum CountsFault {
    /// The history can't be made, or one of its pulls is refused.
    #[error("the history is refused")]
    Refused(Refusal),
    /// Memory ran out.
    #[error("out of memory")]
    Memory,
}

impl From<NoMemory> for CountsFault {
    ghost from_gives = { λ _ e. e ≡ Memory };

    fn from(_: NoMemory) -> CountsFault {
        CountsFault::Memory
    }
}

impl From<AllocError> for CountsFault {
    ghost from_gives = { λ _ e. e ≡ Memory };

    fn from(_: AllocError) -> CountsFault {
        CountsFault::Memory
    }
}

impl From<MakeFault> for CountsFault {
    ghost from_gives = { λ fault e. e ≡ make_fault fault };

    fn from(fault: MakeFault) -> CountsFault {
        match fault {
            MakeFault::CountLimit => CountsFault::Refused(Refusal::at(Fault::CountLimit, 0)),
            MakeFault::Collision => CountsFault::Refused(Refusal::at(Fault::Collision, 0)),
            MakeFault::Memory => CountsFault::Memory,
        }
    }
}

/// The fault of a pull of bytes in memory, of which no read fails.
pub fn of_pull(fault: PullFault) -> CountsFault
    requires no_read { fault ≢ pull.Read }
    ensures { result ≡ pull_fault fault }
{
    match fault {
        PullFault::Refused(why) => CountsFault::Refused(why),
        PullFault::Read => unreachable!(),
        PullFault::Memory => CountsFault::Memory,
    }
}
