// Why a pull fails.
ghost use Rattle.std.specs.Prelude.{◌≡◌};
ghost use Rattle.pull_outcome.specs.Refused.{bundle_refused, stream_refused};
ghost use Rattle.pull_outcome.specs.declared.refused.PullFault.TheVariants.{Memory};

use bridge_text::{NoMemory, Refusal};
use git_batch::StreamFault;
use hg_bundle::BundleFault;

/// Why a pull fails. The state that it was to change is given up.
#[derive(Clone, Copy, Debug, PartialEq, Eq)]
pub enum PullFault {
    /// The input is refused: the first fault, the changeset, revision or object of which it is refused, and its offset.
    Refused(Refusal),
    /// The input could not be read: its count of faults rose.
    Read,
    /// Memory ran out.
    Memory,
}

impl From<NoMemory> for PullFault {
    ghost from_gives = { λ _ e. e ≡ Memory };

    fn from(_error: NoMemory) -> PullFault {
        PullFault::Memory
    }
}

impl From<BundleFault> for PullFault {
    ghost from_gives = { λ fault e. e ≡ bundle_refused fault };

    fn from(fault: BundleFault) -> PullFault {
        match fault {
            BundleFault::Refused(why) => PullFault::Refused(why),
            BundleFault::Read => PullFault::Read,
            BundleFault::Memory => PullFault::Memory,
        }
    }
}

impl From<StreamFault> for PullFault {
    ghost from_gives = { λ fault e. e ≡ stream_refused fault };

    fn from(fault: StreamFault) -> PullFault {
        match fault {
            StreamFault::Refused(why) => PullFault::Refused(why),
            StreamFault::Read => PullFault::Read,
            StreamFault::Memory => PullFault::Memory,
        }
    }
}
