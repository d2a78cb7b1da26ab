// How a run ends, with what is printed of it.
ghost use Rattle.std.specs.Prelude.{◌≡◌};
ghost use Rattle.bridge_cli.specs.Report.{bundle_report, counts_report, objects_report, pull_report, report_value, set_report, state_report, stream_report};
ghost use Rattle.bridge_cli.specs.Status.{status_of};
ghost use Rattle.bridge_cli.specs.declared.report.Report.TheVariants.{Memory};

use crate::status::Status;
use bridge_text::{Id, NoMemory, Refusal};
use git_batch::{BatchFault, StreamFault};
use hg_bundle::BundleFault;
use make_engine::CountsFault;
use name_engine::SetFault;
use pull_engine::PullFault;
use state_text::StateFault;

/// Why what the slot holds is no state.
#[derive(Clone, Copy, Debug, PartialEq, Eq)]
pub enum BadState {
    /// It has more bytes than a state's text.
    TooLong,
    /// Its first line names another version.
    OtherVersion,
    /// The first section that doesn't fit, from 0 to 5.
    Shape(u8),
}

/// How a run ends.
#[derive(Clone, Copy, Debug, PartialEq, Eq)]
pub enum Report {
    Done,
    Refused(Refusal),
    Usage,
    ReadFault,
    WriteFault,
    SlotFault,
    StateBad(BadState),
    Memory,
    /// The commit of the saved state that isn't right, and the right one.
    Mismatch { kept: Id, right: Id },
}

impl Report {
    /// The status that tells it.
    pub fn status(&self) -> Status
        ensures { result ≡ status_of (report_value self.now) }
    {
        match self {
            Report::Done => Status::Done,
            Report::Refused(_) => Status::Refused,
            Report::Usage => Status::Usage,
            Report::ReadFault => Status::ReadFault,
            Report::WriteFault => Status::WriteFault,
            Report::SlotFault => Status::SlotFault,
            Report::StateBad(_) => Status::StateBad,
            Report::Memory => Status::Memory,
            Report::Mismatch { .. } => Status::Mismatch,
        }
    }
}

impl From<BundleFault> for Report {
    ghost from_gives = { λ fault e. e ≡ bundle_report fault };

    fn from(fault: BundleFault) -> Report {
        match fault {
            BundleFault::Refused(why) => Report::Refused(why),
            BundleFault::Read => Report::ReadFault,
            BundleFault::Memory => Report::Memory,
        }
    }
}

impl From<NoMemory> for Report {
    ghost from_gives = { λ _ e. e ≡ Memory };

    fn from(_: NoMemory) -> Report {
        Report::Memory
    }
}

impl From<StreamFault> for Report {
    ghost from_gives = { λ fault e. e ≡ objects_report fault };

    fn from(fault: StreamFault) -> Report {
        match fault {
            StreamFault::Refused(why) => Report::Refused(why),
            StreamFault::Read => Report::ReadFault,
            StreamFault::Memory => Report::Memory,
        }
    }
}

impl From<BatchFault> for Report {
    ghost from_gives = { λ fault e. e ≡ stream_report fault };

    fn from(fault: BatchFault) -> Report {
        Report::from(StreamFault::from(fault))
    }
}

impl From<PullFault> for Report {
    ghost from_gives = { λ fault e. e ≡ pull_report fault };

    fn from(fault: PullFault) -> Report {
        match fault {
            PullFault::Refused(why) => Report::Refused(why),
            PullFault::Read => Report::ReadFault,
            PullFault::Memory => Report::Memory,
        }
    }
}

impl From<SetFault> for Report {
    ghost from_gives = { λ fault e. e ≡ set_report fault };

    fn from(fault: SetFault) -> Report {
        match fault {
            SetFault::Refused(why) => Report::Refused(why),
            SetFault::Read => Report::ReadFault,
            SetFault::Memory => Report::Memory,
        }
    }
}

impl From<CountsFault> for Report {
    ghost from_gives = { λ fault e. e ≡ counts_report fault };

    fn from(fault: CountsFault) -> Report {
        match fault {
            CountsFault::Refused(why) => Report::Refused(why),
            CountsFault::Memory => Report::Memory,
        }
    }
}

impl From<StateFault> for Report {
    ghost from_gives = { λ fault e. e ≡ state_report fault };

    fn from(fault: StateFault) -> Report {
        match fault {
            StateFault::StateVersion => Report::StateBad(BadState::OtherVersion),
            StateFault::StateShape(section) => Report::StateBad(BadState::Shape(section)),
            StateFault::Memory => Report::Memory,
        }
    }
}
