// Why no names are set.
ghost use Rattle.std.specs.Prelude.{◌≡◌};
ghost use Rattle.name_engine.specs.Faults.{fill_fault, name_fault, refused_at};
ghost use Rattle.name_engine.specs.declared.fault.SetFault.TheVariants.{Memory};

use bridge_io::FillFault;
use bridge_text::{Fault, Id, NoMemory, Refusal};
use ref_map::NameFault;

/// Why no names are set. The state that was to have them is given up.
#[derive(Clone, Copy, Debug, PartialEq, Eq)]
pub enum SetFault {
    /// The text is refused: the first fault, with the number of its line, or the limit of an input.
    Refused(Refusal),
    /// The source failed: its count of faults rose.
    Read,
    /// Memory ran out.
    Memory,
}

impl From<NoMemory> for SetFault {
    ghost from_gives = { λ _ e. e ≡ Memory };

    fn from(_: NoMemory) -> SetFault {
        SetFault::Memory
    }
}

impl From<FillFault> for SetFault {
    ghost from_gives = { λ fault e. e ≡ fill_fault fault };

    fn from(fault: FillFault) -> SetFault {
        match fault {
            FillFault::Read => SetFault::Read,
            FillFault::Memory => SetFault::Memory,
        }
    }
}

impl From<NameFault> for SetFault {
    ghost from_gives = { λ fault e. e ≡ name_fault fault };

    fn from(fault: NameFault) -> SetFault {
        match fault {
            NameFault::NameLimit(line) => refused(Fault::NameLimit, line),
            NameFault::NameShape(line) => refused(Fault::NameShape, line),
            NameFault::RefUnfit(line) => refused(Fault::RefUnfit, line),
            NameFault::TargetUnknown(line) => refused(Fault::TargetUnknown, line),
            NameFault::TagUnknown(line) => refused(Fault::TagUnknown, line),
            NameFault::NameTwice(line) => refused(Fault::NameTwice, line),
            NameFault::Memory => SetFault::Memory,
        }
    }
}

/// The text is refused for a fault at a place: the number of a line, or an offset.
pub fn refused(fault: Fault, place: u64) -> SetFault
    ensures { result ≡ refused_at fault place }
{
    SetFault::Refused(Refusal {
        fault,
        id: Id::NULL,
        place,
    })
}
