// Why a text of names is refused.
ghost use Rattle.std.specs.Prelude.{◌≡◌};
ghost use Rattle.ref_map.specs.Faults.{name_of, fault_at};
ghost use Rattle.ref_map.specs.declared.fault.LineFault.TheVariants.{Memory};

use bridge_text::{Fault, NoMemory};
use thiserror::Error;

/// Why a text of names is refused. Each number is that of the first line that is refused, from 1.
#[derive(Clone, Copy, Debug, PartialEq, Eq, Error)]
pub enum NameFault {
    /// The line is one too many: 100,000 are the limit.
    #[error("more names than the limit, at line {0}")]
    NameLimit(u64),
    /// The line is of no form, lacks its LF, or has a ref in a form other than the first that fits.
    #[error("no form of a name at line {0}")]
    NameShape(u64),
    /// The ref of the line isn't fit.
    #[error("an unfit ref at line {0}")]
    RefUnfit(u64),
    /// The line names a changeset without a partner, or what is no saved commit and no kept tag.
    #[error("an unknown target at line {0}")]
    TargetUnknown(u64),
    /// The line names no kept tag.
    #[error("an unknown tag at line {0}")]
    TagUnknown(u64),
    /// An earlier line has the same ref.
    #[error("a ref twice, at line {0}")]
    NameTwice(u64),
    /// Memory ran out.
    #[error("out of memory")]
    Memory,
}

impl NameFault {
    /// The word that is printed: the variant's name.
    #[tactic(auto, unfolding(text_model::specs::Fault::fault_word))]
    pub fn name(&self) -> &'static [u8]
        ensures { result.now ≡ name_of self.now }
    {
        match self {
            NameFault::NameLimit(_) => Fault::NameLimit.name(),
            NameFault::NameShape(_) => Fault::NameShape.name(),
            NameFault::RefUnfit(_) => Fault::RefUnfit.name(),
            NameFault::TargetUnknown(_) => Fault::TargetUnknown.name(),
            NameFault::TagUnknown(_) => Fault::TagUnknown.name(),
            NameFault::NameTwice(_) => Fault::NameTwice.name(),
            NameFault::Memory => b"Memory",
        }
    }
}

impl From<NoMemory> for NameFault {
    ghost use Rattle.ref_map.specs.declared.fault.NameFault.TheVariants as fault;

    ghost from_gives = { λ _ e. e ≡ fault.Memory };

    fn from(_: NoMemory) -> NameFault {
        NameFault::Memory
    }
}

/// Why one line is refused.
#[derive(Clone, Copy, Debug, PartialEq, Eq)]
pub enum LineFault {
    /// It is one too many.
    NameLimit,
    /// It is of no form, lacks its LF, or has a ref in a form other than the first that fits.
    NameShape,
    /// Its ref isn't fit.
    RefUnfit,
    /// It names a changeset without a partner, or what is no saved commit and no kept tag.
    TargetUnknown,
    /// It names no kept tag.
    TagUnknown,
    /// An earlier line has the same ref.
    NameTwice,
    /// Memory ran out.
    Memory,
}

impl LineFault {
    /// The same of the text in which the line has this number.
    pub fn at(self, number: u64) -> NameFault
        ensures { result ≡ fault_at self number }
    {
        match self {
            LineFault::NameLimit => NameFault::NameLimit(number),
            LineFault::NameShape => NameFault::NameShape(number),
            LineFault::RefUnfit => NameFault::RefUnfit(number),
            LineFault::TargetUnknown => NameFault::TargetUnknown(number),
            LineFault::TagUnknown => NameFault::TagUnknown(number),
            LineFault::NameTwice => NameFault::NameTwice(number),
            LineFault::Memory => NameFault::Memory,
        }
    }
}

impl From<NoMemory> for LineFault {
    ghost from_gives = { λ _ e. e ≡ Memory };

    fn from(_: NoMemory) -> LineFault {
        LineFault::Memory
    }
}
