// Why what came gets no block.
ghost use Rattle.std.specs.Prelude.{◌≡◌};
ghost use Rattle.pull_outcome.specs.Takes.{tree_refused, choice_refused, push_refused};
ghost use Rattle.pull_outcome.specs.declared.take_fault.TakeFault.TheVariants.{Memory};

use bridge_text::{Fault, NoMemory};
use pair_known::ChoiceFault;
use pair_state::PushFault;
use tree_shape::TreeFault;

/// Why what came gets no block.
#[derive(Clone, Copy, Debug, PartialEq, Eq)]
pub enum TakeFault {
    /// It is refused for this.
    Refused(Fault),
    /// Memory ran out.
    Memory,
}

impl From<NoMemory> for TakeFault {
    ghost from_gives = { λ _ e. e ≡ Memory };

    fn from(_error: NoMemory) -> TakeFault {
        TakeFault::Memory
    }
}

impl From<TreeFault> for TakeFault {
    ghost from_gives = { λ fault e. e ≡ tree_refused fault };

    fn from(fault: TreeFault) -> TakeFault {
        match fault {
            TreeFault::ObjectUnknown(_) => TakeFault::Refused(Fault::ObjectUnknown),
            TreeFault::PathUnfit => TakeFault::Refused(Fault::PathUnfit),
            TreeFault::Limit => TakeFault::Refused(Fault::PairLimit),
            TreeFault::Memory => TakeFault::Memory,
        }
    }
}

impl From<ChoiceFault> for TakeFault {
    ghost from_gives = { λ fault e. e ≡ choice_refused fault };

    fn from(fault: ChoiceFault) -> TakeFault {
        match fault {
            ChoiceFault::PathClash => TakeFault::Refused(Fault::PathClash),
            ChoiceFault::ParentIsLink => TakeFault::Refused(Fault::ParentIsLink),
            ChoiceFault::NestLimit => TakeFault::Refused(Fault::NestLimit),
            ChoiceFault::PairLimit => TakeFault::Refused(Fault::PairLimit),
            ChoiceFault::Collision => TakeFault::Refused(Fault::Collision),
            ChoiceFault::Memory => TakeFault::Memory,
        }
    }
}

impl From<PushFault> for TakeFault {
    ghost from_gives = { λ fault e. e ≡ push_refused fault };

    fn from(fault: PushFault) -> TakeFault {
        match fault {
            PushFault::Collision => TakeFault::Refused(Fault::Collision),
            PushFault::Memory => TakeFault::Memory,
        }
    }
}
