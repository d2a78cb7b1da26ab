ghost use Rattle.std.specs.Prelude.{◌≡◌};
ghost use Rattle.git_store.specs.declared.order.fault.OrderFault.TheVariants.{Memory};

use bridge_text::{Id, NoMemory};
use thiserror::Error;

/// Why commits have no order.
#[derive(Clone, Copy, Debug, PartialEq, Eq, Error)]
pub enum OrderFault {
    /// A parent of this commit is neither saved nor placed, and none of the commits that wait can be placed. It is the
    /// first of them in the stream.
    #[error("a parent of a commit is unknown")]
    ParentUnknown(Id),
    /// Memory ran out.
    #[error("out of memory")]
    Memory,
}

impl From<NoMemory> for OrderFault {
    ghost from_gives = { λ _ fault. fault ≡ Memory };

    fn from(_error: NoMemory) -> OrderFault {
        OrderFault::Memory
    }
}
