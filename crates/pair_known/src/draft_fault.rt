ghost use Rattle.std.specs.Prelude.{◌≡◌};
ghost use Rattle.pair_known.specs.declared.draft_fault.DraftFault.TheVariants.{Memory};

use bridge_text::NoMemory;
use hg_store::ViewFault;
use thiserror::Error;

/// Why a changeset has no draft.
#[derive(Clone, Copy, Debug, PartialEq, Eq, Error)]
pub enum DraftFault {
    /// Its node has no view.
    #[error("the changeset, its manifest or one of its files is unknown")]
    Unknown(ViewFault),
    /// Memory ran out.
    #[error("out of memory")]
    Memory,
}

impl From<NoMemory> for DraftFault {
    ghost from_gives = { λ _ fault. fault ≡ Memory };

    fn from(_error: NoMemory) -> DraftFault {
        DraftFault::Memory
    }
}
