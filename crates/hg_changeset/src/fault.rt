ghost use Rattle.std.specs.Prelude.{◌≡◌};
ghost use Rattle.hg_changeset.specs.declared.fault.ChangesetFault.TheVariants.{Memory};

use bridge_text::NoMemory;
use thiserror::Error;

/// Why a text is no changeset.
#[derive(Clone, Copy, Debug, PartialEq, Eq, Error)]
pub enum ChangesetFault {
    /// The line at this offset is the first that doesn't fit; or this is the length of the text,
    /// and no blank line stands behind the first three lines.
    #[error("no changeset: the line at offset {0}")]
    Shape(usize),
    /// Memory ran out.
    #[error("out of memory")]
    Memory,
}

impl From<NoMemory> for ChangesetFault {
    ghost from_gives = { λ _ fault. fault ≡ Memory };

    fn from(_error: NoMemory) -> ChangesetFault {
        ChangesetFault::Memory
    }
}
