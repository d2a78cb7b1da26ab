ghost use Rattle.std.specs.Prelude.{◌≡◌};
ghost use Rattle.tag_rule.specs.declared.fault.TagFault.TheVariants.{Memory};

use bridge_text::{NoMemory, Refusal};
use thiserror::Error;

/// Why the tags of a stream aren't kept.
#[derive(Clone, Copy, Debug, PartialEq, Eq, Error)]
pub enum TagFault {
    /// ObjectUnknown: the target of this tag, at this place, isn't there. It is the first such tag of the stream.
    #[error("the target of a tag is unknown")]
    Refused(Refusal),
    /// Memory ran out.
    #[error("out of memory")]
    Memory,
}

impl From<NoMemory> for TagFault {
    ghost from_gives = { λ _ fault. fault ≡ Memory };

    fn from(_error: NoMemory) -> TagFault {
        TagFault::Memory
    }
}
