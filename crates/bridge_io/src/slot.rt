// Where one text is kept.
ghost use Rattle.std.specs.Prelude.{◌≡◌, ◌≤◌, List, ℕ, Option, [], false, length, Ok, OnOk, OnErr};
ghost use Rattle.bridge_io.specs.Causes.{HasCause};
ghost use Rattle.bridge_io.specs.Slot.{FetchGives, HoldsBytes, FetchHasCause};

use crate::failed::Failed;
use rope::Rope;

/// Why a slot could not be fetched.
#[derive(Clone, Copy, Debug, PartialEq, Eq)]
pub enum SlotFault {
    /// The outside failed, and the count of the slot rose.
    Failed,
    /// More bytes are held than were asked for.
    TooLong,
    /// There was no memory for the bytes.
    Memory,
}

impl From<Failed> for SlotFault {
    ghost use Rattle.bridge_io.specs.declared.slot.SlotFault.{SlotFault};

    ghost from_gives = { λ _ fault. fault ≡ SlotFault.Failed };

    fn from(_: Failed) -> SlotFault {
        SlotFault::Failed
    }
}

/// Holds nothing or one text of bytes, and counts its faults.
pub trait Slot {
    /// Nothing or the bytes that are held, where it tells.
    ghost held: { Self → Option (Option (List ℕ)) };

    /// How often it has failed.
    ghost faults: { Self → ℕ };

    /// Answers whether something is held, and puts it into `into`. `TooLong` comes where it is longer than `max` bytes.
    /// After a fault, and where nothing is held, `into` is empty.
    fn fetch(&mut self, max: usize, into: &mut Vec<u8>) -> Result<bool, SlotFault>
        requires empty { into.old.items ≡ [] }
        ensures held { held self.new ≡ held self.old }
        ensures gives { FetchGives (held self.old) max result into.new.items }
        ensures most { length into.new.items ≤ max }
        ensures none { result ≡ Ok false → into.new.items ≡ [] }
        ensures err { OnErr result (into.new.items ≡ []) }
        ensures cause { FetchHasCause (faults self.old) (faults self.new) result };

    /// Holds the bytes of this text in the place of what was held. After `Failed` it holds what it held.
    fn replace(&mut self, text: &Rope) -> Result<(), Failed>
        ensures ok { OnOk result (HoldsBytes (held self.new) text.now) }
        ensures err { OnErr result (held self.new ≡ held self.old) }
        ensures cause { HasCause (faults self.old) (faults self.new) result };
}
