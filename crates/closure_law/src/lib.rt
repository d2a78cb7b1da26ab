//! Laws of saved histories of which each block is right: both dumps give them back where nothing is saved, and pulls keep them right. No code.
#![tactic(auto)]

ghost use Rattle.std.specs.Prelude.{List, ◌∷◌, Option};
ghost use Rattle.text_model.specs.Text.{Bytes};
ghost use Rattle.text_model.specs.Fault.{Refusal};
ghost use Rattle.state_model.specs.Kept.{State, Kept, kept_of, empty_state};
ghost use Rattle.state_model.specs.Saved.{IsState, SlotHolds};
ghost use Rattle.saved_model.specs.Step.{Pull, Steps, Refuses};
ghost use Rattle.verify_model.specs.Holds.{StateHolds};
ghost use Rattle.closure_model.specs.Closure.{Closure};
ghost use Rattle.closure_law.specs.After.{IsSavedAfter, IsRightAfter};

/// Both dumps of a saved history of which each block is right are accepted where nothing is saved, and refused for nothing. They bring just its
/// blocks, in its order, and the stream brings its tags too.
pub fn dumps_return()
    ensures { Closure }
{}

/// The empty history is right (`empty`). Over a saved history of which each block is right, what an accepted pull leaves is right too, where it is
/// saved again: the blocks that were there and the new ones (`pull`).
pub fn pulls_keep_right()
    ensures empty { StateHolds empty_state }
    ensures pull { (s next : State) (pull : Pull) (made : Bytes) → IsState s → IsState next → Steps (kept_of s) pull (kept_of next) made → StateHolds s
        → StateHolds next }
{}

/// Behind any list of pulls, where each state on the way was saved: the blocks and tags are one conversion of all that the pulls brought, each block is
/// right, and both dumps give them back where nothing is saved (`right`). A pull goes on where the slot holds a state and then the next one
/// (`accepted`), and so does one that is refused (`refused`).
pub fn pulls_leave_right()
    ensures accepted { (pulls : List Pull) (pull : Pull) (before after : Option Bytes) (s next : State) (made : Bytes) → SlotHolds before s → SlotHolds after next
        → IsSavedAfter pulls (kept_of s) → Steps (kept_of s) pull (kept_of next) made → IsSavedAfter (pull ∷ pulls) (kept_of next) }
    ensures refused { (pulls : List Pull) (pull : Pull) (held : Option Bytes) (s : State) (why : Refusal) → SlotHolds held s → IsSavedAfter pulls (kept_of s)
        → Refuses (kept_of s) pull why → IsSavedAfter (pull ∷ pulls) (kept_of s) }
    ensures right { (pulls : List Pull) (k : Kept) → IsSavedAfter pulls k → IsRightAfter pulls k }
{}
