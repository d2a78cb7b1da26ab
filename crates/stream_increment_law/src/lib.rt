//! Laws of the streams of right histories that go on: what they have more is taken over what was there. No code.
#![tactic(auto)]

ghost use Rattle.std.specs.Prelude.{◌≡◌, List};
ghost use Rattle.git_model.specs.Object.{Object};
ghost use Rattle.pair_model.specs.Block.{Block};
ghost use Rattle.state_model.specs.Kept.{State, kept_of};
ghost use Rattle.state_model.specs.Saved.{IsState};
ghost use Rattle.saved_model.specs.Step.{next_of};
ghost use Rattle.verify_model.specs.Holds.{StateHolds};
ghost use Rattle.stream_increment_law.specs.Increment.{StreamGoesOn};

/// Where a saved history goes on to a right one that is saved too, the stream of the new commits is accepted over it and refused for nothing: it brings
/// just the new blocks, and no tag.
pub fn stream_goes_on()
    ensures { (s next : State) (new : List Block) (tags : List Object) → IsState s → IsState next → kept_of next ≡ next_of (kept_of s) new tags → StateHolds next
        → StreamGoesOn (kept_of s) new }
{}
