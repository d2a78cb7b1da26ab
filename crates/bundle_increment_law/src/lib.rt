//! Laws of the bundles of right histories that go on: what they have more is taken over what was there. No code.
#![tactic(auto)]

ghost use Rattle.std.specs.Prelude.{◌≡◌, List};
ghost use Rattle.git_model.specs.Object.{Object};
ghost use Rattle.pair_model.specs.Block.{Block};
ghost use Rattle.state_model.specs.Kept.{State, kept_of};
ghost use Rattle.state_model.specs.Saved.{IsState};
ghost use Rattle.saved_model.specs.Step.{next_of};
ghost use Rattle.verify_model.specs.Holds.{StateHolds};
ghost use Rattle.bundle_increment_law.specs.Increment.{BundleGoesOn};

/// Where a saved history goes on to a right one that is saved too, the bundle of the new changesets is accepted over it and refused for nothing: it brings
/// just the new blocks.
pub fn bundle_goes_on()
    ensures { (s next : State) (new : List Block) (tags : List Object) → IsState s → IsState next → kept_of next ≡ next_of (kept_of s) new tags → StateHolds next
        → BundleGoesOn (kept_of s) new }
{}
