//! Laws of depths: how often a member can be unmarked. No code.
#![tactic(auto)]

ghost use Rattle.std.specs.Prelude.{ℕ, ◌≤◌, List};
ghost use Rattle.hg_model.specs.Revision.{Revision};
ghost use Rattle.pair_model.specs.Block.{Block};
ghost use Rattle.partner_model.specs.Partner.{IsHeldView, Member, HasDepth};
ghost use Rattle.partner_model.specs.Table.{IsTable, AreApart};
ghost use Rattle.partner_model.specs.Measure.{size_of};
ghost use Rattle.depth_law.specs.Depths.{DepthIsOne, DepthFalls, EachHasDepth};

/// A member has one depth.
pub fn depth_is_one()
    ensures { (blocks : List Block) (known : List Revision) → IsTable blocks → AreApart (IsHeldView known) → DepthIsOne blocks (IsHeldView known) }
{}

/// The unmarking of a member that isn't plain has fewer bytes of headers or extras, so a depth is
/// at most their number; and each member has one where unmarking can be decided.
pub fn depth_is_finite()
    ensures falls { (blocks : List Block) (known : List Revision) → IsTable blocks → DepthFalls blocks (IsHeldView known) size_of }
    ensures bounded { (blocks : List Block) (known : List Revision) → IsTable blocks → (m : Member) (n : ℕ) → HasDepth blocks (IsHeldView known) n m → n ≤ size_of m }
    ensures there { (blocks : List Block) (known : List Revision) → IsTable blocks → EachHasDepth blocks (IsHeldView known) }
{}
