//! Laws of a member over two lists of blocks, one among the other: it has the same partner and the same block over both. No code.
#![tactic(auto)]

ghost use Rattle.std.specs.Prelude.{◌≡◌, ℕ, ◌↔◌, List};
ghost use Rattle.text_model.specs.Lists.{Each};
ghost use Rattle.hg_model.specs.Revision.{Revision};
ghost use Rattle.git_model.specs.Object.{Object};
ghost use Rattle.pair_model.specs.Block.{Block};
ghost use Rattle.partner_model.specs.Partner.{Member, HasDepth, IsHeldView, IsKnownAs};
ghost use Rattle.partner_model.specs.Given.{IsBlockFor, IsTooDeep};
ghost use Rattle.partner_model.specs.Clash.{MeetsCollision};
ghost use Rattle.frame_law.specs.Ground.{IsGround, AreAmong, AreParentsPaired};

/// Over more blocks a member has the same block, where the links are known there too (`longer`). Where its parents have
/// partners among fewer blocks, it has the same block over these (`shorter`), the same depth (`depth`), is too deep in both or in
/// neither (`deep`), and meets a collision of bodies in both or in neither (`collision`). What else is known doesn't matter.
pub fn block_is_kept()
    ensures longer { (blocks others : List Block) (known more : List Revision) → IsGround blocks (IsHeldView known) → IsGround others (IsHeldView more) → AreAmong blocks others → (m : Member) (b : Block)
        → Each (IsKnownAs (IsHeldView more)) b.links → IsBlockFor blocks (IsHeldView known) m b → IsBlockFor others (IsHeldView more) m b }
    ensures shorter { (blocks others : List Block) (known more : List Revision) → IsGround blocks (IsHeldView known) → IsGround others (IsHeldView more) → AreAmong blocks others → (m : Member) (b : Block)
        → AreParentsPaired blocks m → IsBlockFor others (IsHeldView more) m b → IsBlockFor blocks (IsHeldView known) m b }
    ensures depth { (blocks others : List Block) (known more : List Revision) → IsGround blocks (IsHeldView known) → IsGround others (IsHeldView more) → AreAmong blocks others → (m : Member) (n : ℕ)
        → AreParentsPaired blocks m → (HasDepth blocks (IsHeldView known) n m ↔ HasDepth others (IsHeldView more) n m) }
    ensures deep { (blocks others : List Block) (known more : List Revision) → IsGround blocks (IsHeldView known) → IsGround others (IsHeldView more) → AreAmong blocks others → (m : Member)
        → AreParentsPaired blocks m → (IsTooDeep blocks (IsHeldView known) m ↔ IsTooDeep others (IsHeldView more) m) }
    ensures collision { (blocks others : List Block) (known more : List Revision) → IsGround blocks (IsHeldView known) → IsGround others (IsHeldView more) → AreAmong blocks others → (objects : List Object) (m : Member)
        → AreParentsPaired blocks m → (MeetsCollision blocks (IsHeldView known) objects m ↔ MeetsCollision others (IsHeldView more) objects m) }
{}
