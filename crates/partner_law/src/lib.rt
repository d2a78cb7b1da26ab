//! Laws of partners: a member has one, and its depth tells which. No code.
#![tactic(auto)]

ghost use Rattle.std.specs.Prelude.{◌≡◌, ℕ, suc, ◌+◌, ◌<◌, List};
ghost use Rattle.hg_model.specs.Revision.{Revision};
ghost use Rattle.pair_model.specs.Block.{Block};
ghost use Rattle.partner_model.specs.Partner.{IsHeldView, Member, Unmarks, IsPlain, HasDepth};
ghost use Rattle.partner_model.specs.Table.{IsTable, AreApart};
ghost use Rattle.partner_model.specs.Given.{Peels, IsBlockFor, IsTooDeep, depth_limit};
ghost use Rattle.partner_law.specs.Depths.{LimitIsOwn, DepthIsOneUp, DepthsAreNext};
ghost use Rattle.partner_law.specs.Pairs.{EachHasPartner, LinkedHasPartner, PartnerIsOne, ChangesetBlockIsOne, CommitBlockIsOne, BlockIsPair};

/// A member whose unmarking isn't plain is one deeper, and the depths of a block's members are n
/// and n + 1 with n even, or both are plain.
pub fn depths_of_a_pair()
    ensures up { (blocks : List Block) (known : List Revision) → IsTable blocks → DepthIsOneUp blocks (IsHeldView known) }
    ensures next { (blocks : List Block) (known : List Revision) → IsTable blocks → AreApart (IsHeldView known) → DepthsAreNext blocks (IsHeldView known) }
{}

/// A member has at most one partner by its own depth.
pub fn partner_is_one()
    ensures { (blocks : List Block) (known : List Revision) → IsTable blocks → AreApart (IsHeldView known) → PartnerIsOne blocks (IsHeldView known) }
{}

/// A changeset has one block and a commit has one, and each member of a block is the partner of
/// the other.
pub fn block_is_one()
    ensures changeset { (blocks : List Block) (known : List Revision) → IsTable blocks → AreApart (IsHeldView known) → ChangesetBlockIsOne blocks (IsHeldView known) }
    ensures commit { (blocks : List Block) (known : List Revision) → IsTable blocks → AreApart (IsHeldView known) → CommitBlockIsOne blocks (IsHeldView known) }
    ensures pair { (blocks : List Block) (known : List Revision) → IsTable blocks → AreApart (IsHeldView known) → BlockIsPair blocks (IsHeldView known) }
{}

/// Where unmarking can be decided, each commit has a partner, and each changeset whose parents
/// have partners; a changeset over a link has one where it has an unmarking.
pub fn partner_is_there()
    ensures each { (blocks : List Block) (known : List Revision) → IsTable blocks → EachHasPartner blocks (IsHeldView known) }
    ensures linked { (blocks : List Block) (known : List Revision) → IsTable blocks → LinkedHasPartner blocks (IsHeldView known) }
{}

/// The deeper member of a pair has a depth over 16 exactly where the member at hand has a depth of
/// 16 or more.
pub fn limit_is_own()
    ensures { (blocks : List Block) (known : List Revision) → IsTable blocks → AreApart (IsHeldView known) → LimitIsOwn blocks (IsHeldView known) }
{}

/// A member has that many unmarkings below it, and their depths are one more each (`turn`, `depth`); a depth below the limit isn't too
/// deep (`below`); and the exact block of a member is one (`one`).
pub fn choice_is_right()
    ensures turn { (blocks : List Block) (known : List Revision) (i : ℕ) (m k n : Member) → Peels blocks (IsHeldView known) i m k → (¬ (IsPlain blocks k)) → Unmarks blocks (IsHeldView known) k n
        → Peels blocks (IsHeldView known) (suc i) m n }
    ensures depth { (blocks : List Block) (known : List Revision) (i n : ℕ) (m k : Member) → Peels blocks (IsHeldView known) i m k → HasDepth blocks (IsHeldView known) n k
        → HasDepth blocks (IsHeldView known) (i + n) m }
    ensures below { (blocks : List Block) (known : List Revision) → IsTable blocks → AreApart (IsHeldView known) → (m : Member) (n : ℕ) → HasDepth blocks (IsHeldView known) n m → n < depth_limit
        → ¬ (IsTooDeep blocks (IsHeldView known) m) }
    ensures one { (blocks : List Block) (known : List Revision) → IsTable blocks → AreApart (IsHeldView known) → (m : Member) (b d : Block)
        → IsBlockFor blocks (IsHeldView known) m b → IsBlockFor blocks (IsHeldView known) m d → b ≡ d }
{}
