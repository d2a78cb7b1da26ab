//! Laws of right histories: two of the same changesets have the same blocks, and the bundle of one gives it back. No code.
//!
//! A history is right where each of its blocks is the one that its changeset gets over the blocks
//! before it (`Holds`). What else its blocks are is `IsGround` and `AreViews`.
#![tactic(auto)]

ghost use Rattle.std.specs.Prelude.{◌≡◌, false, List, [], ◌∷◌, ◌++◌, map};
ghost use Rattle.text_model.specs.Lists.{Each, In};
ghost use Rattle.hg_model.specs.Revision.{Revision};
ghost use Rattle.git_model.specs.Object.{Object};
ghost use Rattle.view_model.specs.Dump.{own_revision, objects_in};
ghost use Rattle.pair_model.specs.Block.{Block, changesets_in, commits_in};
ghost use Rattle.partner_model.specs.Partner.{IsHeldView};
ghost use Rattle.history_model.specs.Pull.{BringBlocks};
ghost use Rattle.state_model.specs.Kept.{State, kept_of};
ghost use Rattle.state_model.specs.Saved.{AreBlocks, has_other_content, passes_limit};
ghost use Rattle.saved_model.specs.Written.{map_text};
ghost use Rattle.verify_model.specs.Holds.{HasPartner, IsRight, Holds, StateHolds};
ghost use Rattle.closure_model.specs.Shaped.{AreShaped, AreBlobsWritten};
ghost use Rattle.closure_model.specs.Arrives.{BundleArrives};
ghost use Rattle.closure_model.specs.Closure.{BundleReturns, HasNoFault, bundle_of};
ghost use Rattle.frame_law.specs.Ground.{IsGround, AreAmong};
ghost use Rattle.right_law.specs.Views.{AreViews};

/// Where each block of two histories is right, and each changeset of the first stands in the second, so does each block
/// (`among`). So histories of the same changesets have the same blocks, in whatever order they came, and the same map (`map`). A
/// right block is the one of its changeset, with all contents (`exact`).
pub fn blocks_are_one()
    ensures exact { (known : List Revision) (objects : List Object) (blocks before after : List Block) (b : Block) → IsGround blocks (IsHeldView known) → AreViews blocks
        → blocks ≡ before ++ b ∷ after → IsRight known objects before b
        → HasPartner known objects before b.changeset b }
    ensures among { (known more : List Revision) (objects others : List Object) (blocks history : List Block) → IsGround blocks (IsHeldView known)
        → IsGround history (IsHeldView more) → AreViews blocks → AreViews history → AreBlocks history
        → Holds known objects [] blocks → Holds more others [] history → Each (λ v. In v (changesets_in history)) (changesets_in blocks) → AreAmong blocks history }
    ensures map { (known more : List Revision) (objects others : List Object) (blocks history : List Block) → IsGround blocks (IsHeldView known) → IsGround history (IsHeldView more)
        → AreViews blocks → AreViews history → AreBlocks blocks → AreBlocks history
        → Holds known objects [] blocks → Holds more others [] history → Each (λ v. In v (changesets_in history)) (changesets_in blocks)
        → Each (λ v. In v (changesets_in blocks)) (changesets_in history) → map_text blocks ≡ map_text history }
{}

/// The changesets of a right history, in its order and with links among them, bring from nothing just its blocks: none of
/// them is refused (`blocks`). The revisions that are known then may be others than those over which the blocks are right. What
/// revisions bring, others of the same nodes bring (`nodes`).
pub fn changesets_return()
    ensures blocks { (known came : List Revision) (objects : List Object) (blocks : List Block) → IsGround blocks (IsHeldView known) → IsGround blocks (IsHeldView came)
        → AreViews blocks → AreBlocks blocks
        → has_other_content (objects_in (commits_in blocks)) ≡ false → Each (λ o. In o objects) (objects_in (commits_in blocks)) → Holds known objects [] blocks
        → BringBlocks came [] [] (map own_revision (changesets_in blocks)) blocks }
    ensures nodes { (came : List Revision) (objects : List Object) (before : List Block) (revisions others : List Revision) (new : List Block)
        → map (λ (r : Revision). r.node) revisions ≡ map (λ (r : Revision). r.node) others
        → BringBlocks came objects before revisions new → BringBlocks came objects before others new }
{}

/// Where the bundle of a right history arrives as it is written, it is accepted from nothing and brings just the blocks: no
/// entry belongs to no changeset, no link dangles and no limit is passed (`accepted`). And no fault is one of it (`no_fault`).
pub fn bundle_returns()
    ensures accepted { (s : State) → StateHolds s → AreShaped (kept_of s) → passes_limit (kept_of s) ≡ false → BundleArrives s.blocks → BundleReturns (kept_of s) }
    ensures no_fault { (s : State) → StateHolds s → AreShaped (kept_of s) → passes_limit (kept_of s) ≡ false → BundleArrives s.blocks → HasNoFault (bundle_of (kept_of s)) }
{}

/// More known changesets and objects, or others, leave a history right (`known`), and what a bundle brings over a right history
/// is right, and so is the whole (`bundle`): no object may be another one of the same id as an object of the commits.
pub fn bundle_keeps_right()
    ensures known { (known came : List Revision) (objects others : List Object) (blocks : List Block) → IsGround blocks (IsHeldView known) → IsGround blocks (IsHeldView came)
        → AreViews blocks → AreBlobsWritten blocks
        → has_other_content (objects_in (commits_in blocks) ++ others) ≡ false → Holds known objects [] blocks → Holds came others [] blocks }
    ensures bundle { (known came : List Revision) (objects earlier others : List Object) (blocks : List Block) (rs : List Revision) (new : List Block)
        → IsGround blocks (IsHeldView known) → IsGround (blocks ++ new) (IsHeldView came)
        → AreViews (blocks ++ new) → AreBlobsWritten (blocks ++ new) → has_other_content (objects_in (commits_in (blocks ++ new)) ++ others) ≡ false
        → Holds known objects [] blocks → BringBlocks came earlier blocks rs new → Holds came others [] (blocks ++ new) }
{}
