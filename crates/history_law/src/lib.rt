//! Laws of the history that a list of pulls leaves. No code.
#![tactic(auto)]

ghost use Rattle.std.specs.Prelude.{◌≡◌, true, List, [], ◌∷◌, ◌++◌, map, Option, Some, None};
ghost use Rattle.text_model.specs.Lists.{Each};
ghost use Rattle.text_model.specs.Text.{Bytes};
ghost use Rattle.text_model.specs.Id.{Id};
ghost use Rattle.text_model.specs.Fault.{Refusal};
ghost use Rattle.hg_model.specs.Revision.{Revision};
ghost use Rattle.git_model.specs.Object.{Object};
ghost use Rattle.git_model.specs.Tree.{has_distinct};
ghost use Rattle.git_model.specs.Stream.{IsChecked};
ghost use Rattle.view_model.specs.View.{IsChangesetView};
ghost use Rattle.pair_model.specs.Block.{Block, id_of, changesets_in};
ghost use Rattle.history_model.specs.Pull.{BringBlocks, CommitsBring};
ghost use Rattle.state_model.specs.Kept.{Kept, State, kept_of};
ghost use Rattle.state_model.specs.Saved.{IsState, SlotHolds};
ghost use Rattle.saved_model.specs.Step.{Pull, Steps, Refuses};
ghost use Rattle.saved_model.specs.History.{Came, AreChangesetsOf, AreCommitsOf, AreBlocksOf, IsHistory, HistoryGoesOn};
ghost use Rattle.saved_model.specs.Theorem.{GoesOn};
ghost use Rattle.history_law.specs.Sound.{AreRight, AreOfBlocks, HasViews, IsSound};

/// No pulls leave the empty history (`none`). Blocks of members and blocks of further members over them are the blocks of both (`both`). The
/// blocks that the changesets of a bundle bring are those of its members (`bundle`), and so are those that the commits of a stream bring
/// (`stream`). Over a saved history an accepted pull goes on (`accepted`), and a refused one leaves the history as it was (`refused`).
pub fn pulls_go_on()
    ensures none { IsHistory [] (record { blocks = []; tags = [] }) }
    ensures both { (blocks xs ys : List Block) (ms ns : List Came) → AreBlocksOf blocks ms xs → AreBlocksOf (blocks ++ xs) ns ys → AreBlocksOf blocks (ms ++ ns) (xs ++ ys) }
    ensures bundle { (known : List Revision) (objects : List Object) (blocks new : List Block) (rs : List Revision) → AreRight known blocks
        → BringBlocks known objects blocks rs new → (ms : List Came) × AreChangesetsOf known rs ms × AreBlocksOf blocks ms new }
    ensures stream { (known : List Revision) (objects : List Object) (blocks new : List Block) (ids : List Id) → AreOfBlocks known blocks → IsChecked objects
        → has_distinct (map id_of blocks ++ ids) ≡ true → Each IsChangesetView (changesets_in new) → CommitsBring known objects blocks ids new
        → (ms : List Came) × AreCommitsOf objects ids ms × AreBlocksOf blocks ms new }
    ensures accepted { (pulls : List Pull) (k : Kept) (pull : Pull) (next : Kept) (made : Bytes) → IsSound k → HasViews next → IsHistory pulls k
        → Steps k pull next made → IsHistory (pull ∷ pulls) next }
    ensures refused { (pulls : List Pull) (k : Kept) (pull : Pull) (why : Refusal) → IsHistory pulls k → Refuses k pull why → IsHistory (pull ∷ pulls) k }
{}

/// What a saved state gives: once its text is read, what is known is sound and holds each changeset (`sound`), and its changesets are
/// changesets (`views`).
pub fn saved_is_sound()
    ensures sound { (s : State) → IsState s → IsSound (kept_of s) }
    ensures views { (s : State) → IsState s → HasViews (kept_of s) }
{}

/// Where a history is saved and then the next one, an accepted pull goes on, and a refused one changes nothing (`pulls`). So whatever list of
/// pulls a slot holds: a pull that is done leaves that list and itself (`accepted`), and one that is refused leaves what there was (`refused`).
pub fn history_goes_on()
    ensures pulls { HistoryGoesOn }
    ensures accepted { (pull : Pull) (before after : Option Bytes) (s next : State) (made : Bytes) → SlotHolds before s → SlotHolds after next
        → Steps (kept_of s) pull (kept_of next) made → GoesOn pull before after None }
    ensures refused { (pull : Pull) (before after : Option Bytes) (s : State) (why : Refusal) → SlotHolds before s → Refuses (kept_of s) pull why → after ≡ before
        → GoesOn pull before after (Some why) }
{}
