//! Laws of streams and right histories: the stream of one gives it back, and what a stream brings over one is right. No code.
#![tactic(auto)]

ghost use Rattle.std.specs.Prelude.{◌≡◌, false, List, [], ◌++◌, map, IsTrue};
ghost use Rattle.text_model.specs.Lists.{Each};
ghost use Rattle.text_model.specs.Text.{Bytes};
ghost use Rattle.text_model.specs.Id.{Id};
ghost use Rattle.hg_model.specs.Revision.{Revision};
ghost use Rattle.git_model.specs.Object.{Object};
ghost use Rattle.git_model.specs.Tree.{has_distinct};
ghost use Rattle.git_model.specs.Order.{IsOrder};
ghost use Rattle.view_model.specs.View.{IsCommitView, CommitFits};
ghost use Rattle.view_model.specs.Dump.{objects_in};
ghost use Rattle.pair_model.specs.Block.{Block, id_of, changesets_in, commits_in};
ghost use Rattle.partner_model.specs.Partner.{IsHeldView};
ghost use Rattle.partner_model.specs.Table.{AreBlobsApart};
ghost use Rattle.history_model.specs.Pull.{CommitsBring};
ghost use Rattle.state_model.specs.Kept.{Kept};
ghost use Rattle.state_model.specs.Saved.{AreTagsSaved, has_other_content, passes_limit};
ghost use Rattle.saved_model.specs.Step.{OfStream, Steps, known_of};
ghost use Rattle.verify_model.specs.Holds.{Holds};
ghost use Rattle.frame_law.specs.Ground.{IsGround};
ghost use Rattle.closure_model.specs.Shaped.{AreShaped, AreBlobsWritten};
ghost use Rattle.closure_model.specs.Arrives.{AreCommitsRead, StreamArrives, ancestry_of_block};
ghost use Rattle.closure_model.specs.Closure.{StreamReturns, HasNoFault, stream_of};
ghost use Rattle.history_law.specs.Sound.{AreOfBlocks, IsSound};

/// The commits of a right history, in its order, are placed in it (`order`) and bring from nothing just its blocks: none of them is refused
/// (`blocks`). No two bodies have one blob id, since each is the content of an object (`bodies`).
pub fn commits_return()
    ensures order { (known : List Revision) (objects : List Object) (blocks : List Block) → IsTrue (has_distinct (map id_of blocks)) → Holds known objects [] blocks
        → IsOrder (map ancestry_of_block blocks) [] (map id_of blocks) }
    ensures bodies { (known : List Revision) (objects : List Object) (blocks : List Block) → Each (λ b. IsCommitView b.commit) blocks → AreBlobsWritten blocks
        → has_other_content (objects_in (commits_in blocks)) ≡ false → Holds known objects [] blocks → AreBlobsApart (changesets_in blocks) }
    ensures blocks { (known : List Revision) (objects : List Object) (k : Kept) → IsGround k.blocks (IsHeldView known) → AreShaped k → AreBlobsWritten k.blocks
        → AreCommitsRead objects k.blocks → Holds known objects [] k.blocks → CommitsBring [] objects [] (map id_of k.blocks) k.blocks }
{}

/// Where the stream of a right history with its tags arrives as it is written, it is accepted from nothing and brings just the blocks and the
/// tags (`accepted`). And no fault is one of it (`no_fault`).
pub fn stream_returns()
    ensures accepted { (k : Kept) → Holds (known_of k).revisions (known_of k).objects [] k.blocks → AreShaped k → AreBlobsWritten k.blocks
        → AreTagsSaved (commits_in k.blocks) k.tags → passes_limit k ≡ false → StreamArrives k.blocks k.tags → StreamReturns k }
    ensures no_fault { (k : Kept) → Holds (known_of k).revisions (known_of k).objects [] k.blocks → AreShaped k → AreBlobsWritten k.blocks
        → AreTagsSaved (commits_in k.blocks) k.tags → passes_limit k ≡ false → StreamArrives k.blocks k.tags → HasNoFault (stream_of k) }
{}

/// What a stream brings over a right history is right, and so is the whole, over what its text brings. The commits were judged over what was
/// known while they came, and over other objects (`brought`). So what an accepted pull of a stream leaves over a right history is right (`pulled`).
pub fn stream_keeps_right()
    ensures brought { (known start : List Revision) (objects had : List Object) (blocks new : List Block) (ids : List Id) (next : Kept) → next.blocks ≡ blocks ++ new
        → IsGround blocks (IsHeldView known) → AreOfBlocks start blocks → AreShaped next → AreBlobsWritten next.blocks → Each (λ b. CommitFits b.commit) new
        → Holds known objects [] blocks → CommitsBring start had blocks ids new → Holds (known_of next).revisions (known_of next).objects [] next.blocks }
    ensures pulled { (s next : Kept) (stream made : Bytes) → IsSound s → IsGround s.blocks (IsHeldView (known_of s).revisions) → AreShaped next
        → AreBlobsWritten next.blocks → Each (λ b. CommitFits b.commit) next.blocks → Steps s (OfStream stream) next made
        → Holds (known_of s).revisions (known_of s).objects [] s.blocks → Holds (known_of next).revisions (known_of next).objects [] next.blocks }
{}
