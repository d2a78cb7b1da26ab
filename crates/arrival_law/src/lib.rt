//! Laws of the text of a saved history: what it says of its blocks, and that both dumps are read where nothing is known as they are written. No code.
#![tactic(auto)]

ghost use Rattle.pair_model.specs.Block.{commits_in};
ghost use Rattle.std.specs.Prelude.{◌≡◌, false};
ghost use Rattle.state_model.specs.Kept.{State, kept_of};
ghost use Rattle.state_model.specs.Saved.{AreTagsSaved, IsState, passes_limit};
ghost use Rattle.closure_model.specs.Shaped.{AreBlobsWritten, AreShaped};
ghost use Rattle.closure_model.specs.Arrives.{BundleArrives, IsReadAgain, StreamArrives};

/// What the text of a saved history says: its blocks are well-shaped, each of their beginnings being the history of what it refers to
/// (`shaped`), the blobs of their files are written with each commit (`blobs`), the tags can be saved (`tags`), and no limit of a state is
/// passed (`small`).
pub fn history_is_shaped()
    ensures shaped { (s : State) → IsState s → AreShaped (kept_of s) }
    ensures blobs { (s : State) → IsState s → AreBlobsWritten s.blocks }
    ensures tags { (s : State) → IsState s → AreTagsSaved (commits_in s.blocks) s.tags }
    ensures small { (s : State) → IsState s → passes_limit (kept_of s) ≡ false }
{}

/// The bundle of a saved history is read where nothing is known: it brings the revisions in its order, and the changesets in theirs
/// (`bundle`). So is the stream with the tags: it brings the commits in their order and the tags in theirs, and then each commit is known
/// and its tree can be walked (`stream`).
pub fn dumps_arrive()
    ensures bundle { (s : State) → IsState s → BundleArrives s.blocks }
    ensures stream { (s : State) → IsState s → StreamArrives s.blocks s.tags }
{}

/// Both dumps of a saved history are read again: all that a pull of either over nothing asks of their bytes.
pub fn state_is_read_again()
    ensures { (s : State) → IsState s → IsReadAgain (kept_of s) }
{}
