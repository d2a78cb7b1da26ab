// The pull of a stream over a saved state.
ghost use Rattle.std.specs.Prelude.{◌≡◌, ◌≤◌, ◌+◌, ◌*◌, None, List, length, take, drop, IfSome, IfOk, IfErr, OnOk, OnErr};
ghost use Rattle.std.specs.Io.KnownBytes.{IsAtEnd};
ghost use Rattle.text_model.specs.Text.{IsBytes};
ghost use Rattle.pair_model.specs.Block.{Block};
ghost use Rattle.state_model.specs.Kept as saved;
ghost use Rattle.state_model.specs.Kept.{kept_of};
ghost use Rattle.state_model.specs.Saved.{IsState, IsStateText};
ghost use Rattle.saved_model.specs.Step.{OfStream, Refuses, known_of, with_blocks, first_large_block, first_large_tag};
ghost use Rattle.pair_state.specs.AllBlocks.{HasAllBlocks};
ghost use Rattle.state_size.specs.Large.{StandsInOrder, kept_up_to};
ghost use Rattle.state_text.specs.Stands.{Stands};
ghost use Rattle.pull_outcome.specs.Refused.{IsRefusedBy, AnswerCause};
ghost use Rattle.pull_outcome.specs.Steps.{StepsGit};
ghost use Rattle.pull_engine.specs.Limit.{IsLargeStream, large_refused};
ghost use Rattle.pull_engine.specs.Names.{IsLimitFault, IsOfPullGit};
ghost use Rattle.pull_stream.specs.Ready.{place_among};
ghost use Rattle.pull_engine.specs.Read.{IsReadState, IsPulled};

use crate::limit::{TooLarge, first_too_large, limit_fault};
use crate::pulled::Pulled;
use crate::tags::{keep_tags, tags_among};
use bridge_io::{Source, Steps};
use bridge_text::Id;
use git_batch::ObjectArrivals;
use pair_state::State;
use pull_outcome::PullFault;
use rope::Rope;
use state_text::write_into;
use std::sync::ledger::Ledger;

/// Takes a stream of `git cat-file --batch` into a saved state, and makes the bundle of the changesets of its new commits. The tags of the stream
/// that lead to a commit are kept.
///
/// It is refused exactly at its first fault: those of the pull of `pull_stream`; then ObjectUnknown, at the first tag of the stream whose target
/// isn't there; then StateLimit, at the first new block, or else the first new tag, with which the state up to it passes a limit, with the place at
/// which its commit or the tag came first. Read comes exactly where the source's count of faults rose. A step is counted for each unmarking: at
/// most 18 for each new block, and for the commit that is refused.
pub fn pull_git<S: Source, L: Ledger>(
    state: State,
    src: &mut S,
    steps: &mut Steps<L>,
) -> Result<Pulled, PullFault>
    ensures pulled { IfOk result (λ pulled. IfSome (S.left src.old) (λ bytes.
        (m : saved.State) → IsReadState state m → IsPulled m (OfStream bytes) pulled)) }
    ensures refused { IfErr result (λ fault. IfSome (S.left src.old) (λ bytes.
        (m : saved.State) → IsReadState state m → IsRefusedBy (Refuses (kept_of m) (OfStream bytes)) fault)) }
    ensures next { IfOk result (λ pulled. (m : saved.State) → IsReadState state m → (n : saved.State) × Stands pulled.state n) }
    ensures text { IfOk result (λ pulled. (m : saved.State) → Stands pulled.state m → IsState m → IsStateText pulled.text m) }
    ensures names_stay { IfOk result (λ pulled. (pulled.state).names ≡ state.names) }
    ensures bytes { OnOk result (IfSome (S.left src.old) IsBytes) }
    ensures names { IfErr result IsOfPullGit }
    ensures end { OnOk result (IsAtEnd (S.left src.new)) }
    ensures cause { AnswerCause (S.faults src.old) (S.faults src.new) result }
    ensures least { steps.old ≤ steps.new }
    ensures steps { IfOk result (λ pulled. steps.new + 18 * pulled.first_new ≤ steps.old + 18 * length (pulled.state).blocks) }
    ensures asked { OnErr result (IfSome (S.left src.old) (λ bytes. (m : saved.State) → IsReadState state m
        → StepsGit (known_of (kept_of m)) bytes steps.old steps.new)) }
{
    let pulled = pull_stream::pull_git(state, src, steps)?;
    let tags = tags_among(&pulled.state, &pulled.arrivals)?;
    let first_tag = pulled.state.tags().len();
    let state = keep_tags(pulled.state, &tags)?;
    let text = text_within(&state, pulled.first_new, first_tag, &pulled.arrivals)?;
    Ok(Pulled {
        state,
        first_new: pulled.first_new,
        made: pulled.made,
        text,
    })
}

// The text of the next state, where that passes no limit. The fault is that of the first new block or else of the first new tag with which it does.
fn text_within(
    state: &State,
    first_new: usize,
    first_tag: usize,
    came: &ObjectArrivals,
) -> Result<Rope, PullFault>
    requires within { first_new ≤ length state.now.blocks }
    requires tags { first_tag ≤ length state.now.tags }
    requires history { (blocks : List Block) × HasAllBlocks state.now blocks }
    ensures text { IfOk result (λ text. (m : saved.State) → Stands state.now m → IsState m → IsStateText text m) }
    ensures small { OnOk result ((m : saved.State) → StandsInOrder state.now m
        → first_large_block (kept_up_to first_new m.blocks (take first_tag m.tags)) (drop first_new m.blocks) ≡ None) }
    ensures small_tags { OnOk result ((m : saved.State) → StandsInOrder state.now m
        → first_large_tag (with_blocks (kept_up_to first_new m.blocks (take first_tag m.tags)) (drop first_new m.blocks)) (drop first_tag m.tags) ≡ None) }
    ensures large { IfErr result (λ fault. (m : saved.State) → StandsInOrder state.now m
        → IsLargeStream (kept_up_to first_new m.blocks (take first_tag m.tags)) (drop first_new m.blocks) (drop first_tag m.tags) came.now fault) }
    ensures names { IfErr result IsLimitFault }
{
    let mut text = Rope::new(state.alloc());
    let sizes = write_into(state, &mut text)?;
    match first_too_large(state, first_new, first_tag, &sizes)? {
        None => Ok(text),
        Some(large) => Err(refusal_of(came, large)),
    }
}

// The refusal of a commit or of a tag with which a limit is passed.
fn refusal_of(came: &ObjectArrivals, large: TooLarge) -> PullFault
    ensures { result ≡ large_refused came.now large }
{
    match large {
        TooLarge::Block(block) => limit_fault(block.commit, place_of(came, &block.commit)),
        TooLarge::Tag(id) => limit_fault(id, place_of(came, &id)),
    }
}

// The place at which an object came first; `None` exactly where it didn't come.
fn place_of(came: &ObjectArrivals, id: &Id) -> Option<u64>
    ensures { result ≡ place_among came.now id.now }
{
    came.as_slice().iter().find(|a| a.id == *id).map(|a| a.at)
}
