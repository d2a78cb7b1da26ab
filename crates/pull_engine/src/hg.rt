// The pull of a bundle over a saved state.
ghost use Rattle.std.specs.Prelude.{◌≡◌, ◌≤◌, ◌+◌, ◌*◌, [], None, List, length, drop, IfSome, IfOk, IfErr, OnOk, OnErr};
ghost use Rattle.std.specs.Io.KnownBytes.{IsAtEnd};
ghost use Rattle.text_model.specs.Text.{IsBytes};
ghost use Rattle.pair_model.specs.Block.{Block};
ghost use Rattle.state_model.specs.Kept as saved;
ghost use Rattle.state_model.specs.Kept.{kept_of};
ghost use Rattle.state_model.specs.Saved.{IsState, IsStateText};
ghost use Rattle.saved_model.specs.Step.{OfBundle, Refuses, known_of, first_large_block};
ghost use Rattle.pair_state.specs.AllBlocks.{HasAllBlocks};
ghost use Rattle.state_size.specs.Large.{StandsInOrder, kept_up_to};
ghost use Rattle.state_text.specs.Stands.{Stands};
ghost use Rattle.pull_outcome.specs.Refused.{IsRefusedBy, AnswerCause};
ghost use Rattle.pull_outcome.specs.Steps.{StepsHg};
ghost use Rattle.pull_engine.specs.Limit.{IsLargeBundle};
ghost use Rattle.pull_engine.specs.Names.{IsLimitFault, IsOfPullHg};
ghost use Rattle.pull_engine.specs.Places.{is_changeset, node_place};
ghost use Rattle.pull_engine.specs.Read.{IsReadState, IsPulled};

use crate::limit::{TooLarge, first_too_large, limit_fault};
use crate::pulled::Pulled;
use bridge_io::{Source, Steps};
use bridge_text::Id;
use hg_bundle::{Arrival, Arrivals, RevKind};
use pair_state::State;
use pull_outcome::{HgPulled, PullFault};
use rope::Rope;
use state_text::write_into;
use std::sync::ledger::Ledger;

/// Takes a bundle HG10UN into a saved state, and makes the stream of the commits of its new changesets.
///
/// It is refused exactly at its first fault: those of the pull of `pull_bundle`; then StateLimit, at the first new block with which the state up
/// to it passes a limit, with the place at which its changeset came first. Read comes exactly where the source's count of faults rose. A step is
/// counted for each unmarking: at most 18 for each new block, and for the changeset that is refused.
pub fn pull_hg<S: Source, L: Ledger>(
    state: State,
    src: &mut S,
    steps: &mut Steps<L>,
) -> Result<Pulled, PullFault>
    ensures pulled { IfOk result (λ pulled. IfSome (S.left src.old) (λ bytes.
        (m : saved.State) → IsReadState state m → IsPulled m (OfBundle bytes) pulled)) }
    ensures refused { IfErr result (λ fault. IfSome (S.left src.old) (λ bytes.
        (m : saved.State) → IsReadState state m → IsRefusedBy (Refuses (kept_of m) (OfBundle bytes)) fault)) }
    ensures next { IfOk result (λ pulled. (m : saved.State) → IsReadState state m → (n : saved.State) × Stands pulled.state n) }
    ensures text { IfOk result (λ pulled. (m : saved.State) → Stands pulled.state m → IsState m → IsStateText pulled.text m) }
    ensures names_stay { IfOk result (λ pulled. (pulled.state).names ≡ state.names) }
    ensures bytes { OnOk result (IfSome (S.left src.old) IsBytes) }
    ensures names { IfErr result IsOfPullHg }
    ensures end { OnOk result (IsAtEnd (S.left src.new)) }
    ensures cause { AnswerCause (S.faults src.old) (S.faults src.new) result }
    ensures least { steps.old ≤ steps.new }
    ensures steps { IfOk result (λ pulled. steps.new + 18 * pulled.first_new ≤ steps.old + 18 * length (pulled.state).blocks) }
    ensures asked { OnErr result (IfSome (S.left src.old) (λ bytes. (m : saved.State) → IsReadState state m
        → StepsHg (known_of (kept_of m)) bytes steps.old steps.new)) }
{
    let pulled = pull_bundle::pull_hg(state, src, steps)?;
    let text = text_within(&pulled)?;
    Ok(Pulled {
        state: pulled.state,
        first_new: pulled.first_new,
        made: pulled.made,
        text,
    })
}

// The text of the next state, where that passes no limit. The fault is that of the first new block with which it does.
fn text_within(pulled: &HgPulled) -> Result<Rope, PullFault>
    requires within { pulled.now.first_new ≤ length (pulled.now.state).blocks }
    requires history { (blocks : List Block) × HasAllBlocks pulled.now.state blocks }
    ensures text { IfOk result (λ text. (m : saved.State) → Stands pulled.now.state m → IsState m → IsStateText text m) }
    ensures small { OnOk result ((m : saved.State) → StandsInOrder pulled.now.state m
        → first_large_block (kept_up_to pulled.now.first_new m.blocks m.tags) (drop pulled.now.first_new m.blocks) ≡ None) }
    ensures large { IfErr result (λ fault. (m : saved.State) → StandsInOrder pulled.now.state m
        → IsLargeBundle (kept_up_to pulled.now.first_new m.blocks m.tags) (drop pulled.now.first_new m.blocks) pulled.now.arrivals fault) }
    ensures names { IfErr result IsLimitFault }
{
    let state = &pulled.state;
    let mut text = Rope::new(state.alloc());
    let sizes = write_into(state, &mut text)?;
    match first_too_large(state, pulled.first_new, state.tags().len(), &sizes)? {
        None => Ok(text),
        Some(TooLarge::Block(block)) => Err(limit_fault(
            block.node,
            place_of_node(&pulled.arrivals, &block.node),
        )),
        Some(TooLarge::Tag(_)) => Ok(text),
    }
}

// The place at which a changeset came first; `None` exactly where it didn't come.
fn place_of_node(came: &Arrivals, node: &Id) -> Option<u64>
    ensures { result ≡ node_place came.now node.now }
{
    came.as_slice()
        .iter()
        .find(|a| is_changeset(a, node))
        .map(|a| a.at)
}

// Whether an entry is the changeset with this node.
fn is_changeset(a: &Arrival, node: &Id) -> bool
    ensures { result ≡ is_changeset node.now a.now }
{
    a.kind == RevKind::Changeset && a.node == *node
}
