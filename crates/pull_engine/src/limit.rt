// The limits of a saved state.
ghost use Rattle.std.specs.Prelude.{◌≡◌, ◌≤◌, List, length, take, drop, IfOk, option_map, slice_get};
ghost use Rattle.pair_model.specs.Block as model;
ghost use Rattle.state_model.specs.Kept as saved;
ghost use Rattle.bridge_text.specs.declared.fault.Fault.TheVariants.{StateLimit};
ghost use Rattle.pair_state.specs.AllBlocks.{HasAllBlocks};
ghost use Rattle.state_size.specs.Large.{StandsInOrder, kept_up_to};
ghost use Rattle.state_text.specs.Stands.{Stands};
ghost use Rattle.state_text.specs.Sizes.{AreSizes};
ghost use Rattle.pull_engine.specs.declared.limit.TooLarge.TheVariants as large;
ghost use Rattle.pull_engine.specs.Limit.{IsTooLarge, refused_at};

use bridge_text::{Id, NoMemory};
use pair_state::{Block, State};
use pull_outcome::{Fault, PullFault, Refusal};
use state_size::{Large, first_large};
use state_text::Sizes;

/// With what a state first passes a limit.
#[derive(Clone, Copy, Debug, PartialEq, Eq)]
pub enum TooLarge {
    /// This block.
    Block(Block),
    /// The new tag with this id.
    Tag(Id),
}

/// The first of the blocks from a place on, or else of the tags from a place on, with which the state up to it passes a limit; `None` exactly where
/// none does.
pub fn first_too_large(
    state: &State,
    first_new: usize,
    first_tag: usize,
    sizes: &Sizes,
) -> Result<Option<TooLarge>, NoMemory>
    requires within { first_new ≤ length state.now.blocks }
    requires tags { first_tag ≤ length state.now.tags }
    requires history { (blocks : List model.Block) × HasAllBlocks state.now blocks }
    requires sizes { (m : saved.State) → Stands state.now m → AreSizes (saved.kept_of m) sizes.now }
    ensures { IfOk result (λ large. (m : saved.State) → StandsInOrder state.now m
        → IsTooLarge (kept_up_to first_new m.blocks (take first_tag m.tags)) (drop first_new m.blocks) (drop first_tag m.tags) large) }
{
    match first_large(state, first_new, first_tag, sizes)? {
        None => Ok(None),
        Some(Large::Block(place)) => Ok(block_at(state, place)),
        Some(Large::Tag(place)) => Ok(tag_at(state, first_tag, place)),
    }
}

// The block at a place of the history.
fn block_at(state: &State, place: usize) -> Option<TooLarge>
    ensures { result ≡ option_map large.Block (slice_get state.now.blocks place) }
{
    let block = state.blocks().as_slice().get(place)?;
    Some(TooLarge::Block(*block))
}

// The tag at a place of those from `first_tag` on.
fn tag_at(state: &State, first_tag: usize, place: usize) -> Option<TooLarge>
    requires { first_tag ≤ length state.now.tags }
    ensures { result ≡ option_map large.Tag (slice_get (drop first_tag state.now.tags) place) }
{
    let id = state.tags().as_slice()[first_tag..].get(place)?;
    Some(TooLarge::Tag(*id))
}

/// The refusal of a state that passes a limit with the member or the tag of this id, which came first at this place. One that never came is
/// refused at 0.
pub fn limit_fault(id: Id, place: Option<u64>) -> PullFault
    ensures { result ≡ refused_at StateLimit id place }
{
    PullFault::Refused(Refusal {
        fault: Fault::StateLimit,
        id,
        place: place.unwrap_or(0),
    })
}
