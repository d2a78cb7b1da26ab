// With what a state first passes a limit.
ghost use Rattle.std.specs.Prelude.{◌≡◌, ◌<◌, ◌≤◌, ◌+◌, ◌-◌, ◌^◌, [], List, length, take, drop, IfOk, IsTrue};
ghost use Rattle.pair_model.specs.Block.{Block, changesets_in};
ghost use Rattle.hg_dump_law.specs.Taken.{AreParentsEarlier};
ghost use Rattle.state_model.specs.Kept as model;
ghost use Rattle.state_model.specs.Saved.{passes_limit};
ghost use Rattle.pair_state.specs.AllBlocks.{HasAllBlocks};
ghost use Rattle.state_text.specs.Stands.{Stands};
ghost use Rattle.state_text.specs.Sizes.{AreSizes};
ghost use Rattle.state_size.specs.Large.{StandsInOrder, IsLarge, IsFirstCount, grown_by, kept_up_to};

use crate::passes::passes;
use crate::past::are_past;
use bridge_text::NoMemory;
use pair_state::State;
use state_text::Sizes;

/// With what a state first passes a limit.
#[derive(Clone, Copy, Debug, PartialEq, Eq)]
pub enum Large {
    /// The block at this place of the history.
    Block(usize),
    /// The new tag at this place of the list.
    Tag(usize),
}

/// The first new block, or else the first new tag, with which the state up to it passes a limit of a saved state; `None` exactly where none
/// does. The blocks from place `first_new` on are new, and so are the tags from place `first_tag` on. Nothing is counted where the sizes of the
/// whole state are within the limits.
pub fn first_large(
    state: &State,
    first_new: usize,
    first_tag: usize,
    sizes: &Sizes,
) -> Result<Option<Large>, NoMemory>
    requires within { first_new ≤ length state.now.blocks }
    requires tags { first_tag ≤ length state.now.tags }
    requires history { (blocks : List Block) × HasAllBlocks state.now blocks }
    requires sizes { (m : model.State) → Stands state.now m → AreSizes (model.kept_of m) sizes.now }
    ensures { IfOk result (λ large. (m : model.State) → Stands state.now m → AreParentsEarlier [] (changesets_in m.blocks)
        → IsLarge (kept_up_to first_new m.blocks (take first_tag m.tags)) (drop first_new m.blocks) (drop first_tag m.tags) large) }
{
    if !are_past(state.changesets().len(), sizes) {
        return Ok(None);
    }
    let added = state.blocks().as_slice().len() - first_new;
    let all = added + (state.tags().as_slice().len() - first_tag);
    if all == 0 {
        return Ok(None);
    }
    let last = first_count(state, first_new, first_tag, all)? - 1;
    if last < added {
        Ok(Some(Large::Block(first_new + last)))
    } else {
        Ok(Some(Large::Tag(last - added)))
    }
}

// The least number of new blocks and tags with which the state passes a limit, where it does with all of them.
fn first_count(
    state: &State,
    first_new: usize,
    first_tag: usize,
    all: usize,
) -> Result<usize, NoMemory>
    requires within { first_new ≤ length state.now.blocks }
    requires tags { first_tag ≤ length state.now.tags }
    requires room { length state.now.tags < 2 ^ 64 }
    requires history { (blocks : List Block) × HasAllBlocks state.now blocks }
    requires some { 1 ≤ all }
    requires all { all ≤ (length state.now.blocks - first_new) + (length state.now.tags - first_tag) }
    requires large { (m : model.State) → StandsInOrder state.now m → IsTrue (passes_limit (grown_by first_new first_tag m all)) }
    ensures within { IfOk result (λ count. (1 ≤ count) × (count ≤ all)) }
    ensures first { IfOk result (λ count. (m : model.State) → StandsInOrder state.now m → IsFirstCount first_new first_tag m count) }
{
    let mut low: usize = 1;
    let mut high = all;
    while low < high {
        let middle = low + (high - low) / 2;
        if passes_with(state, first_new, first_tag, middle)? {
            high = middle;
        } else {
            low = middle + 1;
        }
    }
    Ok(low)
}

// Whether the state with so many of its new blocks and tags, the blocks first, passes a limit.
fn passes_with(
    state: &State,
    first_new: usize,
    first_tag: usize,
    count: usize,
) -> Result<bool, NoMemory>
    requires within { first_new ≤ length state.now.blocks }
    requires tags { first_tag ≤ length state.now.tags }
    requires room { length state.now.tags < 2 ^ 64 }
    requires history { (blocks : List Block) × HasAllBlocks state.now blocks }
    requires count { count ≤ (length state.now.blocks - first_new) + (length state.now.tags - first_tag) }
    ensures { IfOk result (λ passes. (m : model.State) → StandsInOrder state.now m → passes ≡ passes_limit (grown_by first_new first_tag m count)) }
{
    let added = state.len() - first_new;
    if count <= added {
        passes(state, first_new + count, first_tag)
    } else {
        passes(state, state.len(), first_tag + (count - added))
    }
}
