// Whether a state passes a limit.
ghost use Rattle.std.specs.Prelude.{◌≡◌, ◌≤◌, List, length, take, IfOk};
ghost use Rattle.pair_model.specs.Block.{Block};
ghost use Rattle.state_model.specs.Kept as model;
ghost use Rattle.state_model.specs.Saved.{passes_limit};
ghost use Rattle.pair_state.specs.AllBlocks.{HasAllBlocks};
ghost use Rattle.state_size.specs.Large.{StandsInOrder};

use crate::bundle::passes_bundle;
use crate::count::changeset_count;
use crate::stream::passes_stream;
use bridge_text::{CHANGESET_LIMIT, NoMemory};
use pair_state::State;

/// Whether the state of the first so many blocks and tags passes a limit.
pub fn passes(state: &State, count: usize, tags: usize) -> Result<bool, NoMemory>
    requires within { count ≤ length state.now.blocks }
    requires tags { tags ≤ length state.now.tags }
    requires history { (blocks : List Block) × HasAllBlocks state.now blocks }
    ensures { IfOk result (λ passes. (m : model.State) → StandsInOrder state.now m
        → passes ≡ passes_limit (record { blocks = take count m.blocks; tags = take tags m.tags })) }
{
    let alloc = state.alloc();
    let known = state.known();
    let nodes = state.changesets().as_slice();
    let commits = state.commits().as_slice();
    let changesets = changeset_count(&state.blocks().as_slice()[..count]);
    if changesets > CHANGESET_LIMIT {
        return Ok(true);
    }
    if passes_bundle(alloc, &known.hg, &nodes[..changesets])? {
        return Ok(true);
    }
    let tags = &state.tags().as_slice()[..tags];
    passes_stream(alloc, &known.git, &commits[..count], tags)
}
