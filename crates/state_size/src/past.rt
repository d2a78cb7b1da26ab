// Whether a state that was written passes a limit.
ghost use Rattle.std.specs.Prelude.{◌≡◌, length};
ghost use Rattle.pair_model.specs.Block.{changesets_in};
ghost use Rattle.state_model.specs.Kept.{Kept};
ghost use Rattle.state_model.specs.Saved.{passes_limit};
ghost use Rattle.state_text.specs.Sizes.{AreSizes};

use bridge_text::{CHANGESET_LIMIT, DUMP_LIMIT};
use state_text::Sizes;

/// Whether so many changesets, or dumps of these sizes, are past a limit.
pub fn are_past(changesets: usize, sizes: &Sizes) -> bool
    ensures { (k : Kept) → changesets ≡ length (changesets_in k.blocks) → AreSizes k sizes.now → result ≡ passes_limit k }
{
    let limit = DUMP_LIMIT as u64;
    changesets > CHANGESET_LIMIT
        || sizes.bundle > limit
        || sizes.stream.saturating_add(sizes.tags) > limit
}
