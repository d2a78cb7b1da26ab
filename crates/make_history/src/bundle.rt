ghost use Rattle.std.specs.Prelude.{◌≡◌, IfOk, IfErr, OnOk, false, ◌≤◌};
ghost use Rattle.make_model.specs.Dump.{most_changesets, made_collides, made_bundle};
ghost use Rattle.make_history.specs.Made.{IsMakeFault};

use crate::add::make_history;
use crate::fault::MakeFault;
use bridge_text::MADE_LIMIT;
use hg_dump::write;
use std::alloc::Global;

/// The bundle of the history of `n` changesets that is made from a seed. The same numbers give the same bytes each time.
///
/// Each changeset takes eight numbers of a linear congruential generator: they say which parents it has, which file it changes or
/// copies, and what its fields are. CountLimit comes exactly where there are more than 20,000 changesets. Else Collision comes exactly
/// where one of the history's revisions has the null id, or is known with another text or other parents when those before it are held:
/// no such history is known.
pub fn make_bundle(alloc: Global, n: u64, seed: u64) -> Result<Vec<u8>, MakeFault>
    ensures ok { IfOk result (λ bytes. bytes.items ≡ made_bundle n seed) }
    ensures few { OnOk result (n ≤ most_changesets) }
    ensures apart { OnOk result (made_collides n seed ≡ false) }
    ensures fault { IfErr result (IsMakeFault n seed) }
{
    if n > MADE_LIMIT {
        return Err(MakeFault::CountLimit);
    }
    let history = make_history(alloc, n, seed)?;
    let bundle = write(alloc, &history.store, &history.nodes, 0)?;
    Ok(bundle.joined()?)
}
