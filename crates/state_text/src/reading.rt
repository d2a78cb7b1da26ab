// A state is read from its text.
ghost use Rattle.std.specs.Prelude.{◌≡◌, ◌++◌, IfErr, IfOk};
ghost use Rattle.state_model.specs.Kept as model;
ghost use Rattle.state_model.specs.Saved.{IsStateText, IsVersionFault};
ghost use Rattle.state_part.specs.Form.{head_line};
ghost use Rattle.state_text.specs.Faults.{IsStateFault};
ghost use Rattle.state_text.specs.Stands.{Stands, HoldsExactly};

use crate::assemble::assemble;
use crate::blocks::blocks_of;
use crate::fault::StateFault;
use crate::names::read_named;
use crate::sections::{read_git, read_hg, read_pairs, read_tagged};
use bridge_text::SLOT_LIMIT;
use pair_state::State;
use shared_text::Text;
use state_part::read_head;
use std::alloc::Global;

/// The state whose text this is, of which the state keeps parts. `StateVersion` comes exactly where the first line names another
/// version, and else `StateShape` with the number of the first section that doesn't fit.
pub fn read(alloc: Global, text: &Text) -> Result<State, StateFault>
    ensures ok { IfOk result (λ s. (m : model.State) × IsStateText text.now m × Stands s m × HoldsExactly s m) }
    ensures fault { IfErr result (IsStateFault text.now) }
{
    let rest = behind_head(text)?;
    let hg = read_hg(alloc, text, rest)?.ok_or(StateFault::StateShape(1))?;
    let git = read_git(alloc, text, hg.rest, &hg.section)?.ok_or(StateFault::StateShape(2))?;
    if hg.heads.as_slice().len() != git.section.ids.len() {
        return Err(StateFault::StateShape(3));
    }
    let blocks = blocks_of(alloc, hg.heads.as_slice(), git.section.ids.as_slice())?;
    let rest = read_pairs(alloc, &blocks, git.rest)?.ok_or(StateFault::StateShape(3))?;
    let tags = read_tagged(alloc, git.section, git.used, rest)?.ok_or(StateFault::StateShape(4))?;
    let named = read_named(alloc, &blocks, tags.section.tags.as_slice(), tags.rest)?.ok_or(
        StateFault::StateShape(5),
    )?;
    if text.len() > SLOT_LIMIT {
        return Err(StateFault::StateShape(5));
    }
    Ok(assemble(alloc, hg.section, blocks, tags.section, named)?)
}

// What follows the first line of a state's text. `StateVersion` comes exactly where the first line names another version, and `StateShape`
// with 0 where the bytes begin with no such line.
fn behind_head(bytes: &Text) -> Result<&[u8], StateFault>
    ensures head { IfOk result (λ rest. bytes.now ≡ head_line ++ rest.now) }
    ensures version { IfOk result (λ _. ¬ (IsVersionFault bytes.now)) }
    ensures fault { IfErr result (IsStateFault bytes.now) }
{
    let rest = read_head(bytes.as_slice())?;
    Ok(rest)
}
