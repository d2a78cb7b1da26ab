// The text of the names of a saved state.
ghost use Rattle.std.specs.Prelude.{◌≡◌, IfOk};
ghost use Rattle.state_model.specs.Kept as model;
ghost use Rattle.command_model.specs.Names.{hg_names_text};
ghost use Rattle.name_engine.specs.Set.{IsSaved, text_of};

use bridge_text::NoMemory;
use pair_state::State;
use ref_map::{Side, write_names, write_refs};
use state_text::{Nameable, id_set};

/// The text of the names of a state as this side has them, a line for each in the order of the refs. It sets the same names where `set_names`
/// reads it. The one error is want of memory.
pub fn names_text(state: &State, side: Side) -> Result<Vec<u8>, NoMemory>
    ensures { IfOk result (λ text. (m : model.State) → IsSaved state.now m → text.items ≡ text_of side m) }
{
    match side {
        Side::Hg => hg_text(state),
        Side::Git => write_refs(state.alloc(), state.names()),
    }
}

// The text as Mercurial's side has them.
fn hg_text(state: &State) -> Result<Vec<u8>, NoMemory>
    ensures { IfOk result (λ text. (m : model.State) → IsSaved state.now m → text.items ≡ hg_names_text m) }
{
    let tags = id_set(state.alloc(), state.tags().as_slice())?;
    let known = Nameable {
        partners: &state.known().partners,
        tags: &tags,
    };
    write_names(state.alloc(), &known, state.names())
}
