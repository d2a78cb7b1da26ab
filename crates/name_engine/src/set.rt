// Names that a text sets in a saved state.
ghost use Rattle.std.specs.Prelude.{◌≡◌, Ok, IfOk, IfErr, IfSome, OnOk};
ghost use Rattle.std.specs.Io.KnownBytes.{IsAtEnd};
ghost use Rattle.state_model.specs.Kept as model;
ghost use Rattle.state_text.specs.Stands.{Stands};
ghost use Rattle.command_model.specs.Names.{targets_saved};
ghost use Rattle.name_model.specs.Reading.{set_of};
ghost use Rattle.ref_map.specs.Faults.{IsNameFault};
ghost use Rattle.ref_map.specs.Rows.{reader};
ghost use Rattle.name_engine.specs.Faults.{AnswerCause, name_fault};
ghost use Rattle.name_engine.specs.Names.{IsOfNames};
ghost use Rattle.name_engine.specs.Set.{IsSaved, IsSet, IsRefused};

use crate::fault::SetFault;
use crate::input::read_whole;
use bridge_io::Source;
use pair_state::State;
use ref_map::{NameFault, Rows, Side, read_names, read_refs};
use state_text::{Nameable, id_set};

/// The state with the names that a text of this side sets in place of all its own; its pairs and its tags stay. Lines come in any order.
/// Git's are `ID REF` (`git for-each-ref --format='%(objectname) %(refname)'`); Mercurial's are `bookmark NODE NAME` (`hg help bookmarks`),
/// `tag NODE NAME`, `annotated ID NAME`, `phase P NODE` (`hg help phases`), and `ref ID REF` for any other ref.
///
/// The text is refused exactly at its first fault: `InputLimit` where it has more than 2^29 bytes, and else that of its first bad line, with the
/// line's number, as `ref_map::read_refs` and `ref_map::read_names` say. `Read` comes exactly where the source's count of faults rose.
/// TagUnknown comes for Mercurial's side alone.
pub fn set_names<S: Source>(state: State, side: Side, src: &mut S) -> Result<State, SetFault>
    ensures set { IfOk result (λ next. IfSome (S.left src.old) (λ text. (m : model.State) → IsSaved state m → IsSet side m text next)) }
    ensures refused { IfErr result (λ fault. IfSome (S.left src.old) (λ text. (m : model.State) → IsSaved state m → IsRefused side m text fault)) }
    ensures names { IfErr result (IsOfNames side) }
    ensures next { IfOk result (λ next. (m : model.State) → IsSaved state m → (n : model.State) × Stands next n) }
    ensures end { OnOk result (IsAtEnd (S.left src.new)) }
    ensures cause { AnswerCause (S.faults src.old) (S.faults src.new) result }
{
    let text = read_whole(state.alloc(), src)?;
    let names = names_in(&state, side, &text)?;
    Ok(state.with_names(names))
}

// The names that a text of the side sets, whose length is no matter here.
fn names_in(state: &State, side: Side, text: &[u8]) -> Result<Rows, NameFault>
    ensures names { IfOk result (λ names. (m : model.State) → IsSaved state.now m → set_of (reader side (targets_saved m)) text.now ≡ Ok names) }
    ensures fault { IfErr result (λ fault. (m : model.State) → IsSaved state.now m → IsNameFault (set_of (reader side (targets_saved m)) text.now) fault) }
    ensures fault_names { IfErr result (λ fault. IsOfNames side (name_fault fault)) }
{
    let tags = id_set(state.alloc(), state.tags().as_slice())?;
    let known = Nameable {
        partners: &state.known().partners,
        tags: &tags,
    };
    match side {
        Side::Hg => read_names(state.alloc(), &known, text),
        Side::Git => read_refs(state.alloc(), &known, text),
    }
}
