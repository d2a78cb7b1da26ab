// The commands that print something of the saved state.
ghost use Rattle.std.specs.Prelude.{◌≡◌, ◌++◌, ℕ, Option, IfOk, IfSome};
ghost use Rattle.text_model.specs.Text.{Bytes};
ghost use Rattle.git_model.specs.Stream.{stream_text};
ghost use Rattle.pair_model.specs.Block.{changesets_in, commits_in};
ghost use Rattle.state_model.specs.Kept as saved;
ghost use Rattle.saved_model.specs.Written.{map_text};
ghost use Rattle.state_text.specs.Stands.{Stands};
ghost use Rattle.bridge_cli.specs.Fetched.{IsSavedWith};
ghost use Rattle.bridge_cli.specs.Makes.{LeavesCount, LeavesSlotCount, Makes};
ghost use Rattle.bridge_cli.specs.Printed.{print_command, print_of};

use crate::fetch::{Fetched, fetch};
use crate::report::Report;
use crate::work::Work;
use bridge_io::Slot;
use bridge_text::NoMemory;
use name_engine::{Side, names_text};
use pair_state::State;
use rope::Rope;
use state_part::{Dumps, dumps_in};
use state_text::{dump_git, dump_hg, map_into, tags_text};
use std::alloc::Global;
use std::mem::forget;

/// What is printed of a saved state.
#[derive(Clone, Copy, Debug, PartialEq, Eq)]
pub enum Printed {
    /// The bundle of the whole history.
    Bundle,
    /// The stream of the whole history, with its tags.
    Stream,
    /// The ids of each commit and its changeset.
    Map,
    /// The text of the saved names, as a side has them.
    Names(Side),
}

/// What is printed of the state that the slot holds, with no state to be saved.
pub fn printed_work<K: Slot>(alloc: Global, printed: Printed, slot: &mut K) -> Result<Work, Report>
    ensures makes { (input : Option Bytes) → Makes (print_command printed) input input (K.held slot.old) result }
    ensures input { (faults : ℕ) → LeavesCount faults faults result }
    ensures held { K.held slot.new ≡ K.held slot.old }
    ensures slot { LeavesSlotCount (K.faults slot.old) (K.faults slot.new) result }
{
    let fetched = fetch(alloc, slot)?;
    let bytes = print(printed, &fetched)?;
    forget(fetched);
    Ok(Work::of(bytes))
}

// What is printed of a state. The one error is want of memory.
fn print(printed: Printed, fetched: &Fetched) -> Result<Rope, NoMemory>
    requires stands { (m : saved.State) × Stands fetched.now.state m }
    ensures { IfOk result (λ bytes. (m : saved.State) → IsSavedWith fetched.now m → bytes ≡ print_of printed m) }
{
    let state = &fetched.state;
    match printed {
        Printed::Bundle => bundle_of(fetched),
        Printed::Stream => stream_of(fetched),
        Printed::Map => map_of(state),
        Printed::Names(side) => Ok(Rope::of(state.alloc(), names_text(state, side)?)),
    }
}

// The bundle of the whole history: it stands in the text, if there is one.
fn bundle_of(fetched: &Fetched) -> Result<Rope, NoMemory>
    requires stands { (m : saved.State) × Stands fetched.now.state m }
    ensures { IfOk result (λ bytes. (m : saved.State) → IsSavedWith fetched.now m → bytes ≡ saved.hg_dump (changesets_in m.blocks)) }
{
    let Some(dumps) = dumps_of(fetched)? else {
        return dump_hg(&fetched.state);
    };
    let mut out = Rope::new(fetched.state.alloc());
    out.share(&dumps.bundle)?;
    Ok(out)
}

// The stream of the whole history, which stands in the text, if there is one, with the kept tags behind it.
fn stream_of(fetched: &Fetched) -> Result<Rope, NoMemory>
    requires stands { (m : saved.State) × Stands fetched.now.state m }
    ensures { IfOk result (λ bytes. (m : saved.State) → IsSavedWith fetched.now m
        → bytes ≡ saved.git_dump (commits_in m.blocks) ++ stream_text m.tags) }
{
    let Some(dumps) = dumps_of(fetched)? else {
        return dump_git(&fetched.state);
    };
    let mut out = Rope::new(fetched.state.alloc());
    out.share(&dumps.stream)?;
    out.put(&tags_text(&fetched.state)?)?;
    Ok(out)
}

// Both dumps, as parts of the text; `None` where there is no text.
fn dumps_of(fetched: &Fetched) -> Result<Option<Dumps>, NoMemory>
    ensures { IfOk result (λ found. IfSome found (λ d. (m : saved.State) → IsSavedWith fetched.now m
        → (d.bundle ≡ saved.hg_dump (changesets_in m.blocks)) × (d.stream ≡ saved.git_dump (commits_in m.blocks)))) }
{
    match &fetched.text {
        Some(text) => dumps_in(text),
        None => Ok(None),
    }
}

// The lines of the map.
fn map_of(state: &State) -> Result<Rope, NoMemory>
    ensures { IfOk result (λ lines. (m : saved.State) → Stands state.now m → lines ≡ map_text m.blocks) }
{
    let mut lines = Vec::new(state.alloc());
    map_into(state, &mut lines)?;
    Ok(Rope::of(state.alloc(), lines))
}
