// A bundle is read into the store of a state.
ghost use Rattle.std.specs.Prelude.{◌≡◌, List, Err, Ok, IfSome, IfOk, IfErr, OnOk};
ghost use Rattle.std.specs.Io.KnownBytes.{IsAtEnd};
ghost use Rattle.text_model.specs.Text.{IsBytes};
ghost use Rattle.hg_model.specs.Reading as model;
ghost use Rattle.hg_model.specs.Reading.{bundle_reading};
ghost use Rattle.pull_outcome.specs.Names.{IsOfPullHg};
ghost use Rattle.pull_outcome.specs.Refused.{AnswerCause, IsRefusedBy};
ghost use Rattle.pull_bundle.specs.Takes.{HasRead};

use bridge_io::Source;
use hg_bundle::{Arrivals, read_into};
use hg_store::HgStore;
use pair_state::StateParts;
use pull_outcome::PullFault;

/// Reads a bundle to the end of its source into the store of a state.
pub fn read_bundle<S: Source>(
    state: StateParts,
    src: &mut S,
) -> Result<(StateParts, Arrivals), PullFault>
    ensures read { IfOk result (λ read. (came : List model.Arrival) × HasRead state read.0 read.1 came) }
    ensures told { IfOk result (λ read. IfSome (S.left src.old) (λ bytes. (came : List model.Arrival) × (bundle_reading state.known.hg bytes ≡ Ok came) × HasRead state read.0 read.1 came)) }
    ensures refused { IfErr result (λ fault. IfSome (S.left src.old) (λ bytes. IsRefusedBy (λ why. bundle_reading state.known.hg bytes ≡ Err why) fault)) }
    ensures names { IfErr result IsOfPullHg }
    ensures end { OnOk result (IsAtEnd (S.left src.new)) }
    ensures bytes { OnOk result (IfSome (S.left src.old) IsBytes) }
    ensures cause { AnswerCause (S.faults src.old) (S.faults src.new) result }
{
    let alloc = state.alloc;
    let mut state = state;
    let store = std::mem::replace(&mut state.known.hg, HgStore::new(alloc));
    let (store, arrivals) = read_into(alloc, src, store)?;
    state.known.hg = store;
    Ok((state, arrivals))
}
