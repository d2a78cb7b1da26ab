// The objects of a stream, read into a state.
ghost use Rattle.std.specs.Prelude.{◌≡◌, List, Ok, Err, IfSome, IfOk, IfErr, OnOk};
ghost use Rattle.std.specs.Io.KnownBytes.{IsAtEnd};
ghost use Rattle.git_model.specs.Stream.{Placed, stream_reading};
ghost use Rattle.pair_model.specs.Block.{Block};
ghost use Rattle.pull_outcome.specs.Names.{IsOfPullGit};
ghost use Rattle.pull_outcome.specs.Refused.{IsRefusedBy, AnswerCause};
ghost use Rattle.pair_state.specs.AllBlocks.{HasAllBlocks, state_value};
ghost use Rattle.pull_stream.specs.Ready.{IsReady};

use bridge_io::Source;
use git_batch::{ObjectArrivals, read_into};
use git_store::GitStore;
use pair_state::StateParts;
use pull_outcome::PullFault;

/// Reads a stream to its end into a state, whose history stays as it is, and lists its objects. A fault is the first of the bytes.
pub fn read_objects<S: Source>(
    state: StateParts,
    src: &mut S,
) -> Result<(StateParts, ObjectArrivals), PullFault>
    ensures ready { IfOk result (λ read. (blocks : List Block) → HasAllBlocks state blocks
        → (came : List Placed) × IsReady read.0 read.1 (state_value state blocks) came
        × IfSome (S.left src.old) (λ bytes. stream_reading state.known.git bytes ≡ Ok came)) }
    ensures tags { IfOk result (λ read. read.0.tags ≡ state.tags) }
    ensures names { IfOk result (λ read. read.0.names ≡ state.names) }
    ensures refused { IfErr result (λ fault. IfSome (S.left src.old) (λ bytes. IsRefusedBy (λ why. stream_reading state.known.git bytes ≡ Err why) fault)) }
    ensures fault_names { IfErr result IsOfPullGit }
    ensures end { OnOk result (IsAtEnd (S.left src.new)) }
    ensures cause { AnswerCause (S.faults src.old) (S.faults src.new) result }
{
    let alloc = state.alloc;
    let mut state = state;
    let git = std::mem::replace(&mut state.known.git, GitStore::new(alloc));
    let (git, came) = read_into(alloc, src, git)?;
    state.known.git = git;
    Ok((state, came))
}
