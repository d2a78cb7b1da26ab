// What a stream adds to a store.
ghost use Rattle.std.specs.Prelude.{◌≡◌, IfOk, MatchOption, false, is_ok};
ghost use Rattle.git_model.specs.Stream.{stream_reading};
ghost use Rattle.tag_section.specs.Tags.{Brings};

use bridge_text::NoMemory;
use git_batch::{ObjectArrivals, StreamFault, read_into};
use git_store::GitStore;
use state_part::Part;
use std::alloc::Global;

/// A store behind a stream.
#[derive(Drop)]
pub struct Arrived {
    pub store: GitStore,
    /// The objects of the stream, in its order.
    pub came: ObjectArrivals,
}

/// The store with the objects that these bytes bring to it; `None` exactly where the bytes are refused.
pub fn read_stream(
    alloc: Global,
    store: GitStore,
    bytes: &[u8],
) -> Result<Option<Arrived>, NoMemory>
    ensures { IfOk result (λ found. MatchOption found (is_ok (stream_reading store bytes.now) ≡ false) (Brings store bytes.now)) }
{
    let mut source = Part::new(bytes);
    match read_into(alloc, &mut source, store) {
        Ok((store, came)) => Ok(Some(Arrived { store, came })),
        Err(StreamFault::Refused(_)) => Ok(None),
        Err(StreamFault::Read) => unreachable!(),
        Err(StreamFault::Memory) => Err(NoMemory),
    }
}
