// A stream, read into a store.
ghost use Rattle.std.specs.Prelude.{◌≡◌, IfSome, IfOk, IfErr, OnOk};
ghost use Rattle.std.specs.Io.KnownBytes.{IsAtEnd};
ghost use Rattle.git_store.specs.Known.{AreKnown};
ghost use Rattle.git_batch.specs.Arrivals.{Brought, Reads};
ghost use Rattle.git_batch.specs.StreamFaults.{AnswerCause, IsOfStream};

use crate::arrival::{ObjectArrival, ObjectArrivals};
use crate::contents::{Contents, NoContents};
use crate::gather::Gathered;
use crate::reader::{BatchReader, Item};
use crate::stream_fault::StreamFault;
use bridge_io::Source;
use git_store::GitStore;
use std::alloc::Global;

/// Reads a stream, as `git cat-file --batch` writes it, to the end of its source into a store, and lists its objects, in
/// the order of the stream. Each object is checked and added as it comes, and its content is kept by the
/// store: a part of what the source lends, or else bytes of its own.
///
/// The fault is the first of the input. Of one object these come in this order: those of its line, those of its size and
/// the LF behind its content, `IdWrong`, those of its content, and `Collision`. An object that is known with the same
/// kind and content is listed too.
pub fn read_into<S: Source>(
    alloc: Global,
    src: &mut S,
    store: GitStore,
) -> Result<(GitStore, ObjectArrivals), StreamFault>
    ensures brought { IfOk result (λ read. Brought store (S.left src.old) read.0 read.1) }
    // what the store has is sound, if it was before
    ensures known { IfOk result (λ read. AreKnown store → AreKnown read.0) }
    ensures reads { IfSome (S.left src.old) (λ bytes. Reads store bytes result) }
    ensures end { OnOk result (IsAtEnd (S.left src.new)) }
    ensures names { IfErr result IsOfStream }
    ensures cause { AnswerCause (S.faults src.old) (S.faults src.new) result }
{
    read_known_into(alloc, src, &NoContents, store)
}

/// The same, and the contents of blobs that are known aren't hashed.
pub fn read_known_into<S: Source, C: Contents>(
    alloc: Global,
    src: &mut S,
    known: &C,
    store: GitStore,
) -> Result<(GitStore, ObjectArrivals), StreamFault>
    ensures brought { IfOk result (λ read. Brought store (S.left src.old) read.0 read.1) }
    // what the store has is sound, if it was before
    ensures known { IfOk result (λ read. AreKnown store → AreKnown read.0) }
    ensures reads { IfSome (S.left src.old) (λ bytes. Reads store bytes result) }
    ensures end { OnOk result (IsAtEnd (S.left src.new)) }
    ensures names { IfErr result IsOfStream }
    ensures cause { AnswerCause (S.faults src.old) (S.faults src.new) result }
{
    let mut reader = BatchReader::new();
    let mut gathered = Gathered::new(alloc, store);
    let mut line = Vec::new(alloc);
    'objects: loop {
        let (item, content) = reader.next_text(alloc, src, known, &mut line)?;
        match item {
            Item::Object { id, kind, at } => {
                gathered.take(ObjectArrival { id, kind, at }, content)?;
            }
            Item::End => return Ok((gathered.store, gathered.arrivals)),
        }
    }
}
