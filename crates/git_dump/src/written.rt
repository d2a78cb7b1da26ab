// Objects at the front of a store, of which the store may have the text.
ghost use Rattle.std.specs.Prelude.{◌≡◌, ◌++◌, ◌-◌, ◌^◌, length, min, OnOk, IfSome};
ghost use Rattle.std.specs.Io.{StartsWith};
ghost use Rattle.git_model.specs.Stream.{stream_text};
ghost use Rattle.git_dump.specs.Walks.{objects_between};

use crate::listed::{append_places, places_len};
use bridge_text::NoMemory;
use git_store::{GitStore, Written};
use rope::Rope;

/// How many bytes the objects from one place of the store up to another take in a stream, or 2^64 - 1 if that is less.
pub fn part_len(store: &GitStore, start: usize, end: usize) -> u64
    ensures { result ≡ min (length (stream_text (objects_between store.now start end))) (2 ^ 64 - 1) }
{
    match written_front(store, start, end) {
        Some(written) => {
            let front = written.text.len() as u64;
            front.saturating_add(places_len(store, written.count, end))
        }
        None => places_len(store, start, end),
    }
}

/// Appends the objects from one place of the store up to another. A text that the store has of the first of them is shared.
/// After want of memory what `out` was is its beginning.
pub fn append_part(
    out: &mut Rope,
    store: &GitStore,
    start: usize,
    end: usize,
) -> Result<(), NoMemory>
    ensures ok { OnOk result (out.new ≡ out.old ++ stream_text (objects_between store.now start end)) }
    ensures front { StartsWith out.new out.old }
{
    match written_front(store, start, end) {
        Some(written) => {
            out.share(&written.text)?;
            append_places(out, store, written.count, end)
        }
        None => append_places(out, store, start, end),
    }
}

// The text that the store has of its first objects, where these are the first from one place up to another.
fn written_front(store: &GitStore, start: usize, end: usize) -> Option<&Written>
    ensures { IfSome result (λ w. stream_text (objects_between store.now start end) ≡ w.now.text ++ stream_text (objects_between store.now w.now.count end)) }
{
    let written = store.written()?;
    if start == 0 && written.count <= end {
        Some(written)
    } else {
        None
    }
}
