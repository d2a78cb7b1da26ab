// Objects by their places and by their ids: their length in a stream, and how they are written.
ghost use Rattle.std.specs.Prelude.{◌≡◌, ◌++◌, ◌-◌, ◌^◌, length, min, slice_get, OnOk};
ghost use Rattle.std.specs.Io.{StartsWith};
ghost use Rattle.git_model.specs.Stream.{stream_text};
ghost use Rattle.git_dump.specs.Walks.{object_list, objects_at, objects_between, objects_of};

use crate::length::{len_at, len_of_place};
use bridge_text::{Id, NoMemory};
use git_batch::put_with_id;
use git_store::GitStore;
use rope::Rope;

/// How many bytes the objects from one place of the store up to another take in a stream, or 2^64 - 1 if that is less.
pub fn places_len(store: &GitStore, start: usize, end: usize) -> u64
    ensures { result ≡ min (length (stream_text (objects_between store.now start end))) (2 ^ 64 - 1) }
{
    let mut len: u64 = 0;
    for place in start..end {
        len = len.saturating_add(len_of_place(store, place));
    }
    len
}

/// How many bytes the objects that are known under these ids take in a stream, or 2^64 - 1 if that is less.
pub fn objects_len(store: &GitStore, ids: &[Id]) -> u64
    ensures { result ≡ min (length (stream_text (objects_of store.now ids.now))) (2 ^ 64 - 1) }
{
    let mut len: u64 = 0;
    for id in ids {
        len = len.saturating_add(len_at(store, id));
    }
    len
}

/// Appends the objects from one place of the store up to another. After want of memory what `out` was is its beginning.
pub fn append_places(
    out: &mut Rope,
    store: &GitStore,
    start: usize,
    end: usize,
) -> Result<(), NoMemory>
    ensures ok { OnOk result (out.new ≡ out.old ++ stream_text (objects_between store.now start end)) }
    ensures front { StartsWith out.new out.old }
{
    for place in start..end {
        append_place(out, store, place)?;
    }
    Ok(())
}

// Appends the object at this place of the store, where one stands there. After want of memory what `out` was is its beginning.
fn append_place(out: &mut Rope, store: &GitStore, place: usize) -> Result<(), NoMemory>
    ensures ok { OnOk result (out.new ≡ out.old ++ stream_text (object_list (slice_get store.now place))) }
    ensures front { StartsWith out.new out.old }
{
    match store.object_at(place) {
        Some((id, kind, content)) => put_with_id(out, id, kind, content),
        None => Ok(()),
    }
}

/// Appends the objects that are known under these ids. After want of memory what `out` was is its beginning.
pub fn append_objects(out: &mut Rope, store: &GitStore, ids: &[Id]) -> Result<(), NoMemory>
    ensures ok { OnOk result (out.new ≡ out.old ++ stream_text (objects_of store.now ids.now)) }
    ensures front { StartsWith out.new out.old }
{
    for id in ids {
        append_at(out, store, id)?;
    }
    Ok(())
}

// Appends the object with this id, where it is known. After want of memory what `out` was is its beginning.
fn append_at(out: &mut Rope, store: &GitStore, id: &Id) -> Result<(), NoMemory>
    ensures ok { OnOk result (out.new ≡ out.old ++ stream_text (objects_at store.now id.now)) }
    ensures front { StartsWith out.new out.old }
{
    match store.shared_object(id) {
        Some((kind, content)) => put_with_id(out, id, kind, content),
        None => Ok(()),
    }
}
