// The length of an object in a stream.
ghost use Rattle.std.specs.Prelude.{◌≡◌, length, slice_get};
ghost use Rattle.text_model.specs.Id as text;
ghost use Rattle.text_model.specs.Id.{IsId};
ghost use Rattle.bridge_text.specs.Kinds.{object_kind};
ghost use Rattle.git_model.specs.Stream.{object_text, stream_text};
ghost use Rattle.git_dump.specs.Walks.{object_list, objects_at};

use bridge_text::{Id, Kind};
use git_object::Objects;
use git_store::GitStore;
use itoa::Buffer;

/// How many digits an id has in hex.
const HEX_LEN: usize = 40;

/// How many bytes stand between the id, the kind's word, the size and the content, and behind it.
const BETWEEN_LEN: usize = 4;

/// How many bytes the object with this id takes in a stream; 0 where it is unknown.
pub fn len_at(store: &GitStore, id: &Id) -> u64
    ensures { result ≡ length (stream_text (objects_at store.now id.now)) }
{
    match store.content(id) {
        Some((kind, content)) => object_len(kind, content),
        None => 0,
    }
}

/// How many bytes the object at this place of the store takes in a stream; 0 where none stands there.
pub fn len_of_place(store: &GitStore, place: usize) -> u64
    ensures { result ≡ length (stream_text (object_list (slice_get store.now place))) }
{
    match store.object_at(place) {
        Some((_, kind, content)) => object_len(kind, content.as_slice()),
        None => 0,
    }
}

// How many bytes an object of this kind and content takes in a stream, whatever its id is.
fn object_len(kind: Kind, content: &[u8]) -> u64
    ensures { (id : text.Id) → IsId id → result ≡ length (object_text (record { id = id; kind = object_kind kind; content = content.now })) }
{
    let mut buffer = Buffer::new();
    let size = buffer.format(content.len()).len();
    (content.len() + (HEX_LEN + kind.word().len() + size + BETWEEN_LEN)) as u64
}
