// The pieces of a text, one behind the other in memory.
ghost use Rattle.std.specs.Prelude.{◌≡◌, ◌≤◌, ◌+◌, ◌-◌, ◌^◌, ◌++◌, length, min, vec_len, vec_capacity};
ghost use Rattle.std.specs.List.{concat};

use bytes::Bytes;

// How many bytes pieces have together. More than a number of 64 bits tells are its greatest.
pub fn pieces_len(pieces: &[Bytes]) -> usize
    ensures { result ≡ min (length (concat pieces.now)) (2 ^ 64 - 1) }
{
    let mut len: usize = 0;
    for piece in pieces {
        len = len.saturating_add(piece.len());
    }
    len
}

// Appends pieces to what has room for them.
pub fn append_pieces(room: &mut Vec<u8>, pieces: &[Bytes])
    requires room { vec_len room.old + length (concat pieces.now) ≤ vec_capacity room.old }
    ensures bytes { room.new.items ≡ room.old.items ++ concat pieces.now }
    ensures kept { vec_capacity room.old ≤ vec_capacity room.new }
{
    for piece in pieces {
        room.extend_from_slice(piece.as_slice()).unwrap();
    }
}
