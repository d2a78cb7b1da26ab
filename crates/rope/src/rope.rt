// A text that grows by copies of short pieces and by shares of long ones.
ghost use Rattle.std.specs.Prelude.{◌≡◌, ◌++◌, ◌∷◌, [], List, ℕ, OnOk, OnErr, IfOk};
ghost use Rattle.std.specs.List.{concat};
ghost use Rattle.std.specs.Io.{StartsWith};

use bytes::{Bytes, BytesMut};
use std::alloc::{AllocError, Global};
use std::marker::Model;

/// From how many bytes on a piece is shared, and not copied.
const SHARED_LEN: usize = 1 << 10;

/// How much room is taken at once for bytes that are copied.
const BLOCK_LEN: usize = 1 << 16;

/// A text in pieces that grows at its end: short pieces are copied, one behind the other, and long ones that have an owner already get another one.
/// Contracts see its bytes.
pub struct Rope {
    pieces: Vec<Bytes>,
    // What was copied behind the last piece.
    tail: BytesMut,
    alloc: Global,
}

impl Drop for Rope {
    fn drop(self) {
        let Rope {
            pieces: _,
            tail: _,
            alloc: _,
        } = self;
    }
}

impl Model for Rope {
    ghost Value = { List ℕ };

    ghost view = { λ rope. concat rope.pieces.items ++ rope.tail.items };
}

impl Rope {
    /// The empty text.
    pub fn new(alloc: Global) -> Rope
        ensures { result ≡ [] }
    {
        Rope {
            pieces: Vec::new(alloc),
            tail: BytesMut::new(alloc),
            alloc,
        }
    }

    /// The text of these very bytes, not copied.
    pub fn of(alloc: Global, bytes: Vec<u8>) -> Rope
        ensures { result ≡ bytes.items }
    {
        Rope {
            pieces: Vec::new(alloc),
            tail: BytesMut::from_vec(bytes),
            alloc,
        }
    }

    /// Appends a copy of these bytes. After want of memory what the text was is its beginning.
    pub fn put(&mut self, bytes: &[u8]) -> Result<(), AllocError>
        ensures ok { OnOk result (self.new ≡ self.old ++ bytes.now) }
        ensures front { StartsWith self.new self.old }
    {
        if bytes.len() > self.tail.capacity() - self.tail.len() {
            close(&mut self.pieces, &mut self.tail)?;
            self.tail.reserve(bytes.len().max(BLOCK_LEN))?;
        }
        self.tail.extend_from_slice(bytes)
    }

    /// Appends a byte. After want of memory what the text was is its beginning.
    pub fn push(&mut self, byte: u8) -> Result<(), AllocError>
        ensures ok { OnOk result (self.new ≡ self.old ++ byte ∷ []) }
        ensures front { StartsWith self.new self.old }
    {
        self.put(&[byte])
    }

    /// Appends a text that others own too: a long one is not copied. After want of memory what the text was is its beginning.
    #[tactic(auto, using(crate::proofs::Pieces::concat_end))]
    pub fn share(&mut self, text: &Bytes) -> Result<(), AllocError>
        ensures ok { OnOk result (self.new ≡ self.old ++ text.now) }
        ensures front { StartsWith self.new self.old }
    {
        if text.len() < SHARED_LEN {
            return self.put(text.as_slice());
        }
        let piece = text.slice(0..text.len())?;
        close(&mut self.pieces, &mut self.tail)?;
        self.pieces.push(piece)?;
        Ok(())
    }

    /// The pieces but for the last, and the last: one behind the other they are the text.
    pub fn pieces(&self) -> (&[Bytes], &[u8])
        ensures { concat result.0.now ++ result.1.now ≡ self.now }
    {
        (self.pieces.as_slice(), self.tail.as_slice())
    }

    /// The text in one piece.
    #[tactic(auto, using(crate::proofs::Pieces::concat_push))]
    pub fn joined(&self) -> Result<Vec<u8>, AllocError>
        ensures { IfOk result (λ bytes. bytes.items ≡ self.now) }
    {
        let mut out = Vec::new(self.alloc);
        for piece in &self.pieces {
            out.extend_from_slice(piece.as_slice())?;
        }
        out.extend_from_slice(self.tail.as_slice())?;
        Ok(out)
    }
}

// Makes a piece of what was copied last.
#[tactic(auto, using(crate::proofs::Pieces::concat_push))]
fn close(pieces: &mut Vec<Bytes>, tail: &mut BytesMut) -> Result<(), AllocError>
    ensures ok { OnOk result ((concat pieces.new.items ≡ concat pieces.old.items ++ tail.old.items) × (tail.new.items ≡ [])) }
    ensures err { OnErr result ((pieces.new.items ≡ pieces.old.items) × (tail.new.items ≡ tail.old.items)) }
{
    if tail.is_empty() {
        return Ok(());
    }
    pieces.reserve(1)?;
    let piece = tail.freeze_to(tail.len())?;
    pieces.push(piece)?;
    Ok(())
}
