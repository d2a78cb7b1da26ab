// A reader of chunks, which knows how far it is.
ghost use Rattle.std.specs.Prelude.{◌≡◌, ◌+◌, ◌-◌, ◌≤◌, ◌<◌, ◌^◌, ℕ, [], length, IfOk, IfErr, OnOk, OnErr, IfSome, Some, unwrap_or};
ghost use Rattle.std.specs.Io.KnownBytes.{Consumes, IsAtEnd};
ghost use Rattle.text_model.specs.Fault.{refusal_at, reach, input_limit};
ghost use Rattle.text_model.specs.Fault as fault;
ghost use Rattle.byteorder.specs.Endian.{big_bytes};
ghost use Rattle.hg_model.specs.Bundle.{delta_limit};
ghost use Rattle.hg_model.specs.Chunk.{field_of, chunk_text, magic_text, chunk_fault, magic_fault, other_magic, trailing_fault, or_else};
ghost use Rattle.hg_chunk.specs.Faults.{Judges, IsFault, IsMagicFault, IsEndFault, IsItemFault, IsChunkFault};
ghost use Rattle.hg_chunk.specs.Reader.{AnswerCause, FaultCause, payload_of};

use crate::ChunkFault;
use crate::item::whole;
use crate::number::number_of;
use bridge_io::{Source, fill, fill_vec, skip};
use bridge_text::INPUT_LIMIT;
use shared_text::Text;
use std::marker::Model;

const MAGIC: &[u8; 6] = b"HG10UN";

/// A chunk that was read.
#[derive(Clone, Copy, Debug, PartialEq, Eq)]
pub enum Piece {
    /// It has a payload. The number is the offset of its length field.
    Full(u64),
    /// It is the empty chunk.
    Empty,
}

/// Reads chunks one after the other. After a fault it is not used again.
#[derive(Debug, Drop)]
pub struct ChunkReader {
    offset: u64,
}

impl Model for ChunkReader {
    ghost Value = { ℕ };

    ghost view = { λ r. r.offset };

    ghost invariant = { λ r. r.offset ≤ input_limit };
}

impl ChunkReader {
    ghost use Rattle.hg_chunk.specs.Reader.{IsPieceOf};

    /// At offset 0.
    pub fn new() -> ChunkReader
        ensures { result ≡ 0 }
    {
        ChunkReader { offset: 0 }
    }

    /// How many bytes it has read.
    pub fn offset(&self) -> u64
        ensures value { result ≡ self.now }
        ensures limit { result ≤ input_limit }
    {
        self.offset
    }

    /// Reads the six bytes that a bundle begins with.
    #[tactic(auto, unfolding(hg_model::specs::Chunk::magic_fault))]
    pub fn magic<S: Source>(&mut self, src: &mut S) -> Result<(), ChunkFault>
        requires { self.old ≡ 0 }
        ensures bytes { OnOk result (Consumes (S.left src.old) (S.left src.new) magic_text) }
        ensures offset { OnOk result (self.new ≡ 6) }
        ensures judged { IfSome (S.left src.old) (λ bytes. Judges (magic_fault bytes) result) }
        ensures names { IfErr result IsMagicFault }
        ensures cause { AnswerCause (S.faults src.old) (S.faults src.new) result }
    {
        let mut first = [0; 6];
        let came = fill(src, &mut first)?;
        whole(0, 6, came as u64)?;
        judge_magic(&first)?;
        self.offset = 6;
        Ok(())
    }

    /// Checks that the source is at its end.
    pub fn finish<S: Source>(&mut self, src: &mut S) -> Result<(), ChunkFault>
        ensures end { OnOk result (IsAtEnd (S.left src.old) × IsAtEnd (S.left src.new)) }
        ensures judged { IfErr result (λ e. IfSome (S.left src.old) (λ bytes. IsFault (trailing_fault self.old bytes) e)) }
        ensures names { IfErr result IsEndFault }
        ensures cause { AnswerCause (S.faults src.old) (S.faults src.new) result }
    {
        let mut next = [0; 1];
        let count = fill(src, &mut next)?;
        if count != 0 {
            return Err(ChunkFault::Trailing(self.offset));
        }
        Ok(())
    }

    /// Reads the next chunk, whose length field is at most `most`, and puts its payload into `into`.
    #[tactic(auto, unfolding(hg_model::specs::Chunk::chunk_fault))]
    pub fn next<S: Source>(
        &mut self,
        src: &mut S,
        most: u32,
        into: &mut Vec<u8>,
    ) -> Result<Piece, ChunkFault>
        requires { most ≤ delta_limit }
        ensures piece { IfOk result (IsPieceOf self.old into.new.items) }
        ensures bytes { OnOk result (Consumes (S.left src.old) (S.left src.new) (chunk_text into.new.items)) }
        ensures field { OnOk result (field_of into.new.items ≤ most) }
        ensures limit { OnOk result (self.new ≤ input_limit) }
        ensures offset { OnOk result (self.new ≡ self.old + (length into.new.items + 4)) }
        // Each fault comes exactly where it is what is wrong with the chunk.
        ensures judged { IfSome (S.left src.old) (λ bytes. Judges (chunk_fault most self.old bytes) result) }
        ensures names { IfErr result IsChunkFault }
        ensures err { OnErr result (into.new.items ≡ []) }
        ensures cause { AnswerCause (S.faults src.old) (S.faults src.new) result }
    {
        into.clear();
        let at = self.offset;
        let Some(size) = read_size(src, at, most)? else {
            self.offset = at + 4;
            return Ok(Piece::Empty);
        };
        read_payload(src, at, size, into)?;
        self.offset = at + u64::from(size);
        Ok(Piece::Full(at))
    }

    /// Reads the next chunk in the same way. Its payload is the text that is answered, a part of what the source lends, or else what was put
    /// into `into`.
    #[tactic(auto, unfolding(hg_model::specs::Chunk::chunk_fault))]
    pub fn next_text<S: Source>(
        &mut self,
        src: &mut S,
        most: u32,
        into: &mut Vec<u8>,
    ) -> Result<Option<Text>, ChunkFault>
        requires { most ≤ delta_limit }
        ensures bytes { IfOk result (λ lent. Consumes (S.left src.old) (S.left src.new) (chunk_text (payload_of lent into.new.items))) }
        ensures field { IfOk result (λ lent. field_of (payload_of lent into.new.items) ≤ most) }
        ensures limit { OnOk result (self.new ≤ input_limit) }
        ensures offset { IfOk result (λ lent. self.new ≡ self.old + (length (payload_of lent into.new.items) + 4)) }
        ensures judged { IfSome (S.left src.old) (λ bytes. Judges (chunk_fault most self.old bytes) result) }
        ensures names { IfErr result IsChunkFault }
        ensures err { OnErr result (into.new.items ≡ []) }
        ensures cause { AnswerCause (S.faults src.old) (S.faults src.new) result }
    {
        into.clear();
        let at = self.offset;
        let Some(size) = read_size(src, at, most)? else {
            self.offset = at + 4;
            return Ok(None);
        };
        let lent = text_payload(src, at, size, into)?;
        self.offset = at + u64::from(size);
        Ok(lent)
    }
}

// Reads the length field of the chunk at an offset and judges it: how long the chunk is, or none where it is the empty one.
#[tactic(auto, unfolding(hg_model::specs::Chunk::chunk_fault))]
fn read_size<S: Source>(src: &mut S, at: u64, most: u32) -> Result<Option<u32>, ChunkFault>
    requires at { at ≤ input_limit }
    requires most { most ≤ delta_limit }
    ensures bytes { IfOk result (λ size. Consumes (S.left src.old) (S.left src.new) (big_bytes 4 (unwrap_or size 0))) }
    ensures size { IfOk result (λ size. IfSome size (λ n. (5 ≤ n) × (n ≤ most))) }
    ensures fits { OnOk result (at + 4 ≤ input_limit) }
    ensures judged { IfErr result (λ e. IfSome (S.left src.old) (λ bytes. IsFault (chunk_fault most at bytes) e)) }
    ensures names { IfErr result IsChunkFault }
    ensures cause { AnswerCause (S.faults src.old) (S.faults src.new) result }
{
    let size = read_field(src, at)?;
    if size == 0 {
        return Ok(None);
    }
    if size < 5 || size >= 1 << 31 {
        return Err(ChunkFault::Length(at));
    }
    if size > most {
        return Err(over_limit(src, at, size));
    }
    Ok(Some(size))
}

// Reads the length field at an offset.
fn read_field<S: Source>(src: &mut S, at: u64) -> Result<u32, ChunkFault>
    requires { at ≤ input_limit }
    ensures bytes { IfOk result (λ n. Consumes (S.left src.old) (S.left src.new) (big_bytes 4 n)) }
    ensures fits { OnOk result (at + 4 ≤ input_limit) }
    ensures judged { IfErr result (λ e. IfSome (S.left src.old) (λ bytes. IsFault (reach (at + length bytes) (at + 4)) e)) }
    ensures names { IfErr result IsItemFault }
    ensures cause { AnswerCause (S.faults src.old) (S.faults src.new) result }
{
    let mut field = [0; 4];
    let came = fill(src, &mut field)?;
    whole(at, 4, came as u64)?;
    Ok(number_of(&field))
}

// Reads the payload of a chunk, behind its length field.
fn read_payload<S: Source>(
    src: &mut S,
    at: u64,
    size: u32,
    into: &mut Vec<u8>,
) -> Result<(), ChunkFault>
    requires size { (5 ≤ size) × (size < 2 ^ 31) }
    requires at { at + 4 ≤ input_limit }
    requires empty { into.old.items ≡ [] }
    ensures bytes { OnOk result (Consumes (S.left src.old) (S.left src.new) into.new.items) }
    ensures len { OnOk result (length into.new.items ≡ size - 4) }
    ensures fits { OnOk result (at + size ≤ input_limit) }
    ensures judged { IfSome (S.left src.old) (λ rest. Judges (reach (at + (4 + length rest)) (at + size)) result) }
    ensures names { IfErr result IsItemFault }
    ensures err { OnErr result (into.new.items ≡ []) }
    ensures cause { AnswerCause (S.faults src.old) (S.faults src.new) result }
{
    fill_vec(src, into, (size - 4) as usize)?;
    let judged = whole(at, u64::from(size), 4 + into.len() as u64);
    if judged.is_err() {
        into.clear();
    }
    judged
}

// The same, where the payload is lent if the source lends it.
fn text_payload<S: Source>(
    src: &mut S,
    at: u64,
    size: u32,
    into: &mut Vec<u8>,
) -> Result<Option<Text>, ChunkFault>
    requires size { (5 ≤ size) × (size < 2 ^ 31) }
    requires at { at + 4 ≤ input_limit }
    requires empty { into.old.items ≡ [] }
    ensures bytes { IfOk result (λ lent. Consumes (S.left src.old) (S.left src.new) (payload_of lent into.new.items)) }
    ensures len { IfOk result (λ lent. length (payload_of lent into.new.items) ≡ size - 4) }
    ensures fits { OnOk result (at + size ≤ input_limit) }
    ensures judged { IfSome (S.left src.old) (λ rest. Judges (reach (at + (4 + length rest)) (at + size)) result) }
    ensures names { IfErr result IsItemFault }
    ensures err { OnErr result (into.new.items ≡ []) }
    ensures cause { AnswerCause (S.faults src.old) (S.faults src.new) result }
{
    if let Some(text) = src.lend((size - 4) as usize) {
        whole(at, u64::from(size), u64::from(size))?;
        return Ok(Some(text));
    }
    read_payload(src, at, size, into)?;
    Ok(None)
}

// The fault of a chunk whose length is over its limit, behind its length field.
fn over_limit<S: Source>(src: &mut S, at: u64, size: u32) -> ChunkFault
    requires size { (5 ≤ size) × (size < 2 ^ 31) }
    requires at { at + 4 ≤ input_limit }
    ensures judged { IfSome (S.left src.old) (λ rest.
        IsFault (or_else (reach (at + (4 + length rest)) (at + size)) (Some (refusal_at fault.Limit at))) result) }
    ensures names { IsChunkFault result }
    ensures cause { FaultCause (S.faults src.old) (S.faults src.new) result }
{
    let need = u64::from(size);
    // The byte behind the input's limit is the last that is looked for.
    let look = need.min(INPUT_LIMIT + 1 - at);
    match skip(src, look - 4) {
        Ok(came) => match whole(at, need, 4 + came) {
            Ok(()) => ChunkFault::Limit(at),
            Err(fault) => fault,
        },
        Err(_) => ChunkFault::Read,
    }
}

// Judges the six bytes that a bundle begins with.
fn judge_magic(first: &[u8]) -> Result<(), ChunkFault>
    requires { length first.now ≡ 6 }
    ensures judges { Judges (other_magic first.now) result }
    ensures names { IfErr result IsMagicFault }
    ensures same { OnOk result (first.now ≡ magic_text) }
    ensures cause { (faults : ℕ) → AnswerCause faults faults result }
{
    if first == MAGIC.as_slice() {
        return Ok(());
    }
    if first == b"HG10GZ".as_slice()
        || first == b"HG10BZ".as_slice()
        || &first[..4] == b"HG20".as_slice()
    {
        return Err(ChunkFault::OtherBundle);
    }
    Err(ChunkFault::Magic)
}
