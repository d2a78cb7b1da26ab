ghost use Rattle.std.specs.Prelude.{◌≡◌, ◌≤◌, ◌↔◌, [], List, ℕ, Ok, true, length, drop, IfOk, IfErr, OnOk, vec_capacity};
ghost use Rattle.text_model.specs.Text.{Bytes, IsBytes};
ghost use Rattle.hg_model.specs.Delta.{Hunk, Hunks, Patches, hunks_of, delta_reading, patched_size, patched_text};
ghost use Rattle.hg_hunk.specs.Faults.{HasPatchedSize, HasPatchedText, HasPlaceIn, IsFault, IsFaultOrMemory};
ghost use Rattle.hg_hunk.specs.Wholes.{IsWhole};

use crate::fault::HunkFault;
use crate::hunk::next_hunk;
use crate::room::put;
use std::alloc::Global;

// Whether each hunk is whole, or which is cut.
fn check_shapes(delta: &[u8]) -> Result<(), HunkFault>
    ensures whole { OnOk result ((hs : List Hunk) × (hunks_of delta.now ≡ Ok hs)) }
    ensures cut { IfErr result (λ e. (base_size most : ℕ) → IsFault base_size delta.now most e) }
    ensures place { IfErr result (HasPlaceIn delta.now) }
{
    let mut rest = delta;
    while let Some((_, after)) = next_hunk(rest) {
        rest = after;
    }
    if rest.is_empty() {
        Ok(())
    } else {
        Err(HunkFault::Shape(delta.len() - rest.len()))
    }
}

/// The length of the text that a delta makes of a base of this length. It takes no memory.
///
/// `Shape` comes where a hunk of the delta is cut; else `Range` where one is out of range; else
/// `Limit` where the text is longer than `most`. The fault is that of the first such hunk, with its
/// offset in the delta.
pub fn patched_len(base_len: usize, delta: &[u8], most: usize) -> Result<usize, HunkFault>
    ensures size { IfOk result (HasPatchedSize base_len delta.now) }
    ensures most { IfOk result (λ n. n ≤ most) }
    ensures fault { IfErr result (IsFault base_len delta.now most) }
    ensures place { IfErr result (HasPlaceIn delta.now) }
{
    check_shapes(delta)?;
    let mut rest = delta;
    let mut from = 0;
    let mut kept = 0;
    let mut inserted = 0;
    while let Some((hunk, after)) = next_hunk(rest) {
        if !hunk.is_within(from, base_len) {
            return Err(HunkFault::Range(delta.len() - rest.len()));
        }
        kept += hunk.start - from;
        inserted += hunk.bytes.len();
        from = hunk.end;
        rest = after;
    }
    kept += base_len - from;
    match kept.checked_add(inserted) {
        Some(len) if len <= most => Ok(len),
        _ => Err(HunkFault::Limit),
    }
}

/// Writes the text that a delta makes of a base into an empty vector, in which the bytes that
/// [`patched_len`] counts were reserved. It takes no memory.
pub fn fill(out: &mut Vec<u8>, base: &[u8], delta: &[u8])
    requires reserved { (n : ℕ) × HasPatchedSize (length base.now) delta.now n × (n ≤ vec_capacity out.old) }
    requires empty { out.old.items ≡ [] }
    ensures patches { Patches base.now delta.now out.new.items }
    ensures reading { HasPatchedText base.now delta.now out.new.items }
{
    let mut rest = delta;
    let mut from = 0;
    while let Some((hunk, after)) = next_hunk(rest) {
        put(out, &base[from..hunk.start]);
        put(out, hunk.bytes);
        from = hunk.end;
        rest = after;
    }
    put(out, &base[from..]);
}

/// The text that a delta makes of a base, of at most `most` bytes. The faults are those of
/// [`patched_len`], and `Memory` where there was no memory for the text.
pub fn apply(alloc: Global, base: &[u8], delta: &[u8], most: usize) -> Result<Vec<u8>, HunkFault>
    ensures patches { IfOk result (λ text. Patches base.now delta.now text.items) }
    ensures reading { IfOk result (λ text. HasPatchedText base.now delta.now text.items) }
    ensures most { IfOk result (λ text. length text.items ≤ most) }
    ensures fault { IfErr result (IsFaultOrMemory (length base.now) delta.now most) }
{
    let len = patched_len(base.len(), delta, most)?;
    let mut text = Vec::with_capacity(alloc, len)?;
    fill(&mut text, base, delta);
    Ok(text)
}

/// Whether a delta is one hunk that replaces a whole base of this length. Then the text that it makes of any such base is the delta without its
/// first twelve bytes, the hunk's numbers.
pub fn is_whole(base_len: usize, delta: &[u8]) -> bool
    ensures whole { (result ≡ true) ↔ IsWhole base_len delta.now }
    ensures long { result ≡ true → 12 ≤ length delta.now }
    ensures text { result ≡ true → (base : Bytes) → length base ≡ base_len → HasPatchedText base delta.now (drop 12 delta.now) }
    ensures patches { result ≡ true → (base : Bytes) → length base ≡ base_len → Patches base delta.now (drop 12 delta.now) }
{
    let Some((hunk, rest)) = next_hunk(delta) else {
        return false;
    };
    hunk.is_alone(rest.len(), base_len)
}

/// A law: the hunks of a delta that turns a base into a text are those that are read, and the other
/// way round. So a base and a delta give one text.
pub fn reads_patches()
    ensures read { (base delta text : Bytes) (p : Patches base delta text) → delta_reading (length base) delta ≡ Hunks p.hunks }
    ensures patches { (base delta : Bytes) (hs : List Hunk) → IsBytes delta → delta_reading (length base) delta ≡ Hunks hs → (p : Patches base delta (patched_text base hs)) × (p.hunks ≡ hs) }
    ensures one_text { (base delta text other : Bytes) → Patches base delta text → Patches base delta other → text ≡ other }
    ensures size { (base delta text : Bytes) (p : Patches base delta text) → length text ≡ patched_size (length base) p.hunks }
{}
