// The entries of a bundle, a line each.
ghost use Rattle.std.specs.Prelude.{◌≡◌, ◌++◌, option_map, IfOk, IfErr, OnOk, OnErr, IfSome};
ghost use Rattle.text_model.specs.Text.{IsBytes};
ghost use Rattle.hg_model.specs.Bundle.{ListsBundle};
ghost use Rattle.std.specs.Io.{StartsWith};
ghost use Rattle.std.specs.Io.KnownBytes.{IsAtEnd};
ghost use Rattle.hg_bundle.specs.Faults.{AnswerCause, IsListFault};
ghost use Rattle.hg_bundle.specs.Listing.{Lists, TellsNoBundle, IsLongEnough, IsStepFault, line_at, next_place};
ghost use Rattle.hg_bundle.specs.Place.{place_value};

use crate::fault::{BundleFault, refused};
use crate::line::{HEADER, append_line};
use crate::place::{Group, Place};
use bridge_io::Source;
use bridge_text::{Bytes, Fault, Id};
use hg_chunk::ChunkReader;
use std::alloc::Global;

/// Reads a bundle to the end of its source and appends a line for each entry, in the order of the bundle:
/// `changeset`, `manifest` or `file` and the escaped path, then node, parents and link node in hex digits, then how
/// many bytes the delta has.
///
/// A bundle is that of Mercurial's help topics `internals.bundles` and `internals.changegroups` (HG10UN, changegroup
/// version 1). Only its framing is checked: `Ok` says that the bytes are a bundle within the limits, and `Refused` that
/// they are none, with the first fault and its offset: Magic, OtherBundle, Truncated, InputLimit, Length, Limit, HeaderShort
/// or Trailing. After a fault `out` is as it was.
pub fn list<S: Source>(alloc: Global, src: &mut S, out: &mut Vec<u8>) -> Result<(), BundleFault>
    ensures bundle { OnOk result (IfSome (S.left src.old) (λ bytes. ListsBundle bytes out.old.items out.new.items)) }
    ensures no_bundle { IfErr result (λ e. IfSome (S.left src.old) (TellsNoBundle e)) }
    ensures names { IfErr result IsListFault }
    ensures lists { IfSome (S.left src.old) (λ bytes. Lists bytes out.old.items result out.new.items) }
    ensures end { OnOk result (IsAtEnd (S.left src.new)) }
    ensures kept { OnErr result (out.new.items ≡ out.old.items) }
    ensures cause { AnswerCause (S.faults src.old) (S.faults src.new) result }
{
    let start = out.len();
    let listed = append_lines(alloc, src, out);
    if listed.is_err() {
        out.truncate(start);
    }
    listed
}

fn append_lines<S: Source>(alloc: Global, src: &mut S, out: &mut Vec<u8>) -> Result<(), BundleFault>
    ensures lists { IfSome (S.left src.old) (λ bytes. Lists bytes out.old.items result out.new.items) }
    ensures end { OnOk result (IsAtEnd (S.left src.new)) }
    ensures bytes { OnOk result (IfSome (S.left src.old) IsBytes) }
    ensures names { IfErr result IsListFault }
    ensures front { StartsWith out.new.items out.old.items }
    ensures cause { AnswerCause (S.faults src.old) (S.faults src.new) result }
{
    let mut reader = ChunkReader::new();
    reader.magic(src)?;
    let mut next = Some(Place::In(Group::Changesets));
    let mut payload = Vec::new(alloc);
    'chunks: while let Some(place) = next {
        let at = reader.offset();
        reader.next(src, place.most(), &mut payload)?;
        next = step(alloc, place, at, &payload, out)?;
    }
    Ok(reader.finish(src)?)
}

// Appends the line of the chunk that stood at a place, and says where the next one stands.
fn step(
    alloc: Global,
    place: Place,
    at: u64,
    payload: &[u8],
    out: &mut Vec<u8>,
) -> Result<Option<Place>, BundleFault>
    ensures next { IfOk result (λ next. option_map place_value next ≡ next_place (place_value place) payload.now) }
    ensures line { OnOk result (out.new.items ≡ out.old.items ++ line_at (place_value place) payload.now) }
    ensures long { OnOk result (IsLongEnough (place_value place) payload.now) }
    ensures bytes { OnOk result (IsBytes payload.now) }
    ensures front { StartsWith out.new.items out.old.items }
    ensures fault { IfErr result (IsStepFault (place_value place) at payload.now) }
    ensures names { IfErr result IsListFault }
{
    if payload.is_empty() {
        return Ok(place.after_empty());
    }
    match place {
        Place::AtPath => Ok(Some(Place::In(Group::File(Bytes::of(alloc, payload)?)))),
        Place::In(group) => {
            if payload.len() < HEADER {
                return Err(refused(Fault::HeaderShort, Id::NULL, at));
            }
            append_line(out, &group, payload)?;
            Ok(Some(Place::In(group)))
        }
    }
}
