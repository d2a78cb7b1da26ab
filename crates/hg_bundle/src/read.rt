// A bundle, read into a store.
ghost use Rattle.std.specs.Prelude.{◌≡◌, IfSome, IfOk, IfErr, OnOk};
ghost use Rattle.std.specs.Io.KnownBytes.{IsAtEnd};
ghost use Rattle.text_model.specs.Text.{IsBytes};
ghost use Rattle.hg_store.specs.Known.{AreAdded};
ghost use Rattle.hg_bundle.specs.Arrivals.{Reads, AreArrivals};
ghost use Rattle.hg_bundle.specs.Brought.{BringsBundle, TellsUnreadable};
ghost use Rattle.hg_bundle.specs.Faults.{AnswerCause, IsReadFault};

use crate::arrival::Arrivals;
use crate::fault::BundleFault;
use crate::gather::Gathered;
use crate::payload::Payload;
use crate::place::{Group, Place};
use bridge_io::Source;
use hg_chunk::ChunkReader;
use hg_store::HgStore;
use std::alloc::Global;

/// Reads a bundle to the end of its source into a store, and lists its entries, in the order of the bundle. The texts are
/// made of the deltas, and each revision is checked and added as it comes. A text that stands whole in what the source lends isn't
/// copied.
///
/// A bundle is that of Mercurial's help topics `internals.bundles` and `internals.changegroups` (HG10UN, changegroup
/// version 1). The delta of the first entry of a group is against its first parent's text, empty for the null id, and each
/// later one against the text before it. A text of a changeset has at most 2^24 bytes, another at most 2^26, and all of
/// them together at most 2^30.
///
/// `Ok` says that the bytes are a bundle within the limits, of which each revision can be added to those before it, and
/// `Refused` that they are none. Its fault is the first of the input. Of one entry these come in this order: `InputLimit` and
/// `Limit`, the faults of its parents and its link, those of its hunks, those of its node and its text, and `Collision`.
pub fn read_into<S: Source>(
    alloc: Global,
    src: &mut S,
    store: HgStore,
) -> Result<(HgStore, Arrivals), BundleFault>
    // what the bytes are, by the relations of the format
    ensures bundle { IfOk result (λ read. IfSome (S.left src.old) (λ bytes. BringsBundle store bytes read.0 read.1)) }
    ensures no_bundle { IfErr result (λ e. IfSome (S.left src.old) (TellsUnreadable store e)) }
    ensures names { IfErr result IsReadFault }
    // exactly what was listed, and why the bytes are refused
    ensures reads { IfSome (S.left src.old) (λ bytes. Reads store bytes result) }
    // what was listed was added, and marked as fresh or not, also where the source doesn't tell its bytes
    ensures grown { IfOk result (λ read. AreArrivals store read.0 read.1) }
    // where each revision of the store was added to those before it, so was each that came
    ensures added { IfOk result (λ read. AreAdded store → AreAdded read.0) }
    ensures end { OnOk result (IsAtEnd (S.left src.new)) }
    ensures bytes { OnOk result (IfSome (S.left src.old) IsBytes) }
    ensures cause { AnswerCause (S.faults src.old) (S.faults src.new) result }
{
    let mut reader = ChunkReader::new();
    reader.magic(src)?;
    let mut gathered = Gathered::new(alloc, store);
    let mut next = Some(Place::In(Group::Changesets));
    let mut payload = Vec::new(alloc);
    'chunks: while let Some(place) = next {
        let at = reader.offset();
        let lent = reader.next_text(src, place.most(), &mut payload)?;
        next = gathered.take(alloc, place, at, &Payload::of(&lent, &payload))?;
        // The store owns what it keeps of this.
        drop(lent);
    }
    reader.finish(src)?;
    Ok((gathered.store, gathered.arrivals))
}
