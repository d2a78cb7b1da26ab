// What was read of a bundle so far, and how an entry adds to it.
ghost use Rattle.std.specs.Prelude.{◌≡◌, ◌≤◌, ◌<◌, ◌^◌, [], None, Some, true, ◌==◌, if◌then◌else◌, IfOk, IfErr, OnOk, option_map, length};
ghost use Rattle.std.specs.Option.{option_copied};
ghost use Rattle.text_model.specs.Text.{IsBytes};
ghost use Rattle.text_model.specs.Path.{is_fit_path};
ghost use Rattle.text_model.specs.Fault.{refusal_at, input_limit};
ghost use Rattle.text_model.specs.Fault as fault;
ghost use Rattle.hg_model.specs.Revision.{FilesAt};
ghost use Rattle.hg_model.specs.Reading.{hunk_place, sum_limit};
ghost use Rattle.hg_store.specs.Known.{AreAdded, HasFitPath};
ghost use Rattle.hg_bundle.specs.Entry.{entry_value, base_for, fault_for, EndsPayload, HasLast, HasText, Patches, IsReadPatch};
ghost use Rattle.hg_bundle.specs.Faults.{IsJudgement, IsReadFault};
ghost use Rattle.hg_bundle.specs.Listing.{next_place};
ghost use Rattle.hg_bundle.specs.Payload.{payload_bytes};
ghost use Rattle.hg_bundle.specs.Place.{place_value, group_value};
ghost use Rattle.hg_bundle.specs.Steps.{Adds, HasFitPlace, HasLastAt, Steps, step_refusal};

use crate::arrival::{Arrival, Arrivals};
use crate::entry::Entry;
use crate::fault::{BundleFault, addition_fault, refused};
use crate::line::HEADER;
use crate::payload::Payload;
use crate::place::{Group, Place};
use bridge_text::{Added, Bytes, Fault, Id, SUM_LIMIT, fit_path};
use hg_hunk::{HunkFault, patched_len};
use hg_store::HgStore;
use shared_text::Text;
use std::alloc::Global;

/// How many bytes stand before the delta of an entry: its length field and four ids.
const BEFORE_DELTA: u64 = 84;

/// What was read of a bundle so far.
#[derive(Drop)]
pub struct Gathered {
    pub store: HgStore,
    pub arrivals: Arrivals,
    /// The node of the entry before in the same group; none where the group begins.
    pub last: Option<Id>,
    /// How many bytes the texts have, summed.
    pub sum: usize,
}

/// What an entry's delta makes of its base.
pub enum Patched {
    Text(Text),
    /// It makes no text. This is told where the parents and the link are right.
    Refused(BundleFault),
}

impl Gathered {
    /// Nothing was read: the store is as it was.
    pub fn new(alloc: Global, store: HgStore) -> Gathered
        ensures { result ≡ record { store = store; arrivals = []; last = None; sum = 0 } }
    {
        Gathered {
            store,
            arrivals: Arrivals::new(alloc),
            last: None,
            sum: 0,
        }
    }

    /// Takes the chunk that stood at a place, and says where the next one stands.
    pub fn take(
        &mut self,
        alloc: Global,
        place: Place,
        at: u64,
        payload: &Payload<'_>,
    ) -> Result<Option<Place>, BundleFault>
        requires sum { self.old.sum ≤ sum_limit }
        requires at { at ≤ input_limit }
        requires small { length (payload_bytes payload.now) < 2 ^ 31 }
        requires fit { HasFitPlace (Some (place_value place)) }
        requires last { HasLastAt self.old.store self.old.last (Some (place_value place)) }
        ensures next { IfOk result (λ next. option_map place_value next ≡ next_place (place_value place) (payload_bytes payload.now)) }
        ensures fit { IfOk result (λ next. HasFitPlace (option_map place_value next)) }
        ensures last { IfOk result (λ next. HasLastAt self.new.store self.new.last (option_map place_value next)) }
        ensures sum { OnOk result (self.new.sum ≤ sum_limit) }
        ensures steps { OnOk result (Steps (place_value place) at (payload_bytes payload.now) self.old self.new) }
        ensures bytes { OnOk result (IsBytes (payload_bytes payload.now)) }
        ensures fault { IfErr result (IsJudgement (step_refusal (place_value place) at (payload_bytes payload.now) self.old)) }
        ensures names { IfErr result IsReadFault }
        ensures added { OnOk result (AreAdded self.old.store → AreAdded self.new.store) }
    {
        if is_end(payload.bytes()) {
            self.last = None;
            return Ok(place.after_empty());
        }
        match place {
            Place::AtPath => {
                self.last = None;
                Ok(Some(Place::In(file_group(alloc, at, payload.bytes())?)))
            }
            Place::In(group) => {
                if payload.bytes().len() < HEADER {
                    return Err(refused(Fault::HeaderShort, Id::NULL, at));
                }
                self.add(alloc, &group, at, &Entry::of(payload))?;
                Ok(Some(Place::In(group)))
            }
        }
    }

    // Adds the revision of an entry.
    fn add(
        &mut self,
        alloc: Global,
        group: &Group,
        at: u64,
        entry: &Entry<'_>,
    ) -> Result<(), BundleFault>
        requires sum { self.old.sum ≤ sum_limit }
        requires at { at ≤ input_limit }
        requires small { length entry.now.delta.now < 2 ^ 31 }
        requires fit { HasFitPath (group_value group.now) }
        requires ends { EndsPayload entry.now }
        requires last { HasLast self.old.store (group_value group.now) self.old.last }
        ensures sum { OnOk result (self.new.sum ≤ sum_limit) }
        ensures adds { OnOk result (Adds (group_value group.now) at (entry_value entry.now) self.old self.new) }
        ensures fault { IfErr result (IsJudgement (fault_for self.old.store self.old.sum (group_value group.now) self.old.last at (entry_value entry.now))) }
        ensures names { IfErr result IsReadFault }
        ensures added { OnOk result (AreAdded self.new.store) }
    {
        let path = group.path(alloc)?;
        let text = self.text(alloc, group, at, entry)?;
        let len = text.len();
        let fresh = match self.store.add(entry.with_text(group, text)) {
            Ok(added) => added == Added::New,
            Err(fault) => return Err(addition_fault(fault, entry.node, at)),
        };
        let arrival = Arrival {
            kind: group.kind(),
            path,
            node: entry.node,
            at,
            fresh,
        };
        self.arrivals.push(arrival)?;
        self.last = Some(entry.node);
        self.sum += len;
        Ok(())
    }

    // The text of an entry. Where its delta makes none, a fault of its parents or its link comes first.
    fn text(
        &self,
        alloc: Global,
        group: &Group,
        at: u64,
        entry: &Entry<'_>,
    ) -> Result<Text, BundleFault>
        requires sum { self.now.sum ≤ sum_limit }
        requires at { at ≤ input_limit }
        requires small { length entry.now.delta.now < 2 ^ 31 }
        requires ends { EndsPayload entry.now }
        requires last { HasLast self.now.store (group_value group.now) self.now.last }
        ensures text { IfOk result (λ text. HasText self.now.store self.now.sum (group_value group.now) self.now.last (entry_value entry.now) text) }
        ensures fault { IfErr result (IsJudgement (fault_for self.now.store self.now.sum (group_value group.now) self.now.last at (entry_value entry.now))) }
        ensures names { IfErr result IsReadFault }
    {
        match self.patched(alloc, group, at, entry)? {
            Patched::Text(text) => Ok(text),
            Patched::Refused(refused) => {
                let empty = entry.with_text(group, Text::new());
                match self.store.check_ancestry(&empty) {
                    Ok(()) => Err(refused),
                    Err(fault) => Err(addition_fault(fault, entry.node, at)),
                }
            }
        }
    }

    // What the delta of an entry makes of its base. The limits come first.
    fn patched(
        &self,
        alloc: Global,
        group: &Group,
        at: u64,
        entry: &Entry<'_>,
    ) -> Result<Patched, BundleFault>
        requires sum { self.now.sum ≤ sum_limit }
        requires at { at ≤ input_limit }
        requires small { length entry.now.delta.now < 2 ^ 31 }
        requires ends { EndsPayload entry.now }
        requires last { HasLast self.now.store (group_value group.now) self.now.last }
        ensures refused { IfOk result IsReadPatch }
        ensures patched { IfOk result (Patches self.now.store self.now.sum (group_value group.now) self.now.last at (entry_value entry.now)) }
        ensures fault { IfErr result (IsJudgement (fault_for self.now.store self.now.sum (group_value group.now) self.now.last at (entry_value entry.now))) }
        ensures names { IfErr result IsReadFault }
    {
        let Some(base) = self.base(group, &entry.p) else {
            let fault = refused(Fault::ParentUnknown, entry.node, at);
            return Ok(Patched::Refused(fault));
        };
        let len = match patched_len(base.len(), entry.delta, SUM_LIMIT - self.sum) {
            Ok(len) => len,
            Err(HunkFault::Shape(place)) => {
                let fault = refused(Fault::HunkShape, entry.node, hunk_place(at, place));
                return Ok(Patched::Refused(fault));
            }
            Err(HunkFault::Range(place)) => {
                let fault = refused(Fault::HunkRange, entry.node, hunk_place(at, place));
                return Ok(Patched::Refused(fault));
            }
            Err(HunkFault::Limit) => return Err(refused(Fault::InputLimit, Id::NULL, at)),
            Err(HunkFault::Memory) => return Err(BundleFault::Memory),
        };
        if len > group.text_limit() {
            return Err(refused(Fault::Limit, entry.node, at));
        }
        Ok(Patched::Text(entry.text_over(alloc, base, len)?))
    }

    // The base of an entry: the text of the entry before, or at the beginning of a group that of the first parent.
    fn base(&self, group: &Group, parent: &Id) -> Option<&[u8]>
        ensures { option_map (λ base. base.now) result ≡ base_for self.now.store (group_value group.now) self.now.last parent.now }
    {
        match &self.last {
            Some(node) => self.store.revision_text(group.of_store(), node),
            None if parent.is_null() => Some(b""),
            None => self.store.revision_text(group.of_store(), parent),
        }
    }
}

// Whether a chunk is the empty one behind the last of a group. What was read is bytes.
fn is_end(chunk: &[u8]) -> bool
    ensures end { result ≡ (length chunk.now == 0) }
    ensures bytes { IsBytes chunk.now }
{
    chunk.is_empty()
}

// The group of the file at a path, which is fit.
fn file_group(alloc: Global, at: u64, path: &[u8]) -> Result<Group, BundleFault>
    ensures group { IfOk result (λ group. group_value group ≡ FilesAt path.now) }
    ensures fit { OnOk result (is_fit_path path.now ≡ true) }
    ensures fault { IfErr result (IsJudgement (if is_fit_path path.now then None else Some (refusal_at fault.PathUnfit at))) }
    ensures names { IfErr result IsReadFault }
{
    if !fit_path(path) {
        return Err(refused(Fault::PathUnfit, Id::NULL, at));
    }
    Ok(Group::File(Bytes::of(alloc, path)?))
}

// The offset in the input of a hunk at a place of a delta, whose entry stands at an offset.
fn hunk_place(at: u64, place: usize) -> u64
    requires at { at ≤ input_limit }
    requires place { place < 2 ^ 31 }
    ensures { result ≡ hunk_place at place }
{
    at + BEFORE_DELTA + place as u64
}
