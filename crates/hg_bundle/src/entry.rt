// An entry of a bundle: four ids and a delta.
ghost use Rattle.std.specs.Prelude.{◌≡◌, ◌+◌, ◌≤◌, length, take, drop, IfOk};
ghost use Rattle.hg_model.specs.Bundle.{entry_of};
ghost use Rattle.hg_model.specs.Reading.{revision_by};
ghost use Rattle.hg_hunk.specs.Faults.{HasPatchedSize, HasPatchedText};
ghost use Rattle.hg_store.specs.Groups.{revision_value};
ghost use Rattle.hg_bundle.specs.Place.{group_value};
ghost use Rattle.hg_bundle.specs.Entry.{entry_value, EndsPayload};
ghost use Rattle.hg_bundle.specs.Payload.{payload_bytes};

use crate::line::HEADER;
use crate::payload::Payload;
use crate::place::Group;
use bridge_text::{Id, NoMemory};
use hg_hunk::{fill, is_whole};
use hg_store::Addition;
use shared_text::{Text, keep, part};
use std::alloc::Global;

/// Where the bytes of the first hunk of an entry's delta begin in its payload: behind four ids and three numbers.
const FIRST_BYTES: usize = 92;

/// The delta of one revision, with the revision's node, parents and link.
#[derive(Clone, Copy)]
pub struct Entry<'a> {
    pub node: Id,
    pub p: Id,
    pub q: Id,
    pub link: Id,
    pub delta: &'a [u8],
    /// The delta ends it.
    pub payload: Payload<'a>,
}

impl<'a> Entry<'a> {
    /// The entry whose payload this is.
    pub fn of(payload: &Payload<'a>) -> Entry<'a>
        requires { 80 ≤ length (payload_bytes payload.now) }
        ensures value { entry_value result ≡ entry_of (payload_bytes payload.now) }
        ensures ends { EndsPayload result }
    {
        let bytes = payload.bytes();
        Entry {
            node: id_at(bytes, 0),
            p: id_at(bytes, 20),
            q: id_at(bytes, 40),
            link: id_at(bytes, 60),
            delta: &bytes[HEADER..],
            payload: *payload,
        }
    }

    /// The text, of `len` bytes, that the delta makes of its base. Where it stands whole in what the source lent, it is a part of that, and isn't
    /// copied.
    pub fn text_over(&self, alloc: Global, base: &[u8], len: usize) -> Result<Text, NoMemory>
        requires size { HasPatchedSize (length base.now) self.now.delta.now len }
        requires ends { EndsPayload self.now }
        ensures { IfOk result (HasPatchedText base.now self.now.delta.now) }
    {
        if let Payload::Lent(payload) = self.payload
            && is_whole(base.len(), self.delta)
        {
            return part(payload, FIRST_BYTES..payload.len());
        }
        let mut text = Vec::with_capacity(alloc, len)?;
        fill(&mut text, base, self.delta);
        keep(text)
    }

    /// The revision of a group with this text.
    pub fn with_text<'g>(&self, group: &'g Group, text: Text) -> Addition<'g>
        ensures { revision_value result ≡ revision_by (group_value group.now) (entry_value self.now) text }
    {
        Addition {
            group: group.of_store(),
            node: self.node,
            p: self.p,
            q: self.q,
            link: self.link,
            text,
        }
    }
}

fn id_at(payload: &[u8], at: usize) -> Id
    requires { at + 20 ≤ length payload.now }
    ensures { result ≡ take 20 (drop at payload.now) }
{
    let mut bytes = [0; 20];
    bytes.copy_from_slice(&payload[at..at + 20]);
    Id::new(bytes)
}
