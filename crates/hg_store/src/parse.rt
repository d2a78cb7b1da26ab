ghost use Rattle.std.specs.Prelude.{◌≡◌, false, None, OnOk, IfOk, IfErr, IfSome};
ghost use Rattle.text_model.specs.Text.{IsBytes};
ghost use Rattle.text_model.specs.Fault as name;
ghost use Rattle.hg_model.specs.FileText.{lacks_second_mark};
ghost use Rattle.hg_model.specs.Revision.{Changesets, Manifests, named_if, shape_fault};
ghost use Rattle.hg_store.specs.Groups.{group_value, HasValue, IsNewerThan};
ghost use Rattle.hg_store.specs.Known.{HasBlob};
ghost use Rattle.hg_store.specs.Faults.{IsFault};

use crate::fault::AddFault;
use crate::group::Group;
use crate::held::Parsed;
use bridge_text::{Id, Kind, object_id};
use hg_changeset::{Changeset, ChangesetFault};
use hg_filelog::split;
use hg_manifest::{Manifest, ManifestFault, Near};
use shared_text::Text;
use std::alloc::Global;

// What a text of a group says. Where the id that a file's body has as a Git blob is given, nothing is hashed. A manifest is read near another
// one, if there is one.
pub fn parse(
    alloc: Global,
    group: Group<'_>,
    text: &Text,
    blob: Option<Id>,
    near: Near<'_>,
) -> Result<Parsed, AddFault>
    requires blob { IfSome blob (HasBlob text.now) }
    ensures shape { OnOk result (shape_fault (group_value group.entry) text.now ≡ None) }
    ensures value { IfOk result (HasValue (group_value group.entry) text.now) }
    ensures newer { IfOk result (IsNewerThan near.entry) }
    ensures fault { IfErr result (IsFault (shape_fault (group_value group.entry) text.now)) }
    ensures bytes { IsBytes text.now }
{
    let raw = text.as_slice();
    match group {
        Group::Changesets => parse_changeset(alloc, raw),
        Group::Manifests => parse_manifest(alloc, text, near),
        Group::FilesAt(_) => Ok(Parsed::File(blob_of(raw, blob)?)),
    }
}

fn parse_changeset(alloc: Global, text: &[u8]) -> Result<Parsed, AddFault>
    ensures shape { OnOk result (shape_fault Changesets text.now ≡ None) }
    ensures value { IfOk result (HasValue Changesets text.now) }
    ensures fault { IfErr result (IsFault (shape_fault Changesets text.now)) }
{
    match Changeset::read(alloc, text) {
        Ok(changeset) => Ok(Parsed::Changeset(changeset)),
        Err(ChangesetFault::Shape(_)) => Err(AddFault::ChangesetShape),
        Err(ChangesetFault::Memory) => Err(AddFault::Memory),
    }
}

fn parse_manifest(alloc: Global, text: &Text, near: Near<'_>) -> Result<Parsed, AddFault>
    ensures shape { OnOk result (shape_fault Manifests text.now ≡ None) }
    ensures value { IfOk result (HasValue Manifests text.now) }
    ensures newer { IfOk result (IsNewerThan near.entry) }
    ensures fault { IfErr result (IsFault (shape_fault Manifests text.now)) }
{
    match Manifest::read_near(alloc, text, near) {
        Ok((manifest, newer)) => Ok(Parsed::Manifest(manifest, newer)),
        Err(ManifestFault::Shape(_)) => Err(AddFault::ManifestShape),
        Err(ManifestFault::PathUnfit(_)) => Err(AddFault::PathUnfit),
        Err(ManifestFault::Memory) => Err(AddFault::Memory),
    }
}

// The id of a body as a Git blob: the given one, which it is known to have, else the one that is computed.
fn blob_of(text: &[u8], known: Option<Id>) -> Result<Id, AddFault>
    requires known { IfSome known (HasBlob text.now) }
    ensures shape { OnOk result (lacks_second_mark text.now ≡ false) }
    ensures blob { IfOk result (HasBlob text.now) }
    ensures fault { IfErr result (IsFault (named_if (lacks_second_mark text.now) name.FileShape)) }
{
    match known {
        Some(blob) => Ok(blob),
        None => body_blob(text),
    }
}

// The id that the body of the text of a file revision has as a Git blob.
fn body_blob(text: &[u8]) -> Result<Id, AddFault>
    ensures shape { OnOk result (lacks_second_mark text.now ≡ false) }
    ensures blob { IfOk result (HasBlob text.now) }
    ensures fault { IfErr result (IsFault (named_if (lacks_second_mark text.now) name.FileShape)) }
{
    match split(text) {
        Ok((_, body)) => Ok(object_id(Kind::Blob, body)),
        Err(_) => Err(AddFault::FileShape),
    }
}
