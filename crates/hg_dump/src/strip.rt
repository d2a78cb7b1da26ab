// Bytes of a bundle that was read are compared with a bundle that isn't written. No text is compared.
ghost use Rattle.std.specs.Prelude.{◌≡◌, ◌+◌, ◌++◌, ◌≤◌, ◌<◌, ◌^◌, [], true, List, length, IfSome, MatchOption};
ghost use Rattle.std.specs.List.{flat_map};
ghost use Rattle.byteorder.specs.Endian.{big_bytes};
ghost use Rattle.text_model.specs.Text.{Bytes};
ghost use Rattle.text_model.specs.Id.{IsId};
ghost use Rattle.hg_model.specs.Revision.{FilesAt, Revision};
ghost use Rattle.hg_model.specs.Chunk.{chunk_text};
ghost use Rattle.hg_model.specs.Delta.{hunk_text, whole_delta};
ghost use Rattle.hg_model.specs.Bundle.{bundle_text, group_text, delta_limit};
ghost use Rattle.hg_store.specs.Groups.{group_value};
ghost use Rattle.view_model.specs.Dump.{written_bundle, written_group};
ghost use Rattle.hg_dump.specs.Begins.{LacksFront, HasFront, IsBehind};
ghost use Rattle.hg_dump.specs.State.{AreBrought, AreFiles, AreRising, paths_of};
ghost use Rattle.hg_dump.specs.Told.{TellsTexts};
ghost use Rattle.hg_dump.specs.ToldParts.{TellsDelta, TellsGroup, TellsFiles};
ghost use Rattle.hg_dump.specs.Written.{AreOf, IsOf, base_size, entry_over, entry_chunk, file_part, file_part_of};

use crate::brought::Brought;
use crate::bundle::MAGIC;
use crate::entry::{HEADER_LEN, delta_len, parents};
use crate::group::first_base_len;
use crate::references::{Reference, References};
use bridge_text::Id;
use byteorder::{BigEndian, ByteOrder};
use hg_store::{Group, HgStore};
use std::collections::BTreeMap;

/// Whether bytes that were read into this store are the bundle of what was brought. The bundle is not written.
pub fn is_bundle(bytes: &[u8], store: &HgStore, brought: &Brought) -> bool
    requires told { TellsTexts store.now bytes.now }
    requires brought { (rs : List Revision) × AreBrought store.now brought.now rs }
    ensures yes { (rs : List Revision) → AreBrought store.now brought.now rs → result ≡ true → bytes.now ≡ bundle_text (written_bundle store.now rs) }
    ensures no { (rs : List Revision) → AreBrought store.now brought.now rs → bytes.now ≡ bundle_text (written_bundle store.now rs) → result ≡ true }
{
    match strip_bundle(bytes, store, brought) {
        Some(rest) => rest.is_empty(),
        None => false,
    }
}

// What follows the bundle of what was brought.
fn strip_bundle<'a>(bytes: &'a [u8], store: &HgStore, brought: &Brought) -> Option<&'a [u8]>
    requires told { TellsTexts store.now bytes.now }
    requires brought { (rs : List Revision) × AreBrought store.now brought.now rs }
    ensures { (rs : List Revision) → AreBrought store.now brought.now rs → IsBehind bytes.entry.now (bundle_text (written_bundle store.now rs)) result }
{
    let changesets = strip(bytes, MAGIC)?;
    let manifests = strip_group(
        changesets,
        store,
        Group::Changesets,
        brought.changesets.brought(),
    )?;
    let files = strip_group(
        manifests,
        store,
        Group::Manifests,
        brought.manifests.brought(),
    )?;
    let end = strip_files(files, store, &brought.files)?;
    strip_empty(end)
}

// What follows the paths with their groups, but for the paths of which nothing is written.
fn strip_files<'a>(
    bytes: &'a [u8],
    store: &HgStore,
    files: &BTreeMap<Vec<u8>, References>,
) -> Option<&'a [u8]>
    requires told { TellsFiles store.now bytes.now }
    requires files { (rs : List Revision) × AreFiles store.now files.now rs }
    ensures behind { (rs : List Revision) → AreFiles store.now files.now rs → IsBehind bytes.entry.now (flat_map (file_part store.now rs) (paths_of files.now)) result }
    ensures rising { AreRising (paths_of files.now) }
{
    let mut rest = bytes;
    for (path, references) in files {
        rest = strip_file(rest, store, path.as_slice(), references.brought())?;
    }
    Some(rest)
}

fn strip_file<'a>(
    bytes: &'a [u8],
    store: &HgStore,
    path: &[u8],
    references: &[Reference],
) -> Option<&'a [u8]>
    requires told { TellsFiles store.now bytes.now }
    requires are { (rs : List Revision) × AreOf store.now (FilesAt path.now) references.now rs }
    ensures behind { (rs : List Revision) → AreOf store.now (FilesAt path.now) references.now rs
        → IsBehind bytes.entry.now (file_part_of (record { path = path.now; entries = written_group store.now (FilesAt path.now) rs }) rs) result }
    ensures told { IfSome result (λ rest. TellsFiles store.now rest.now) }
{
    if references.is_empty() {
        return Some(bytes);
    }
    let group = Group::FilesAt(path);
    let base_len = first_base_len(store, group, references);
    let entries = strip_chunk(bytes, path)?;
    strip_entries(entries, store, group, references, base_len)
}

// What follows a group: an entry for each reference, and the empty chunk.
fn strip_group<'a>(
    bytes: &'a [u8],
    store: &HgStore,
    group: Group<'_>,
    references: &[Reference],
) -> Option<&'a [u8]>
    requires told { (tail : Bytes) × TellsGroup store.now (group_value group) bytes.now tail }
    requires are { (rs : List Revision) × AreOf store.now (group_value group) references.now rs }
    ensures behind { (rs : List Revision) → AreOf store.now (group_value group.entry) references.now rs
        → IsBehind bytes.entry.now (group_text (written_group store.now (group_value group.entry) rs)) result }
    ensures tail { IfSome result (λ rest. (tail : Bytes) → TellsGroup store.now (group_value group.entry) bytes.entry.now tail → rest.now ≡ tail) }
{
    let base_len = first_base_len(store, group, references);
    strip_entries(bytes, store, group, references, base_len)
}

// What follows an entry for each reference, the first over a base of this length, and the empty chunk.
fn strip_entries<'a>(
    bytes: &'a [u8],
    store: &HgStore,
    group: Group<'_>,
    references: &[Reference],
    base_len: u32,
) -> Option<&'a [u8]>
    requires told { (tail : Bytes) × TellsGroup store.now (group_value group) bytes.now tail }
    requires are { (rs : List Revision) × AreOf store.now (group_value group) references.now rs }
    requires base { (rs : List Revision) → AreOf store.now (group_value group) references.now rs → base_len ≡ base_size store.now (group_value group) rs }
    ensures behind { (rs : List Revision) → AreOf store.now (group_value group.entry) references.now rs
        → IsBehind bytes.entry.now (group_text (written_group store.now (group_value group.entry) rs)) result }
    ensures tail { IfSome result (λ rest. (tail : Bytes) → TellsGroup store.now (group_value group.entry) bytes.entry.now tail → rest.now ≡ tail) }
{
    let mut base_len = base_len;
    let mut rest = bytes;
    for reference in references {
        let (behind, text_len) = strip_entry(rest, store, group, reference, base_len)?;
        rest = behind;
        base_len = text_len;
    }
    strip_empty(rest)
}

// What follows the entry of a revision, over a base of this length, and how long the revision's text is.
fn strip_entry<'a>(
    bytes: &'a [u8],
    store: &HgStore,
    group: Group<'_>,
    reference: &Reference,
    base_len: u32,
) -> Option<(&'a [u8], u32)>
    requires told { (tail : Bytes) × TellsGroup store.now (group_value group) bytes.now tail }
    requires is { (r : Revision) × IsOf store.now (group_value group) reference.now r }
    ensures entry { (r : Revision) → IsOf store.now (group_value group.entry) reference.now r
        → MatchOption result (LacksFront bytes.entry.now (entry_chunk (entry_over base_len r)))
        (λ found. HasFront bytes.entry.now (entry_chunk (entry_over base_len r)) found.0.now × (found.1 ≡ length r.text)) }
    ensures told { IfSome result (λ found. (tail : Bytes) → TellsGroup store.now (group_value group.entry) bytes.entry.now tail → TellsGroup store.now (group_value group.entry) found.0.now tail) }
{
    let text = store.revision_text(group, &reference.node).unwrap();
    let (p, q) = parents(store, group, &reference.node);
    let delta = strip_header(bytes, delta_len(base_len, text), reference, &p, &q)?;
    let rest = strip_delta(delta, base_len, text)?;
    Some((rest, text.len() as u32))
}

// What follows what stands before a delta of this length.
fn strip_header<'a>(
    bytes: &'a [u8],
    delta_len: usize,
    reference: &Reference,
    p: &Id,
    q: &Id,
) -> Option<&'a [u8]>
    requires { delta_len + 84 < 2 ^ 32 }
    ensures behind { IsBehind bytes.entry.now (big_bytes 4 (delta_len + 84) ++ reference.now.node ++ p.now ++ q.now ++ reference.now.link) result }
    ensures ids { IsId reference.now.node × IsId p.now × IsId q.now × IsId reference.now.link }
{
    let node = reference.node.bytes();
    let link = reference.link.bytes();
    let (first, second) = (p.bytes(), q.bytes());
    let ids = strip_number(bytes, (delta_len + HEADER_LEN) as u32)?;
    let parents = strip(ids, &node)?;
    let other = strip(parents, &first)?;
    let last = strip(other, &second)?;
    strip(last, &link)
}

// What follows the delta that replaces a base of this length by the text.
fn strip_delta<'a>(bytes: &'a [u8], base_len: u32, text: &[u8]) -> Option<&'a [u8]>
    requires told { TellsDelta bytes.now (length (whole_delta base_len text.now)) text.now }
    requires short { length text.now < 2 ^ 32 }
    ensures { IsBehind bytes.entry.now (whole_delta base_len text.now) result }
{
    if base_len == 0 && text.is_empty() {
        return Some(bytes);
    }
    strip_hunk(bytes, base_len, text)
}

// What follows the hunk that replaces a base of this length by the text. The bytes make the text, so those behind the three numbers are it.
fn strip_hunk<'a>(bytes: &'a [u8], base_len: u32, text: &[u8]) -> Option<&'a [u8]>
    requires told { TellsDelta bytes.now (12 + length text.now) text.now }
    requires short { length text.now < 2 ^ 32 }
    ensures { IsBehind bytes.entry.now (hunk_text (record { start = 0; finish = base_len; bytes = text.now })) result }
{
    let finish = strip_number(bytes, 0)?;
    let len = strip_number(finish, base_len)?;
    let new = strip_number(len, text.len() as u32)?;
    Some(&new[text.len()..])
}

// What follows the chunk of a payload.
fn strip_chunk<'a>(bytes: &'a [u8], payload: &[u8]) -> Option<&'a [u8]>
    requires some { 1 ≤ length payload.now }
    requires limit { length payload.now ≤ delta_limit }
    ensures { IsBehind bytes.entry.now (chunk_text payload.now) result }
{
    let behind = strip_number(bytes, (payload.len() + 4) as u32)?;
    strip(behind, payload)
}

// What follows the empty chunk.
fn strip_empty(bytes: &[u8]) -> Option<&[u8]>
    ensures { IsBehind bytes.now (chunk_text []) result }
{
    strip(bytes, &[0; 4])
}

// What follows a number of four bytes, the highest first.
fn strip_number(bytes: &[u8], number: u32) -> Option<&[u8]>
    ensures { IsBehind bytes.now (big_bytes 4 number) result }
{
    let mut field = [0; 4];
    BigEndian::write_u32(&mut field, number);
    strip(bytes, &field)
}

// What follows these bytes.
fn strip<'a>(bytes: &'a [u8], front: &[u8]) -> Option<&'a [u8]>
    ensures { IsBehind bytes.entry.now front.now result }
{
    bytes.strip_prefix(front)
}
