// The length of a bundle.
ghost use Rattle.std.specs.Prelude.{◌≡◌, ◌-◌, ◌^◌, List, length, min};
ghost use Rattle.std.specs.List.{flat_map};
ghost use Rattle.hg_model.specs.Revision.{FilesAt, Revision};
ghost use Rattle.hg_model.specs.Bundle.{bundle_text, group_text};
ghost use Rattle.hg_store.specs.Groups.{group_value};
ghost use Rattle.view_model.specs.Dump.{written_bundle, written_group};
ghost use Rattle.hg_dump.specs.Written.{AreOf, file_part, file_part_of};
ghost use Rattle.hg_dump.specs.State.{AreBrought, AreFiles, AreRising, paths_of};

use crate::brought::Brought;
use crate::entry::entry_len;
use crate::group::first_base_len;
use crate::references::{Reference, References};
use hg_store::{Group, HgStore};
use std::collections::BTreeMap;

/// How many bytes an empty chunk has, and what stands before the bytes of another.
const CHUNK_LEN: u64 = 4;

/// How many bytes the word has that a bundle begins with.
const MAGIC_LEN: u64 = 6;

/// How many bytes the bundle of what was brought has, or 2^64 - 1 if that is less.
pub fn bundle_len(store: &HgStore, brought: &Brought) -> u64
    requires { (rs : List Revision) × AreBrought store.now brought.now rs }
    ensures { (rs : List Revision) → AreBrought store.now brought.now rs → result ≡ min (length (bundle_text (written_bundle store.now rs))) (2 ^ 64 - 1) }
{
    let changesets = group_len(store, Group::Changesets, brought.changesets.brought());
    let manifests = group_len(store, Group::Manifests, brought.manifests.brought());
    let files = files_len(store, &brought.files);
    changesets
        .saturating_add(manifests)
        .saturating_add(files)
        .saturating_add(MAGIC_LEN + CHUNK_LEN)
}

// How many bytes a group has: an entry for each reference, and the empty chunk.
fn group_len(store: &HgStore, group: Group<'_>, references: &[Reference]) -> u64
    requires { (rs : List Revision) × AreOf store.now (group_value group) references.now rs }
    ensures { (rs : List Revision) → AreOf store.now (group_value group.entry) references.now rs
        → result ≡ min (length (group_text (written_group store.now (group_value group.entry) rs))) (2 ^ 64 - 1) }
{
    let mut base_len = first_base_len(store, group, references);
    let mut len = CHUNK_LEN;
    for reference in references {
        let (entry, text_len) = entry_len(store, group, *reference, base_len);
        len = len.saturating_add(entry);
        base_len = text_len;
    }
    len
}

// How many bytes the paths with their groups have, but for the paths of which nothing is written.
fn files_len(store: &HgStore, files: &BTreeMap<Vec<u8>, References>) -> u64
    requires { (rs : List Revision) × AreFiles store.now files.now rs }
    ensures len { (rs : List Revision) → AreFiles store.now files.now rs → result ≡ min (length (flat_map (file_part store.now rs) (paths_of files.now))) (2 ^ 64 - 1) }
    ensures rising { AreRising (paths_of files.now) }
{
    let mut len: u64 = 0;
    for (path, references) in files {
        len = len.saturating_add(file_len(store, path.as_slice(), references.brought()));
    }
    len
}

fn file_len(store: &HgStore, path: &[u8], references: &[Reference]) -> u64
    requires { (rs : List Revision) × AreOf store.now (FilesAt path.now) references.now rs }
    ensures { (rs : List Revision) → AreOf store.now (FilesAt path.now) references.now rs
        → result ≡ min (length (file_part_of (record { path = path.now; entries = written_group store.now (FilesAt path.now) rs }) rs)) (2 ^ 64 - 1) }
{
    if references.is_empty() {
        return 0;
    }
    let group = group_len(store, Group::FilesAt(path), references);
    group.saturating_add(path.len() as u64 + CHUNK_LEN)
}
