// The groups of a bundle.
ghost use Rattle.std.specs.Prelude.{◌≡◌, ◌++◌, ◌<◌, List, length, OnOk};
ghost use Rattle.std.specs.Io.{StartsWith};
ghost use Rattle.std.specs.List.{flat_map};
ghost use Rattle.hg_model.specs.Revision.{FilesAt, Revision};
ghost use Rattle.hg_model.specs.Bundle.{group_text};
ghost use Rattle.hg_store.specs.Groups.{group_value};
ghost use Rattle.hg_store.specs.Known.{AreAdded};
ghost use Rattle.view_model.specs.Dump.{written_group};
ghost use Rattle.hg_dump.specs.Written.{AreOf, base_size, file_part, file_part_of};
ghost use Rattle.hg_dump.specs.State.{AreFiles, AreRising, paths_of};

use crate::entry::{parents, put_entry};
use crate::references::{Reference, References};
use bridge_text::NoMemory;
use hg_chunk::{put_chunk, put_empty};
use hg_store::{Group, HgStore};
use rope::Rope;
use std::collections::BTreeMap;

/// Appends a group: an entry for each reference, and the empty chunk.
pub fn put_group(
    out: &mut Rope,
    store: &HgStore,
    group: Group<'_>,
    references: &[Reference],
) -> Result<(), NoMemory>
    requires { (rs : List Revision) × AreOf store.now (group_value group) references.now rs }
    ensures ok { OnOk result ((rs : List Revision) → AreOf store.now (group_value group.entry) references.now rs
        → out.new ≡ out.old ++ group_text (written_group store.now (group_value group.entry) rs)) }
    ensures front { StartsWith out.new out.old }
{
    let base_len = first_base_len(store, group, references);
    put_entries(out, store, group, references, base_len)
}

// Appends an entry for each reference, the first over a base of this length, and the empty chunk.
fn put_entries(
    out: &mut Rope,
    store: &HgStore,
    group: Group<'_>,
    references: &[Reference],
    base_len: u32,
) -> Result<(), NoMemory>
    requires are { (rs : List Revision) × AreOf store.now (group_value group) references.now rs }
    requires base { (rs : List Revision) → AreOf store.now (group_value group) references.now rs → base_len ≡ base_size store.now (group_value group) rs }
    ensures ok { OnOk result ((rs : List Revision) → AreOf store.now (group_value group.entry) references.now rs
        → out.new ≡ out.old ++ group_text (written_group store.now (group_value group.entry) rs)) }
    ensures front { StartsWith out.new out.old }
{
    let mut base_len = base_len;
    for reference in references {
        base_len = put_entry(out, store, group, reference, base_len)?;
    }
    put_empty(out)
}

/// How long the base of a group's first entry is: the text of the first parent.
pub fn first_base_len(store: &HgStore, group: Group<'_>, references: &[Reference]) -> u32
    requires { (rs : List Revision) × AreOf store.now (group_value group) references.now rs }
    ensures len { (rs : List Revision) → AreOf store.now (group_value group.entry) references.now rs → result ≡ base_size store.now (group_value group.entry) rs }
    ensures known { 0 < length references.now → AreAdded store.now }
{
    let Some(reference) = references.first() else {
        return 0;
    };
    let (p, _) = parents(store, group, &reference.node);
    if p.is_null() {
        return 0;
    }
    match store.revision_text(group, &p) {
        Some(text) => text.len() as u32,
        None => 0,
    }
}

/// Appends the paths with their groups, but for the paths of which nothing is written.
pub fn put_files(
    out: &mut Rope,
    store: &HgStore,
    files: &BTreeMap<Vec<u8>, References>,
) -> Result<(), NoMemory>
    requires { (rs : List Revision) × AreFiles store.now files.now rs }
    ensures bytes { OnOk result ((rs : List Revision) → AreFiles store.now files.now rs → out.new ≡ out.old ++ flat_map (file_part store.now rs) (paths_of files.now)) }
    ensures front { StartsWith out.new out.old }
    ensures rising { OnOk result (AreRising (paths_of files.now)) }
{
    for (path, references) in files {
        put_file(out, store, path.as_slice(), references.brought())?;
    }
    Ok(())
}

fn put_file(
    out: &mut Rope,
    store: &HgStore,
    path: &[u8],
    references: &[Reference],
) -> Result<(), NoMemory>
    requires { (rs : List Revision) × AreOf store.now (FilesAt path.now) references.now rs }
    ensures ok { OnOk result ((rs : List Revision) → AreOf store.now (FilesAt path.now) references.now rs
        → out.new ≡ out.old ++ file_part_of (record { path = path.now; entries = written_group store.now (FilesAt path.now) rs }) rs) }
    ensures front { StartsWith out.new out.old }
{
    if references.is_empty() {
        return Ok(());
    }
    let group = Group::FilesAt(path);
    let base_len = first_base_len(store, group, references);
    put_chunk(out, path)?;
    put_entries(out, store, group, references, base_len)
}
