ghost use Rattle.std.specs.Prelude.{◌≡◌, IfOk, Some, slice_get};
ghost use Rattle.text_model.specs.Text.{IsBytes};
ghost use Rattle.hg_store.specs.Groups.{group_value, key_group, paths_in, IsNumberOf, AreGrown};
ghost use Rattle.hg_store.specs.Known.{HasPathOfBytes};

use bridge_text::NoMemory;
use indexmap::IndexSet;
use std::alloc::Global;

/// A group of revisions, in which each node stands once.
#[derive(Clone, Copy)]
pub enum Group<'a> {
    /// The changesets.
    Changesets,
    /// The manifests.
    Manifests,
    /// The revisions of the file at this path.
    FilesAt(&'a [u8]),
}

/// A group of revisions, where a path is told by its number in a set of paths.
#[derive(Clone, Copy, Debug, PartialEq, Eq, Hash)]
pub enum KeyGroup {
    Changesets,
    Manifests,
    FilesAt(usize),
}

// The group with the number of its path; `None` where the path isn't in the set.
pub fn key_group(paths: &IndexSet<Vec<u8>>, group: Group<'_>) -> Option<KeyGroup>
    ensures { result ≡ key_group paths.now.keys (group_value group.entry) }
{
    match group {
        Group::Changesets => Some(KeyGroup::Changesets),
        Group::Manifests => Some(KeyGroup::Manifests),
        Group::FilesAt(path) => Some(KeyGroup::FilesAt(paths.get_index_of(path)?)),
    }
}

// The group with the number of its path, which is put behind the others where it isn't in the set.
pub fn number_group(
    paths: &mut IndexSet<Vec<u8>>,
    alloc: Global,
    group: Group<'_>,
) -> Result<KeyGroup, NoMemory>
    ensures number { IfOk result (IsNumberOf (paths_in paths.new.keys) (group_value group.entry)) }
    ensures grown { AreGrown (paths_in paths.old.keys) (paths_in paths.new.keys) }
    ensures path { HasPathOfBytes (group_value group.entry) }
{
    match group {
        Group::Changesets => Ok(KeyGroup::Changesets),
        Group::Manifests => Ok(KeyGroup::Manifests),
        Group::FilesAt(path) => Ok(KeyGroup::FilesAt(number_path(paths, alloc, path)?)),
    }
}

fn number_path(paths: &mut IndexSet<Vec<u8>>, alloc: Global, path: &[u8]) -> Result<usize, NoMemory>
    ensures number { IfOk result (λ number. slice_get (paths_in paths.new.keys) number ≡ Some path.now) }
    ensures grown { AreGrown (paths_in paths.old.keys) (paths_in paths.new.keys) }
    ensures bytes { IsBytes path.now }
{
    match paths.get_index_of(path) {
        Some(number) => Ok(number),
        None => insert_path(paths, Vec::from_slice(alloc, path)?),
    }
}

fn insert_path(paths: &mut IndexSet<Vec<u8>>, path: Vec<u8>) -> Result<usize, NoMemory>
    ensures number { IfOk result (λ number. slice_get (paths_in paths.new.keys) number ≡ Some path.items) }
    ensures grown { AreGrown (paths_in paths.old.keys) (paths_in paths.new.keys) }
{
    let (number, _) = paths.insert_full(path)?;
    Ok(number)
}
