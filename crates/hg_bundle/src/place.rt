// Where a chunk stands in a bundle.
ghost use Rattle.std.specs.Prelude.{◌≡◌, Some, None, List, ℕ, option_map};

use crate::arrival::RevKind;
use bridge_text::{Bytes, COMMIT_LIMIT, ENTRY_LIMIT, NoMemory, PATH_CHUNK_LIMIT, TEXT_LIMIT};
use std::alloc::Global;

/// What a group of a bundle holds.
#[derive(Debug, Drop)]
pub enum Group {
    Changesets,
    Manifests,
    /// The revisions of the file at a path.
    File(Bytes),
}

impl Group {
    ghost use Rattle.std.specs.Prelude.{IfOk};
    ghost use Rattle.hg_model.specs.Reading.{text_limit};
    ghost use Rattle.hg_store.specs.Groups as store;
    ghost use Rattle.hg_bundle.specs.Place.{group_value};
    ghost use Rattle.hg_bundle.specs.Arrivals.{kind_of, path_of};

    /// The group of a store whose revisions these are.
    pub fn of_store(&self) -> hg_store::Group<'_>
        ensures { store.group_value result ≡ group_value self.now }
    {
        match self {
            Group::Changesets => hg_store::Group::Changesets,
            Group::Manifests => hg_store::Group::Manifests,
            Group::File(path) => hg_store::Group::FilesAt(path.as_slice()),
        }
    }

    /// How many bytes a text has at most.
    pub fn text_limit(&self) -> usize
        ensures { result ≡ text_limit (group_value self.now) }
    {
        match self {
            Group::Changesets => COMMIT_LIMIT,
            Group::Manifests | Group::File(_) => TEXT_LIMIT,
        }
    }

    /// The kind of the revisions.
    pub fn kind(&self) -> RevKind
        ensures { result ≡ kind_of (group_value self.now) }
    {
        match self {
            Group::Changesets => RevKind::Changeset,
            Group::Manifests => RevKind::Manifest,
            Group::File(_) => RevKind::File,
        }
    }

    /// A copy of the path of the file; no bytes where the revisions are of none.
    pub fn path(&self, alloc: Global) -> Result<Bytes, NoMemory>
        ensures { IfOk result (λ path. path ≡ path_of (group_value self.now)) }
    {
        match self {
            Group::Changesets | Group::Manifests => Ok(Bytes::new(alloc)),
            Group::File(path) => Bytes::of(alloc, path.as_slice()),
        }
    }
}

/// Where the next chunk stands.
#[derive(Debug, Drop)]
pub enum Place {
    /// Among the entries of a group, or at its end.
    In(Group),
    /// Where a path stands, or the end of the bundle.
    AtPath,
}

impl Place {
    ghost use Rattle.hg_bundle.specs.Place.{place_value};
    ghost use Rattle.hg_model.specs.Bundle.{length_limit, place_after_empty};

    /// The largest length field of a chunk there.
    pub fn most(&self) -> u32
        ensures { result ≡ length_limit (place_value self.now) }
    {
        match self {
            Place::In(_) => ENTRY_LIMIT,
            Place::AtPath => PATH_CHUNK_LIMIT,
        }
    }

    /// Where the next chunk stands behind an empty one; none behind the end of the bundle.
    pub fn after_empty(self) -> Option<Place>
        ensures { option_map place_value result ≡ place_after_empty (place_value self) }
    {
        match self {
            Place::In(Group::Changesets) => Some(Place::In(Group::Manifests)),
            Place::In(Group::Manifests | Group::File(_)) => Some(Place::AtPath),
            Place::AtPath => None,
        }
    }
}
