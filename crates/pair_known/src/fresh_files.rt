ghost use Rattle.std.specs.Prelude.{◌≡◌, ◌==◌, ◌<◌, ◌++◌, [], ◌∷◌, length, map, slice_get, find, Some, OnOk, OnErr, option_map, bytes_eq};
ghost use Rattle.std.specs.Ordering.{nat_cmp};
ghost use Rattle.std.specs.Cmp.Lexicographic.{slice_cmp};
ghost use Rattle.hg_model.specs.Revision.{FilesAt, revision_of};
ghost use Rattle.pair_known.specs.Fresh.{fresh_revision, group_path, AreFreshFiles};

use bridge_text::{Bytes, Id, NoMemory};
use shared_text::Text;
use std::alloc::Global;
use std::cmp::Ordering;
use std::marker::Model;

/// A file revision that a store doesn't hold.
#[derive(Debug, Drop)]
pub struct FreshFile {
    /// The path of the file.
    pub path: Bytes,
    /// The node of the revision.
    pub node: Id,
    /// The first parent, or the null id.
    pub p: Id,
    /// The second parent, or the null id.
    pub q: Id,
    /// The text, which others may own too: the body, or the metadata between two marks and the body.
    pub text: Text,
}

/// File revisions, of each file at most one, in rising order of the paths. Contracts see the revisions, each with the
/// null id for its link node.
#[derive(Debug, Drop)]
pub struct FreshFiles {
    items: Vec<FreshFile>,
}

impl Model for FreshFiles {
    ghost use Rattle.std.specs.Prelude.{List, map};
    ghost use Rattle.hg_model.specs.Revision as model;
    ghost use Rattle.pair_known.specs.Fresh.{fresh_revision, AreFreshFiles};

    ghost Value = { List model.Revision };

    ghost view = { λ f. map fresh_revision f.items.items };

    ghost invariant = { λ f. AreFreshFiles (map fresh_revision f.items.items) };
}

impl FreshFiles {
    /// No revisions.
    pub fn new(alloc: Global) -> FreshFiles
        ensures { result ≡ [] }
    {
        FreshFiles {
            items: Vec::new(alloc),
        }
    }

    /// Puts a revision at the end, whose path stands above those of the others. After want of memory the list is as it
    /// was.
    pub fn push(&mut self, item: FreshFile) -> Result<(), NoMemory>
        requires { AreFreshFiles (self.old ++ fresh_revision item ∷ []) }
        ensures ok { OnOk result (self.new ≡ self.old ++ fresh_revision item ∷ []) }
        ensures err { OnErr result (self.new ≡ self.old) }
        ensures rises { AreFreshFiles self.new }
    {
        Ok(self.items.push(item)?)
    }

    /// How many revisions there are.
    pub fn len(&self) -> usize
        ensures { result ≡ length self.now }
    {
        self.items.len()
    }

    /// Whether there are no revisions.
    pub fn is_empty(&self) -> bool
        ensures { result ≡ (length self.now == 0) }
    {
        self.items.is_empty()
    }

    /// The revision at place `i`, which is below the length.
    pub fn at(&self, i: usize) -> &FreshFile
        requires { i < length self.now }
        ensures { slice_get self.now i ≡ Some (fresh_revision result.now) }
    {
        &self.items[i]
    }

    /// The revisions.
    pub fn as_slice(&self) -> &[FreshFile]
        ensures { map fresh_revision result.now ≡ self.now }
    {
        self.items.as_slice()
    }

    /// The revisions, not copied.
    pub fn into_vec(self) -> Vec<FreshFile>
        ensures { map fresh_revision result.items ≡ self }
    {
        self.items
    }

    /// The revision of the file at a path with a node; `None` exactly where there is none.
    pub fn get(&self, path: &[u8], node: &Id) -> Option<&FreshFile>
        ensures { option_map (λ f. fresh_revision f.now) result ≡ revision_of self.now (FilesAt path.now) node.now }
    {
        match at_path(self.items.as_slice(), path) {
            Some(item) => { if item.node == *node { Some(item) } else { None } }
            None => None,
        }
    }
}

// The revision of the file at a path.
fn at_path<'a>(items: &'a [FreshFile], path: &[u8]) -> Option<&'a FreshFile>
    requires { AreFreshFiles (map fresh_revision items.now) }
    ensures { option_map (λ f. fresh_revision f.now) result ≡ find (λ r. bytes_eq (group_path r.group) path.now) (map fresh_revision items.now) }
{
    let place = items.binary_search_by(
        |item: &FreshFile| -> Ordering
            ensures { result ≡ slice_cmp nat_cmp item.now.path path.entry.now }
        { item.path.as_slice().cmp(path) },
    );
    match place {
        Ok(i) => Some(&items[i]),
        Err(_) => None,
    }
}
