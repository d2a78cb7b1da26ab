ghost use Rattle.std.specs.Prelude.{◌≡◌, IfOk};

use bridge_text::{Id, NoMemory};
use shared_text::Text;
use std::alloc::Global;
use std::marker::Model;
use std::rc::Rc;

/// What kind of file an entry is.
#[derive(Clone, Copy, Debug, PartialEq, Eq)]
pub enum Flag {
    /// A plain file, with no letter in its line.
    Plain,
    /// A file that can be run, `x`.
    Exec,
    /// A symbolic link, `l`.
    Link,
}

/// A file of a manifest: its path, which is a part of the text of a manifest, the node of its revision, and what kind of file it is.
#[derive(Drop)]
pub struct Entry {
    pub path: Text,
    pub node: Id,
    pub flag: Flag,
}

/// An entry with several owners, as those of manifests that have the same line. Contracts see the entry.
#[derive(Drop)]
pub(crate) struct SharedEntry {
    entry: Rc<Entry>,
}

impl Model for SharedEntry {
    ghost use Rattle.hg_manifest.specs.declared.entry.Entry.{Entry};

    ghost Value = { Entry };

    ghost view = { λ s. (s.entry).value };
}

impl SharedEntry {
    // An entry with one owner.
    pub(crate) fn new(alloc: Global, entry: Entry) -> Result<SharedEntry, NoMemory>
        ensures { IfOk result (λ shared. shared ≡ entry) }
    {
        match Rc::new(alloc, entry) {
            Ok(entry) => Ok(SharedEntry { entry }),
            Err(_) => Err(NoMemory),
        }
    }

    // Another owner of the same entry.
    pub(crate) fn again(&self) -> Result<SharedEntry, NoMemory>
        ensures { IfOk result (λ other. other ≡ self.now) }
    {
        Ok(SharedEntry {
            entry: self.entry.clone()?,
        })
    }

    // The entry.
    pub(crate) fn get(&self) -> &Entry
        ensures { result.now ≡ self.now }
    {
        &self.entry
    }
}
