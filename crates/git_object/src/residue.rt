ghost use Rattle.std.specs.Prelude.{◌≡◌, ◌==◌, ◌<◌, ◌++◌, ◌↔◌, [], ◌∷◌, length, slice_get, Some, OnOk, OnErr, IsTrue};
ghost use Rattle.git_object.specs.Values.{kind_value, AreItems, stands_above};

use bridge_text::{Bytes, Id, NoMemory};
use std::alloc::Global;
use std::cmp::Ordering;
use std::marker::Model;

/// What a tree has at a path beside the files that a changeset can hold.
#[derive(Clone, Copy, Debug, PartialEq, Eq)]
pub enum ResidueKind {
    /// The file there is one that its group may write.
    Group,
    /// A commit of another repository, by its id.
    Link(Id),
    /// A subtree without entries.
    Empty,
}

/// What a tree has at one path beside the files that a changeset can hold.
#[derive(Debug, Drop)]
pub struct ResidueItem {
    /// The path from the root.
    pub path: Bytes,
    /// What stands there.
    pub kind: ResidueKind,
}

impl Model for ResidueItem {
    ghost use Rattle.git_model.specs.Residue as model;
    ghost use Rattle.git_object.specs.Values.{kind_value};

    ghost Value = { model.ResidueItem };

    ghost view = { λ i. record { path = i.path; kind = kind_value i.kind } };
}

impl ResidueItem {
    /// The path from the root.
    pub fn path(&self) -> &[u8]
        ensures { result.now ≡ self.now.path }
    {
        self.path.as_slice()
    }

    /// What stands there.
    pub fn kind(&self) -> ResidueKind
        ensures { kind_value result ≡ self.now.kind }
    {
        self.kind
    }
}

/// What a tree has beside the files that a changeset can hold. The paths rise strictly in the order of bytes.
#[derive(Debug, Drop)]
pub struct Residue {
    items: Vec<ResidueItem>,
}

impl Model for Residue {
    ghost use Rattle.std.specs.Prelude.{List};
    ghost use Rattle.git_model.specs.Residue as model;
    ghost use Rattle.git_object.specs.Values.{AreItems};

    ghost Value = { List model.ResidueItem };

    ghost view = { λ r. r.items.items };

    ghost invariant = { λ r. AreItems r.items.items };
}

impl Residue {
    /// No items.
    pub fn new(alloc: Global) -> Residue
        ensures { result ≡ [] }
    {
        Residue {
            items: Vec::new(alloc),
        }
    }

    /// Whether the path of an item stands above that of the last, where there is one.
    pub fn fits(&self, item: &ResidueItem) -> bool
        ensures fits { result ≡ stands_above self.now item.now }
        ensures rise { AreItems self.now }
    {
        match self.items.last() {
            Some(last) => last.path().cmp(item.path()) == Ordering::Less,
            None => true,
        }
    }

    /// Puts an item at the end, whose path stands above those of the others. If memory runs out, the items are as they were.
    pub fn push(&mut self, item: ResidueItem) -> Result<(), NoMemory>
        requires { AreItems (self.old ++ item ∷ []) }
        ensures ok { OnOk result (self.new ≡ self.old ++ item ∷ []) }
        ensures err { OnErr result (self.new ≡ self.old) }
    {
        Ok(self.items.push(item)?)
    }

    /// How many items there are.
    pub fn len(&self) -> usize
        ensures { result ≡ length self.now }
    {
        self.items.len()
    }

    /// Whether there are no items.
    pub fn is_empty(&self) -> bool
        ensures { result ≡ (length self.now == 0) }
    {
        self.items.is_empty()
    }

    /// The item at place `i`, which is below the length.
    pub fn at(&self, i: usize) -> &ResidueItem
        requires { i < length self.now }
        ensures { slice_get self.now i ≡ Some result.now }
    {
        &self.items[i]
    }

    /// The items.
    pub fn as_slice(&self) -> &[ResidueItem]
        ensures items { result.now ≡ self.now }
        ensures rise { AreItems self.now }
    {
        self.items.as_slice()
    }
}
