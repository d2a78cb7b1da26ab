ghost use Rattle.std.specs.Prelude.{◌≡◌, ◌==◌, ◌<◌, ◌++◌, [], ◌∷◌, false, length, map, slice_get, Some, OnOk, OnErr, option_map};
ghost use Rattle.git_model.specs.Object.{object_at, knows_object};
ghost use Rattle.pair_known.specs.Fresh.{fresh_object};

use bridge_text::{Id, NoMemory};
use indexmap::IndexSet;
use shared_text::Text;
use std::alloc::Global;
use std::marker::Model;

/// A blob that a store doesn't hold.
#[derive(Debug, Drop)]
pub struct FreshBlob {
    /// Its id.
    pub id: Id,
    /// Its content, which others may own too.
    pub content: Text,
}

/// Blobs, no two of one id. Contracts see the objects.
#[derive(Drop)]
pub struct FreshBlobs {
    items: Vec<FreshBlob>,
    ids: IndexSet<Id>,
}

impl Model for FreshBlobs {
    ghost use Rattle.std.specs.Prelude.{◌≡◌, List, map};
    ghost use Rattle.git_model.specs.Object as model;
    ghost use Rattle.pair_known.specs.Fresh.{fresh_object};

    ghost Value = { List model.Object };

    ghost view = { λ b. map fresh_object b.items.items };

    ghost invariant = { λ b. b.ids.keys ≡ map (λ x. x.id) b.items.items };
}

impl FreshBlobs {
    /// No blobs.
    pub fn new(alloc: Global) -> FreshBlobs
        ensures { result ≡ [] }
    {
        FreshBlobs {
            items: Vec::new(alloc),
            ids: IndexSet::new(alloc),
        }
    }

    /// Puts a blob at the end, whose id is that of none. After want of memory the list is as it was.
    pub fn push(&mut self, item: FreshBlob) -> Result<(), NoMemory>
        requires { knows_object self.old item.id ≡ false }
        ensures ok { OnOk result (self.new ≡ self.old ++ fresh_object item ∷ []) }
        ensures err { OnErr result (self.new ≡ self.old) }
    {
        let id = item.id;
        self.ids.reserve(1)?;
        self.items.push(item)?;
        self.ids.insert(id).unwrap();
        Ok(())
    }

    /// How many blobs there are.
    pub fn len(&self) -> usize
        ensures { result ≡ length self.now }
    {
        self.items.len()
    }

    /// Whether there are no blobs.
    pub fn is_empty(&self) -> bool
        ensures { result ≡ (length self.now == 0) }
    {
        self.items.is_empty()
    }

    /// The blob at place `i`, which is below the length.
    pub fn at(&self, i: usize) -> &FreshBlob
        requires { i < length self.now }
        ensures { slice_get self.now i ≡ Some (fresh_object result.now) }
    {
        &self.items[i]
    }

    /// The blobs.
    pub fn as_slice(&self) -> &[FreshBlob]
        ensures { map fresh_object result.now ≡ self.now }
    {
        self.items.as_slice()
    }

    /// The blobs, not copied.
    pub fn into_vec(self) -> Vec<FreshBlob>
        ensures { map fresh_object result.items ≡ self }
    {
        self.items
    }

    /// The blob with this id; `None` exactly where there is none.
    pub fn get(&self, id: &Id) -> Option<&FreshBlob>
        ensures { option_map (λ b. fresh_object b.now) result ≡ object_at self.now id.now }
    {
        let items = self.items.as_slice();
        match self.ids.get_index_of(id) {
            Some(place) => Some(&items[place]),
            None => None,
        }
    }
}
