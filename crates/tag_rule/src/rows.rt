// The tags of a stream, each once.
ghost use Rattle.std.specs.Prelude.{◌≡◌, IfOk, OnOk};
ghost use Rattle.tag_rule.specs.Rows.{tag_ids, with_id};

use bridge_text::{Id, IdList, IdSet, Kind, NoMemory};
use git_batch::ObjectArrivals;
use std::alloc::Global;

/// The ids of the tags of a stream, each once.
#[derive(Drop)]
pub struct TagRows {
    /// In the order in which they came first.
    pub ids: IdList,
    /// The same, to look them up.
    pub set: IdSet,
}

impl TagRows {
    /// The tags among the objects of a stream.
    pub fn among(alloc: Global, came: &ObjectArrivals) -> Result<TagRows, NoMemory>
        ensures ids { IfOk result (λ rows. rows.ids ≡ tag_ids came.now) }
        ensures set { IfOk result (λ rows. rows.set ≡ tag_ids came.now) }
    {
        let mut rows = TagRows {
            ids: IdList::new(alloc),
            set: IdSet::new(alloc),
        };
        for item in came.as_slice() {
            if item.kind == Kind::Tag {
                rows.put(item.id)?;
            }
        }
        Ok(rows)
    }

    // Puts an id at the end, unless it is there.
    fn put(&mut self, id: Id) -> Result<(), NoMemory>
        requires { self.old.set ≡ self.old.ids }
        ensures ids { OnOk result (self.new.ids ≡ with_id self.old.ids id) }
        ensures set { OnOk result (self.new.set ≡ self.new.ids) }
    {
        let new = self.set.insert(id)?;
        if new {
            self.ids.push(id)?;
        }
        Ok(())
    }
}
