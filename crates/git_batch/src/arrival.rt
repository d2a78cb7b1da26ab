ghost use Rattle.std.specs.Prelude.{◌≡◌, IfOk};
ghost use Rattle.bridge_text.specs.Kinds.{object_kind};
ghost use Rattle.git_batch.specs.Arrivals.{commits_among, count_of, is_of};

use bridge_text::{Id, IdList, Kind, List, NoMemory};
use std::alloc::Global;

/// An object of a stream.
#[derive(Clone, Copy, Debug, PartialEq, Eq)]
pub struct ObjectArrival {
    pub id: Id,
    pub kind: Kind,
    /// The offset of its line in the stream.
    pub at: u64,
}

impl ObjectArrival {
    fn is_of(&self, kind: Kind) -> bool
        ensures { result ≡ is_of (object_kind kind) self.now }
    {
        self.kind == kind
    }
}

/// The objects of a stream, in its order. Contracts see the list.
pub type ObjectArrivals = List<ObjectArrival>;

/// How many of the objects are of a kind.
pub fn count_objects(came: &ObjectArrivals, kind: Kind) -> usize
    ensures { result ≡ count_of (object_kind kind) came.now }
{
    came.as_slice()
        .iter()
        .filter(|item| item.is_of(kind))
        .count()
}

/// The ids of the commits among the objects, in their order.
pub fn commit_ids(alloc: Global, came: &ObjectArrivals) -> Result<IdList, NoMemory>
    ensures { IfOk result (λ ids. ids ≡ commits_among came.now) }
{
    let mut ids = IdList::new(alloc);
    for item in came.as_slice() {
        if item.kind == Kind::Commit {
            ids.push(item.id)?;
        }
    }
    Ok(ids)
}
