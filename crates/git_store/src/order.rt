// The order in which commits are taken.
ghost use Rattle.std.specs.Prelude.{◌≡◌, IfOk, IfErr};
ghost use Rattle.git_model.specs.Order.{IsOrder};
ghost use Rattle.git_store.specs.Ancestry.{ancestries};
ghost use Rattle.git_store.specs.Known.{AreKnown};
ghost use Rattle.git_store.specs.OrderFaults.{IsOrderFault};

mod came;
mod fault;
mod queue;
mod stage;
mod waiting;

use crate::store::GitStore;
use bridge_text::{IdList, IdSet};
use came::{Came, once_each};
pub use fault::OrderFault;
use stage::Stage;

impl GitStore {
    /// The order in which the commits of a stream arrive over saved ones: at each place stands the first in the stream
    /// whose parents all are saved or stand before it. It has each commit that isn't saved once, wherever the stream names
    /// it.
    ///
    /// `came` are the ids of the commits of the stream, which are in the store; an id that is no commit's has no parents.
    /// The fault names the first that waits, where none of those that wait can be placed.
    ///
    /// A commit waits at one of its parents at a time, and those before that one aren't looked up again.
    pub fn order(&self, came: &IdList, saved: &IdSet) -> Result<IdList, OrderFault>
        ensures order { IfOk result (IsOrder (ancestries self.now came.now) saved.now) }
        ensures fault { IfErr result (IsOrderFault (ancestries self.now came.now) saved.now) }
        ensures known { AreKnown self.now }
    {
        let alloc = self.alloc();
        let ids = once_each(alloc, came.as_slice())?;
        let commits = Came {
            store: self,
            ids: ids.as_slice(),
            saved,
        };
        let stage = Stage::place_all(alloc, &commits)?;
        match commits.first_waiting(&stage.placed) {
            Some(id) => Err(OrderFault::ParentUnknown(id)),
            None => Ok(stage.order),
        }
    }
}
