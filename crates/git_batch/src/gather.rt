// What was read of a stream so far, and how an object adds to it.
ghost use Rattle.std.specs.Prelude.{◌≡◌, [], IfErr, OnOk};
ghost use Rattle.text_model.specs.Id.{object_id};
ghost use Rattle.git_model.specs.Stream.{placed_fault};
ghost use Rattle.bridge_text.specs.Kinds.{object_kind};
ghost use Rattle.git_store.specs.Known.{AreKnown};
ghost use Rattle.git_batch.specs.StreamFaults.{IsJudgement, IsOfStream};
ghost use Rattle.git_batch.specs.Steps.{placed_with, Adds};

use crate::arrival::{ObjectArrival, ObjectArrivals};
use crate::stream_fault::{StreamFault, addition_fault};
use git_store::GitStore;
use shared_text::Text;
use std::alloc::Global;

/// What was read of a stream so far.
#[derive(Drop)]
pub struct Gathered {
    pub store: GitStore,
    pub arrivals: ObjectArrivals,
}

impl Gathered {
    /// Nothing was read: the store is as it was.
    pub fn new(alloc: Global, store: GitStore) -> Gathered
        ensures { result ≡ record { store = store; arrivals = [] } }
    {
        Gathered {
            store,
            arrivals: ObjectArrivals::new(alloc),
        }
    }

    /// Adds an object with its content, which has its id.
    pub fn take(&mut self, object: ObjectArrival, content: Text) -> Result<(), StreamFault>
        requires its_id { object_id (object_kind object.kind) content ≡ object.id }
        ensures ok { OnOk result (Adds (placed_with object content) self.old self.new) }
        ensures fault { IfErr result (IsJudgement (placed_fault self.old.store (placed_with object content))) }
        ensures names { IfErr result IsOfStream }
        ensures known { OnOk result (AreKnown self.new.store) }
    {
        if let Err(fault) = self.store.add(object.id, object.kind, content) {
            return Err(addition_fault(fault, object.id, object.at));
        }
        self.arrivals.push(object)?;
        Ok(())
    }
}
