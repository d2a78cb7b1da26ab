//! Which blobs are bodies of files that a store of Mercurial's revisions holds, so that they needn't be hashed again.
#![tactic(auto)]

ghost use Rattle.std.specs.Prelude.{◌≡◌, true, IfSome};
ghost use Rattle.text_model.specs.Id.{blob, object_id};

use bridge_text::{Id, NoMemory};
use git_batch::Contents;
use hg_bundle::{Arrivals, RevKind};
use hg_filelog::split;
use hg_store::HgStore;
use indexmap::IndexMap;
use std::alloc::Global;

/// The blobs of the file revisions that a bundle brought to a store. The id of each stands in the store.
pub struct KnownBlobs<'a> {
    store: &'a HgStore,
    arrivals: &'a Arrivals,
    /// Of each blob the place of an entry that has it for its body.
    places: IndexMap<Id, usize>,
}

impl<'a> Drop for KnownBlobs<'a> {
    fn drop(self) {
        let KnownBlobs {
            store: _,
            arrivals: _,
            places: _,
        } = self;
    }
}

impl<'a> KnownBlobs<'a> {
    /// Those of the files among these entries, which the store holds.
    pub fn new(
        alloc: Global,
        store: &'a HgStore,
        arrivals: &'a Arrivals,
    ) -> Result<KnownBlobs<'a>, NoMemory> {
        let mut places = IndexMap::new(alloc);
        for (place, arrival) in arrivals.as_slice().iter().enumerate() {
            if arrival.kind == RevKind::File
                && let Some(blob) = store.file_blob(arrival.path.as_slice(), &arrival.node)
            {
                places.insert(blob, place)?;
            }
        }
        Ok(KnownBlobs {
            store,
            arrivals,
            places,
        })
    }

    // The body of a revision that has this blob, where it is known.
    fn body(&self, id: &Id) -> Option<&[u8]>
        ensures { IfSome result (λ body. object_id blob body.now ≡ id.now) }
    {
        let place = *self.places.get(id)?;
        let file = self.arrivals.as_slice().get(place)?;
        let path = file.path.as_slice();
        if self.store.file_blob(path, &file.node)? != *id {
            return None;
        }
        match split(self.store.file_text(path, &file.node)?) {
            Ok((_, body)) => Some(body),
            Err(_) => None,
        }
    }
}

impl<'a> Contents for KnownBlobs<'a> {
    /// The bytes are compared with a body that the store holds, which takes a tenth of the time that their hash takes.
    fn has_blob(&self, id: &Id, content: &[u8]) -> bool
        ensures { result ≡ true → object_id blob content.now ≡ id.now }
    {
        match self.body(id) {
            Some(body) => body == content,
            None => false,
        }
    }
}
