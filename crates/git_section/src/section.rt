// What a stream brings.
ghost use Rattle.std.specs.Prelude.{◌≡◌, [], IfOk, MatchOption, false};
ghost use Rattle.git_model.specs.Stream.{stream_reading};
ghost use Rattle.git_section.specs.Sections.{IsRead, brings_once};

use bridge_text::{IdList, NoMemory};
use git_batch::{Contents, StreamFault, commit_ids, read_known_into};
use git_store::GitStore;
use shared_text::{Text, again};
use state_part::SharedPart;
use std::alloc::Global;

/// The commits of a saved state.
pub struct GitSection {
    /// All their objects.
    pub store: GitStore,
    /// The ids of the commits, in their order.
    pub ids: IdList,
}

impl Drop for GitSection {
    fn drop(self) {
        let GitSection { store: _, ids: _ } = self;
    }
}

impl GitSection {
    /// The objects, and the ids.
    pub fn into_parts(self) -> (GitStore, IdList)
        ensures store { result.0 ≡ self.store }
        ensures ids { result.1 ≡ self.ids }
    {
        let GitSection { store, ids } = self;
        (store, ids)
    }
}

/// The objects that these bytes bring; `None` exactly where the bytes are refused, or an object comes twice. Blobs that are
/// known aren't hashed.
pub fn read_section<C: Contents>(
    alloc: Global,
    bytes: &Text,
    known: &C,
) -> Result<Option<GitSection>, NoMemory>
    ensures { IfOk result (λ found. MatchOption found (brings_once (stream_reading [] bytes.now) ≡ false) (IsRead bytes.now)) }
{
    let text = again(bytes)?;
    let mut source = SharedPart::new(text);
    match read_known_into(alloc, &mut source, known, GitStore::new(alloc)) {
        Ok((store, came)) => {
            if store.len() < came.len() {
                return Ok(None);
            }
            let ids = commit_ids(alloc, &came)?;
            let whole = again(bytes)?;
            let mut store = store;
            store.keep_written(whole);
            Ok(Some(GitSection { store, ids }))
        }
        Err(StreamFault::Refused(_)) => Ok(None),
        Err(StreamFault::Read) => unreachable!(),
        Err(StreamFault::Memory) => Err(NoMemory),
    }
}
