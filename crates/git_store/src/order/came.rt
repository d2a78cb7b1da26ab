// The commits of a stream.
ghost use Rattle.std.specs.Prelude.{◌≡◌, ◌<◌, Bool, Some, IfOk, IfNone, IfSome, find, length, slice_get, option_map, IsTrue};
ghost use Rattle.std.specs.List.{list_all};
ghost use Rattle.text_model.specs.Id.{Id};
ghost use Rattle.git_model.specs.Tree.{has_distinct};
ghost use Rattle.git_model.specs.Order.{is_waiting};
ghost use Rattle.git_store.specs.Ancestry.{parents_at};
ghost use Rattle.git_store.specs.Stage.{rows, row_parents, is_known, IsKnownUpTo, StopsAt};

use crate::store::GitStore;
use bridge_text::{Id, IdList, IdSet, NoMemory};
use std::alloc::Global;

/// The commits of a stream, each once, and the saved ids.
#[derive(Drop)]
pub struct Came<'a> {
    pub store: &'a GitStore,
    pub ids: &'a [Id],
    pub saved: &'a IdSet,
}

impl Came<'_> {
    /// The id of the commit at a place.
    pub fn id(&self, place: usize) -> Id
        requires { place < length self.now.ids.now }
        ensures { slice_get self.now.ids.now place ≡ Some result }
    {
        self.ids[place]
    }

    /// The parents of the commit at a place; none where no commit stands there.
    pub fn parents(&self, place: usize) -> &[Id]
        ensures { result.now ≡ row_parents (slice_get (rows self.now) place) }
    {
        match self.ids.get(place) {
            Some(id) => parents_of(self.store, id),
            None => &[],
        }
    }

    /// The first commit that is neither saved nor placed.
    pub fn first_waiting(&self, placed: &IdSet) -> Option<Id>
        ensures { result ≡ option_map (λ c. c.id) (find (is_waiting self.now.saved.now placed.now) (rows self.now)) }
    {
        for id in self.ids {
            if !is_known(self.saved, placed, id) {
                return Some(*id);
            }
        }
        None
    }
}

// The parents of a commit; none where no commit has the id.
fn parents_of<'a>(store: &'a GitStore, id: &Id) -> &'a [Id]
    ensures { result.now ≡ parents_at store.entry.now id.now }
{
    match store.commit(id) {
        Some(commit) => commit.parents.as_slice(),
        None => &[],
    }
}

/// Whether an id is saved or placed.
pub fn is_known(saved: &IdSet, placed: &IdSet, id: &Id) -> bool
    ensures { result ≡ is_known saved.now placed.now id.now }
{
    saved.contains(id) || placed.contains(id)
}

/// The place of the first parent that isn't known, where those before `from` are.
pub fn first_unknown(parents: &[Id], from: usize, saved: &IdSet, placed: &IdSet) -> Option<usize>
    requires { IsKnownUpTo saved.now placed.now parents.now from }
    ensures none { IfNone result (IsTrue (list_all (is_known saved.now placed.now) parents.now)) }
    ensures some { IfSome result (StopsAt saved.now placed.now parents.now) }
{
    for place in from..parents.len() {
        if !is_known(saved, placed, &parents[place]) {
            return Some(place);
        }
    }
    None
}

/// Each of these ids once, at its first place.
pub fn once_each(alloc: Global, came: &[Id]) -> Result<IdList, NoMemory>
    ensures distinct { IfOk result (λ ids. IsTrue (has_distinct ids)) }
    ensures finds { IfOk result (λ ids. (test : Id → Bool) → find test ids ≡ find test came.now) }
{
    let mut seen = IdSet::new(alloc);
    let mut ids = IdList::new(alloc);
    for id in came {
        let new = seen.insert(*id)?;
        if new {
            ids.push(*id)?;
        }
    }
    Ok(ids)
}
