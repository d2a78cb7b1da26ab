// How far the commits are placed.
ghost use Rattle.std.specs.Prelude.{◌≡◌, ◌++◌, [], ◌∷◌, true, false, Some, slice_get, IfOk, OnOk};
ghost use Rattle.std.specs.List.{list_any};
ghost use Rattle.text_model.specs.Lists.{Each};
ghost use Rattle.git_model.specs.Order.{has};
ghost use Rattle.git_store.specs.Stage.{rows, MayWait, SeatsAt, IsStage, IsEmpty, AreDistinct, stands_at, nowhere, PlacesOne, PlacesNone, IsPlaced};

use crate::order::came::{Came, first_unknown};
use crate::order::queue::{add, take_first};
use crate::order::waiting::{Wait, Waiting};
use bridge_text::{Id, IdList, IdSet, NoMemory};
use std::alloc::Global;
use std::collections::BTreeSet;

/// How far the commits are placed.
#[derive(Drop)]
pub struct Stage {
    /// The ids that were placed, to look them up.
    pub placed: IdSet,
    /// The same in their order.
    pub order: IdList,
    /// The places of the commits that are ready.
    ready: BTreeSet<usize>,
    /// Those that wait for a parent.
    waiting: Waiting,
}

impl Stage {
    fn new(alloc: Global) -> Stage
        ensures { IsEmpty result }
    {
        Stage {
            placed: IdSet::new(alloc),
            order: IdList::new(alloc),
            ready: BTreeSet::new(alloc),
            waiting: Waiting::new(alloc),
        }
    }

    /// The commits, placed one after the other as long as one is ready.
    pub fn place_all(alloc: Global, came: &Came<'_>) -> Result<Stage, NoMemory>
        requires distinct { AreDistinct (rows came.now) }
        ensures { IfOk result (IsPlaced (rows came.now) came.now.saved.now) }
    {
        let mut stage = Stage::begin(alloc, came)?;
        'places: loop {
            if !stage.place_next(alloc, came)? {
                return Ok(stage);
            }
        }
    }

    // Each commit that isn't saved waits or is ready, and none is placed.
    fn begin(alloc: Global, came: &Came<'_>) -> Result<Stage, NoMemory>
        ensures stage { IfOk result (IsStage (rows came.now) came.now.saved.now nowhere) }
        ensures placed { IfOk result (λ stage. stage.placed ≡ []) }
        ensures order { IfOk result (λ stage. stage.order ≡ []) }
    {
        let mut stage = Stage::new(alloc);
        for (place, id) in came.ids.iter().enumerate() {
            stage.seat_row(alloc, came, place, id)?;
        }
        Ok(stage)
    }

    // Places the first commit that is ready; or answers that none is.
    fn place_next(&mut self, alloc: Global, came: &Came<'_>) -> Result<bool, NoMemory>
        requires distinct { AreDistinct (rows came.now) }
        requires stage { IsStage (rows came.now) came.now.saved.now nowhere self.old }
        ensures more { IfOk result (λ more. more ≡ true → PlacesOne (rows came.now) came.now.saved.now self.old self.new) }
        ensures end { IfOk result (λ more. more ≡ false → PlacesNone (rows came.now) came.now.saved.now self.old self.new) }
    {
        let Some(place) = take_first(&mut self.ready) else {
            return Ok(false);
        };
        let id = came.id(place);
        self.put(id)?;
        let waits = self.waiting.take(alloc, &id);
        self.seat_all(alloc, came, waits.as_slice())?;
        Ok(true)
    }

    // Puts an id that isn't placed behind the others.
    fn put(&mut self, id: Id) -> Result<(), NoMemory>
        requires new { has self.old.placed id ≡ false }
        ensures placed { OnOk result (self.new.placed ≡ self.old.placed ++ id ∷ []) }
        ensures order { OnOk result (self.new.order ≡ self.old.order ++ id ∷ []) }
        ensures ready { self.new.ready ≡ self.old.ready }
        ensures waiting { self.new.waiting ≡ self.old.waiting }
    {
        self.placed.insert(id)?;
        self.order.push(id)?;
        Ok(())
    }

    // Lets the commit at a place wait, or be ready, unless it is saved. None is placed.
    fn seat_row(
        &mut self,
        alloc: Global,
        came: &Came<'_>,
        place: usize,
        id: &Id,
    ) -> Result<(), NoMemory>
        requires here { slice_get came.now.ids.now place ≡ Some id.now }
        requires none { self.old.placed ≡ [] }
        ensures seats { OnOk result (SeatsAt (rows came.now) came.now.saved.now place self.old self.new) }
        ensures placed { self.new.placed ≡ self.old.placed }
        ensures order { self.new.order ≡ self.old.order }
    {
        if came.saved.contains(id) {
            return Ok(());
        }
        self.seat(alloc, came, Wait { place, parent: 0 })
    }

    // Lets commits wait for their next parents, or be ready.
    fn seat_all(&mut self, alloc: Global, came: &Came<'_>, waits: &[Wait]) -> Result<(), NoMemory>
        requires stage { IsStage (rows came.now) came.now.saved.now (λ i. list_any (stands_at i) waits.now) self.old }
        requires wait { Each (MayWait (rows came.now) came.now.saved.now self.old.placed) waits.now }
        ensures stage { OnOk result (IsStage (rows came.now) came.now.saved.now nowhere self.new) }
        ensures placed { self.new.placed ≡ self.old.placed }
        ensures order { self.new.order ≡ self.old.order }
    {
        for wait in waits {
            self.seat(alloc, came, *wait)?;
        }
        Ok(())
    }

    // Lets a commit wait for the first of its parents that isn't known, or be ready.
    fn seat(&mut self, alloc: Global, came: &Came<'_>, wait: Wait) -> Result<(), NoMemory>
        requires { MayWait (rows came.now) came.now.saved.now self.old.placed wait }
        ensures seats { OnOk result (SeatsAt (rows came.now) came.now.saved.now wait.place self.old self.new) }
        ensures placed { self.new.placed ≡ self.old.placed }
        ensures order { self.new.order ≡ self.old.order }
    {
        let parents = came.parents(wait.place);
        match first_unknown(parents, wait.parent, came.saved, &self.placed) {
            Some(parent) => self.waiting.add(
                alloc,
                parents[parent],
                Wait {
                    place: wait.place,
                    parent,
                },
            ),
            None => add(&mut self.ready, wait.place),
        }
    }
}
