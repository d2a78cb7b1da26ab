ghost use Rattle.std.specs.Prelude.{◌≡◌, ◌<◌, ◌^◌, ◌++◌, [], ◌∷◌, None, false, length, slice_get, OnOk, OnErr, IfSome, MatchOption, option_map};
ghost use Rattle.std.specs.Option.{option_copied};
ghost use Rattle.text_model.specs.Id.{object_id};
ghost use Rattle.text_model.specs.Text.{IsBytes};
ghost use Rattle.bridge_text.specs.Kinds.{object_kind};
ghost use Rattle.git_model.specs.Object.{object_at, knows_object, content_fault};
ghost use Rattle.git_model.specs.Stream.{stream_text};
ghost use Rattle.git_store.specs.Known.{AreKnown};
ghost use Rattle.git_store.specs.Places.{IsPlaceOf};
ghost use Rattle.git_store.specs.Held.{object_in, IsValue, parsed_kind};
ghost use Rattle.git_store.specs.Written.{IsWritten};

use crate::held::{Held, Parsed};
use crate::written::Written;
use bridge_text::{Id, Kind, NoMemory};
use indexmap::IndexMap;
use shared_text::Text;
use std::alloc::Global;
use std::marker::Model;

/// Git objects by their ids. Contracts see the list of them, in the order in which they came: of no two is the id the
/// same, and each id is that of its kind and content.
pub struct GitStore {
    alloc: Global,
    objects: IndexMap<Id, Held>,
    written: Option<Written>,
}

impl Drop for GitStore {
    fn drop(self) {
        let GitStore {
            alloc: _,
            objects: _,
            written: _,
        } = self;
    }
}

impl Model for GitStore {
    ghost use Rattle.std.specs.Prelude.{List, IfSome};
    ghost use Rattle.git_model.specs.Object.{Object};
    ghost use Rattle.git_store.specs.Held.{objects_in, IsStore};
    ghost use Rattle.git_store.specs.Written.{IsWritten};

    ghost Value = { List Object };

    ghost view = { λ s. objects_in s.objects.entries };

    ghost invariant = { λ s. IsStore s.objects.entries × IfSome s.written (IsWritten (objects_in s.objects.entries)) };
}

impl GitStore {
    /// A store without objects.
    pub fn new(alloc: Global) -> GitStore
        ensures { result ≡ [] }
    {
        GitStore {
            alloc,
            objects: IndexMap::new(alloc),
            written: None,
        }
    }

    /// Keeps the text of the stream of all objects, from which a part of a later stream can be shared.
    pub fn keep_written(&mut self, text: Text)
        requires whole { text ≡ stream_text self.old }
        ensures { self.new ≡ self.old }
    {
        let count = self.objects.len();
        self.written = Some(Written { text, count });
    }

    /// The first objects of the store in one text, where one was kept.
    pub fn written(&self) -> Option<&Written>
        ensures written { IfSome result (λ w. IsWritten self.now w.now) }
        ensures known { AreKnown self.now }
    {
        self.written.as_ref()
    }

    /// A law, which does nothing when it runs: no two objects have one id, each id is that of its kind and content, and
    /// each content is that of an object of its kind.
    pub fn check(&self)
        ensures { AreKnown self.now }
    {
        let _objects = &self.objects;
    }

    /// How many objects the store has.
    pub fn len(&self) -> usize
        ensures len { result ≡ length self.now }
        ensures small { result < 2 ^ 63 }
        ensures known { AreKnown self.now }
    {
        self.objects.len()
    }

    /// The place of the object with this id among the objects of the store; `None` exactly where the id is unknown.
    pub fn place(&self, id: &Id) -> Option<usize>
        ensures place { MatchOption result (knows_object self.now id.now ≡ false) (λ place. IsPlaceOf self.now id.now place) }
        ensures known { AreKnown self.now }
    {
        let (place, _, _) = self.objects.get_full(id)?;
        Some(place)
    }

    /// The object at a place: its id, its kind, and its content, which the caller may own too; `None` exactly where the store
    /// has no more than so many objects. It takes no memory.
    pub fn object_at(&self, place: usize) -> Option<(&Id, Kind, &Text)>
        ensures object { option_map (λ x. record { id = x.0.now; kind = object_kind x.1; content = x.2.now }) result ≡ slice_get self.now place }
        ensures known { AreKnown self.now }
    {
        let (id, held) = self.objects.get_index(place)?;
        Some((id, held.parsed.kind(), &held.content))
    }

    pub(crate) fn get(&self, id: &Id) -> Option<&Held>
        ensures object { option_map (λ h. object_in (id.now, h)) (option_copied result) ≡ object_at self.now id.now }
        ensures value { IfSome result (λ held. IsValue held.now.content held.now.parsed) }
        ensures known { AreKnown self.now }
    {
        self.objects.get(id)
    }

    pub(crate) fn knows(&self, id: &Id) -> bool
        ensures there { result ≡ knows_object self.now id.now }
        ensures known { AreKnown self.now }
    {
        self.get(id).is_some()
    }

    pub(crate) fn alloc(&self) -> Global
        ensures known { AreKnown self.now }
    {
        self.alloc
    }

    // Puts an object that may be added, and whose id isn't known, behind the others.
    pub(crate) fn keep(&mut self, id: Id, content: Text, parsed: Parsed) -> Result<(), NoMemory>
        requires its_id { object_id (parsed_kind parsed) content ≡ id }
        requires fresh { knows_object self.old id ≡ false }
        requires fits { content_fault (parsed_kind parsed) content ≡ None }
        requires value { IsValue content parsed }
        requires bytes { IsBytes content }
        ensures ok { OnOk result (self.new ≡ self.old ++ record { id = id; kind = parsed_kind parsed; content = content } ∷ []) }
        ensures err { OnErr result (self.new ≡ self.old) }
        ensures known { AreKnown self.new }
    {
        let held = Held { content, parsed };
        self.objects.insert(id, held)?;
        Ok(())
    }
}
