ghost use Rattle.std.specs.Prelude.{◌≡◌, None, false, IfOk, OnOk, OnErr, IfErr};
ghost use Rattle.text_model.specs.Id.{object_id};
ghost use Rattle.text_model.specs.Text.{IsBytes};
ghost use Rattle.bridge_text.specs.Kinds.{object_kind};
ghost use Rattle.git_model.specs.Object.{content_fault, object_fault, objects_after, knows_object};
ghost use Rattle.git_store.specs.Faults.{IsFault};
ghost use Rattle.git_store.specs.Held.{IsParsed};
ghost use Rattle.git_store.specs.Known.{AreKnown, object_with, answer_of, knows_same};

use crate::fault::GitAddFault;
use crate::held::Parsed;
use crate::parse::parse;
use crate::store::GitStore;
use bridge_text::{Added, Id, Kind};
use shared_text::Text;

impl GitStore {
    /// Adds an object, whose id is that of its kind and content. The content is kept, not copied.
    /// The faults are those of `GitAddFault`, in their order, each exactly where it says; after a fault the store is as
    /// it was. Known is the answer where the id is there with this kind and content, and then nothing changes.
    pub fn add(&mut self, id: Id, kind: Kind, content: Text) -> Result<Added, GitAddFault>
        requires its_id { object_id (object_kind kind) content ≡ id }
        ensures faultless { OnOk result (object_fault self.old (object_with id kind content) ≡ None) }
        ensures answer { IfOk result (λ added. added ≡ answer_of self.old id) }
        ensures ok { OnOk result (self.new ≡ objects_after self.old (object_with id kind content)) }
        ensures fault { IfErr result (IsFault (object_fault self.old (object_with id kind content))) }
        ensures err { OnErr result (self.new ≡ self.old) }
        ensures before { AreKnown self.old }
        ensures known { AreKnown self.new }
    {
        if self.knows_same(&id, kind, content.as_slice()) {
            return Ok(Added::Known);
        }
        let parsed = self.parse_other(&id, kind, content.as_slice())?;
        self.keep(id, content, parsed)?;
        Ok(Added::New)
    }

    // Whether the id is known with this kind and content.
    fn knows_same(&self, id: &Id, kind: Kind, content: &[u8]) -> bool
        ensures same { result ≡ knows_same self.now (object_with id.now kind content.now) }
        ensures bytes { IsBytes content.now }
        ensures known { AreKnown self.now }
    {
        match self.get(id) {
            Some(held) => held.is_like(kind, content),
            None => false,
        }
    }

    // What the content of an object that isn't known says; or the fault of its addition.
    fn parse_other(&self, id: &Id, kind: Kind, content: &[u8]) -> Result<Parsed, GitAddFault>
        requires other { knows_same self.now (object_with id.now kind content.now) ≡ false }
        ensures faultless { OnOk result (object_fault self.now (object_with id.now kind content.now) ≡ None) }
        ensures fits { OnOk result (content_fault (object_kind kind) content.now ≡ None) }
        ensures fresh { OnOk result (knows_object self.now id.now ≡ false) }
        ensures value { IfOk result (IsParsed (object_kind kind) content.now) }
        ensures fault { IfErr result (IsFault (object_fault self.now (object_with id.now kind content.now))) }
    {
        let parsed = parse(self.alloc(), kind, content)?;
        if self.knows(id) {
            return Err(GitAddFault::Collision);
        }
        Ok(parsed)
    }
}
