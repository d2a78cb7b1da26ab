ghost use Rattle.std.specs.Prelude.{◌≡◌, ℕ, List, None, MatchOption, option_map};
ghost use Rattle.std.specs.Option.{option_copied};
ghost use Rattle.text_model.specs.Id as kinds;
ghost use Rattle.text_model.specs.Id.{ObjectKind};
ghost use Rattle.bridge_text.specs.Kinds.{object_kind};
ghost use Rattle.git_model.specs.Object.{AreObjects, object_at, tree_at};
ghost use Rattle.git_store.specs.Known.{AreKnown, content_at, IsCommitAt, IsTagAt};

use crate::held::Parsed;
use crate::store::GitStore;
use bridge_text::{Id, Kind};
use git_object::{Commit, Objects, Tag, Tree};
use shared_text::Text;

impl GitStore {
    /// The kind and the content of the object with this id, which the caller may own too; `None` exactly where the id is
    /// unknown. It takes no memory.
    pub fn shared_object(&self, id: &Id) -> Option<(Kind, &Text)>
        ensures content { option_map {U = ObjectKind × List ℕ} (λ x. (object_kind x.0, x.1.now)) result ≡ option_map {U = ObjectKind × List ℕ} (λ o. (o.kind, o.content)) (object_at self.now id.now) }
        ensures known { AreKnown self.now }
    {
        let held = self.get(id)?;
        Some((held.parsed.kind(), &held.content))
    }

    /// The commit with this id; `None` exactly where no object with this id is a commit. It takes no memory.
    pub fn commit(&self, id: &Id) -> Option<&Commit>
        ensures commit { MatchOption result (content_at kinds.commit self.now id.now ≡ None) (λ commit. IsCommitAt self.now id.now commit.now) }
        ensures known { AreKnown self.now }
    {
        let held = self.get(id)?;
        match &held.parsed {
            Parsed::Commit(commit) => Some(commit),
            Parsed::Blob => None,
            Parsed::Tree(_) => None,
            Parsed::Tag(_) => None,
        }
    }

    /// The tag with this id; `None` exactly where no object with this id is a tag. It takes no memory.
    pub fn tag(&self, id: &Id) -> Option<&Tag>
        ensures tag { MatchOption result (content_at kinds.tag self.now id.now ≡ None) (λ tag. IsTagAt self.now id.now tag.now) }
        ensures known { AreKnown self.now }
    {
        let held = self.get(id)?;
        match &held.parsed {
            Parsed::Tag(tag) => Some(tag),
            Parsed::Blob => None,
            Parsed::Tree(_) => None,
            Parsed::Commit(_) => None,
        }
    }
}

impl Objects for GitStore {
    ghost objects = { λ store. store };

    fn content(&self, id: &Id) -> Option<(Kind, &[u8])>
        ensures content { option_map {U = ObjectKind × List ℕ} (λ x. (object_kind x.0, x.1.now)) result ≡ option_map {U = ObjectKind × List ℕ} (λ o. (o.kind, o.content)) (object_at self.now id.now) }
        ensures objects { AreObjects self.now }
        ensures known { AreKnown self.now }
    {
        let held = self.get(id)?;
        Some((held.parsed.kind(), held.content.as_slice()))
    }

    fn tree(&self, id: &Id) -> Option<&Tree>
        ensures tree { option_copied result ≡ tree_at self.now id.now }
        ensures objects { AreObjects self.now }
        ensures known { AreKnown self.now }
    {
        let held = self.get(id)?;
        match &held.parsed {
            Parsed::Tree(tree) => Some(tree),
            Parsed::Blob => None,
            Parsed::Commit(_) => None,
            Parsed::Tag(_) => None,
        }
    }
}
