// What tags name.
ghost use Rattle.std.specs.Prelude.{◌≡◌, ◌||◌};
ghost use Rattle.git_model.specs.Order.{has};
ghost use Rattle.tag_rule.specs.Named.{named_at, behind, target_lacks, arrival_lacks};

use bridge_text::{Id, IdSet, Kind};
use git_batch::ObjectArrival;
use git_store::GitStore;

/// What a tag names, as far as it tells whether the tag leads to a commit.
#[derive(Clone, Copy, Debug, PartialEq, Eq)]
pub enum Named {
    /// A commit, or a kept tag.
    Commit,
    /// A tag that came, and isn't kept.
    Tag(Id),
    /// Anything else.
    Other,
}

/// The objects that came and what is saved, in which the targets of tags are looked up.
#[derive(Drop)]
pub struct Targets<'a> {
    pub store: &'a GitStore,
    /// The saved commits.
    pub commits: &'a IdSet,
    /// The kept tags.
    pub kept: &'a IdSet,
    /// The tags that came.
    pub came: &'a IdSet,
}

impl Targets<'_> {
    /// What the tag with this id names.
    pub fn named(&self, id: &Id) -> Named
        ensures { result ≡ named_at self.now.store.now self.now.kept.now self.now.came.now id.now }
    {
        let Some(tag) = self.store.tag(id) else {
            return Named::Other;
        };
        match tag.target_kind {
            Kind::Commit => Named::Commit,
            Kind::Tag => self.behind(tag.target),
            Kind::Blob => Named::Other,
            Kind::Tree => Named::Other,
        }
    }

    // What a tag of this tag names.
    fn behind(&self, target: Id) -> Named
        ensures { result ≡ behind self.now.kept.now self.now.came.now target }
    {
        if self.kept.contains(&target) {
            Named::Commit
        } else if self.came.contains(&target) {
            Named::Tag(target)
        } else {
            Named::Other
        }
    }

    /// Whether the object is a tag whose target isn't there.
    pub fn arrival_lacks(&self, item: &ObjectArrival) -> bool
        ensures { result ≡ arrival_lacks self.now item.now }
    {
        item.kind == Kind::Tag && self.lacks(&item.id)
    }

    // Whether the target of the tag with this id isn't there.
    fn lacks(&self, id: &Id) -> bool
        ensures { result ≡ target_lacks self.now.store.now self.now.commits.now self.now.kept.now self.now.came.now id.now }
    {
        let Some(tag) = self.store.tag(id) else {
            return false;
        };
        match tag.target_kind {
            Kind::Commit => !self.commits.contains(&tag.target),
            Kind::Tag => !self.has_tag(&tag.target),
            Kind::Blob => false,
            Kind::Tree => false,
        }
    }

    // Whether the tag with this id is kept, or came.
    fn has_tag(&self, id: &Id) -> bool
        ensures { result ≡ (has self.now.kept.now id.now || has self.now.came.now id.now) }
    {
        self.kept.contains(id) || self.came.contains(id)
    }
}
