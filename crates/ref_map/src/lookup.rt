// What names may name.
ghost use Rattle.std.specs.Prelude.{◌≡◌};
ghost use Rattle.text_model.specs.Id.{has_id};
ghost use Rattle.state_model.specs.Names.{Targets, changeset_of};
ghost use Rattle.name_model.specs.Targets.{commit_of};

use bridge_text::Id;

/// What names may name: the changesets and commits of a history, and its kept tags.
pub trait Lookup {
    ghost targets: { Self → Targets };

    /// The partner of the changeset with this node; `None` exactly where it has none.
    fn commit_of(&self, node: &Id) -> Option<Id>
        ensures { result ≡ commit_of (targets self.now) node.now };

    /// The partner of the commit with this id; `None` exactly where no such commit is saved.
    fn changeset_of(&self, id: &Id) -> Option<Id>
        ensures { result ≡ changeset_of (targets self.now) id.now };

    /// Whether the tag with this id is kept.
    fn has_tag(&self, id: &Id) -> bool
        ensures { result ≡ has_id (targets self.now).tags id.now };
}
