ghost use Rattle.std.specs.Prelude.{◌≡◌, ◌&&◌, ◌||◌, not, bytes_eq};
ghost use Rattle.text_model.specs.Id.{is_null};
ghost use Rattle.text_model.specs.Fault as fault;
ghost use Rattle.hg_model.specs.Revision.{order_fault, named_if, same_parents};
ghost use Rattle.hg_store.specs.Groups.{group_value, revision_value};

use crate::group::Group;
use crate::held::Held;
use bridge_text::Id;
use shared_text::Text;

/// A revision that is to be added, with its parents as they were written (help topic `internals.changegroups`).
#[derive(Drop)]
pub struct Addition<'a> {
    /// What the revision is one of: the changesets, the manifests, or the revisions of a file.
    pub group: Group<'a>,
    /// The node that the revision is to have.
    pub node: Id,
    /// The first parent, or the null id.
    pub p: Id,
    /// The second parent, or the null id.
    pub q: Id,
    /// The changeset that brought the revision; for a changeset its own node.
    pub link: Id,
    /// The whole text, of which the node is the hash behind the parents. It is kept, not copied.
    pub text: Text,
}

impl<'a> Addition<'a> {
    // Whether this is a changeset whose parents stand in the wrong order.
    pub(crate) fn has_bad_order(&self) -> bool
        ensures { order_fault (group_value self.now.group) (revision_value self.now) ≡ named_if result fault.ParentOrder }
    {
        match self.group {
            Group::Changesets => has_bad_order(&self.p, &self.q),
            Group::Manifests => false,
            Group::FilesAt(_) => false,
        }
    }

    // Whether a revision of the same node has this text and these parents.
    pub(crate) fn is_like(&self, held: &Held) -> bool
        ensures { result ≡ (bytes_eq self.now.text held.now.text
            && same_parents (group_value self.now.group) self.now.p self.now.q held.now.p held.now.q) }
    {
        self.text.as_slice() == held.text.as_slice() && self.has_parents_of(held)
    }

    fn has_parents_of(&self, held: &Held) -> bool
        ensures { result ≡ same_parents (group_value self.now.group) self.now.p self.now.q held.now.p held.now.q }
    {
        match self.group {
            Group::Changesets => self.has_pair(&held.p, &held.q),
            Group::Manifests => self.has_pair(&held.p, &held.q) || self.has_pair(&held.q, &held.p),
            Group::FilesAt(_) => self.has_pair(&held.p, &held.q) || self.has_pair(&held.q, &held.p),
        }
    }

    fn has_pair(&self, p: &Id, q: &Id) -> bool
        ensures { result ≡ (bytes_eq self.now.p p.now && bytes_eq self.now.q q.now) }
    {
        self.p == *p && self.q == *q
    }
}

fn has_bad_order(p: &Id, q: &Id) -> bool
    ensures { result ≡ ((is_null p.now && not (is_null q.now)) || (not (is_null p.now) && bytes_eq p.now q.now)) }
{
    (p.is_null() && !q.is_null()) || (!p.is_null() && *p == *q)
}
