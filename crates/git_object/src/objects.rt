ghost use Rattle.std.specs.Prelude.{◌≡◌, List, ℕ, option_map};
ghost use Rattle.std.specs.Option.{option_copied};
ghost use Rattle.text_model.specs.Id.{ObjectKind};
ghost use Rattle.bridge_text.specs.Kinds.{object_kind};
ghost use Rattle.git_model.specs.Object.{Object, AreObjects, object_at, tree_at};

use crate::tree::Tree;
use bridge_text::{Id, Kind};

/// Git objects by their ids. Its meaning is a list of objects of which no two have one id: each
/// id is that of its kind and content, and each content of kind tree is that of a `Tree`.
pub trait Objects {
    /// The objects.
    ghost objects: { Self → List Object };

    /// The kind and the content of the object with this id; `None` exactly where there is none.
    fn content(&self, id: &Id) -> Option<(Kind, &[u8])>
        ensures content { option_map {U = ObjectKind × List ℕ} (λ x. (object_kind x.0, x.1.now)) result ≡ option_map {U = ObjectKind × List ℕ} (λ o. (o.kind, o.content)) (object_at (objects self.now) id.now) }
        ensures objects { AreObjects (objects self.now) };

    /// The tree with this id; `None` exactly where no object with this id is a tree.
    fn tree(&self, id: &Id) -> Option<&Tree>
        ensures tree { option_copied result ≡ tree_at (objects self.now) id.now }
        ensures objects { AreObjects (objects self.now) };
}
