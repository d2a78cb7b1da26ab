// Entries that are rows of a tree.
ghost use Rattle.std.specs.Prelude.{◌≡◌};
ghost use Rattle.git_model.specs.Object.{tree_at};
ghost use Rattle.git_model.specs.Unfold.{has_no_entries};
ghost use Rattle.tree_shape.specs.Wholes.{is_leaf};

use bridge_text::Id;
use git_object::{Objects, TreeEntry};

/// Whether this is the id of a tree without entries that is there.
pub fn is_empty_tree<G: Objects>(store: &G, id: &Id) -> bool
    ensures { result ≡ has_no_entries (tree_at (G.objects store.now) id.now) }
{
    match store.tree(id) {
        Some(tree) => tree.is_empty(),
        None => false,
    }
}

/// Whether an entry is a row of its tree: no directory, or an empty one.
pub fn is_leaf<G: Objects>(store: &G, entry: &TreeEntry) -> bool
    ensures { result ≡ is_leaf (G.objects store.now) entry.now }
{
    !entry.mode().is_directory() || is_empty_tree(store, entry.id())
}
