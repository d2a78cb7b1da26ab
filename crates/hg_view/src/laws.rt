ghost use Rattle.std.specs.Prelude.{◌≡◌};
ghost use Rattle.hg_store.specs.declared.view.View.{View};
ghost use Rattle.hg_store.specs.Views.{IsView};
ghost use Rattle.view_model.specs.View.{ChangesetView, IsChangesetView, changeset_node};
ghost use Rattle.view_model.specs.Held.{IsChangesetHeld};

use bridge_text::Id;
use hg_store::HgStore;

/// Laws, which do nothing when they run. What a store lends as the view of a node is a changeset with all that it stands for, the
/// parents of its manifest and its files in canonical order (`held`). It is right: all its ids agree (`is_view`, `node`). And it is the
/// only one of that node (`one`).
pub fn views_are_held(store: &HgStore, node: &Id)
    ensures held { (v : View) → IsView store.now node.now v → (h : ChangesetView) × IsChangesetHeld store.now node.now h }
    ensures is_view { (h : ChangesetView) → IsChangesetHeld store.now node.now h → IsChangesetView h }
    ensures node { (h : ChangesetView) → IsChangesetHeld store.now node.now h → changeset_node h ≡ node.now }
    ensures one { (h k : ChangesetView) → IsChangesetHeld store.now node.now h → IsChangesetHeld store.now node.now k → h ≡ k }
{
    store.check();
    let _node = node;
}
