// Changesets of the form of a link.
ghost use Rattle.std.specs.Prelude.{◌↔◌, IsTrue};
ghost use Rattle.history_model.specs.Pull.{IsKnownLink};

use bridge_text::Id;
use hg_store::HgStore;
use link_rule::is_link;

/// Whether the changeset with this node is known and has the form of a link.
pub fn is_known_link(store: &HgStore, node: &Id) -> bool
    ensures { IsTrue result ↔ IsKnownLink store.now node.now }
{
    match store.changeset(node) {
        Some(found) => is_link(found.2, &found.0, &found.1),
        None => false,
    }
}
