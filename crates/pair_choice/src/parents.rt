// Whether a parent of a changeset is a link.
ghost use Rattle.std.specs.Prelude.{◌≡◌, ◌||◌, List};
ghost use Rattle.view_model.specs.View.{ChangesetView};
ghost use Rattle.pair_model.specs.Block.{Block};
ghost use Rattle.partner_model.specs.Given as model;
ghost use Rattle.pair_known.specs.Blocks.{IsHistoryHeld};
ghost use Rattle.pair_known.specs.Over.{IsChangesetIn};

use bridge_text::Id;
use pair_known::{HgDraft, Known};

// Whether a parent is there and has no partner.
fn is_link_parent(known: &Known, node: &Id) -> bool
    ensures { (blocks : List Block) → IsHistoryHeld known.now blocks → result ≡ model.is_link_parent blocks node.now }
{
    !node.is_null() && known.partners.git_of(node).is_none()
}

/// Whether a parent of a changeset is there and has no partner, as a link has none.
pub fn has_link_parent(known: &Known, h: &HgDraft) -> bool
    ensures { (blocks : List Block) (v : ChangesetView) → IsChangesetIn known.now blocks h.now v
        → result ≡ (model.is_link_parent blocks v.p || model.is_link_parent blocks v.q) }
{
    is_link_parent(known, &h.p1) || is_link_parent(known, &h.p2)
}
