//! Laws of unmarkings: a member has at most one, and what it has of the other side. No code.
//!
//! `IsTable blocks` says that the blocks have distinct nodes and distinct commit ids, and no null
//! node. `AreApart` says of changesets that those of one node are the same.
#![tactic(auto)]

ghost use Rattle.std.specs.Prelude.{List};
ghost use Rattle.hg_model.specs.Revision.{Revision};
ghost use Rattle.pair_model.specs.Block.{Block};
ghost use Rattle.partner_model.specs.Partner.{IsHeldView};
ghost use Rattle.partner_model.specs.Table.{IsTable, AreApart};
ghost use Rattle.unmark_law.specs.Unmarkings.{UnmarkingIsOne};

/// A commit has at most one unmarking, and so has a changeset.
pub fn unmarking_is_one()
    ensures { (blocks : List Block) (known : List Revision) → IsTable blocks → AreApart (IsHeldView known) → UnmarkingIsOne blocks (IsHeldView known) }
{}

/// Of any blocks it does not hold: two blocks with one commit and two changesets.
pub fn unmarking_needs_a_table()
    ensures { ¬ ((blocks : List Block) (known : List Revision) → UnmarkingIsOne blocks (IsHeldView known)) }
{}
