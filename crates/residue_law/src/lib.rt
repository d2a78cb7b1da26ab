//! Laws of residues: which one an unmarking has, and which one a marked commit. No code.
#![tactic(auto)]

ghost use Rattle.std.specs.Prelude.{List};
ghost use Rattle.hg_model.specs.Revision.{Revision};
ghost use Rattle.pair_model.specs.Block.{Block};
ghost use Rattle.partner_model.specs.Partner.{IsHeldView};
ghost use Rattle.partner_model.specs.Table.{IsTable};
ghost use Rattle.residue_law.specs.Residues.{CommitIsFilled, ResidueIsRead, RowsAreRead, ResidueFits, ItemsFit, ResidueBuilds, HandsOn};

/// The residue of an unmarking is the one that the extras name, else what the commit's first parent
/// hands on, and its rows are the changeset's files with it. The items that are named fit the files,
/// their paths are fit and none lies below another; a changeset of which this doesn't hold has no
/// unmarking, and where it holds they make a commit's rows, with just that residue and those files.
/// A marked commit has its changeset's files, and beside them what the first parent's partner hands
/// on.
pub fn residue_is_read()
    ensures read { (blocks : List Block) (known : List Revision) → ResidueIsRead blocks (IsHeldView known) }
    ensures rows { (blocks : List Block) (known : List Revision) → RowsAreRead blocks (IsHeldView known) }
    ensures fits { (blocks : List Block) (known : List Revision) → ResidueFits blocks (IsHeldView known) }
    ensures items { (blocks : List Block) (known : List Revision) → ItemsFit blocks (IsHeldView known) }
    ensures builds { ResidueBuilds }
    ensures handed { (blocks : List Block) → IsTable blocks → HandsOn blocks }
{}

/// An unmarking of a changeset is the commit over its parents that the changeset's marks name: each
/// part by its mark, or else as the rule gives it.
pub fn commit_is_filled()
    ensures { (blocks : List Block) (known : List Revision) → CommitIsFilled blocks (IsHeldView known) }
{}
