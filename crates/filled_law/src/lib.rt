//! Laws of what the marks of a commit name. No code.
#![tactic(auto)]

ghost use Rattle.std.specs.Prelude.{List};
ghost use Rattle.pair_model.specs.Block.{Block};
ghost use Rattle.partner_model.specs.Table.{IsTable};
ghost use Rattle.filled_law.specs.Fillings.{FilledIsUnmarking, RightIsUnmarking, UnmarkingIsRight, PlainIsUnmarked, UnmarkedIsPlain};

/// An unmarking of a commit is the changeset that the commit's marks name (`filled`), which has the commit's line, message, residue and marks
/// (`asked`); and where that holds of the changeset that they name, it is the unmarking (`right`).
pub fn changeset_is_filled()
    ensures filled { (blocks : List Block) → IsTable blocks → FilledIsUnmarking blocks }
    ensures asked { (blocks : List Block) → IsTable blocks → UnmarkingIsRight blocks }
    ensures right { (blocks : List Block) → IsTable blocks → RightIsUnmarking blocks }
{}

/// A plain commit is unmarked to the changeset of the rule, and a commit without headers that has an unmarking is plain.
pub fn plain_is_unmarked()
    ensures there { (blocks : List Block) → IsTable blocks → PlainIsUnmarked blocks }
    ensures only { (blocks : List Block) → IsTable blocks → UnmarkedIsPlain blocks }
{}
