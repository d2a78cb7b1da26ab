// The parts of a commit that the rule would not give back.
ghost use Rattle.std.specs.Prelude.{◌≡◌, List, IfOk};
ghost use Rattle.view_model.specs.View.{CommitView};
ghost use Rattle.pair_model.specs.Block.{Block};
ghost use Rattle.pair_model.specs.MarkList.{IsParentCount};
ghost use Rattle.pair_model.specs.User.{user_of_line};
ghost use Rattle.pair_known.specs.Over.{IsCommitOver};
ghost use Rattle.mark_code.specs.Values.{changeset_marks};
ghost use Rattle.changeset_mark.specs.Marks.{marks_over};

use crate::head::head_marks;
use crate::residue::tree_mark;
use bridge_text::NoMemory;
use mark_code::ChangesetMarks;
use name_rule::UserDate;
use pair_known::{GitDraft, Known};
use std::alloc::Global;

/// The marks of a commit whose parents have partners: each part that isn't what the rule gives of its
/// changeset. `given` is the user and the date of its author's line.
pub fn marks_of(
    alloc: Global,
    known: &Known,
    c: &GitDraft,
    given: &UserDate,
) -> Result<ChangesetMarks, NoMemory>
    requires over { (blocks : List Block) × (v : CommitView) × IsCommitOver known.now blocks c.now v }
    requires given { given.now ≡ user_of_line (c.now.commit).author }
    ensures marks { IfOk result (λ marks. (blocks : List Block) (v : CommitView) → IsCommitOver known.now blocks c.now v
        → changeset_marks marks ≡ marks_over blocks v) }
    ensures count { IfOk result (λ marks. IsParentCount marks.parents) }
{
    let tree = tree_mark(alloc, known, c)?;
    head_marks(alloc, &c.commit, given, tree)
}
