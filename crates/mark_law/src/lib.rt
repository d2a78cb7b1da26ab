//! Laws of marks: a list of marks has one text, and a commit that is marked is a right one. No code.
#![tactic(auto)]

ghost use Rattle.std.specs.Prelude.{◌≡◌, ℕ, List};
ghost use Rattle.text_model.specs.Lists.{Each};
ghost use Rattle.text_model.specs.Text.{IsBytes};
ghost use Rattle.text_model.specs.Escape.{escape};
ghost use Rattle.pair_model.specs.MarkList.{Mark, IsMark, marks_text, ChangesetMarks, AreChangesetMarks, extras_of, IsResidue, residue_text};
ghost use Rattle.git_model.specs.Residue.{ResidueItem};
ghost use Rattle.pair_model.specs.Block.{Block, Parents};
ghost use Rattle.pair_model.specs.MarkList.{IsMarkList};
ghost use Rattle.pair_model.specs.Rule.{rule_commit};
ghost use Rattle.view_model.specs.View.{ChangesetView, IsChangesetView, IsCommitView, CommitFits};
ghost use Rattle.partner_model.specs.Mark.{commit_marks, mark_commit};

/// An escape is that of one list of bytes, a text that of one list of marks or of one residue, and
/// extras are those of one list of marks.
pub fn texts_are_one()
    ensures escapes { (xs ys : List ℕ) → IsBytes xs → IsBytes ys → escape xs ≡ escape ys → xs ≡ ys }
    ensures marks { (ms ns : List Mark) → Each IsMark ms → Each IsMark ns → marks_text ms ≡ marks_text ns → ms ≡ ns }
    ensures residues { (xs ys : List ResidueItem) → IsResidue xs → IsResidue ys → residue_text xs ≡ residue_text ys → xs ≡ ys }
    ensures extras { (m n : ChangesetMarks) → AreChangesetMarks m → AreChangesetMarks n → extras_of m ≡ extras_of n → m ≡ n }
{}

/// The marks of a changeset are a mark list, and its marked commit is a right one where the rule's
/// is. The rule's is within its limits wherever the marked one is.
pub fn marked_commit_is_right()
    ensures list { (ps : Parents) (h : ChangesetView) → IsChangesetView h → IsMarkList (commit_marks ps h) }
    ensures view { (blocks : List Block) (h : ChangesetView) → IsChangesetView h → IsCommitView (rule_commit blocks h) → IsCommitView (mark_commit blocks h) }
    ensures fits { (blocks : List Block) (h : ChangesetView) → CommitFits (mark_commit blocks h) → CommitFits (rule_commit blocks h) }
{}
