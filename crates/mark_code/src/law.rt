ghost use Rattle.std.specs.Prelude.{◌≡◌, List};
ghost use Rattle.text_model.specs.Text.{Bytes};
ghost use Rattle.hg_model.specs.Changeset.{Extra};
ghost use Rattle.pair_model.specs.MarkList.{Mark, IsMarkList, marks_text, AreHeadersOf, ChangesetMarks, AreExtrasOf};

/// Laws, which do nothing when they run. Headers are those of one list of marks at most, and what
/// is written of a list of marks reads as this list; extras are those of the marks of one commit at
/// most.
pub fn reads_exactly()
    ensures one { (headers : Bytes) (marks others : List Mark) → AreHeadersOf headers marks → AreHeadersOf headers others → marks ≡ others }
    ensures again { (marks others : List Mark) → IsMarkList marks → AreHeadersOf (marks_text marks) others → others ≡ marks }
    ensures extras { (extras : List Extra) (marks others : ChangesetMarks) → AreExtrasOf extras marks → AreExtrasOf extras others → marks ≡ others }
{}
