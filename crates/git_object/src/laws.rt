//! Laws of what this crate reads and writes. These functions do nothing when they run.
ghost use Rattle.std.specs.Prelude.{◌≡◌, List, None, Some, true};
ghost use Rattle.text_model.specs.Text.{Bytes};
ghost use Rattle.text_model.specs.Id.{Id};
ghost use Rattle.git_model.specs.Commit as model;
ghost use Rattle.git_model.specs.Commit.{IsIdentLine, ident_of, IsCommit, IsCommitText, commit_text, commit_fault, parent_ids, IsTag, IsTagText, tag_text, tag_fault, tag_target, is_tag_of};
ghost use Rattle.git_model.specs.Tree as trees;
ghost use Rattle.git_model.specs.Tree.{IsTree, IsTreeText, tree_text, tree_fault, tree_entries};
ghost use Rattle.git_model.specs.Object.{Object, AreObjects, tree_at};

/// A line reads as an ident exactly where it is the line of it.
pub fn ident_laws()
    ensures takes { (line : Bytes) (ident : model.Ident) → ident_of line ≡ Some ident → IsIdentLine line ident }
    ensures again { (line : Bytes) (ident : model.Ident) → IsIdentLine line ident → ident_of line ≡ Some ident }
{}

/// A content is that of one commit at most, and where it is that of one it has no fault. So what
/// is written of a commit reads as the commit. The content names the commit's parents.
pub fn commit_laws()
    ensures one { (content : Bytes) (commit other : model.Commit) → IsCommitText content commit → IsCommitText content other → commit ≡ other }
    ensures fits { (content : Bytes) (commit : model.Commit) → IsCommitText content commit → commit_fault content ≡ None }
    ensures written { (commit : model.Commit) → IsCommit commit → IsCommitText (commit_text commit) commit }
    ensures parents { (content : Bytes) (commit : model.Commit) → IsCommitText content commit → parent_ids content ≡ commit.parents }
{}

/// A content is that of one tag at most, and where it is that of one it has no fault. So what is
/// written of a tag reads as the tag. The content names the tag's target and its kind.
pub fn tag_laws()
    ensures one { (content : Bytes) (tag other : model.Tag) → IsTagText content tag → IsTagText content other → tag ≡ other }
    ensures fits { (content : Bytes) (tag : model.Tag) → IsTagText content tag → tag_fault content ≡ None }
    ensures written { (tag : model.Tag) → IsTag tag → IsTagText (tag_text tag) tag }
    ensures target { (content : Bytes) (tag : model.Tag) → IsTagText content tag → tag_target content ≡ tag.target }
    ensures kind { (content : Bytes) (tag : model.Tag) → IsTagText content tag → is_tag_of tag.target_kind content ≡ true }
{}

/// A content is that of one tree at most, and where it is that of one it has no fault and these
/// entries. So what is written of a tree reads as the tree.
pub fn tree_laws()
    ensures one { (content : Bytes) (entries others : List trees.TreeEntry) → IsTreeText content entries → IsTreeText content others → entries ≡ others }
    ensures fits { (content : Bytes) (entries : List trees.TreeEntry) → IsTreeText content entries → tree_fault content ≡ None }
    ensures written { (entries : List trees.TreeEntry) → IsTree entries → IsTreeText (tree_text entries) entries }
    ensures entries { (content : Bytes) (entries : List trees.TreeEntry) → IsTreeText content entries → tree_entries content ≡ entries }
{}

/// Each tree that objects hold has the entries of a tree: their names are fit, rise and come once.
pub fn object_laws()
    ensures { (known : List Object) (id : Id) (entries : List trees.TreeEntry) → AreObjects known → tree_at known id ≡ Some entries → IsTree entries }
{}
