//! The marks of a pair of a changeset and a commit: `HG:` headers in the commit, which say what
//! the rule alone would not give back of the changeset, and `hg-git-` extras in the changeset,
//! which say the same of the commit. Both texts are this bridge's own.
#![tactic(auto)]

mod changeset_marks;
mod escape;
mod kind;
mod law;
mod list;
mod mark;
mod order;
mod reading;
mod residue_text;
mod writing;

pub use changeset_marks::ChangesetMarks;
pub use law::reads_exactly;
pub use list::CommitMarks;
pub use mark::Mark;
