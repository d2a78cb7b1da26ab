//! The rules between changesets and commits, under one name: what both sides hold, the drafts of new members, and of each member
//! the one that the rules give on the other side, the marked one, and the unmarking.
#![tactic(auto)]

pub use changeset_mark::mark_changeset;
pub use changeset_rule::{changeset_fits, make_changeset, rule_changeset};
pub use changeset_unmark::unmark_changeset;
pub use commit_mark::{mark_commit, marks_of};
pub use commit_rule::{commit_fits, make_commit, rule_commit};
pub use commit_unmark::unmark_commit;
pub use link_rule::{is_link, link_nodes, links_of};
pub use pair_known::{
    FreshBlob, FreshBlobs, FreshFile, FreshFiles, GitDraft, HgBlock, HgDraft, HgDrafts, HgRow,
    HgRows, Known, PairFault, Partners, draft_of_changeset, draft_of_commit,
};
