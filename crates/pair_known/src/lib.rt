//! What both sides of a bridge know: Mercurial's revisions, Git's objects, the partners of changesets and commits, and
//! drafts of members that are to be added.
#![tactic(auto)]

mod choice_fault;
mod draft_fault;
mod draft_texts;
mod fault;
mod fresh_blobs;
mod fresh_files;
mod git_draft;
mod hg_block;
mod hg_draft;
mod hg_row;
mod known;
mod near_rows;
mod partners;

pub use choice_fault::ChoiceFault;
pub use draft_fault::DraftFault;
pub use draft_texts::DraftTexts;
pub use fault::PairFault;
pub use fresh_blobs::{FreshBlob, FreshBlobs};
pub use fresh_files::{FreshFile, FreshFiles};
pub use git_draft::{GitDraft, draft_of_commit, read_commit_draft};
pub use hg_block::{HgBlock, HgDrafts};
pub use hg_draft::{
    HgDraft, draft_near, draft_of_changeset, manifest_of_node, read_changeset_draft,
};
pub use hg_manifest::Cursor;
pub use hg_row::{HgRow, HgRows};
pub use known::Known;
pub use near_rows::NearRows;
pub use partners::Partners;
