use pair_known::{GitDraft, HgDraft};

/// A draft of a member.
#[derive(Drop)]
pub enum Draft {
    /// Of a changeset.
    Changeset(HgDraft),
    /// Of a commit.
    Commit(GitDraft),
}
