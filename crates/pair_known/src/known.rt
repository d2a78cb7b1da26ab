use crate::partners::Partners;
use git_store::GitStore;
use hg_store::HgStore;

/// What both sides hold, and which of their members are partners.
pub struct Known {
    /// Mercurial's revisions.
    pub hg: HgStore,
    /// Git's objects.
    pub git: GitStore,
    /// The partners of changesets and commits.
    pub partners: Partners,
}

impl Drop for Known {
    fn drop(self) {
        let Known {
            hg: _,
            git: _,
            partners: _,
        } = self;
    }
}
