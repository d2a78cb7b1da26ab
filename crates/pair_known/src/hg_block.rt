ghost use Rattle.std.specs.Prelude.{◌≡◌};

use crate::hg_draft::HgDraft;
use bridge_text::List;

/// A list of drafts of changesets.
pub type HgDrafts = List<HgDraft>;

/// The changesets of a block: the links of a commit of three and more parents, and its changeset.
pub struct HgBlock {
    /// The links, of which each is the first parent of the next; none for a commit of at most two parents.
    pub links: HgDrafts,
    /// The changeset.
    pub last: HgDraft,
}

impl Drop for HgBlock {
    fn drop(self) {
        let HgBlock { links: _, last: _ } = self;
    }
}

impl HgBlock {
    /// The changeset, without the links.
    pub fn into_last(self) -> HgDraft
        ensures { result ≡ self.last }
    {
        let HgBlock { links: _, last } = self;
        last
    }
}
