// Partners within their limits.
ghost use Rattle.std.specs.Prelude.{◌≡◌, ◌↔◌, ◌++◌, [], ◌∷◌, List, Err, IfOk, IsTrue};
ghost use Rattle.text_model.specs.Lists.{Each};
ghost use Rattle.hg_model.specs.Revision.{Revision};
ghost use Rattle.hg_store.specs.Known.{AreAdded};
ghost use Rattle.view_model.specs.View.{ChangesetView, CommitView, ChangesetFits, CommitFits};
ghost use Rattle.pair_model.specs.Block.{Block};
ghost use Rattle.pair_model.specs.Octopus as octopus;
ghost use Rattle.partner_model.specs.Mark as mark;
ghost use Rattle.partner_model.specs.Partner.{UnmarksCommit};
ghost use Rattle.pair_known.specs.declared.known.Known as members;
ghost use Rattle.pair_known.specs.Over.{IsCommitOver};
ghost use Rattle.pair_known.specs.Ruled.{IsMadeChangeset, IsRuledCommit};
ghost use Rattle.pair_known.specs.declared.fault.PairFault.TheVariants.{PairLimit};
ghost use Rattle.link_rule.specs.Links.{AreLinksMade};
ghost use Rattle.pair_choice.specs.Parts.{IsUnmarkedCommit, IsBlockMade};

use bridge_text::NoMemory;
use changeset_mark::mark_changeset;
use changeset_rule::changeset_fits;
use commit_rule::{bodies_fit, commit_fits};
use link_rule::links_of;
use pair_known::{GitDraft, HgBlock, HgDraft, HgDrafts, Known, PairFault};
use std::alloc::Global;

/// The unmarking of a changeset. PairLimit comes exactly where an object of it, or the rows of its tree, pass their limit.
pub fn unmarked_commit(
    alloc: Global,
    known: &Known,
    h: &HgDraft,
    first: GitDraft,
) -> Result<GitDraft, PairFault>
    requires unmarks { (blocks : List Block) × (v : ChangesetView) × (c : CommitView) × IsUnmarkedCommit known.now blocks h.now first v c }
    ensures ok { IfOk result (λ d. (blocks : List Block) (v : ChangesetView) (c : CommitView) → IsUnmarkedCommit known.now blocks h.now first v c → IsRuledCommit known.now.git d c) }
    ensures limit { result ≡ Err PairLimit → (blocks : List Block) (v : ChangesetView) (c : CommitView) → IsUnmarkedCommit known.now blocks h.now first v c → ¬ (CommitFits c) }
{
    if !bodies_fit(known, h) {
        return Err(PairFault::PairLimit);
    }
    if !commit_fits(alloc, &first)? {
        return Err(PairFault::PairLimit);
    }
    Ok(first)
}

/// The block of a commit with its unmarking; it has no links. PairLimit comes exactly where a text of the unmarking passes its limit.
pub fn unmarked_block(alloc: Global, first: HgDraft) -> Result<HgBlock, PairFault>
    ensures ok { IfOk result (λ d. (known : members.Known) (blocks : List Block) (v : CommitView) (h : ChangesetView) → AreAdded known.hg → UnmarksCommit blocks v h
        → IsMadeChangeset known.hg first h → IsBlockMade known blocks v d h) }
    ensures limit { result ≡ Err PairLimit → (known : List Revision) (h : ChangesetView) → AreAdded known → IsMadeChangeset known first h → ¬ (ChangesetFits h) }
{
    if !changeset_fits(alloc, &first)? {
        return Err(PairFault::PairLimit);
    }
    Ok(HgBlock {
        links: HgDrafts::new(alloc),
        last: first,
    })
}

/// The block of a commit with its marked changeset. PairLimit comes exactly where a text of the changeset or of a link passes its limit.
pub fn marked_block(alloc: Global, known: &Known, c: &GitDraft) -> Result<HgBlock, PairFault>
    requires over { (blocks : List Block) × (v : CommitView) × IsCommitOver known.now blocks c.now v }
    ensures ok { IfOk result (λ d. (blocks : List Block) (v : CommitView) → IsCommitOver known.now blocks c.now v → IsBlockMade known.now blocks v d (mark.mark_changeset blocks v)) }
    ensures limit { result ≡ Err PairLimit → (blocks : List Block) (v : CommitView) → IsCommitOver known.now blocks c.now v
        → ¬ (Each ChangesetFits (octopus.links_of blocks v ++ mark.mark_changeset blocks v ∷ [])) }
{
    let last = mark_changeset(alloc, known, c)?;
    let links = links_of(alloc, known, c)?;
    if !links_fit(alloc, &links)? {
        return Err(PairFault::PairLimit);
    }
    Ok(HgBlock { links, last })
}

// Whether the texts of each link are within their limits.
fn links_fit(alloc: Global, links: &HgDrafts) -> Result<bool, NoMemory>
    ensures { IfOk result (λ fit. (known : List Revision) (views : List ChangesetView) → AreAdded known → AreLinksMade known links.now views → (IsTrue fit ↔ Each ChangesetFits views)) }
{
    for link in links.as_slice() {
        if !changeset_fits(alloc, link)? {
            return Ok(false);
        }
    }
    Ok(true)
}
