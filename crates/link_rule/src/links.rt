ghost use Rattle.std.specs.Prelude.{◌≡◌, List, [], map, IfOk};
ghost use Rattle.std.specs.List.{AllZip};
ghost use Rattle.text_model.specs.Lists.{Each};
ghost use Rattle.hg_model.specs.Revision.{Revision};
ghost use Rattle.view_model.specs.View.{ChangesetView, CommitView, IsChangesetView, changeset_node};
ghost use Rattle.pair_model.specs.Block.{Block};
ghost use Rattle.pair_model.specs.Octopus as octopus;
ghost use Rattle.pair_known.specs.Drafts.{IsHgDraft};
ghost use Rattle.pair_known.specs.Over.{IsCommitOver};
ghost use Rattle.pair_known.specs.Ruled.{IsMadeChangeset};
ghost use Rattle.link_rule.specs.Links.{IsLinkOf, IsLinkOver, AreLinksMade};

use crate::chain::chain_of;
use crate::link::Link;
use bridge_text::{IdList, NoMemory};
use pair_known::{
    DraftTexts, FreshFiles, GitDraft, HgDraft, HgDrafts, HgRow, HgRows, Known, draft_of_changeset,
};
use shared_text::again;
use std::alloc::Global;

/// The links of a commit whose parents have partners; none below three parents. Each has the files of the first parent's partner, which are
/// looked up once, and brings no file revisions.
pub fn links_of(alloc: Global, known: &Known, c: &GitDraft) -> Result<HgDrafts, NoMemory>
    requires over { (blocks : List Block) × (v : CommitView) × IsCommitOver known.now blocks c.now v }
    ensures { IfOk result (λ links. (blocks : List Block) (v : CommitView) → IsCommitOver known.now blocks c.now v
        → AreLinksMade known.now.hg links (octopus.links_of blocks v)) }
{
    let links = chain_of(alloc, known, c)?;
    let Some(first) = links.first() else {
        return Ok(HgDrafts::new(alloc));
    };
    let base = draft_of_changeset(alloc, known, &first.p)?;
    drafts_over(alloc, &base, links)
}

/// The nodes of these links. Their texts are hashed, and no files are copied.
pub fn link_nodes(alloc: Global, known: &Known, c: &GitDraft) -> Result<IdList, NoMemory>
    requires over { (blocks : List Block) × (v : CommitView) × IsCommitOver known.now blocks c.now v }
    ensures { IfOk result (λ nodes. (blocks : List Block) (v : CommitView) → IsCommitOver known.now blocks c.now v
        → nodes ≡ map changeset_node (octopus.links_of blocks v)) }
{
    let links = chain_of(alloc, known, c)?;
    nodes_of(alloc, links.as_slice())
}

// The nodes of links.
fn nodes_of(alloc: Global, links: &[Link]) -> Result<IdList, NoMemory>
    ensures { IfOk result (λ nodes. nodes ≡ map (λ link. link.node) links.now) }
{
    let mut nodes = IdList::new(alloc);
    for link in links {
        nodes.push(link.node)?;
    }
    Ok(nodes)
}

// Links with the files of the base.
fn drafts_over(alloc: Global, base: &HgDraft, links: Vec<Link>) -> Result<HgDrafts, NoMemory>
    ensures { IfOk result (λ drafts. (known : List Revision) (b : ChangesetView) (ls : List ChangesetView) → IsHgDraft known base.now b → base.now.fresh ≡ []
        → IsChangesetView b → AllZip IsLinkOf links.items ls → Each (IsLinkOver b) ls → AreLinksMade known drafts ls) }
{
    let mut drafts = HgDrafts::new(alloc);
    for link in links {
        let draft = draft_over(alloc, base, link)?;
        drafts.push(draft)?;
    }
    Ok(drafts)
}

// A link with the files of the base.
fn draft_over(alloc: Global, base: &HgDraft, link: Link) -> Result<HgDraft, NoMemory>
    ensures made { IfOk result (λ d. (known : List Revision) (b h : ChangesetView) → IsHgDraft known base.now b → base.now.fresh ≡ []
        → IsChangesetView b → IsLinkOf link h → IsLinkOver b h → IsMadeChangeset known d h) }
    ensures nothing_fresh { IfOk result (λ d. d.fresh ≡ []) }
{
    let rows = copy_of(alloc, &base.rows)?;
    Ok(HgDraft {
        p1: link.p,
        p2: link.q,
        changeset: link.changeset,
        manifest: base.manifest,
        rows,
        fresh: FreshFiles::new(alloc),
        texts: DraftTexts {
            changeset: Some(link.text),
            manifest: None,
        },
    })
}

// A copy of a changeset's files.
fn copy_of(alloc: Global, rows: &HgRows) -> Result<HgRows, NoMemory>
    ensures { IfOk result (λ copy. copy ≡ rows.now) }
{
    let mut copy = HgRows::new(alloc);
    for row in rows.as_slice() {
        copy.push(HgRow {
            path: again(&row.path)?,
            flag: row.flag,
            node: row.node,
            blob: row.blob,
        })?;
    }
    Ok(copy)
}
