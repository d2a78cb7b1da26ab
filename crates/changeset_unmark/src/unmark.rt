ghost use Rattle.std.specs.Prelude.{◌≡◌, ◌≤◌, List, length, IfOk, MatchOption, None, Some};
ghost use Rattle.text_model.specs.Id as id;
ghost use Rattle.text_model.specs.Lists.{Each};
ghost use Rattle.git_store.specs.Known.{AreKnown};
ghost use Rattle.hg_changeset.specs.Values.{date_value};
ghost use Rattle.view_model.specs.View.{ChangesetView, CommitView};
ghost use Rattle.pair_model.specs.Block.{Block, Parents, block_of_node};
ghost use Rattle.pair_model.specs.MarkList as model;
ghost use Rattle.partner_model.specs.Partner.{UnmarksChangeset, IsHeldView};
ghost use Rattle.pair_known.specs.Blocks.{AreBlocksHeld};
ghost use Rattle.pair_known.specs.Over.{IsChangesetIn};
ghost use Rattle.pair_known.specs.Ruled.{IsMadeCommit};
ghost use Rattle.mark_code.specs.Values.{changeset_marks};
ghost use Rattle.commit_rule.specs.Parts.{AreShortBodies, HasStoredBlob};
ghost use Rattle.changeset_unmark.specs.Drafts.{IsBuiltCommit};
ghost use Rattle.changeset_unmark.specs.Heads.{IsDateOf};
ghost use Rattle.changeset_unmark.specs.Over.{IsNamedOver, IsOctopusOver, LeadsTo};
ghost use Rattle.changeset_unmark.specs.Named.{commit_named, IsNamed};

use crate::head::head_named;
use crate::lists::lists_come_back;
use crate::made::made_of;
use crate::octopus::{are_distinct, are_links_known};
use crate::parents::partners_of;
use crate::residue::rows_named;
use bridge_text::{Id, IdList, NoMemory};
use commit_rule::tree_of_partner;
use file_rule::parent_of;
use hg_changeset::DateLine;
use link_rule::walk_links;
use mark_code::ChangesetMarks;
use pair_known::{GitDraft, HgDraft, HgRow, Known};
use std::alloc::Global;

/// The unmarking of a changeset: the commit whose marked changeset it is, with the links that it names. `None` exactly where there is none.
/// Beside near rows, which may be any whose blobs the store holds, no blob is looked up that stands at its place among theirs.
pub fn unmark_changeset(
    alloc: Global,
    known: &Known,
    h: &HgDraft,
    near: &[HgRow],
) -> Result<Option<GitDraft>, NoMemory>
    requires inside { (blocks : List Block) × (v : ChangesetView) × IsChangesetIn known.now blocks h.now v }
    requires near { Each (HasStoredBlob known.now.git) near.now }
    ensures { IfOk result (λ found. (blocks : List Block) (v : ChangesetView) → IsChangesetIn known.now blocks h.now v
        → MatchOption found ((c : CommitView) → ¬ (UnmarksChangeset blocks (IsHeldView known.now.hg) v c))
        (λ d. (c : CommitView) × UnmarksChangeset blocks (IsHeldView known.now.hg) v c × IsBuiltCommit known.now.git d c
        × (AreShortBodies v.rows → IsMadeCommit known.now.git d c))) }
{
    let Some(marks) = marks_of(alloc, &h.changeset.date)? else {
        return Ok(None);
    };
    match marks.parents {
        Some(count) => unmark_octopus(alloc, known, h, marks, count, near),
        None => unmark_two(alloc, known, h, marks, near),
    }
}

// The marks that the extras of a date line are. `None` exactly where they are no marks.
fn marks_of(alloc: Global, date: &DateLine) -> Result<Option<ChangesetMarks>, NoMemory>
    ensures { IfOk result (λ found. MatchOption found ((m : model.ChangesetMarks) → ¬ (IsDateOf (date_value date.now) m)) (λ marks. IsDateOf (date_value date.now) (changeset_marks marks))) }
{
    match date {
        DateLine::Plain { extras, .. } => ChangesetMarks::read(alloc, extras),
        DateLine::Raw(_) => Ok(None),
    }
}

// The same where the marks name no number of parents: those of the commit are the partners of the changeset's own.
fn unmark_two(
    alloc: Global,
    known: &Known,
    h: &HgDraft,
    marks: ChangesetMarks,
    near: &[HgRow],
) -> Result<Option<GitDraft>, NoMemory>
    requires inside { (blocks : List Block) × (v : ChangesetView) × IsChangesetIn known.now blocks h.now v }
    requires date { IsDateOf (date_value h.now.changeset.date) (changeset_marks marks) }
    requires few { marks.parents ≡ None }
    requires near { Each (HasStoredBlob known.now.git) near.now }
    ensures { IfOk result (λ found. (blocks : List Block) (v : ChangesetView) → IsChangesetIn known.now blocks h.now v
        → MatchOption found ((c : CommitView) → ¬ (UnmarksChangeset blocks (IsHeldView known.now.hg) v c))
        (λ d. (c : CommitView) × UnmarksChangeset blocks (IsHeldView known.now.hg) v c × IsBuiltCommit known.now.git d c
        × (AreShortBodies v.rows → IsMadeCommit known.now.git d c))) }
{
    let nodes = [h.p1, h.p2];
    let Some(parents) = partners_of(alloc, &known.partners, &nodes)? else {
        return Ok(None);
    };
    unmark_over(alloc, known, h, marks, parents, &h.p1, near)
}

// The same where the marks name a number of parents: those of the commit are the partners of what the links lead to.
fn unmark_octopus(
    alloc: Global,
    known: &Known,
    h: &HgDraft,
    marks: ChangesetMarks,
    count: u8,
    near: &[HgRow],
) -> Result<Option<GitDraft>, NoMemory>
    requires inside { (blocks : List Block) × (v : ChangesetView) × IsChangesetIn known.now blocks h.now v }
    requires date { IsDateOf (date_value h.now.changeset.date) (changeset_marks marks) }
    requires many { marks.parents ≡ Some count }
    requires near { Each (HasStoredBlob known.now.git) near.now }
    ensures { IfOk result (λ found. (blocks : List Block) (v : ChangesetView) → IsChangesetIn known.now blocks h.now v
        → MatchOption found ((c : CommitView) → ¬ (UnmarksChangeset blocks (IsHeldView known.now.hg) v c))
        (λ d. (c : CommitView) × UnmarksChangeset blocks (IsHeldView known.now.hg) v c × IsBuiltCommit known.now.git d c
        × (AreShortBodies v.rows → IsMadeCommit known.now.git d c))) }
{
    let Some(nodes) = nodes_named(alloc, known, h, count)? else {
        return Ok(None);
    };
    let Some(parents) = partners_of(alloc, &known.partners, nodes.as_slice())? else {
        return Ok(None);
    };
    if !are_distinct(parents.as_slice()) {
        return Ok(None);
    }
    unmark_through(alloc, known, h, marks, parents, &nodes, near)
}

// The partners of the parents of the commit: those to which the links lead, and the changeset's second parent.
fn nodes_named(
    alloc: Global,
    known: &Known,
    h: &HgDraft,
    count: u8,
) -> Result<Option<IdList>, NoMemory>
    requires least { 3 ≤ count }
    requires most { count ≤ 64 }
    ensures { IfOk result (λ found. MatchOption found ((nodes : List id.Id) → ¬ (LeadsTo known.now.hg count h.now.p1 h.now.p2 nodes)) (LeadsTo known.now.hg count h.now.p1 h.now.p2)) }
{
    if h.p2.is_null() {
        return Ok(None);
    }
    let Some(mut nodes) = walk_links(alloc, &known.hg, &h.p1, count)? else {
        return Ok(None);
    };
    nodes.push(h.p2)?;
    Ok(Some(nodes))
}

// The commit over these parents, where its links are known, and lead to the partners of the parents.
fn unmark_through(
    alloc: Global,
    known: &Known,
    h: &HgDraft,
    marks: ChangesetMarks,
    parents: IdList,
    nodes: &IdList,
    near: &[HgRow],
) -> Result<Option<GitDraft>, NoMemory>
    requires over { (blocks : List Block) × (v : ChangesetView) × IsOctopusOver known.now blocks h.now v parents nodes.now }
    requires date { IsDateOf (date_value h.now.changeset.date) (changeset_marks marks) }
    requires many { marks.parents ≡ Some (length parents) }
    requires near { Each (HasStoredBlob known.now.git) near.now }
    ensures { IfOk result (λ found. (blocks : List Block) (v : ChangesetView) → IsOctopusOver known.now blocks h.now v parents nodes.now
        → MatchOption found ((c : CommitView) → (c.value).parents ≡ parents → ¬ (UnmarksChangeset blocks (IsHeldView known.now.hg) v c))
        (λ d. (c : CommitView) × UnmarksChangeset blocks (IsHeldView known.now.hg) v c × IsBuiltCommit known.now.git d c
        × (AreShortBodies v.rows → IsMadeCommit known.now.git d c))) }
{
    let first = nodes.at(0);
    let Some(made) = unmark_over(alloc, known, h, marks, parents, first, near)? else {
        return Ok(None);
    };
    let manifest = parent_of(&known.hg, first).manifest_node;
    if !are_links_known(
        alloc,
        &known.hg,
        &made.commit,
        manifest,
        nodes.as_slice(),
        &h.p1,
    )? {
        return Ok(None);
    }
    Ok(Some(made))
}

// The commit over these parents that the marks of a changeset name, where it is the changeset's unmarking. The node is that of the first parent's partner.
fn unmark_over(
    alloc: Global,
    known: &Known,
    h: &HgDraft,
    marks: ChangesetMarks,
    parents: IdList,
    node: &Id,
    near: &[HgRow],
) -> Result<Option<GitDraft>, NoMemory>
    requires over { (blocks : List Block) × (v : ChangesetView) × (ps : Parents) × IsNamedOver known.now blocks h.now v parents node.now ps }
    requires date { IsDateOf (date_value h.now.changeset.date) (changeset_marks marks) }
    requires near { Each (HasStoredBlob known.now.git) near.now }
    ensures found { IfOk result (λ found. (blocks : List Block) (v : ChangesetView) (ps : Parents) → IsNamedOver known.now blocks h.now v parents node.now ps
        → MatchOption found (¬ (IsNamed blocks parents ps v (changeset_marks marks)))
        (λ d. IsNamed blocks parents ps v (changeset_marks marks)
        × IsBuiltCommit known.now.git d (commit_named blocks parents v (changeset_marks marks))
        × (AreShortBodies v.rows → IsMadeCommit known.now.git d (commit_named blocks parents v (changeset_marks marks))))) }
    ensures known { (blocks : List Block) (b : Block) → AreBlocksHeld known.now blocks → block_of_node blocks node.now ≡ Some b → AreKnown known.now.git }
{
    let old = tree_of_partner(known, node);
    let first = parent_of(&known.hg, node);
    let second = parent_of(&known.hg, &h.p2);
    if !lists_come_back(alloc, &known.hg, h, &first, &second)? {
        return Ok(None);
    }
    let Some(files) = rows_named(alloc, &known.git, &h.rows, old, &marks.tree)? else {
        return Ok(None);
    };
    let Some(head) = head_named(alloc, &h.changeset, marks, parents)? else {
        return Ok(None);
    };
    let made = made_of(alloc, known, h, old, head, files, near)?;
    Ok(Some(made))
}
