// A changeset that came gets its block.
ghost use Rattle.std.specs.Prelude.{◌≡◌, ◌≤◌, ◌+◌, ◌*◌, [], ◌∷◌, ◌++◌, List, length, map, IfOk, IfErr, OnOk, IfSome, IsTrue};
ghost use Rattle.text_model.specs.Fault.{Collision};
ghost use Rattle.hg_model.specs.Revision.{Revision, Changesets};
ghost use Rattle.view_model.specs.View.{ChangesetView, CommitView, changeset_node};
ghost use Rattle.view_model.specs.Held.{IsChangesetHeld, AreChangesetsHeld};
ghost use Rattle.view_model.specs.Dump.{revisions_in};
ghost use Rattle.pair_model.specs.Block.{Block};
ghost use Rattle.pair_model.specs.Octopus.{links_of};
ghost use Rattle.partner_model.specs.Clash.{commit_side_collides};
ghost use Rattle.partner_model.specs.Given.{block_with};
ghost use Rattle.hg_dump.specs.Refers.{RefersTo, HasFilesOf};
ghost use Rattle.pair_choice.specs.Chosen.{IsChosenCommit};
ghost use Rattle.pull_outcome.specs.Takes.{IsTakeFault};
ghost use Rattle.pull_bundle.specs.Faults.{IsOfChangeset};
ghost use Rattle.pull_bundle.specs.Puts.{IsPairFor, IsPut};
ghost use Rattle.pull_bundle.specs.Takes.{Comes, IsNew, GetsBlock, Takes, IsRefusedNew};

use crate::draft::draft_of;
use crate::late::{check_parents, near_of};
use crate::link::is_known_link;
use crate::taking::Taking;
use bridge_io::Steps;
use bridge_text::{Id, IdList, NoMemory};
use hg_dump::Refers;
use hg_store::HgStore;
use link_rule::link_nodes;
use pair_choice::pair_of_changeset;
use pair_known::{GitDraft, HgDraft, Known};
use pull_outcome::TakeFault;
use std::alloc::Global;
use std::sync::ledger::Ledger;

// A changeset that is held, its partner, and the nodes of the partner's links.
#[derive(Drop)]
struct Pair {
    draft: HgDraft,
    commit: GitDraft,
    links: IdList,
}

/// Gives a changeset its block, unless it is a link or stands in a block. It is refused exactly where the model refuses it.
pub fn take_changeset<L: Ledger>(
    alloc: Global,
    taking: Taking,
    node: &Id,
    steps: &mut Steps<L>,
) -> Result<Taking, TakeFault>
    requires comes { (blocks : List Block) × (before : List Revision) × (r : Revision) × (r.node ≡ node.now) × (r.group ≡ Changesets) × Comes taking blocks before r }
    ensures ok { IfOk result (λ next. (blocks : List Block) (before : List Revision) (r : Revision) → r.node ≡ node.now → r.group ≡ Changesets → Comes taking blocks before r
        → Takes taking next blocks (r ∷ [])) }
    ensures refused { IfErr result (IsTakeFault (λ name. (blocks : List Block) (before : List Revision) (r : Revision) → r.node ≡ node.now → r.group ≡ Changesets → Comes taking blocks before r
        → IsRefusedNew taking blocks r name)) }
    ensures names { IfErr result IsOfChangeset }
    ensures least { steps.old ≤ steps.new }
    ensures steps { IfOk result (λ next. (blocks : List Block) (before : List Revision) (r : Revision) → r.node ≡ node.now → r.group ≡ Changesets → Comes taking blocks before r
        → steps.new + 18 * length (taking.state).blocks ≤ steps.old + 18 * length (next.state).blocks) }
    ensures few { IfErr result (λ fault. steps.new ≤ steps.old + 18) }
{
    if is_known_link(&taking.state.known.hg, node) {
        return Ok(taking);
    }
    if taking.state.known.partners.git_of(node).is_some() {
        return Ok(taking);
    }
    take_new(alloc, taking, node, steps)
}

// Gives a changeset its block that is no link and stands in none.
fn take_new<L: Ledger>(
    alloc: Global,
    taking: Taking,
    node: &Id,
    steps: &mut Steps<L>,
) -> Result<Taking, TakeFault>
    requires new { (blocks : List Block) × (r : Revision) × (r.node ≡ node.now) × IsNew taking blocks r }
    ensures ok { IfOk result (λ next. (blocks : List Block) (r : Revision) → r.node ≡ node.now → IsNew taking blocks r → GetsBlock taking next blocks r) }
    ensures refused { IfErr result (IsTakeFault (λ name. (blocks : List Block) (r : Revision) → r.node ≡ node.now → IsNew taking blocks r
        → IsRefusedNew taking blocks r name)) }
    ensures names { IfErr result IsOfChangeset }
    ensures steps { (steps.old ≤ steps.new) × (steps.new ≤ steps.old + 18) }
{
    let pair = pair_for(alloc, &taking, node, steps)?;
    put_pair(taking, node, pair)
}

// A changeset that is new with its partner, or why it gets no block. Whether an object collides isn't asked yet.
fn pair_for<L: Ledger>(
    alloc: Global,
    taking: &Taking,
    node: &Id,
    steps: &mut Steps<L>,
) -> Result<Pair, TakeFault>
    requires new { (blocks : List Block) × (r : Revision) × (r.node ≡ node.now) × IsNew taking.now blocks r }
    ensures ok { IfOk result (λ pair. (blocks : List Block) (r : Revision) → r.node ≡ node.now → IsNew taking.now blocks r
        → (v : ChangesetView) × (c : CommitView) × IsPairFor taking.now node.now pair blocks v c) }
    ensures refused { IfErr result (IsTakeFault (λ name. (blocks : List Block) (r : Revision) → r.node ≡ node.now → IsNew taking.now blocks r
        → IsRefusedNew taking.now blocks r name)) }
    ensures names { IfErr result IsOfChangeset }
    ensures steps { (steps.old ≤ steps.new) × (steps.new ≤ steps.old + 18) }
{
    let known = &taking.state.known;
    let near = taking.near.as_slice();
    let draft = draft_of(alloc, known, node, near)?;
    let commit = pair_of_changeset(alloc, known, &draft, steps, near)?;
    check_parents(taking, node, &draft)?;
    let links = links_for(alloc, known, &commit)?;
    Ok(Pair {
        draft,
        commit,
        links,
    })
}

// Puts the block of a changeset and its partner behind the others. Collision comes exactly where an object of the commit is known with another
// content or is another part of it, or where the commit or a link stands in a block.
fn put_pair(taking: Taking, node: &Id, pair: Pair) -> Result<Taking, TakeFault>
    requires pair { (blocks : List Block) × (v : ChangesetView) × (c : CommitView) × IsPairFor taking node.now pair blocks v c }
    ensures ok { IfOk result (λ next. (blocks : List Block) (v : ChangesetView) (c : CommitView) → IsPairFor taking node.now pair blocks v c
        → IsPut taking next blocks (block_with blocks v c)) }
    ensures refused { IfErr result (IsTakeFault (λ name. (blocks : List Block) (v : ChangesetView) (c : CommitView) → IsPairFor taking node.now pair blocks v c
        → (name ≡ Collision) × IsTrue (commit_side_collides (taking.state).known.git blocks (block_with blocks v c)))) }
    ensures names { IfErr result IsOfChangeset }
{
    let Pair {
        draft,
        commit,
        links,
    } = pair;
    let near = near_of(&taking.state.known, &draft);
    let state = taking.state.push_commit(*node, &draft, &links, commit)?;
    let mut referred = taking.referred;
    refer(&state.known.hg, &mut referred, links, *node, near)?;
    Ok(Taking {
        state,
        referred,
        near: draft.into_rows(),
    })
}

// Adds the revisions to which the last block refers, whose links and changeset have these nodes.
fn refer(
    hg: &HgStore,
    referred: &mut Refers,
    links: IdList,
    node: Id,
    near: Option<&Id>,
) -> Result<(), NoMemory>
    requires held { (hs : List ChangesetView) × AreChangesetsHeld hg.now (links ++ node ∷ []) hs }
    requires near { IfSome near (λ other. (v : ChangesetView) × IsChangesetHeld hg.now other.now v × ((rs : List Revision) → RefersTo referred.old rs → HasFilesOf rs v)) }
    ensures { OnOk result ((hs : List ChangesetView) (rs : List Revision) → AreChangesetsHeld hg.now (links ++ node ∷ []) hs → RefersTo referred.old rs
        → RefersTo referred.new (rs ++ revisions_in hs)) }
{
    let mut nodes = links;
    nodes.push(node)?;
    referred.add(hg, nodes.as_slice(), near)
}

// The nodes of the links of a commit; none of a commit of two parents at most.
fn links_for(alloc: Global, known: &Known, commit: &GitDraft) -> Result<IdList, NoMemory>
    requires chosen { (blocks : List Block) × (v : ChangesetView) × (c : CommitView) × IsChosenCommit known.now blocks v commit.now c }
    ensures { IfOk result (λ links. (blocks : List Block) (v : ChangesetView) (c : CommitView) → IsChosenCommit known.now blocks v commit.now c → links ≡ map changeset_node (links_of blocks c)) }
{
    if commit.commit.parents.len() <= 2 {
        return Ok(IdList::new(alloc));
    }
    link_nodes(alloc, known, commit)
}
