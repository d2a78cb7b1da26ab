ghost use Rattle.std.specs.Prelude.{◌≡◌, false, List, Some, Err, IfOk, OnOk};
ghost use Rattle.git_store.specs.Known.{AreKnown};
ghost use Rattle.view_model.specs.View.{ChangesetView, CommitFits, paths_of, has_clash};
ghost use Rattle.pair_model.specs.Block.{Block, block_of_node};
ghost use Rattle.pair_model.specs.Rule as rule;
ghost use Rattle.pair_known.specs.Blocks.{AreBlocksHeld};
ghost use Rattle.pair_known.specs.Over.{IsChangesetOver};
ghost use Rattle.pair_known.specs.Ruled.{IsMadeCommit, IsRuledCommit};
ghost use Rattle.pair_known.specs.declared.fault.PairFault.TheVariants.{PairLimit};
ghost use Rattle.commit_rule.specs.Parts.{AreShortBodies};

use crate::fields::fields_of;
use crate::fits::{bodies_fit, commit_fits};
use crate::fresh::fresh_blobs;
use crate::rows::{files_of, hand_on};
use crate::trees::{tree_of_partner, trees_over};
use bridge_text::NoMemory;
use pair_known::{GitDraft, HgDraft, Known, PairFault};
use std::alloc::Global;

/// The commit that the rule gives for a changeset whose parents have partners, and of whose paths none lies below another, whatever the
/// sizes of its tree and of its text. Each body of the changeset is within the limit of a text, as those of stored changesets are. A first parent's
/// tree is looked up, so Git's store is known then.
pub fn make_commit(alloc: Global, known: &Known, h: &HgDraft) -> Result<GitDraft, NoMemory>
    requires over { (blocks : List Block) × (v : ChangesetView) × IsChangesetOver known.now blocks h.now v × (has_clash (paths_of v.rows) ≡ false) }
    ensures made { IfOk result (λ d. (blocks : List Block) (v : ChangesetView) → IsChangesetOver known.now blocks h.now v → AreShortBodies v.rows
        → IsMadeCommit known.now.git d (rule.rule_commit blocks v)) }
    ensures known { OnOk result ((blocks : List Block) (b : Block) → AreBlocksHeld known.now blocks → block_of_node blocks h.now.p1 ≡ Some b → AreKnown known.now.git) }
{
    let old = tree_of_partner(known, &h.p1);
    let files = hand_on(alloc, &known.git, old, files_of(alloc, &h.rows)?)?;
    let trees = trees_over(alloc, &known.git, old, &files)?;
    let commit = fields_of(
        alloc,
        &known.partners,
        &h.p1,
        &h.p2,
        &h.changeset,
        trees.root,
    )?;
    let fresh = fresh_blobs(alloc, known, h, &[])?;
    Ok(GitDraft {
        commit,
        files,
        fresh,
        trees: trees.made,
    })
}

/// The commit that the rule gives for a changeset whose parents have partners, and of whose paths none lies below another.
/// PairLimit comes exactly where an object of it, or the rows of its tree, pass their limit.
pub fn rule_commit(alloc: Global, known: &Known, h: &HgDraft) -> Result<GitDraft, PairFault>
    requires over { (blocks : List Block) × (v : ChangesetView) × IsChangesetOver known.now blocks h.now v × (has_clash (paths_of v.rows) ≡ false) }
    ensures ok { IfOk result (λ d. (blocks : List Block) (v : ChangesetView) → IsChangesetOver known.now blocks h.now v
        → IsRuledCommit known.now.git d (rule.rule_commit blocks v)) }
    ensures limit { result ≡ Err PairLimit → (blocks : List Block) (v : ChangesetView) → IsChangesetOver known.now blocks h.now v
        → CommitFits (rule.rule_commit blocks v) → ⊥ }
{
    let draft = make_commit(alloc, known, h)?;
    if !bodies_fit(known, h) {
        return Err(PairFault::PairLimit);
    }
    if !commit_fits(alloc, &draft)? {
        return Err(PairFault::PairLimit);
    }
    Ok(draft)
}
