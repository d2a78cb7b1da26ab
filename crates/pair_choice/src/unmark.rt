// One unmarking of a member.
ghost use Rattle.std.specs.Prelude.{◌≡◌, ◌+◌, List, IfOk};
ghost use Rattle.view_model.specs.View.{ChangesetView, CommitView};
ghost use Rattle.pair_model.specs.Block.{Block};
ghost use Rattle.partner_model.specs.Partner.{Member, OfHg, OfGit};
ghost use Rattle.pair_known.specs.Over.{IsChangesetIn, IsCommitOver};
ghost use Rattle.pair_choice.specs.Depths.{IsDraftOf, IsUnmarking};

use crate::bodies::has_bodies;
use crate::draft::Draft;
use bridge_io::Steps;
use bridge_text::NoMemory;
use changeset_unmark::unmark_changeset;
use commit_unmark::unmark_commit;
use pair_known::{GitDraft, HgDraft, Known};
use std::alloc::Global;
use std::sync::ledger::Ledger;

/// What unmarking a member gives.
#[derive(Drop)]
pub enum Unmarking {
    /// It has no unmarking.
    Nothing,
    /// The draft of its unmarking.
    Found(Draft),
    /// It is a changeset that has an unmarking, and its bodies collide: no draft of a commit has them all.
    Collision,
}

/// Unmarks a member, in one step.
pub fn unmark<L: Ledger>(
    alloc: Global,
    known: &Known,
    member: &Draft,
    steps: &mut Steps<L>,
) -> Result<Unmarking, NoMemory>
    requires over { (blocks : List Block) × (m : Member) × IsDraftOf known.now blocks member.now m }
    ensures found { IfOk result (λ found. (blocks : List Block) (m : Member) → IsDraftOf known.now blocks member.now m → IsUnmarking known.now blocks m found) }
    ensures step { steps.new ≡ steps.old + 1 }
{
    match member {
        Draft::Changeset(h) => commit_below(alloc, known, h, steps),
        Draft::Commit(c) => changeset_below(alloc, known, c, steps),
    }
}

/// Unmarks a changeset, in one step.
pub fn commit_below<L: Ledger>(
    alloc: Global,
    known: &Known,
    h: &HgDraft,
    steps: &mut Steps<L>,
) -> Result<Unmarking, NoMemory>
    requires inside { (blocks : List Block) × (v : ChangesetView) × IsChangesetIn known.now blocks h.now v }
    ensures found { IfOk result (λ found. (blocks : List Block) (v : ChangesetView) → IsChangesetIn known.now blocks h.now v → IsUnmarking known.now blocks (OfHg v) found) }
    ensures step { steps.new ≡ steps.old + 1 }
{
    steps.tick();
    let Some(commit) = unmark_changeset(alloc, known, h, &[])? else {
        return Ok(Unmarking::Nothing);
    };
    if !has_bodies(known, h, &commit) {
        return Ok(Unmarking::Collision);
    }
    Ok(Unmarking::Found(Draft::Commit(commit)))
}

/// Unmarks a commit, in one step.
pub fn changeset_below<L: Ledger>(
    alloc: Global,
    known: &Known,
    c: &GitDraft,
    steps: &mut Steps<L>,
) -> Result<Unmarking, NoMemory>
    requires over { (blocks : List Block) × (v : CommitView) × IsCommitOver known.now blocks c.now v }
    ensures found { IfOk result (λ found. (blocks : List Block) (v : CommitView) → IsCommitOver known.now blocks c.now v → IsUnmarking known.now blocks (OfGit v) found) }
    ensures step { steps.new ≡ steps.old + 1 }
{
    steps.tick();
    match unmark_commit(alloc, known, c, &[])? {
        Some(h) => Ok(Unmarking::Found(Draft::Changeset(h))),
        None => Ok(Unmarking::Nothing),
    }
}
