// How deep a member is that isn't plain and has an unmarking.
ghost use Rattle.std.specs.Prelude.{◌≡◌, ◌≤◌, ◌+◌, List, IfOk};
ghost use Rattle.view_model.specs.View.{ChangesetView, CommitView};
ghost use Rattle.pair_model.specs.Block.{Block};
ghost use Rattle.partner_model.specs.Partner.{Member, OfHg, OfGit, IsHeldView, IsPlain, UnmarksChangeset};
ghost use Rattle.partner_model.specs.Clash.{IsColliding};
ghost use Rattle.partner_model.specs.Given.{Peels};
ghost use Rattle.pair_known.specs.Blocks.{IsHistoryHeld};
ghost use Rattle.pair_known.specs.Over.{IsCommitOver};
ghost use Rattle.pair_choice.specs.Depths.{IsClear, IsDraftOf, IsUnmarking, IsDepth, depth_of_count};
ghost use Rattle.pair_choice.specs.Parts.{IsUnmarkedChangeset};

use crate::draft::Draft;
use crate::unmark::{Unmarking, changeset_below, commit_below, unmark};
use bridge_io::Steps;
use bridge_text::{DEPTH_LIMIT, NoMemory};
use pair_known::{GitDraft, HgDraft, Known};
use std::alloc::Global;
use std::sync::ledger::Ledger;

/// How deep a member is.
#[derive(Clone, Copy)]
pub enum Depth {
    /// An even depth below the limit.
    Even,
    /// An odd depth below the limit.
    Odd,
    /// The limit or more.
    TooDeep,
    /// A changeset on the way down, which isn't plain and has an unmarking, has bodies that collide.
    Collides,
}

/// How deep a changeset is that isn't plain and has this unmarking, whose draft stands for it.
pub fn depth_of_changeset<L: Ledger>(
    alloc: Global,
    known: &Known,
    first: &GitDraft,
    steps: &mut Steps<L>,
) -> Result<Depth, NoMemory>
    requires unmarks { (blocks : List Block) × (v : ChangesetView) × (c : CommitView) × UnmarksChangeset blocks (IsHeldView known.now.hg) v c × IsCommitOver known.now blocks first.now c × (¬ (IsPlain blocks (OfHg v))) × (¬ (IsColliding blocks (IsHeldView known.now.hg) known.now.git (OfHg v))) }
    ensures depth { IfOk result (λ depth. (blocks : List Block) (v : ChangesetView) (c : CommitView) → UnmarksChangeset blocks (IsHeldView known.now.hg) v c → IsCommitOver known.now blocks first.now c
        → (¬ (IsPlain blocks (OfHg v))) → (¬ (IsColliding blocks (IsHeldView known.now.hg) known.now.git (OfHg v))) → IsDepth known.now blocks (OfHg v) depth) }
    ensures steps { (steps.old ≤ steps.new) × (steps.new ≤ steps.old + 15) }
{
    let found = changeset_below(alloc, known, first, steps)?;
    depth_above(alloc, known, found, steps)
}

/// How deep a commit is that isn't plain and has this unmarking.
pub fn depth_of_commit<L: Ledger>(
    alloc: Global,
    known: &Known,
    c: &GitDraft,
    first: &HgDraft,
    steps: &mut Steps<L>,
) -> Result<Depth, NoMemory>
    requires unmarks { (blocks : List Block) × (v : CommitView) × (h : ChangesetView) × IsUnmarkedChangeset known.now blocks c.now first.now v h × (¬ (IsPlain blocks (OfGit v))) }
    ensures depth { IfOk result (λ depth. (blocks : List Block) (v : CommitView) (h : ChangesetView) → IsUnmarkedChangeset known.now blocks c.now first.now v h
        → (¬ (IsPlain blocks (OfGit v))) → IsDepth known.now blocks (OfGit v) depth) }
    ensures steps { (steps.old ≤ steps.new) × (steps.new ≤ steps.old + 15) }
{
    let found = commit_below(alloc, known, first, steps)?;
    depth_above(alloc, known, found, steps)
}

// How deep a member is below which stands one that isn't plain, and that gives this when it is unmarked.
fn depth_above<L: Ledger>(
    alloc: Global,
    known: &Known,
    found: Unmarking,
    steps: &mut Steps<L>,
) -> Result<Depth, NoMemory>
    requires found { (blocks : List Block) × (m : Member) × (¬ (IsPlain blocks m)) × IsUnmarking known.now blocks m found }
    ensures depth { IfOk result (λ depth. (blocks : List Block) → IsHistoryHeld known.now blocks → (top m : Member) → IsClear known.now blocks 1 top → Peels blocks (IsHeldView known.now.hg) 1 top m → (¬ (IsPlain blocks m))
        → IsUnmarking known.now blocks m found → IsDepth known.now blocks top depth) }
    ensures steps { (steps.old ≤ steps.new) × (steps.new ≤ steps.old + 14) }
{
    match found {
        Unmarking::Nothing => Ok(Depth::Odd),
        Unmarking::Collision => Ok(Depth::Collides),
        Unmarking::Found(second) => depth_over(alloc, known, second, steps),
    }
}

// How deep a member is below which this one stands as the second, which isn't plain. Each turn unmarks the last one once more.
fn depth_over<L: Ledger>(
    alloc: Global,
    known: &Known,
    second: Draft,
    steps: &mut Steps<L>,
) -> Result<Depth, NoMemory>
    requires over { (blocks : List Block) × (m : Member) × IsDraftOf known.now blocks second m }
    ensures depth { IfOk result (λ depth. (blocks : List Block) (top m : Member) → IsClear known.now blocks 2 top → Peels blocks (IsHeldView known.now.hg) 2 top m → (¬ (IsPlain blocks m))
        → IsDraftOf known.now blocks second m → IsDepth known.now blocks top depth) }
    ensures steps { (steps.old ≤ steps.new) × (steps.new ≤ steps.old + 14) }
{
    let mut last = second;
    for count in 2..DEPTH_LIMIT {
        match unmark(alloc, known, &last, steps)? {
            Unmarking::Found(next) => last = next,
            Unmarking::Collision => return Ok(Depth::Collides),
            Unmarking::Nothing => return Ok(depth_of_count(count)),
        }
    }
    Ok(Depth::TooDeep)
}

// The depth of a member below which so many unmarkings stand.
fn depth_of_count(count: u8) -> Depth
    ensures { result ≡ depth_of_count count }
{
    if count % 2 == 0 {
        Depth::Even
    } else {
        Depth::Odd
    }
}
