// The partner of a changeset over the blocks before it, where all blocks are known.
ghost use Rattle.std.specs.Prelude.{◌≡◌, ◌≢◌, ◌≤◌, ◌+◌, false, List, IfOk, OnOk, MatchOption};
ghost use Rattle.view_model.specs.View.{ChangesetView, CommitView};
ghost use Rattle.pair_model.specs.Block.{Block};
ghost use Rattle.pair_model.specs.Octopus.{is_link_view};
ghost use Rattle.pair_known.specs.Over.{IsChangesetIn};
ghost use Rattle.pair_known.specs.declared.choice_fault.ChoiceFault.TheVariants.{Memory};
ghost use Rattle.state_audit.specs.Before.{IsBefore, HasNone, IsPartnerHere, is_there, are_there};

use bridge_io::Steps;
use bridge_text::{Id, IdSet, NoMemory};
use pair_choice::pair_of_changeset;
use pair_known::{ChoiceFault, GitDraft, HgDraft, Known, Partners};
use std::alloc::Global;
use std::sync::ledger::Ledger;

/// The partner of a changeset over the blocks before it, whose nodes these are; `None` exactly where it has none, whatever parents of its files and its
/// manifest it has. The partners of all blocks are known, also those of later ones: so it is asked whether the partner has a parent among these.
pub fn partner_of<L: Ledger>(
    alloc: Global,
    known: &Known,
    h: &HgDraft,
    before: &IdSet,
    steps: &mut Steps<L>,
) -> Result<Option<GitDraft>, NoMemory>
    requires asked { (blocks : List Block) × (v : ChangesetView) × IsChangesetIn known.now blocks h.now v × (is_link_view v ≡ false) }
    ensures partner { IfOk result (λ found. (blocks front : List Block) (v : ChangesetView) → IsChangesetIn known.now blocks h.now v → IsBefore known.now blocks front before.now
        → MatchOption found (HasNone known.now front v) (λ d. (c : CommitView) × IsPartnerHere known.now blocks front v d c)) }
    ensures steps { (steps.old ≤ steps.new) × (steps.new ≤ steps.old + 18) }
{
    let partner = match pair_of_changeset(alloc, known, h, steps, &[]) {
        Ok(partner) => partner,
        Err(fault) => {
            check_memory(fault)?;
            return Ok(None);
        }
    };
    if !are_there(&known.partners, before, partner.commit.parents.as_slice()) {
        return Ok(None);
    }
    Ok(Some(partner))
}

// Passes where memory is not what was wanted.
fn check_memory(fault: ChoiceFault) -> Result<(), NoMemory>
    ensures { OnOk result (fault ≢ Memory) }
{
    match fault {
        ChoiceFault::PathClash => Ok(()),
        ChoiceFault::ParentIsLink => Ok(()),
        ChoiceFault::Collision => Ok(()),
        ChoiceFault::NestLimit => Ok(()),
        ChoiceFault::PairLimit => Ok(()),
        ChoiceFault::Memory => Err(NoMemory),
    }
}

// Whether the changesets of these commits are among the nodes.
fn are_there(partners: &Partners, before: &IdSet, ids: &[Id]) -> bool
    ensures { result ≡ are_there partners.now before.now ids.now }
{
    ids.iter().all(
        |id: &Id| -> bool
            ensures { result ≡ is_there partners.entry.now before.entry.now id.now }
        { is_there(partners, before, id) },
    )
}

// Whether the changeset of a commit is among the nodes.
fn is_there(partners: &Partners, before: &IdSet, id: &Id) -> bool
    ensures { result ≡ is_there partners.now before.now id.now }
{
    match partners.hg_of(id) {
        Some(node) => before.contains(&node),
        None => false,
    }
}
