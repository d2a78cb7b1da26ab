// One block of a saved history, over the blocks before it.
ghost use Rattle.std.specs.Prelude.{◌≡◌, ◌≤◌, ◌+◌, [], List, Some, slice_get, IfOk};
ghost use Rattle.view_model.specs.View.{ChangesetView, CommitView};
ghost use Rattle.view_model.specs.Held.{IsChangesetHeld};
ghost use Rattle.pair_model.specs.Block as model;
ghost use Rattle.state_model.specs.Kept as saved;
ghost use Rattle.pair_known.specs.Drafts.{IsHgDraft};
ghost use Rattle.state_audit.specs.Before.{IsPartnerHere};
ghost use Rattle.state_audit.specs.Audited.{IsTurn, IsJudged};

use crate::checked::{Checked, part_of};
use crate::files::are_files_right;
use crate::kept::{has_links, is_kept, text_of};
use crate::late::comes_late;
use crate::partner::partner_of;
use crate::seen::seen_before;
use bridge_io::Steps;
use bridge_text::{Id, Kind, NoMemory, object_id};
use hg_manifest::Manifest;
use pair_known::{GitDraft, HgDraft};
use pair_state::{Block, State};
use pull_bundle::is_manifest_late;
use std::sync::ledger::Ledger;

/// What a block is found to be.
#[derive(Clone, Copy, Debug, PartialEq, Eq)]
pub enum Judgement {
    /// It is right.
    Right,
    /// It isn't. This is the id of the right commit: the null id where the changeset has no partner, and where only links or bodies differ.
    Wrong(Id),
}

/// Judges the block at this place of a saved state, which is the next one behind those that were found right; the draft is that of its changeset.
pub fn judge<L: Ledger>(
    state: &State,
    place: usize,
    block: &Block,
    h: &HgDraft,
    checked: &Checked,
    steps: &mut Steps<L>,
) -> Result<Judgement, NoMemory>
    requires block { slice_get state.now.blocks place ≡ Some block.now }
    requires draft { (v : ChangesetView) → IsChangesetHeld state.now.known.hg block.now.node v → IsHgDraft state.now.known.hg h.now v }
    requires nothing_fresh { h.now.fresh ≡ [] }
    requires turn { (m : saved.State) × (front : List model.Block) × (b : model.Block) × (rest : List model.Block) × IsTurn state.now place checked.now m front b rest }
    ensures judged { IfOk result (λ judgement. (m : saved.State) (front : List model.Block) (b : model.Block) (rest : List model.Block) → IsTurn state.now place checked.now m front b rest
        → IsJudged state.now.known.hg state.now.known.git front b judgement) }
    ensures steps { (steps.old ≤ steps.new) × (steps.new ≤ steps.old + 18) }
{
    let known = state.known();
    match partner_of(state.alloc(), known, h, &checked.nodes, steps)? {
        Some(partner) => judge_with(state, place, checked, h, &partner),
        None => Ok(Judgement::Wrong(Id::NULL)),
    }
}

// The same where the changeset has a partner, unless a parent of a file or of the manifest comes too late. The files are walked through once.
fn judge_with(
    state: &State,
    place: usize,
    checked: &Checked,
    h: &HgDraft,
    partner: &GitDraft,
) -> Result<Judgement, NoMemory>
    requires partner { (m : saved.State) × (front : List model.Block) × (b : model.Block) × (rest : List model.Block) × (c : CommitView) × IsTurn state.now place checked.now m front b rest
        × IsHgDraft state.now.known.hg h.now b.changeset × IsPartnerHere state.now.known m.blocks front b.changeset partner.now c }
    requires nothing_fresh { h.now.fresh ≡ [] }
    ensures { IfOk result (λ judgement. (m : saved.State) (front : List model.Block) (b : model.Block) (rest : List model.Block) (c : CommitView) → IsTurn state.now place checked.now m front b rest
        → IsHgDraft state.now.known.hg h.now b.changeset → IsPartnerHere state.now.known m.blocks front b.changeset partner.now c
        → IsJudged state.now.known.hg state.now.known.git front b judgement) }
{
    let known = state.known();
    let empty = Manifest::new(state.alloc());
    let seen = seen_before(&known.hg, checked, &h.p1, &empty);
    let block = state.blocks().at(place);
    let text = text_of(state.alloc(), &partner.commit)?;
    if !is_kept(state.alloc(), known, &block.commit, partner, &text)? {
        if comes_late(&known.hg, &seen, h) {
            return Ok(Judgement::Wrong(Id::NULL));
        }
        return Ok(Judgement::Wrong(object_id(Kind::Commit, &text)));
    }
    let nodes = state.changesets().as_slice();
    let links = part_of(nodes, checked.changesets, usize::from(block.links));
    if !has_links(state.alloc(), known, partner, links)? {
        return Ok(Judgement::Wrong(Id::NULL));
    }
    if is_manifest_late(seen.referred, &h.manifest) {
        return Ok(Judgement::Wrong(Id::NULL));
    }
    if !are_files_right(known, &seen, h.rows.as_slice()) {
        return Ok(Judgement::Wrong(Id::NULL));
    }
    Ok(Judgement::Right)
}
