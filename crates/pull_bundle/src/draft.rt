// The draft of a changeset that is known, or what it lacks.
ghost use Rattle.std.specs.Prelude.{◌≡◌, [], Some, OnOk, IfOk, IfErr};
ghost use Rattle.text_model.specs.Lists.{Each};
ghost use Rattle.text_model.specs.Fault.{FaultName};
ghost use Rattle.hg_model.specs.Revision.{Revision, Changesets, revision_of};
ghost use Rattle.view_model.specs.View.{ChangesetView};
ghost use Rattle.view_model.specs.Held.{IsChangesetHeld};
ghost use Rattle.pair_known.specs.Drafts.{HasView, IsHgDraft, IsRowKnown};
ghost use Rattle.pull_outcome.specs.Takes.{IsTakeFault};
ghost use Rattle.pull_bundle.specs.Faults.{IsOfChangeset, ViewLacks};

use bridge_text::Id;
use hg_store::ViewFault;
use pair_known::{DraftFault, HgDraft, HgRow, Known, read_changeset_draft};
use pull_outcome::{Fault, TakeFault};
use std::alloc::Global;

/// The draft of a changeset that is known, beside rows of the store. ManifestUnknown comes exactly where its manifest is unknown, and FileUnknown where
/// a line of this names a file revision that is unknown.
pub fn draft_of(
    alloc: Global,
    known: &Known,
    node: &Id,
    near: &[HgRow],
) -> Result<HgDraft, TakeFault>
    requires near { Each (IsRowKnown known.now.hg) near.now }
    requires known { (r : Revision) × (revision_of known.now.hg Changesets node.now ≡ Some r) }
    ensures view { OnOk result (HasView known.now.hg node.now) }
    ensures draft { IfOk result (λ d. (h : ChangesetView) → IsChangesetHeld known.now.hg node.now h → IsHgDraft known.now.hg d h) }
    ensures nothing_fresh { IfOk result (λ d. d.fresh ≡ []) }
    ensures rows { IfOk result (λ d. Each (IsRowKnown known.now.hg) d.rows) }
    ensures refused { IfErr result (IsTakeFault (λ name. (r : Revision) → revision_of known.now.hg Changesets node.now ≡ Some r → ViewLacks known.now.hg r name)) }
    ensures names { IfErr result IsOfChangeset }
{
    match read_changeset_draft(alloc, known, node, near) {
        Ok(draft) => Ok(draft),
        Err(DraftFault::Unknown(ViewFault::ManifestUnknown)) => {
            Err(TakeFault::Refused(Fault::ManifestUnknown))
        }
        Err(DraftFault::Unknown(ViewFault::FileUnknown(_))) => {
            Err(TakeFault::Refused(Fault::FileUnknown))
        }
        Err(DraftFault::Unknown(ViewFault::ChangesetUnknown)) => unreachable!(),
        Err(DraftFault::Memory) => Err(TakeFault::Memory),
    }
}
