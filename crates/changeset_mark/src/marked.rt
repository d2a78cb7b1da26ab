ghost use Rattle.std.specs.Prelude.{◌≡◌, ◌≤◌, List, length, Some, Err, IfOk, OnOk};
ghost use Rattle.text_model.specs.Lists.{Each};
ghost use Rattle.hg_model.specs.Changeset.{AreExtras};
ghost use Rattle.hg_model.specs.Revision.{Revision};
ghost use Rattle.view_model.specs.View.{ChangesetView, CommitView, ChangesetFits};
ghost use Rattle.pair_model.specs.Block.{Block};
ghost use Rattle.pair_known.specs.Over.{IsCommitOver};
ghost use Rattle.pair_known.specs.Ruled.{IsMadeChangeset, IsRuledChangeset, HasFileParents, HasManifestParents};
ghost use Rattle.pair_known.specs.declared.fault.PairFault.TheVariants.{PairLimit};
ghost use Rattle.partner_model.specs.Mark as mark;
ghost use Rattle.changeset_mark.specs.Marks.{HasDateOf};

use crate::dated::{set_date, text_of};
use crate::marks::marks_of;
use bridge_text::{Bytes, NoMemory};
use changeset_rule::{changeset_fits, make_changeset};
use hg_changeset::Extras;
use name_rule::{UserDate, user_of_line};
use pair_known::{DraftTexts, GitDraft, HgDraft, Known, PairFault};
use std::alloc::Global;

/// The marked changeset of a commit whose parents have partners: the one that the rule gives, with an extra for each part of the commit that the
/// rule would not give back from it. PairLimit comes exactly where a text of it passes its limit. Of a commit of three and more parents nothing
/// is said of both parents together: the node of a link is a hash, which may be null or that of another parent.
pub fn mark_changeset(alloc: Global, known: &Known, c: &GitDraft) -> Result<HgDraft, PairFault>
    requires over { (blocks : List Block) × (v : CommitView) × IsCommitOver known.now blocks c.now v }
    ensures ok { IfOk result (λ d. (blocks : List Block) (v : CommitView) → IsCommitOver known.now blocks c.now v
        → IsMadeChangeset known.now.hg d (mark.mark_changeset blocks v) × ChangesetFits (mark.mark_changeset blocks v)) }
    ensures known_parents { OnOk result ((blocks : List Block) (v : CommitView) → IsCommitOver known.now blocks c.now v
        → Each (HasFileParents known.now.hg) (mark.mark_changeset blocks v).rows × HasManifestParents known.now.hg (mark.mark_changeset blocks v).manifest) }
    ensures strict { IfOk result (λ d. (blocks : List Block) (v : CommitView) → IsCommitOver known.now blocks c.now v
        → length (v.value).parents ≤ 2 → IsRuledChangeset known.now.hg d (mark.mark_changeset blocks v)) }
    ensures limit { result ≡ Err PairLimit → (blocks : List Block) (v : CommitView) → IsCommitOver known.now blocks c.now v
        → ChangesetFits (mark.mark_changeset blocks v) → ⊥ }
{
    let given = user_of_line(alloc, c.commit.author.as_slice())?;
    let extras = marks_of(alloc, known, c, &given)?.to_extras(alloc)?;
    let plain = make_changeset(alloc, known, c, &[])?;
    let marked = with_extras(alloc, plain, &given, extras)?;
    if !changeset_fits(alloc, &marked)? {
        return Err(PairFault::PairLimit);
    }
    Ok(marked)
}

// The draft with these extras beside its date, which is the given one, and with the text that it then has.
fn with_extras(
    alloc: Global,
    plain: HgDraft,
    given: &UserDate,
    extras: Extras,
) -> Result<HgDraft, NoMemory>
    ensures { IfOk result (λ d. AreExtras extras → (known : List Revision) (h : ChangesetView) → IsMadeChangeset known plain h → HasDateOf given.now h
        → IsMadeChangeset known d (mark.with_extras h given.now extras)) }
{
    if extras.is_empty() {
        return Ok(plain);
    }
    let mut marked = plain;
    set_date(&mut marked.changeset, given, extras);
    let text = text_of(alloc, &marked.changeset)?;
    marked.texts.changeset = Some(text);
    Ok(marked)
}
