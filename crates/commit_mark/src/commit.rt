ghost use Rattle.std.specs.Prelude.{◌≡◌, false, List, Err, IfOk};
ghost use Rattle.view_model.specs.View.{ChangesetView, CommitFits, paths_of, has_clash};
ghost use Rattle.pair_model.specs.Block.{Block};
ghost use Rattle.pair_model.specs.MarkList.{marks_text};
ghost use Rattle.pair_known.specs.Over.{IsChangesetOver};
ghost use Rattle.pair_known.specs.Ruled.{IsRuledCommit};
ghost use Rattle.pair_known.specs.declared.fault.PairFault.TheVariants.{PairLimit};
ghost use Rattle.partner_model.specs.Mark as mark;

use crate::marks::marks_of;
use bridge_text::{Bytes, NoMemory};
use commit_rule::{bodies_fit, commit_fits, make_commit};
use mark_code::CommitMarks;
use pair_known::{GitDraft, HgDraft, Known, PairFault};
use std::alloc::Global;

/// The marked commit of a changeset whose parents have partners, and of whose paths none lies below another: the one that the rule gives, with
/// the changeset's marks as its headers. PairLimit comes exactly where an object of it, or the rows of its tree, pass their limit.
pub fn mark_commit(alloc: Global, known: &Known, h: &HgDraft) -> Result<GitDraft, PairFault>
    requires over { (blocks : List Block) × (v : ChangesetView) × IsChangesetOver known.now blocks h.now v × (has_clash (paths_of v.rows) ≡ false) }
    ensures ok { IfOk result (λ d. (blocks : List Block) (v : ChangesetView) → IsChangesetOver known.now blocks h.now v
        → IsRuledCommit known.now.git d (mark.mark_commit blocks v)) }
    ensures limit { result ≡ Err PairLimit → (blocks : List Block) (v : ChangesetView) → IsChangesetOver known.now blocks h.now v
        → CommitFits (mark.mark_commit blocks v) → ⊥ }
{
    let plain = make_commit(alloc, known, h)?;
    if !bodies_fit(known, h) {
        return Err(PairFault::PairLimit);
    }
    let marks = marks_of(alloc, known, h)?;
    let marked = with_headers(plain, headers_of(alloc, &marks)?);
    if !commit_fits(alloc, &marked)? {
        return Err(PairFault::PairLimit);
    }
    Ok(marked)
}

// The draft with these headers in its commit.
fn with_headers(mut draft: GitDraft, headers: Bytes) -> GitDraft
    ensures commit { result.commit ≡ record (draft.commit) { headers = headers } }
    ensures files { result.files ≡ draft.files }
    ensures fresh { result.fresh ≡ draft.fresh }
    ensures trees { result.trees ≡ draft.trees }
{
    draft.commit.headers = headers;
    draft
}

// The lines of marks, as headers.
fn headers_of(alloc: Global, marks: &CommitMarks) -> Result<Bytes, NoMemory>
    ensures { IfOk result (λ headers. headers ≡ marks_text marks.now) }
{
    let mut out = Vec::new(alloc);
    marks.write_into(&mut out)?;
    Ok(Bytes::keep(out))
}
