ghost use Rattle.std.specs.Prelude.{◌≡◌, List, IfOk};
ghost use Rattle.view_model.specs.View.{ChangesetView};
ghost use Rattle.pair_model.specs.Block.{Block};
ghost use Rattle.pair_known.specs.Over.{IsChangesetOver};
ghost use Rattle.partner_model.specs.Mark.{commit_marks, parents_of_changeset};

use crate::fields::{files_mark, given_of, manifest_mark, put_date, user_mark};
use crate::over::Over;
use crate::put::{put, put_entries};
use bridge_text::NoMemory;
use file_rule::parent_of;
use mark_code::CommitMarks;
use pair_known::{HgDraft, Known};
use std::alloc::Global;

/// The marks of a changeset whose parents have partners: one for each part that the rule back would lose, in the order of entries, manifest,
/// files, user, date or raw line, extras. Nothing is hashed, and no body is copied.
pub fn marks_of(alloc: Global, known: &Known, h: &HgDraft) -> Result<CommitMarks, NoMemory>
    requires over { (blocks : List Block) × (v : ChangesetView) × IsChangesetOver known.now blocks h.now v }
    ensures { IfOk result (λ marks. (blocks : List Block) (v : ChangesetView) → IsChangesetOver known.now blocks h.now v
        → marks ≡ commit_marks (parents_of_changeset blocks v) v) }
{
    let first = parent_of(&known.hg, &h.p1);
    let second = parent_of(&known.hg, &h.p2);
    let over = Over {
        store: &known.hg,
        fresh: &h.fresh,
        first,
        second,
    };
    let mut marks = CommitMarks::new(alloc);
    put_entries(alloc, &mut marks, &over, h)?;
    let manifest = manifest_mark(&over, h);
    put(&mut marks, manifest)?;
    let files = files_mark(alloc, &over, h)?;
    put(&mut marks, files)?;
    let given = given_of(alloc, h)?;
    let user = user_mark(alloc, &h.changeset.user, &given)?;
    put(&mut marks, user)?;
    put_date(alloc, &mut marks, &h.changeset.date, &given)?;
    Ok(marks)
}
