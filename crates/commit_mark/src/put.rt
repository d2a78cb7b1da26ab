// Marks one after the other. What is put is always the front of a mark list.
ghost use Rattle.std.specs.Prelude.{◌≡◌, ◌++◌, map, IfOk, OnOk};
ghost use Rattle.std.specs.List.{flat_map};
ghost use Rattle.view_model.specs.View.{ChangesetView};
ghost use Rattle.pair_model.specs.Block.{Parents};
ghost use Rattle.pair_model.specs.MarkList.{OneExtra};
ghost use Rattle.mark_code.specs.Values.{mark_value};
ghost use Rattle.partner_model.specs.Mark.{entry_marks};
ghost use Rattle.commit_mark.specs.Over.{IsOver};
ghost use Rattle.commit_mark.specs.Parts.{marks_in, BeginList};

use crate::entry::entry_mark;
use crate::over::Over;
use bridge_text::{Bytes, NoMemory};
use hg_changeset::{ExtraItem, Extras};
use mark_code::{CommitMarks, Mark};
use pair_known::{Cursor, HgDraft};
use std::alloc::Global;

/// Puts a mark at the end, where there is one.
pub fn put(marks: &mut CommitMarks, mark: Option<Mark>) -> Result<(), NoMemory>
    requires { BeginList (marks.old ++ marks_in mark) }
    ensures { OnOk result (marks.new ≡ marks.old ++ marks_in mark) }
{
    match mark {
        Some(mark) => marks.push(mark),
        None => Ok(()),
    }
}

/// Puts the marks of a changeset's files at the end: one for each file for which the rule gives another revision. Both parents' manifests are
/// walked through beside the files.
pub fn put_entries(
    alloc: Global,
    marks: &mut CommitMarks,
    over: &Over<'_>,
    h: &HgDraft,
) -> Result<(), NoMemory>
    requires over { (ps : Parents) × (v : ChangesetView) × IsOver over.now h.now ps v × BeginList (marks.old ++ flat_map (entry_marks ps) v.rows) }
    ensures { OnOk result ((ps : Parents) (v : ChangesetView) → IsOver over.now h.now ps v → marks.new ≡ marks.old ++ flat_map (entry_marks ps) v.rows) }
{
    let mut first_walk = Cursor::new(over.first.manifest);
    let mut second_walk = Cursor::new(over.second.manifest);
    let rows = h.rows.as_slice();
    for row in rows {
        let in_first = first_walk.get(row.path.as_slice());
        let in_second = second_walk.get(row.path.as_slice());
        let mark = entry_mark(alloc, over, row, in_first, in_second)?;
        put(marks, mark)?;
    }
    Ok(())
}

/// Puts a mark for each item of the extras at the end.
pub fn put_extras(alloc: Global, marks: &mut CommitMarks, extras: &Extras) -> Result<(), NoMemory>
    requires { BeginList (marks.old ++ map OneExtra extras.now) }
    ensures { OnOk result (marks.new ≡ marks.old ++ map OneExtra extras.now) }
{
    for place in 0..extras.len() {
        let mark = extra_mark(alloc, extras.at(place))?;
        put(marks, Some(mark))?;
    }
    Ok(())
}

// The mark of an item of the extras.
fn extra_mark(alloc: Global, item: &ExtraItem) -> Result<Mark, NoMemory>
    ensures { IfOk result (λ mark. mark_value mark ≡ OneExtra item.now) }
{
    Ok(Mark::Extra {
        key: Bytes::of(alloc, item.key.as_slice())?,
        value: Bytes::of(alloc, item.value.as_slice())?,
    })
}
