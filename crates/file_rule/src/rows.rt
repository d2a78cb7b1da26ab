ghost use Rattle.std.specs.Prelude.{◌≡◌, ◌++◌, false, List, [], ◌∷◌, map, OnOk, IfOk};
ghost use Rattle.text_model.specs.Lists.{Each};
ghost use Rattle.hg_store.specs.Known.{knows_same};
ghost use Rattle.view_model.specs.View.{TreeRow};
ghost use Rattle.view_model.specs.Held.{IsRowHeld, file_row_of};
ghost use Rattle.pair_model.specs.Block.{Parents};
ghost use Rattle.pair_known.specs.Fresh.{AreFreshFiles};
ghost use Rattle.pair_known.specs.Drafts.{IsRowKnown};
ghost use Rattle.file_rule.specs.Made.{fresh_list};
ghost use Rattle.file_rule.specs.Rows.{AreRows, AreMadeRows};

use crate::near::make_near_row;
use crate::parents::Parent;
use crate::revision::RuledRow;
use bridge_text::NoMemory;
use pair_known::{Cursor, FreshFiles, GitDraft, HgRow, HgRows, Known, NearRows};
use std::alloc::Global;

/// The files of the changeset that the rule gives, and the file revisions that the store doesn't hold.
#[derive(Drop)]
pub struct RuledRows {
    pub rows: HgRows,
    pub fresh: FreshFiles,
}

impl RuledRows {
    /// No files, with room for so many.
    pub fn with_capacity(alloc: Global, capacity: usize) -> Result<RuledRows, NoMemory>
        ensures rows { IfOk result (λ ruled. ruled.rows ≡ []) }
        ensures fresh { IfOk result (λ ruled. ruled.fresh ≡ []) }
    {
        Ok(RuledRows {
            rows: HgRows::with_capacity(alloc, capacity)?,
            fresh: FreshFiles::new(alloc),
        })
    }

    /// Puts a row at the end, whose path stands above those of the others.
    pub fn push(&mut self, made: RuledRow) -> Result<(), NoMemory>
        requires { AreFreshFiles (self.old.fresh ++ fresh_list made.fresh) }
        ensures rows { OnOk result (self.new.rows ≡ self.old.rows ++ made.row ∷ []) }
        ensures fresh { OnOk result (self.new.fresh ≡ self.old.fresh ++ fresh_list made.fresh) }
        ensures rises { OnOk result (AreFreshFiles self.new.fresh) }
    {
        self.rows.push(made.row)?;
        match made.fresh {
            Some(fresh) => self.fresh.push(fresh),
            None => Ok(()),
        }
    }
}

/// The files that the rule gives for those of a commit, whatever the length of their texts. Rows that are no files are passed over. Nothing is
/// looked up for a file whose first parent's revision stands among the near rows with the file's blob, as most of a commit's files do among the
/// rows of a parent.
pub fn make_rows(
    alloc: Global,
    known: &Known,
    c: &GitDraft,
    first: &Parent<'_>,
    second: &Parent<'_>,
    near: &[HgRow],
) -> Result<RuledRows, NoMemory>
    requires contents { (ts : List TreeRow) × (c.now.files ≡ map file_row_of ts) × Each (IsRowHeld (c.now.fresh ++ known.now.git)) ts }
    requires near { Each (IsRowKnown known.now.hg) near.now }
    ensures ok { IfOk result (λ made. (ps : Parents) (ts : List TreeRow) → AreRows known.now.hg (c.now.fresh ++ known.now.git) c.now.files first.now second.now ps ts → AreMadeRows known.now.hg made ps ts) }
    ensures new { IfOk result (λ made. Each (λ r. knows_same known.now.hg r ≡ false) made.fresh) }
{
    let files = c.files.as_slice();
    let mut ruled = RuledRows::with_capacity(alloc, files.len())?;
    let mut first_walk = Cursor::new(first.manifest);
    let mut second_walk = Cursor::new(second.manifest);
    let mut near_walk = NearRows::new(near);
    for file in files {
        if !file.mode().is_blob() {
            continue;
        }
        let in_first = first_walk.get(file.path());
        let in_second = second_walk.get(file.path());
        let made = make_near_row(alloc, known, c, file, in_first, in_second, &mut near_walk)?;
        ruled.push(made)?;
    }
    Ok(ruled)
}
