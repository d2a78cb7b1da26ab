// The files of a changeset, beside the blocks before it and the blobs of a store.
ghost use Rattle.std.specs.Prelude.{◌≡◌, ◌↔◌, [], ◌∷◌, List, IsTrue};
ghost use Rattle.text_model.specs.Lists.{Each};
ghost use Rattle.view_model.specs.View.{Row};
ghost use Rattle.pair_model.specs.Block.{Block};
ghost use Rattle.pair_choice.specs.Bodies.{IsBodyHeld};
ghost use Rattle.pair_state.specs.Step.{AreAsked};
ghost use Rattle.pull_bundle.specs.Late.{RefersIn};
ghost use Rattle.state_audit.specs.Audited.{AreCompared, IsFileRight};
ghost use Rattle.state_audit.specs.Seen.{AreSeen, IsLineSeen};

use crate::late::has_late_parent;
use crate::seen::{Seen, is_seen};
use git_object::Objects;
use hg_dump::Refers;
use hg_filelog::split;
use hg_manifest::Cursor;
use pair_known::{HgRow, Known};

/// Whether no parent of a changeset's files comes too late, and the blobs of the files, which are stored under the ids of their bodies, are these bodies.
/// A file revision that was seen in a block before had both asked there.
pub fn are_files_right(known: &Known, seen: &Seen<'_>, rows: &[HgRow]) -> bool
    requires asked { (files : List Row) × AreAsked known.now.hg known.now.git rows.now files }
    ensures { (front : List Block) (files : List Row) → AreSeen known.now.hg seen.now front → AreCompared known.now.git front → AreAsked known.now.hg known.now.git rows.now files
        → (IsTrue result ↔ Each (IsFileRight known.now.git front) files) }
{
    let mut lines = Cursor::new(seen.near);
    for row in rows {
        if !is_file_right(known, seen.referred, row, &mut lines) {
            return false;
        }
    }
    true
}

// The same of one row, where each of the lines that are near was seen.
fn is_file_right(known: &Known, referred: &Refers, row: &HgRow, lines: &mut Cursor<'_>) -> bool
    requires asked { (file : Row) × AreAsked known.now.hg known.now.git (row.now ∷ []) (file ∷ []) }
    ensures right { (front : List Block) (file : Row) → RefersIn known.now.hg referred.now front → Each (IsLineSeen front) lines.old → AreCompared known.now.git front
        → AreAsked known.now.hg known.now.git (row.now ∷ []) (file ∷ []) → (IsTrue result ↔ IsFileRight known.now.git front file) }
    ensures same { lines.new ≡ lines.old }
{
    if is_seen(referred, row, lines) {
        return true;
    }
    !has_late_parent(&known.hg, referred, row) && has_body(known, row)
}

fn has_body(known: &Known, row: &HgRow) -> bool
    requires asked { (file : Row) × AreAsked known.now.hg known.now.git (row.now ∷ []) (file ∷ []) }
    ensures { (file : Row) → AreAsked known.now.hg known.now.git (row.now ∷ []) (file ∷ []) → (IsTrue result ↔ IsBodyHeld known.now.git file) }
{
    let text = known.hg.file_text(row.path.as_slice(), &row.node).unwrap();
    let body = match split(text) {
        Ok((_, body)) => body,
        Err(_) => unreachable!(),
    };
    match known.git.content(&row.blob) {
        Some((_, content)) => content == body,
        None => unreachable!(),
    }
}
