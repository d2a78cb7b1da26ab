// Parents of file revisions and of a manifest that stand in no changeset of the blocks before.
ghost use Rattle.std.specs.Prelude.{◌≡◌, ◌||◌, [], List, map};
ghost use Rattle.text_model.specs.Lists.{Each};
ghost use Rattle.view_model.specs.View.{ChangesetView, Row};
ghost use Rattle.view_model.specs.Held.{IsFileHeld};
ghost use Rattle.pair_model.specs.Block.{Block};
ghost use Rattle.partner_model.specs.Given.{has_late_file, has_late_manifest};
ghost use Rattle.pair_known.specs.Drafts.{IsHgDraft};
ghost use Rattle.pair_known.specs.Rows.{row_value};
ghost use Rattle.pull_bundle.specs.Late.{RefersIn, is_late_row};
ghost use Rattle.state_audit.specs.Audited.{AreInTime};
ghost use Rattle.state_audit.specs.Seen.{AreSeen, IsLineSeen};

use crate::seen::{Seen, is_seen};
use hg_dump::Refers;
use hg_manifest::Cursor;
use hg_store::HgStore;
use pair_known::{HgDraft, HgRow};
use pull_bundle::{is_file_late, is_manifest_late};

/// Whether a parent that a changeset names for a file revision or for its manifest stands in no changeset of the blocks before. The parents of a file
/// revision that was seen in one of them stand there.
pub fn comes_late(hg: &HgStore, seen: &Seen<'_>, h: &HgDraft) -> bool
    requires held { h.now.fresh ≡ [] }
    ensures { (front : List Block) (v : ChangesetView) → AreSeen hg.now seen.now front → AreInTime front → IsHgDraft hg.now h.now v
        → result ≡ (has_late_file front v.rows || has_late_manifest front v.manifest) }
{
    has_late_row(hg, seen, h.rows.as_slice()) || is_manifest_late(seen.referred, &h.manifest)
}

fn has_late_row(hg: &HgStore, seen: &Seen<'_>, rows: &[HgRow]) -> bool
    ensures { (front : List Block) (files : List Row) → AreSeen hg.now seen.now front → AreInTime front → rows.now ≡ map row_value files → Each (IsFileHeld hg.now) files
        → result ≡ has_late_file front files }
{
    let mut lines = Cursor::new(seen.near);
    for row in rows {
        if is_row_late(hg, seen.referred, row, &mut lines) {
            return true;
        }
    }
    false
}

// Whether a parent of the file revision of a row comes too late, where each of the lines that are near was seen.
fn is_row_late(hg: &HgStore, referred: &Refers, row: &HgRow, lines: &mut Cursor<'_>) -> bool
    ensures late { (front : List Block) (file : Row) → RefersIn hg.now referred.now front → Each (IsLineSeen front) lines.old → AreInTime front → row.now ≡ row_value file → IsFileHeld hg.now file
        → result ≡ is_late_row front file }
    ensures same { lines.new ≡ lines.old }
{
    !is_seen(referred, row, lines) && has_late_parent(hg, referred, row)
}

/// Whether a parent of the file revision of a row stands in no changeset of the blocks before.
pub fn has_late_parent(hg: &HgStore, referred: &Refers, row: &HgRow) -> bool
    ensures { (front : List Block) (file : Row) → RefersIn hg.now referred.now front → row.now ≡ row_value file → IsFileHeld hg.now file → result ≡ is_late_row front file }
{
    let path = row.path.as_slice();
    match hg.file_parents(path, &row.node) {
        Some((p, q)) => is_file_late(referred, path, &p) || is_file_late(referred, path, &q),
        None => false,
    }
}
