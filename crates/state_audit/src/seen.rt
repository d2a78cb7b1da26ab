// File revisions that a changeset names and to which an earlier block refers.
ghost use Rattle.std.specs.Prelude.{◌≡◌, [], List};
ghost use Rattle.text_model.specs.Lists.{Each};
ghost use Rattle.hg_model.specs.Revision.{Revision};
ghost use Rattle.pair_model.specs.Block.{Block};
ghost use Rattle.pull_bundle.specs.Late.{RefersIn};
ghost use Rattle.state_audit.specs.Audited.{IsWalked};
ghost use Rattle.state_audit.specs.Seen.{AreSeen, IsLineSeen, is_seen_at};

use crate::checked::{Checked, near_of};
use bridge_text::Id;
use hg_dump::{Refers, manifest_of};
use hg_manifest::{Cursor, Manifest};
use hg_store::{Group, HgStore};
use pair_known::HgRow;

/// What is asked whether a file revision of a changeset was seen in an earlier block.
#[derive(Drop)]
pub struct Seen<'a> {
    /// The revisions to which the changesets of these blocks refer.
    pub referred: &'a Refers,
    /// The lines of a changeset among them, or none: a row that stands there needs no look-up.
    pub near: &'a Manifest,
}

/// What is asked for the files of a changeset with this first parent. Most of their rows are lines of the parent.
pub fn seen_before<'a>(
    hg: &'a HgStore,
    checked: &'a Checked,
    parent: &Id,
    empty: &'a Manifest,
) -> Seen<'a>
    requires walked { (front : List Block) × IsWalked hg.now checked.now front }
    requires empty { empty.now ≡ [] }
    ensures { (front : List Block) → IsWalked hg.now checked.now front → AreSeen hg.now result front }
{
    Seen {
        referred: &checked.referred,
        near: lines_near(hg, checked, parent, empty),
    }
}

// The lines of the parent, where that is the changeset of an earlier block, or none.
fn lines_near<'a>(
    hg: &'a HgStore,
    checked: &Checked,
    parent: &Id,
    empty: &'a Manifest,
) -> &'a Manifest
    requires walked { (front : List Block) × IsWalked hg.now checked.now front }
    requires empty { empty.now ≡ [] }
    ensures { (front : List Block) → IsWalked hg.now checked.now front → Each (IsLineSeen front) result.now }
{
    match near_of(&checked.nodes, parent) {
        Some(node) => manifest_of(hg, node),
        None => empty,
    }
}

/// Whether an earlier block refers to the file revision of a row. One that stands among the lines that are near needs no look-up.
pub fn is_seen(referred: &Refers, row: &HgRow, lines: &mut Cursor<'_>) -> bool
    ensures seen { (hg : List Revision) (front : List Block) → RefersIn hg referred.now front → Each (IsLineSeen front) lines.old → result ≡ is_seen_at front row.now.path row.now.node }
    ensures same { lines.new ≡ lines.old }
{
    let path = row.path.as_slice();
    lines.has_line(path, &row.node) || referred.has(Group::FilesAt(path), &row.node)
}
