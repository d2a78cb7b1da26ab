// Parents of file revisions and of a manifest that stand in no changeset of the blocks before.
ghost use Rattle.std.specs.Prelude.{◌≡◌, false, [], List, map, is_some, IfSome, OnOk, IfErr, IsTrue};
ghost use Rattle.text_model.specs.Lists.{Each};
ghost use Rattle.hg_model.specs.Revision.{Revision};
ghost use Rattle.hg_manifest.specs.Values.{manifest_entry};
ghost use Rattle.view_model.specs.View.{ChangesetView, Row, entry_of_row};
ghost use Rattle.view_model.specs.Held.{IsFileHeld, IsChangesetHeld};
ghost use Rattle.view_model.specs.Dump.{revisions_in};
ghost use Rattle.pair_model.specs.Block.{Block, changesets_in};
ghost use Rattle.partner_model.specs.Given.{has_late_file, has_late_manifest, is_late_file, is_late_manifest};
ghost use Rattle.hg_manifest.specs.Values.{manifest_value};
ghost use Rattle.pair_known.specs.Drafts.{IsHgDraft};
ghost use Rattle.pair_known.specs.Partners.{git_at};
ghost use Rattle.pair_known.specs.Rows.{row_value};
ghost use Rattle.hg_dump.specs.Refers.{RefersTo};
ghost use Rattle.pull_outcome.specs.Takes.{IsTakeFault};
ghost use Rattle.pull_bundle.specs.Faults.{IsOfChangeset, IsLate};
ghost use Rattle.pull_bundle.specs.Late.{RefersIn, is_late_row, IsLineInTime};
ghost use Rattle.pull_bundle.specs.Takes.{IsTaking};

use crate::taking::Taking;
use bridge_text::Id;
use hg_dump::{Refers, lines_of};
use hg_manifest::{Beside, Entry, ManifestRev, Near};
use hg_store::{Group, HgStore};
use pair_known::{HgDraft, Known};
use pull_outcome::{Fault, TakeFault};

/// Passes where each parent that a changeset, which is held, names for a file revision or for its manifest stands in a changeset of the
/// blocks. FileParentLate comes exactly where one of a file revision stands in none, and else ManifestParentLate where one of the manifest does.
pub fn check_parents(taking: &Taking, node: &Id, h: &HgDraft) -> Result<(), TakeFault>
    requires held { (v : ChangesetView) × IsChangesetHeld (taking.now.state).known.hg node.now v }
    requires taking { (blocks : List Block) × IsTaking taking.now blocks }
    ensures files { OnOk result ((blocks : List Block) (v : ChangesetView) → IsTaking taking.now blocks → IsChangesetHeld (taking.now.state).known.hg node.now v → has_late_file blocks v.rows ≡ false) }
    ensures manifest { OnOk result ((blocks : List Block) (v : ChangesetView) → IsTaking taking.now blocks → IsHgDraft (taking.now.state).known.hg h.now v → has_late_manifest blocks v.manifest ≡ false) }
    ensures refused { IfErr result (IsTakeFault (λ name. (blocks : List Block) (v : ChangesetView) → IsTaking taking.now blocks → IsChangesetHeld (taking.now.state).known.hg node.now v
        → IsHgDraft (taking.now.state).known.hg h.now v → IsLate blocks v name)) }
    ensures names { IfErr result IsOfChangeset }
{
    let lines = lines_of(&taking.state.known.hg, node);
    if has_late_file(taking, lines, lines_near(taking, h)) {
        return Err(TakeFault::Refused(Fault::FileParentLate));
    }
    if is_manifest_late(&taking.referred, &h.manifest) {
        return Err(TakeFault::Refused(Fault::ManifestParentLate));
    }
    Ok(())
}

/// The node of the first parent of a changeset, where that is the changeset of a block: most lines of both manifests are the same.
pub fn near_of<'a>(known: &Known, h: &'a HgDraft) -> Option<&'a Id>
    ensures { IfSome result (λ node. IsTrue (is_some (git_at known.now.partners node.now))) }
{
    if known.partners.git_of(&h.p1).is_some() {
        Some(&h.p1)
    } else {
        None
    }
}

// The lines of the changeset that is near, or none. The parents of their file revisions are in time.
fn lines_near<'a>(taking: &'a Taking, h: &HgDraft) -> Near<'a>
    requires taking { (blocks : List Block) × IsTaking taking.now blocks }
    ensures { (blocks : List Block) → IsTaking taking.now blocks → Each (IsLineInTime (taking.now.state).known.hg blocks) result }
{
    match near_of(&taking.state.known, h) {
        Some(node) => lines_of(&taking.state.known.hg, node),
        None => Near::none(),
    }
}

// Whether a parent of a file revision that one of the lines names comes too late, where each of the lines that are near is in time.
fn has_late_file<'a>(taking: &Taking, lines: Near<'a>, near: Near<'a>) -> bool
    ensures { (blocks : List Block) (files : List Row) → IsTaking taking.now blocks → map entry_of_row files ≡ lines.entry → Each (IsFileHeld (taking.now.state).known.hg) files
        → Each (IsLineInTime (taking.now.state).known.hg blocks) near.entry → result ≡ has_late_file blocks files }
{
    let mut walk = Beside::of(lines, near, None);
    while let Some(line) = walk.next() {
        if has_late_parent(&taking.state.known.hg, &taking.referred, line) {
            return true;
        }
    }
    false
}

/// Whether a parent of the file revision that a line names stands in no changeset of the blocks, to whose revisions `referred` refers.
pub fn has_late_parent(hg: &HgStore, referred: &Refers, line: &Entry) -> bool
    ensures { (blocks : List Block) (file : Row) → RefersIn hg.now referred.now blocks → entry_of_row file ≡ manifest_entry line.now → IsFileHeld hg.now file → result ≡ is_late_row blocks file }
{
    let path = line.path.as_slice();
    match hg.file_parents(path, &line.node) {
        Some((p, q)) => is_file_late(referred, path, &p) || is_file_late(referred, path, &q),
        None => false,
    }
}

/// Whether a parent of a revision of the file at a path stands in no changeset of the blocks, to whose revisions `referred` refers.
pub fn is_file_late(referred: &Refers, path: &[u8], parent: &Id) -> bool
    ensures { (blocks : List Block) → RefersTo referred.now (revisions_in (changesets_in blocks)) → result ≡ is_late_file blocks path.now parent.now }
{
    !parent.is_null() && !referred.has(Group::FilesAt(path), parent)
}

/// Whether a parent of a manifest is that of no changeset of the blocks, to whose revisions `referred` refers.
pub fn is_manifest_late(referred: &Refers, manifest: &ManifestRev) -> bool
    ensures { (known : List Revision) (blocks : List Block) → RefersIn known referred.now blocks → result ≡ has_late_manifest blocks (manifest_value manifest.now) }
{
    match manifest {
        ManifestRev::Null => false,
        ManifestRev::Over { p, q } => is_parent_late(referred, p) || is_parent_late(referred, q),
    }
}

// Whether a manifest is that of no changeset of the blocks.
fn is_parent_late(referred: &Refers, parent: &Id) -> bool
    ensures { (known : List Revision) (blocks : List Block) → RefersIn known referred.now blocks → result ≡ is_late_manifest blocks parent.now }
{
    !parent.is_null() && !referred.has(Group::Manifests, parent)
}
