// File revisions of a changeset that come to a store.
ghost use Rattle.std.specs.Prelude.{◌≡◌, true, ◌∷◌, [], Err, OnOk, List, map};
ghost use Rattle.hg_model.specs.Revision.{Revision};
ghost use Rattle.hg_store.specs.Known.{AreAdded};
ghost use Rattle.view_model.specs.View.{ChangesetView, Row};
ghost use Rattle.view_model.specs.Dump.{file_revision};
ghost use Rattle.pair_state.specs.Came.{is_bad, HaveCome, HasBad, IsAskedOver, IsFileAsked};
ghost use Rattle.pair_state.specs.declared.fault.PushFault.TheVariants.{Collision};

use crate::fault::PushFault;
use crate::order::parents_of;
use crate::revisions::add_revision;
use bridge_text::Id;
use hg_store::{Addition, Group, HgStore};
use pair_known::{FreshFiles, HgDraft, HgRow};
use shared_text::again;

// Adds the revisions of files that the store lacks; those of the others change nothing.
pub fn add_files(hg: &mut HgStore, d: &HgDraft, link: Id) -> Result<(), PushFault>
    requires asked { (base : List Revision) × (k : ChangesetView) × IsAskedOver base hg.old d.now link k }
    ensures ok { OnOk result ((base : List Revision) (k : ChangesetView) → IsAskedOver base hg.old d.now link k → HaveCome hg.old hg.new (map (file_revision link) k.rows)) }
    ensures added { OnOk result (AreAdded hg.new) }
    ensures collision { result ≡ Err Collision → (base : List Revision) (k : ChangesetView) → IsAskedOver base hg.old d.now link k → HasBad hg.old (map (file_revision link) k.rows) }
{
    let list = d.rows.as_slice();
    for row in list {
        add_file(hg, &d.fresh, row, link)?;
    }
    Ok(())
}

fn add_file(hg: &mut HgStore, fresh: &FreshFiles, row: &HgRow, link: Id) -> Result<(), PushFault>
    requires asked { (x : Row) × IsFileAsked hg.old fresh.now row.now link x }
    ensures ok { OnOk result ((x : Row) → IsFileAsked hg.old fresh.now row.now link x → HaveCome hg.old hg.new (file_revision link x ∷ [])) }
    ensures added { OnOk result (AreAdded hg.new) }
    ensures collision { result ≡ Err Collision → (x : Row) → IsFileAsked hg.old fresh.now row.now link x → is_bad hg.old (file_revision link x) ≡ true }
{
    let path = row.path.as_slice();
    let file = match fresh.get(path, &row.node) {
        Some(file) => file,
        None => return Ok(()),
    };
    let (p, q) = parents_of(file);
    let text = again(&file.text)?;
    let addition = Addition {
        group: Group::FilesAt(path),
        node: row.node,
        p,
        q,
        link,
        text,
    };
    add_revision(hg, addition, Some(row.blob))
}
