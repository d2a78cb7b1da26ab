// Revisions of a changeset that come to a store.
ghost use Rattle.std.specs.Prelude.{◌≡◌, ◌≤◌, true, ◌∷◌, [], Err, OnOk, IfOk, IfSome, List, length};
ghost use Rattle.std.specs.List.{flat_map};
ghost use Rattle.hg_model.specs.Revision.{Revision};
ghost use Rattle.hg_store.specs.Groups.{group_value, revision_value};
ghost use Rattle.hg_store.specs.Known.{text_limit, AreAdded, HasFitPath, HasBlob};
ghost use Rattle.view_model.specs.View.{ChangesetView};
ghost use Rattle.view_model.specs.Dump.{manifest_revision, revisions_of};
ghost use Rattle.pair_state.specs.Came.{is_bad, IsReady, HaveCome, HasBad, IsAsked, IsAskedOver};
ghost use Rattle.pair_state.specs.Step.{line_of};
ghost use Rattle.pair_state.specs.declared.fault.PushFault.TheVariants.{Collision};

use crate::fault::PushFault;
use crate::files::add_files;
use bridge_text::{Bytes, Id, NoMemory};
use hg_manifest::{ManifestRev, line_len, put_line};
use hg_store::{AddFault, Addition, Group, HgStore};
use pair_known::{HgDraft, HgRow, HgRows};
use shared_text::{Text, keep};
use std::alloc::Global;

// Adds a revision with which nothing can be wrong but that it is bad.
pub fn add_revision(
    hg: &mut HgStore,
    addition: Addition<'_>,
    blob: Option<Id>,
) -> Result<(), PushFault>
    requires ready { IsReady hg.old (revision_value addition) }
    requires its_blob { IfSome blob (HasBlob addition.text) }
    requires short { length addition.text ≤ text_limit }
    requires path { HasFitPath (group_value addition.group) }
    ensures ok { OnOk result (HaveCome hg.old hg.new (revision_value addition.entry ∷ [])) }
    ensures added { OnOk result (AreAdded hg.new) }
    ensures collision { result ≡ Err Collision → is_bad hg.old (revision_value addition.entry) ≡ true }
{
    match hg.add_hashed(addition, blob) {
        Ok(_) => Ok(()),
        Err(AddFault::Collision) => Err(PushFault::Collision),
        Err(AddFault::Memory) => Err(PushFault::Memory),
        Err(AddFault::ParentOrder) => unreachable!(),
        Err(AddFault::ParentUnknown) => unreachable!(),
        Err(AddFault::LinkUnknown) => unreachable!(),
        Err(AddFault::NodeWrong) => unreachable!(),
        Err(AddFault::ChangesetShape) => unreachable!(),
        Err(AddFault::ManifestShape) => unreachable!(),
        Err(AddFault::PathUnfit) => unreachable!(),
        Err(AddFault::FileShape) => unreachable!(),
    }
}

/// Adds the revisions of a changeset: its own with this node and text, which is kept, its manifest's and its files'. The lines are those of the
/// manifest, where they were made. Collision comes where one of them has the null id, or is known with another text or other parents.
pub fn add_changeset(
    alloc: Global,
    hg: &mut HgStore,
    d: &HgDraft,
    node: Id,
    text: Text,
    lines: Option<Bytes>,
) -> Result<(), PushFault>
    requires asked { (base : List Revision) × (k : ChangesetView) × IsAsked base hg.old d.now node text k }
    requires lines { IfSome lines (λ made. made ≡ flat_map line_of d.now.rows) }
    ensures ok { OnOk result ((base : List Revision) (k : ChangesetView) → IsAsked base hg.old d.now node text k → HaveCome hg.old hg.new (revisions_of k)) }
    ensures added { OnOk result (AreAdded hg.new) }
    ensures collision { result ≡ Err Collision → (base : List Revision) (k : ChangesetView) → IsAsked base hg.old d.now node text k
        → HasBad hg.old (revisions_of k) }
{
    let own = Addition {
        group: Group::Changesets,
        node,
        p: d.p1,
        q: d.p2,
        link: node,
        text,
    };
    add_revision(hg, own, None)?;
    add_manifest(alloc, hg, d, node, lines)?;
    add_files(hg, d, node)
}

// Adds the manifest of a changeset, where it has one, with its lines where they were made.
pub fn add_manifest(
    alloc: Global,
    hg: &mut HgStore,
    d: &HgDraft,
    link: Id,
    lines: Option<Bytes>,
) -> Result<(), PushFault>
    requires asked { (base : List Revision) × (k : ChangesetView) × IsAskedOver base hg.old d.now link k }
    requires lines { IfSome lines (λ made. made ≡ flat_map line_of d.now.rows) }
    ensures ok { OnOk result ((base : List Revision) (k : ChangesetView) → IsAskedOver base hg.old d.now link k → HaveCome hg.old hg.new (manifest_revision k k.manifest)) }
    ensures added { OnOk result (AreAdded hg.new) }
    ensures collision { result ≡ Err Collision → (base : List Revision) (k : ChangesetView) → IsAskedOver base hg.old d.now link k → HasBad hg.old (manifest_revision k k.manifest) }
{
    match d.manifest {
        ManifestRev::Null => Ok(()),
        ManifestRev::Over { p, q } => {
            let text = lines_of(alloc, &d.rows, lines)?;
            add_revision(
                hg,
                Addition {
                    group: Group::Manifests,
                    node: d.changeset.manifest,
                    p,
                    q,
                    link,
                    text,
                },
                None,
            )
        }
    }
}

// The lines of files: those that were made, or else new ones.
fn lines_of(alloc: Global, rows: &HgRows, made: Option<Bytes>) -> Result<Text, NoMemory>
    requires made { IfSome made (λ text. text ≡ flat_map line_of rows.now) }
    ensures { IfOk result (λ text. text ≡ flat_map line_of rows.now) }
{
    if let Some(text) = made {
        return keep(text.into_vec());
    }
    let list = rows.as_slice();
    let mut text = room_for(alloc, list)?;
    for row in list {
        put_line(&mut text, row.path.as_slice(), &row.node, row.flag)?;
    }
    keep(text)
}

// No bytes, with room for the lines of files, so that none are moved while others are added.
fn room_for(alloc: Global, rows: &[HgRow]) -> Result<Vec<u8>, NoMemory>
    ensures { IfOk result (λ out. out.items ≡ []) }
{
    let mut room: usize = 0;
    for row in rows {
        room = room.saturating_add(line_len(row.path.as_slice(), &row.node, row.flag));
    }
    Ok(Vec::with_capacity(alloc, room)?)
}
