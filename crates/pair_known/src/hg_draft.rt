ghost use Rattle.std.specs.Prelude.{◌≡◌, false, [], List, map, None, OnOk, IfOk, IfErr, IsTrue, MatchOption};
ghost use Rattle.text_model.specs.Lists.{Each};
ghost use Rattle.text_model.specs.Id as model;
ghost use Rattle.hg_model.specs.Changeset as fields;
ghost use Rattle.hg_model.specs.Revision.{FilesAt, knows};
ghost use Rattle.hg_changeset.specs.Values.{changeset_value};
ghost use Rattle.hg_manifest.specs.Values.{file_flag};
ghost use Rattle.hg_store.specs.Known.{IsFileBlob};
ghost use Rattle.hg_store.specs.Views.{IsChangesetOf, first_unknown};
ghost use Rattle.view_model.specs.View.{ChangesetView, ManifestParents, Row, entry_of_row};
ghost use Rattle.view_model.specs.Held.{IsChangesetHeld, IsManifestHeld, IsFileHeld};
ghost use Rattle.pair_known.specs.Rows.{row_value};
ghost use Rattle.hg_manifest.specs.Values.{manifest_value};
ghost use Rattle.pair_known.specs.Drafts.{HasView, IsHgDraft, IsRowKnown, IsDraftFault, IsLineFault};

use crate::draft_fault::DraftFault;
use crate::draft_texts::DraftTexts;
use crate::fresh_files::FreshFiles;
use crate::hg_row::{HgRow, HgRows};
use crate::known::Known;
use crate::near_rows::NearRows;
use bridge_text::{Id, NoMemory};
use hg_changeset::{Changeset, ChangesetFault};
use hg_manifest::{Entry, Manifest, ManifestRev};
use hg_store::{HgStore, ViewFault};
use shared_text::again;
use std::alloc::Global;

/// A changeset with all that it stands for.
pub struct HgDraft {
    /// The node of the first parent, or the null id.
    pub p1: Id,
    /// The node of the second parent, or the null id.
    pub p2: Id,
    /// Its fields.
    pub changeset: Changeset,
    /// Its manifest.
    pub manifest: ManifestRev,
    /// Its files, in rising order of their paths.
    pub rows: HgRows,
    /// The file revisions that the store doesn't hold.
    pub fresh: FreshFiles,
    /// Texts that were made for it.
    pub texts: DraftTexts,
}

impl Drop for HgDraft {
    fn drop(self) {
        let HgDraft {
            p1: _,
            p2: _,
            changeset: _,
            manifest: _,
            rows: _,
            fresh: _,
            texts: _,
        } = self;
    }
}

impl HgDraft {
    /// Its files.
    pub fn into_rows(self) -> HgRows
        ensures { result ≡ self.rows }
    {
        let HgDraft {
            p1: _,
            p2: _,
            changeset: _,
            manifest: _,
            rows,
            fresh: _,
            texts: _,
        } = self;
        rows
    }
}

/// The draft of a changeset that has a view, as each one of a history that is stored has. No body is copied, and nothing is hashed.
pub fn draft_of_changeset(alloc: Global, known: &Known, node: &Id) -> Result<HgDraft, NoMemory>
    requires view { HasView known.now.hg node.now }
    ensures draft { IfOk result (λ d. (h : ChangesetView) → IsChangesetHeld known.now.hg node.now h → IsHgDraft known.now.hg d h) }
    ensures nothing_fresh { IfOk result (λ d. d.fresh ≡ []) }
{
    draft_near(alloc, known, node, &[])
}

/// The same, and nothing is looked up for a file that stands with the same revision among these rows, as most of a changeset's files do among those of
/// a parent.
pub fn draft_near(
    alloc: Global,
    known: &Known,
    node: &Id,
    near: &[HgRow],
) -> Result<HgDraft, NoMemory>
    requires view { HasView known.now.hg node.now }
    requires near { Each (IsRowKnown known.now.hg) near.now }
    ensures draft { IfOk result (λ d. (h : ChangesetView) → IsChangesetHeld known.now.hg node.now h → IsHgDraft known.now.hg d h) }
    ensures nothing_fresh { IfOk result (λ d. d.fresh ≡ []) }
    ensures rows { IfOk result (λ d. Each (IsRowKnown known.now.hg) d.rows) }
{
    match read_changeset_draft(alloc, known, node, near) {
        Ok(draft) => Ok(draft),
        Err(DraftFault::Memory) => Err(NoMemory),
        Err(DraftFault::Unknown(_)) => unreachable!(),
    }
}

/// The draft, beside such rows, of a changeset that the store may lack; or why the node has no view: ChangesetUnknown, ManifestUnknown or FileUnknown,
/// each exactly where `HgStore::view_of` says. Each file revision is looked up once at most; no body is copied, and nothing is hashed.
pub fn read_changeset_draft(
    alloc: Global,
    known: &Known,
    node: &Id,
    near: &[HgRow],
) -> Result<HgDraft, DraftFault>
    requires near { Each (IsRowKnown known.now.hg) near.now }
    ensures view { OnOk result (HasView known.now.hg node.now) }
    ensures draft { IfOk result (λ d. (h : ChangesetView) → IsChangesetHeld known.now.hg node.now h → IsHgDraft known.now.hg d h) }
    ensures nothing_fresh { IfOk result (λ d. d.fresh ≡ []) }
    ensures rows { IfOk result (λ d. Each (IsRowKnown known.now.hg) d.rows) }
    ensures fault { IfErr result (IsDraftFault known.now.hg node.now) }
{
    match known.hg.changeset(node) {
        Some((p1, p2, fields)) => draft_with(alloc, &known.hg, node, (p1, p2), fields, near),
        None => Err(DraftFault::Unknown(ViewFault::ChangesetUnknown)),
    }
}

// The draft of a changeset that is known with these parents and fields.
fn draft_with(
    alloc: Global,
    store: &HgStore,
    node: &Id,
    parents: (Id, Id),
    fields: &Changeset,
    near: &[HgRow],
) -> Result<HgDraft, DraftFault>
    requires fields { IsChangesetOf store.now node.now parents.0 parents.1 (changeset_value fields.now) }
    requires near { Each (IsRowKnown store.now) near.now }
    ensures view { OnOk result (HasView store.now node.now) }
    ensures draft { IfOk result (λ d. (h : ChangesetView) → IsChangesetHeld store.now node.now h → IsHgDraft store.now d h) }
    ensures nothing_fresh { IfOk result (λ d. d.fresh ≡ []) }
    ensures rows { IfOk result (λ d. Each (IsRowKnown store.now) d.rows) }
    ensures fault { IfErr result (IsDraftFault store.now node.now) }
{
    let Some(manifest) = store.manifest(&fields.manifest) else {
        return Err(DraftFault::Unknown(ViewFault::ManifestUnknown));
    };
    let rows = rows_of(alloc, store, manifest, near)?;
    let changeset = read_changeset(alloc, store, node)?;
    Ok(HgDraft {
        p1: parents.0,
        p2: parents.1,
        changeset,
        manifest: manifest_of_node(store, &fields.manifest),
        rows,
        fresh: FreshFiles::new(alloc),
        texts: DraftTexts::none(),
    })
}

// The fields of a changeset that is known.
fn read_changeset(alloc: Global, store: &HgStore, node: &Id) -> Result<Changeset, NoMemory>
    requires known { (p q : model.Id) × (x : fields.Changeset) × IsChangesetOf store.now node.now p q x }
    ensures { IfOk result (λ made. (p q : model.Id) (x : fields.Changeset) → IsChangesetOf store.now node.now p q x → x ≡ changeset_value made) }
{
    let text = store.text_of(node).unwrap();
    match Changeset::read(alloc, text) {
        Ok(changeset) => Ok(changeset),
        Err(ChangesetFault::Shape(_)) => unreachable!(),
        Err(ChangesetFault::Memory) => Err(NoMemory),
    }
}

/// The manifest that a changeset names by this node: the null id, which is that of no revision, stands for none.
pub fn manifest_of_node(store: &HgStore, node: &Id) -> ManifestRev
    ensures { (m : ManifestParents) → (rows : List Row) → IsManifestHeld store.now node.now m rows → m ≡ manifest_value result }
{
    match store.manifest_parents(node) {
        Some((p, q)) => ManifestRev::Over { p, q },
        None => ManifestRev::Null,
    }
}

// The files of a manifest; or its first line whose file revision is unknown.
fn rows_of(
    alloc: Global,
    store: &HgStore,
    manifest: &Manifest,
    near: &[HgRow],
) -> Result<HgRows, DraftFault>
    requires near { Each (IsRowKnown store.now) near.now }
    ensures known { OnOk result (first_unknown store.now manifest.now ≡ None) }
    ensures rows { IfOk result (λ made. (rows : List Row) → map entry_of_row rows ≡ manifest.now → Each (IsFileHeld store.now) rows → made ≡ map row_value rows) }
    ensures blobs { IfOk result (λ made. Each (IsRowKnown store.now) made) }
    ensures fault { IfErr result (IsLineFault (first_unknown store.now manifest.now)) }
{
    let mut rows = HgRows::with_capacity(alloc, manifest.len())?;
    let mut walk = NearRows::new(near);
    for line in 0..manifest.len() {
        let entry = manifest.at(line);
        let Some(blob) = blob_near(store, entry, &mut walk) else {
            return Err(DraftFault::Unknown(ViewFault::FileUnknown(line)));
        };
        let row = row_of(entry, blob)?;
        rows.push(row)?;
    }
    Ok(rows)
}

// The blob of an entry's file revision: that of its row, or else what the store says.
fn blob_near(store: &HgStore, entry: &Entry, near: &mut NearRows<'_>) -> Option<Id>
    requires near { Each (IsRowKnown store.now) near.old }
    ensures blob { MatchOption result (knows store.now (FilesAt entry.now.path) entry.now.node ≡ false) (IsFileBlob store.now entry.now.path entry.now.node) }
    ensures same { near.new ≡ near.old }
{
    match near.get(entry) {
        Some(row) => Some(row.blob),
        None => store.file_blob(entry.path.as_slice(), &entry.node),
    }
}

// Whether a row has the path and the revision of an entry.
pub(crate) fn is_of(row: &HgRow, entry: &Entry) -> bool
    ensures { IsTrue result → (row.now.path ≡ entry.now.path) × (row.now.node ≡ entry.now.node) }
{
    row.node == entry.node && row.path.as_slice() == entry.path.as_slice()
}

// The file of an entry, with the id that its revision's body has as a blob.
fn row_of(entry: &Entry, blob: Id) -> Result<HgRow, NoMemory>
    ensures { IfOk result (λ made. made ≡ record { path = entry.now.path; flag = file_flag entry.now.flag; node = entry.now.node; blob = blob }) }
{
    Ok(HgRow {
        path: again(&entry.path)?,
        flag: entry.flag,
        node: entry.node,
        blob,
    })
}
