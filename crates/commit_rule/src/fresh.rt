ghost use Rattle.std.specs.Prelude.{◌≡◌, ◌++◌, ◌∷◌, [], ◌≤◌, List, ℕ, Option, map, length, IfOk, IsTrue, OnOk};
ghost use Rattle.text_model.specs.Lists.{Each};
ghost use Rattle.hg_model.specs.FileText.{IsFileText};
ghost use Rattle.hg_model.specs.Revision.{Revision};
ghost use Rattle.hg_store.specs.Known.{AreAdded};
ghost use Rattle.view_model.specs.View.{Row, text_limit};
ghost use Rattle.pair_model.specs.Rule.{tree_row_of};
ghost use Rattle.commit_rule.specs.Parts.{IsRowOf, AreRowsOf, AreBrought, HasStoredBlob};

use crate::near_blobs::NearBlobs;
use bridge_text::NoMemory;
use git_object::Objects;
use hg_filelog::split;
use hg_store::Group;
use pair_known::{FreshBlob, FreshBlobs, HgDraft, HgRow, Known};
use shared_text::{Text, part};
use std::alloc::Global;

// The text of a row's revision, which the draft brings or the store holds.
fn text_of<'a>(known: &'a Known, h: &'a HgDraft, row: &HgRow) -> &'a Text
    requires held { (r : Row) × IsRowOf (h.now.fresh ++ known.now.hg) row.now r }
    ensures { (r : Row) → IsRowOf (h.entry.now.fresh ++ known.entry.now.hg) row.now r → IsFileText result.now (r.revision).meta (r.revision).body }
{
    let path = row.path.as_slice();
    match h.fresh.get(path, &row.node) {
        Some(file) => &file.text,
        None => match known.hg.shared_text(Group::FilesAt(path), &row.node) {
            Some(text) => text,
            None => unreachable!(),
        },
    }
}

// The body of a text, which is its end.
fn body_in(text: &[u8]) -> &[u8]
    requires file { (meta : Option (List ℕ)) × (body : List ℕ) × IsFileText text.now meta body }
    ensures { (meta : Option (List ℕ)) (body : List ℕ) → IsFileText text.entry.now meta body → result.now ≡ body }
{
    match split(text) {
        Ok((_, body)) => body,
        Err(_) => unreachable!(),
    }
}

/// The body of a row's revision.
pub fn body_of<'a>(known: &'a Known, h: &'a HgDraft, row: &HgRow) -> &'a [u8]
    requires held { (r : Row) × IsRowOf (h.now.fresh ++ known.now.hg) row.now r }
    ensures { (r : Row) → IsRowOf (h.entry.now.fresh ++ known.entry.now.hg) row.now r → result.now ≡ (r.revision).body }
{
    body_in(text_of(known, h, row).as_slice())
}

// The same as the end of the text, so that it isn't copied.
fn shared_body_of(known: &Known, h: &HgDraft, row: &HgRow) -> Result<Text, NoMemory>
    requires held { (r : Row) × IsRowOf (h.now.fresh ++ known.now.hg) row.now r }
    ensures { IfOk result (λ body. (r : Row) → IsRowOf (h.now.fresh ++ known.now.hg) row.now r → body ≡ (r.revision).body) }
{
    let text = text_of(known, h, row);
    let body = body_in(text.as_slice());
    part(text, text.len() - body.len()..text.len())
}

/// Whether the revision of a row stands in the store, and not in the draft. The store takes no text above the limit, so
/// the body needs no look.
pub fn is_stored(h: &HgDraft, row: &HgRow) -> bool
    ensures { IsTrue result → (known : List Revision) (r : Row) → AreAdded known → IsRowOf (h.now.fresh ++ known) row.now r
        → length (r.revision).body ≤ text_limit }
{
    h.fresh.get(row.path.as_slice(), &row.node).is_none()
}

// Appends the blob of a row, unless it is there or the store holds it. No text is looked up for a row whose blob is known, as most have.
fn add_blob(known: &Known, h: &HgDraft, row: &HgRow, fresh: &mut FreshBlobs) -> Result<(), NoMemory>
    requires held { (r : Row) × IsRowOf (h.now.fresh ++ known.now.hg) row.now r }
    ensures { OnOk result ((rows : List Row) (r : Row) → AreBrought known.now.git fresh.old (map tree_row_of rows) → IsRowOf (h.now.fresh ++ known.now.hg) row.now r
        → AreBrought known.now.git fresh.new (map tree_row_of rows ++ tree_row_of r ∷ [])) }
{
    if known.git.content(&row.blob).is_some() {
        return Ok(());
    }
    if fresh.get(&row.blob).is_some() {
        return Ok(());
    }
    let content = shared_body_of(known, h, row)?;
    fresh.push(FreshBlob {
        id: row.blob,
        content,
    })?;
    Ok(())
}

/// The blobs of a changeset's files that the store doesn't hold. Nothing is looked up for a file whose blob stands at its place among the near rows,
/// whose blobs the store holds, as most of a changeset's files do among those of a parent.
pub fn fresh_blobs(
    alloc: Global,
    known: &Known,
    h: &HgDraft,
    near: &[HgRow],
) -> Result<FreshBlobs, NoMemory>
    requires held { (rows : List Row) × AreRowsOf (h.now.fresh ++ known.now.hg) h.now.rows rows }
    requires near { Each (HasStoredBlob known.now.git) near.now }
    ensures { IfOk result (λ fresh. (rows : List Row) → AreRowsOf (h.now.fresh ++ known.now.hg) h.now.rows rows → AreBrought known.now.git fresh (map tree_row_of rows)) }
{
    let mut fresh = FreshBlobs::new(alloc);
    let mut walk = NearBlobs::new(near);
    let rows = h.rows.as_slice();
    for row in rows {
        if walk.has(row) {
            continue;
        }
        add_blob(known, h, row, &mut fresh)?;
    }
    Ok(fresh)
}
