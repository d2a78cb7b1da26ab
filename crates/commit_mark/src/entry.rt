ghost use Rattle.std.specs.Prelude.{◌≡◌, ◌↔◌, List, option_map, IfOk, IsTrue};
ghost use Rattle.hg_model.specs.FileText.{IsFile};
ghost use Rattle.hg_model.specs.Revision.{Revision};
ghost use Rattle.view_model.specs.View.{FileRevision, Row};
ghost use Rattle.pair_model.specs.Block.{Parents};
ghost use Rattle.pair_model.specs.MarkList.{File};
ghost use Rattle.pair_model.specs.Rule.{new_revision, revision_at};
ghost use Rattle.mark_code.specs.Values.{mark_value};
ghost use Rattle.partner_model.specs.Mark as model;
ghost use Rattle.commit_mark.specs.Over.{AreParents, IsRowOver};
ghost use Rattle.commit_mark.specs.Parts.{marks_in, ArePartsOf, AreLentAt};

use crate::file_parts::{FileParts, parts_of, stored_parts};
use crate::over::Over;
use bridge_text::{Bytes, NoMemory};
use file_rule::{is_plain, is_ruled, kept_node, node_or_null, parents_over};
use hg_filelog::copy_of;
use hg_manifest::Entry;
use mark_code::Mark;
use pair_known::HgRow;
use std::alloc::Global;

/// The mark of a file, where the rule gives another revision for it; these are the entries of its path in the parents. Nothing is hashed, and
/// no body is copied.
pub fn entry_mark(
    alloc: Global,
    over: &Over<'_>,
    row: &HgRow,
    first: Option<&Entry>,
    second: Option<&Entry>,
) -> Result<Option<Mark>, NoMemory>
    requires held { (ps : Parents) × (w : Row) × IsRowOver over.now row.now first second ps w }
    ensures { IfOk result (λ mark. (ps : Parents) (w : Row) → AreParents over.now ps → IsRowOver over.now row.now first.entry second.entry ps w
        → marks_in mark ≡ model.entry_marks ps w) }
{
    if is_given(over, row, first, second) {
        return Ok(None);
    }
    let parts = parts_of(over.store, over.fresh, row);
    let mark = revision_mark(alloc, over, row, &parts)?;
    Ok(Some(mark))
}

// Whether the rule gives a file the revision that it has.
fn is_given(over: &Over<'_>, row: &HgRow, first: Option<&Entry>, second: Option<&Entry>) -> bool
    requires held { (ps : Parents) × (w : Row) × IsRowOver over.now row.now first second ps w }
    ensures { (ps : Parents) (w : Row) → IsRowOver over.now row.now first.entry second.entry ps w → result ≡ model.is_ruled ps w }
{
    match over.fresh.get(row.path.as_slice(), &row.node) {
        Some(_) => is_brought_as_given(over, row, first, second),
        None => is_ruled(over.store, row, first, second),
    }
}

// The same of a file whose revision the draft brings: where a parent's revision has the blob, node, parents and metadata are to be those of that
// revision, else parents and metadata are to be those of the new one.
fn is_brought_as_given(
    over: &Over<'_>,
    row: &HgRow,
    first: Option<&Entry>,
    second: Option<&Entry>,
) -> bool
    requires held { (ps : Parents) × (w : Row) × IsRowOver over.now row.now first second ps w }
    ensures { (ps : Parents) (w : Row) → IsRowOver over.now row.now first.entry second.entry ps w → result ≡ model.is_ruled ps w }
{
    let parts = parts_of(over.store, over.fresh, row);
    match kept_node(over.store, first, second, &row.blob) {
        Some(node) => node == row.node && stored_parts(over.store, row).says_the_same(&parts),
        None => is_new(&parts, first, second),
    }
}

// Whether a revision has the parents and the metadata of the new one that the rule gives over these entries.
fn is_new(parts: &FileParts<'_>, first: Option<&Entry>, second: Option<&Entry>) -> bool
    ensures { (ps : Parents) (w : Row) → ArePartsOf parts.now w.revision → IsFile (w.revision).meta (w.revision).body
        → ((known : List Revision) × AreLentAt known first.entry second.entry ps w)
        → (IsTrue result ↔ new_revision (revision_at (ps.first).rows w.path) (revision_at (ps.second).rows w.path) (w.revision).body ≡ w.revision) }
{
    let parents = parents_over(node_or_null(first), node_or_null(second));
    parts.has_parents(parents) && is_plain(parts.meta, parts.body)
}

// The mark of a revision that isn't the one of the rule: a rename where it says no more than one, else its parents and its metadata.
fn revision_mark(
    alloc: Global,
    over: &Over<'_>,
    row: &HgRow,
    parts: &FileParts<'_>,
) -> Result<Mark, NoMemory>
    ensures { IfOk result (λ mark. (ps : Parents) (r : FileRevision) → AreParents over.now ps → ArePartsOf parts.now r
        → mark_value mark ≡ model.revision_mark row.now.path r (model.rename_source ps r)) }
{
    let path = Bytes::of(alloc, row.path.as_slice())?;
    match rename_source(over, parts) {
        Some(from) => Ok(Mark::Rename {
            path,
            from: Bytes::of(alloc, from)?,
        }),
        None => file_mark(alloc, path, parts),
    }
}

// The mark that says all of a revision but its body.
fn file_mark(alloc: Global, path: Bytes, parts: &FileParts<'_>) -> Result<Mark, NoMemory>
    ensures { IfOk result (λ mark. mark_value mark ≡ File path parts.now.p parts.now.q (option_map (λ m. m.now) parts.now.meta)) }
{
    Ok(Mark::File {
        path,
        p: parts.p,
        q: parts.q,
        meta: copy_of_metadata(alloc, parts.meta)?,
    })
}

fn copy_of_metadata(alloc: Global, meta: Option<&[u8]>) -> Result<Option<Bytes>, NoMemory>
    ensures { IfOk result (λ copy. copy ≡ option_map (λ m. m.now) meta.entry) }
{
    match meta {
        Some(meta) => Ok(Some(Bytes::of(alloc, meta)?)),
        None => Ok(None),
    }
}

// The path of which a revision is a copy, where it has no parents and names the node that a parent has there.
fn rename_source<'a>(over: &Over<'_>, parts: &FileParts<'a>) -> Option<&'a [u8]>
    ensures { (ps : Parents) (r : FileRevision) → AreParents over.now ps → ArePartsOf parts.now r
        → option_map (λ s. s.now) result ≡ model.rename_source ps r }
{
    if !parts.p.is_null() || !parts.q.is_null() {
        return None;
    }
    named_source(over, parts.meta)
}

// The path that metadata name as the source of a copy, where they name the node that a parent has there.
fn named_source<'a>(over: &Over<'_>, meta: Option<&'a [u8]>) -> Option<&'a [u8]>
    ensures { (ps : Parents) → AreParents over.now ps
        → option_map (λ s. s.now) result ≡ model.named_source ps (model.copy_in (option_map (λ m. m.now) meta.entry)) }
{
    let Some((source, node)) = copy_of(meta?) else {
        return None;
    };
    if node.is_null() || over.node_in_parents(source) != node {
        return None;
    }
    Some(source)
}
