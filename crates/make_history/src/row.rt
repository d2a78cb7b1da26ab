// The file that a changeset changes or copies.
ghost use Rattle.std.specs.Prelude.{◌≡◌, false, List, map, Some, option_map, OnOk, IfOk, IfSome};
ghost use Rattle.text_model.specs.Lists.{Each};
ghost use Rattle.text_model.specs.Text.{IsBytes, has_byte};
ghost use Rattle.text_model.specs.Id.{IsId, blob_id};
ghost use Rattle.hg_model.specs.FileText.{copy_meta, file_text};
ghost use Rattle.hg_model.specs.Revision.{Revision};
ghost use Rattle.hg_manifest.specs.Values.{manifest_entry};
ghost use Rattle.git_object.specs.Values.{mode_value};
ghost use Rattle.view_model.specs.View.{Row, entry_of_row};
ghost use Rattle.pair_model.specs.Block.{Parents};
ghost use Rattle.pair_model.specs.Rule.{flag_of_mode};
ghost use Rattle.file_rule.specs.Made.{IsMadeRow, IsFresh, IsRevisionOver};
ghost use Rattle.file_rule.specs.Parents.{IsParent};
ghost use Rattle.make_model.specs.History.{made_path, made_revision, made_row, made_flag, first_other};
ghost use Rattle.make_history.specs.Made.{numbers_value};
ghost use Rattle.make_history.specs.Rows.{new_at, copied_revision, copy_with};

use crate::numbers::Numbers;
use crate::paths::{body_of, path_of};
use bridge_text::{Bytes, Id, Kind, NoMemory, object_id};
use file_rule::{Parent, RuledRow, node_or_null, parents_over, row_with_text};
use git_object::Mode;
use hg_filelog::plain_into;
use hg_manifest::{Entry, Manifest};
use hg_store::HgStore;
use shared_text::{Text, keep};
use std::alloc::Global;
use tree_shape::FileRow;

/// What stands before and behind metadata.
const MARK: &[u8; 2] = b"\x01\n";

/// The text of a new revision, and its parents.
#[derive(Drop)]
struct Made {
    p: Id,
    q: Id,
    text: Text,
}

/// The file that the changeset with this number changes or copies.
pub fn make_row(
    alloc: Global,
    store: &HgStore,
    first: &Parent<'_>,
    second: &Parent<'_>,
    numbers: &Numbers,
    number: u64,
) -> Result<RuledRow, NoMemory>
    requires parents { (ps : Parents) × IsParent store.now first.now ps.first × IsParent store.now second.now ps.second }
    requires clean { Each (λ e. has_byte 1 e.path ≡ false) (first.now.manifest).now }
    ensures fresh { IfOk result (λ made. IsFresh store.now (made_path numbers.now.directory numbers.now.file) made.fresh) }
    ensures row { IfOk result (λ made. (ps : Parents) → IsParent store.now first.now ps.first → IsParent store.now second.now ps.second
        → IsMadeRow store.now made (made_row ps (numbers_value numbers.now) number)) }
{
    let path = path_of(alloc, numbers.directory, numbers.file)?;
    let body = body_of(alloc, number)?;
    let made = make_revision(
        alloc,
        first,
        second,
        numbers.copied,
        path.as_slice(),
        body.as_slice(),
    )?;
    let file = FileRow {
        blob: object_id(Kind::Blob, body.as_slice()),
        mode: mode_of(numbers.executable),
        path,
    };
    row_with_text(alloc, store, &file, (made.p, made.q), made.text)
}

fn mode_of(number: u64) -> Mode
    ensures { flag_of_mode (mode_value result) ≡ made_flag number }
{
    if number == 0 { Mode::Exec } else { Mode::File }
}

// The new revision of a path: a copy of the first parent's first path, where the number is 0 and that is another one; else one over the
// revisions of the parents.
fn make_revision(
    alloc: Global,
    first: &Parent<'_>,
    second: &Parent<'_>,
    number: u64,
    path: &[u8],
    body: &[u8],
) -> Result<Made, NoMemory>
    requires parents { (known : List Revision) × (ps : Parents) × IsParent known first.now ps.first × IsParent known second.now ps.second }
    requires clean { Each (λ e. has_byte 1 e.path ≡ false) (first.now.manifest).now }
    ensures revision { IfOk result (λ made. (known : List Revision) (ps : Parents) → IsParent known first.now ps.first → IsParent known second.now ps.second
        → IsRevisionOver (made_revision ps number path.now body.now) (blob_id body.now) made.p made.q made.text) }
{
    if number == 0 {
        return make_copied(alloc, first, second, path, body);
    }
    make_new(alloc, first, second, path, body)
}

// A copy of the first parent's first path, where that is another one; else the new revision over those of the parents.
fn make_copied(
    alloc: Global,
    first: &Parent<'_>,
    second: &Parent<'_>,
    path: &[u8],
    body: &[u8],
) -> Result<Made, NoMemory>
    requires clean { Each (λ e. has_byte 1 e.path ≡ false) (first.now.manifest).now }
    ensures revision { IfOk result (λ made. (known : List Revision) (ps : Parents) → IsParent known first.now ps.first → IsParent known second.now ps.second
        → IsRevisionOver (copied_revision ps path.now body.now) (blob_id body.now) made.p made.q made.text) }
{
    match first_other(first.manifest, path) {
        Some(source) => make_copy(alloc, source, body),
        None => make_new(alloc, first, second, path, body),
    }
}

// The new revision over those of the parents.
fn make_new(
    alloc: Global,
    first: &Parent<'_>,
    second: &Parent<'_>,
    path: &[u8],
    body: &[u8],
) -> Result<Made, NoMemory>
    ensures { IfOk result (λ made. (known : List Revision) (ps : Parents) → IsParent known first.now ps.first → IsParent known second.now ps.second
        → IsRevisionOver (new_at ps path.now body.now) (blob_id body.now) made.p made.q made.text) }
{
    let p = node_or_null(first.manifest.get(path));
    let q = node_or_null(second.manifest.get(path));
    let (p, q) = parents_over(p, q);
    let mut text = Vec::new(alloc);
    plain_into(&mut text, body)?;
    Ok(Made {
        p,
        q,
        text: keep(text)?,
    })
}

// The first entry, where there is one and its path is another.
fn first_other<'a>(manifest: &'a Manifest, path: &[u8]) -> Option<&'a Entry>
    ensures entry { (rows : List Row) → map entry_of_row rows ≡ manifest.now → option_map (λ e. manifest_entry e.now) result ≡ option_map entry_of_row (first_other path.now rows) }
    ensures clean { IfSome result (λ found. Each (λ e. has_byte 1 e.path ≡ false) manifest.now → has_byte 1 found.now.path ≡ false) }
{
    if manifest.is_empty() {
        return None;
    }
    let entry = manifest.at(0);
    if entry.path.as_slice() == path {
        return None;
    }
    Some(entry)
}

// A copy of an entry's revision, with this body.
fn make_copy(alloc: Global, source: &Entry, body: &[u8]) -> Result<Made, NoMemory>
    ensures { IfOk result (λ made. has_byte 1 source.now.path ≡ false
        → IsRevisionOver (copy_with (copy_meta source.now.path source.now.node) body.now) (blob_id body.now) made.p made.q made.text) }
{
    let meta = meta_of(alloc, source)?;
    Ok(Made {
        p: Id::NULL,
        q: Id::NULL,
        text: marked_text(alloc, meta.as_slice(), body)?,
    })
}

// The text of a file revision that has metadata.
fn marked_text(alloc: Global, meta: &[u8], body: &[u8]) -> Result<Text, NoMemory>
    ensures text { IfOk result (λ text. text ≡ file_text (Some meta.now) body.now) }
    ensures bytes { OnOk result (IsBytes meta.now × IsBytes body.now) }
{
    let mut text = Vec::new(alloc);
    text.extend_from_slice(MARK)?;
    text.extend_from_slice(meta)?;
    text.extend_from_slice(MARK)?;
    text.extend_from_slice(body)?;
    keep(text)
}

// The metadata of a copy.
fn meta_of(alloc: Global, source: &Entry) -> Result<Bytes, NoMemory>
    ensures meta { IfOk result (λ meta. meta ≡ copy_meta source.now.path source.now.node) }
    ensures id { OnOk result (IsId source.now.node) }
{
    let mut meta = Vec::new(alloc);
    meta.extend_from_slice(b"copy: ")?;
    meta.extend_from_slice(source.path.as_slice())?;
    meta.extend_from_slice(b"\ncopyrev: ")?;
    meta.extend_from_slice(&source.node.hex())?;
    meta.push(b'\n')?;
    Ok(Bytes::keep(meta))
}
