// File revisions that marks name.
ghost use Rattle.std.specs.Prelude.{◌≡◌, ◌↔◌, ◌++◌, false, IfOk, IfSome, IsTrue, MatchOption};
ghost use Rattle.std.specs.Option.{option_copied};
ghost use Rattle.text_model.specs.Text.{IsBytes, has_piece};
ghost use Rattle.hg_model.specs.FileText.{IsFile};
ghost use Rattle.hg_model.specs.FileText as file_text;
ghost use Rattle.hg_filelog.specs.Parts.{CanJoin};
ghost use Rattle.view_model.specs.View.{TreeRow, IsRevision};
ghost use Rattle.view_model.specs.Held.{IsBlobHeld};
ghost use Rattle.pair_model.specs.Rule.{flag_of_mode};
ghost use Rattle.file_rule.specs.Made.{IsFresh, IsMadeRow};
ghost use Rattle.file_rule.specs.Parents.{row_with};
ghost use Rattle.commit_unmark.specs.Named.{revision_with, IsContentOf};

use bridge_text::{Id, NoMemory};
use file_rule::{RuledRow, content_text, row_with_text};
use hg_filelog::{file_order, join_into};
use memchr::memmem;
use pair_known::{GitDraft, Known};
use shared_text::{Text, again, keep};
use std::alloc::Global;
use tree_shape::FileRow;

/// What stands before and behind metadata.
const MARK: &[u8] = b"\x01\n";

/// The row of a file whose revision has these parents and metadata, and the blob as its body; `None` exactly where that is no
/// revision of a file, since the parents stand in another order, the metadata hold a mark, or the body without any begins with one.
pub fn row_with_revision(
    alloc: Global,
    known: &Known,
    c: &GitDraft,
    file: &FileRow,
    parents: (Id, Id),
    meta: Option<&[u8]>,
) -> Result<Option<RuledRow>, NoMemory>
    requires content { (t : TreeRow) × (t.id ≡ file.now.id) × IsBlobHeld (c.now.fresh ++ known.now.git) t }
    ensures found { IfOk result (λ found. (t : TreeRow) → IsContentOf (c.now.fresh ++ known.now.git) file.now t
        → MatchOption found (IsRevision (revision_with parents (option_copied meta.entry) t.content) → ⊥)
        (λ made. IsRevision (revision_with parents (option_copied meta.entry) t.content)
        × IsMadeRow known.now.hg made (row_with file.now.path (flag_of_mode file.now.mode) (revision_with parents (option_copied meta.entry) t.content)))) }
    ensures fresh { IfOk result (λ found. IfSome found (λ made. IsFresh known.now.hg file.now.path made.fresh)) }
{
    let (p, q) = parents;
    let body = content_text(known, c, file.blob());
    if !is_revision(p, q, meta, body.as_slice()) {
        return Ok(None);
    }
    let text = text_with(alloc, meta, body)?;
    let row = row_with_text(alloc, &known.hg, file, (p, q), text)?;
    Ok(Some(row))
}

// The text of these metadata and this body: without metadata the body itself, not copied.
fn text_with(alloc: Global, meta: Option<&[u8]>, body: &Text) -> Result<Text, NoMemory>
    requires file { CanJoin (option_copied meta) body.now }
    ensures { IfOk result (λ text. text ≡ file_text.file_text (option_copied meta.entry) body.now) }
{
    match meta {
        None => again(body),
        Some(_) => {
            let mut text = Vec::new(alloc);
            join_into(&mut text, meta, body.as_slice())?;
            keep(text)
        }
    }
}

// Whether these are the parents, the metadata and the body of a revision.
fn is_revision(p: Id, q: Id, meta: Option<&[u8]>, body: &[u8]) -> bool
    ensures { IsTrue result ↔ IsRevision (revision_with (p, q) (option_copied meta.entry) body.now) }
{
    let (first, second) = file_order(meta, p, q);
    first == p && second == q && is_file(meta, body)
}

// Whether these are the metadata and the body of a text.
fn is_file(meta: Option<&[u8]>, body: &[u8]) -> bool
    ensures { IsTrue result ↔ IsFile (option_copied meta.entry) body.now }
{
    match meta {
        Some(meta) => is_meta(meta),
        None => !body.starts_with(MARK),
    }
}

// Whether metadata hold no mark.
fn is_meta(meta: &[u8]) -> bool
    ensures clear { IsTrue result ↔ has_piece file_text.mark meta.now ≡ false }
    ensures bytes { IsBytes meta.now }
{
    memmem::find(meta, MARK).is_none()
}
