// The file that a mark names.
ghost use Rattle.std.specs.Prelude.{◌≡◌, ◌++◌, Some, None, IfOk, IfSome, MatchOption, option_map};
ghost use Rattle.hg_model.specs.FileText as file_text;
ghost use Rattle.view_model.specs.View.{TreeRow};
ghost use Rattle.view_model.specs.Held.{IsBlobHeld};
ghost use Rattle.pair_model.specs.Block.{Parents};
ghost use Rattle.mark_code.specs.Values.{mark_value};
ghost use Rattle.file_rule.specs.Made.{IsFresh};
ghost use Rattle.commit_unmark.specs.Named.{IsContentOf, IsFileOver, NamesNone, NamesRow, NamesNoCopy, NamesCopy, node_at};

use crate::revision::row_with_revision;
use bridge_text::{Bytes, Id, NoMemory};
use file_rule::{RuledRow, make_row, node_or_null};
use mark_code::Mark;
use pair_known::{Cursor, GitDraft, Known};
use std::alloc::Global;
use tree_shape::FileRow;

/// The file of a changeset that a mark names for a file of the commit, or the rule where it has none; `None` exactly where that is no right
/// one, or a copy's source is in no parent. The cursors walk through the entries of the changeset's parents.
pub fn named_row(
    alloc: Global,
    known: &Known,
    c: &GitDraft,
    file: &FileRow,
    mark: Option<&Mark>,
    first: &mut Cursor<'_>,
    second: &mut Cursor<'_>,
) -> Result<Option<RuledRow>, NoMemory>
    requires content { (t : TreeRow) × (t.id ≡ file.now.id) × IsBlobHeld (c.now.fresh ++ known.now.git) t }
    ensures found { IfOk result (λ found. (ps : Parents) (t : TreeRow) → IsFileOver known.now.hg (c.now.fresh ++ known.now.git) first.old second.old file.now ps t
        → MatchOption found (NamesNone ps (option_map (λ m. mark_value m.now) mark.entry) t) (NamesRow known.now.hg ps (option_map (λ m. mark_value m.now) mark.entry) t)) }
    ensures fresh { IfOk result (λ found. IfSome found (λ made. IsFresh known.now.hg file.now.path made.fresh)) }
    ensures first_same { first.new ≡ first.old }
    ensures second_same { second.new ≡ second.old }
{
    match mark {
        Some(mark) => marked_row(alloc, known, c, file, mark, first, second),
        None => ruled_row(alloc, known, c, file, first, second),
    }
}

// The file that the rule gives.
fn ruled_row(
    alloc: Global,
    known: &Known,
    c: &GitDraft,
    file: &FileRow,
    first: &mut Cursor<'_>,
    second: &mut Cursor<'_>,
) -> Result<Option<RuledRow>, NoMemory>
    requires content { (t : TreeRow) × (t.id ≡ file.now.id) × IsBlobHeld (c.now.fresh ++ known.now.git) t }
    ensures found { IfOk result (λ found. (ps : Parents) (t : TreeRow) → IsFileOver known.now.hg (c.now.fresh ++ known.now.git) first.old second.old file.now ps t
        → MatchOption found ⊥ (NamesRow known.now.hg ps None t)) }
    ensures fresh { IfOk result (λ found. IfSome found (λ made. IsFresh known.now.hg file.now.path made.fresh)) }
    ensures first_same { first.new ≡ first.old }
    ensures second_same { second.new ≡ second.old }
{
    let in_first = first.get(file.path());
    let in_second = second.get(file.path());
    let made = make_row(alloc, known, c, file, in_first, in_second)?;
    Ok(Some(made))
}

// The file that a mark names.
fn marked_row(
    alloc: Global,
    known: &Known,
    c: &GitDraft,
    file: &FileRow,
    mark: &Mark,
    first: &mut Cursor<'_>,
    second: &mut Cursor<'_>,
) -> Result<Option<RuledRow>, NoMemory>
    requires content { (t : TreeRow) × (t.id ≡ file.now.id) × IsBlobHeld (c.now.fresh ++ known.now.git) t }
    ensures found { IfOk result (λ found. (ps : Parents) (t : TreeRow) → IsFileOver known.now.hg (c.now.fresh ++ known.now.git) first.old second.old file.now ps t
        → MatchOption found (NamesNone ps (Some (mark_value mark.now)) t) (NamesRow known.now.hg ps (Some (mark_value mark.now)) t)) }
    ensures fresh { IfOk result (λ found. IfSome found (λ made. IsFresh known.now.hg file.now.path made.fresh)) }
    ensures first_same { first.new ≡ first.old }
    ensures second_same { second.new ≡ second.old }
{
    match mark {
        Mark::Rename { from, .. } => {
            let node = node_in_parents(from.as_slice(), first, second);
            copied_row(alloc, known, c, file, from.as_slice(), node)
        }
        Mark::File { p, q, meta, .. } => {
            row_with_revision(alloc, known, c, file, (*p, *q), lent(meta))
        }
        _ => Ok(None),
    }
}

fn lent(meta: &Option<Bytes>) -> Option<&[u8]>
    ensures { option_map (λ m. m.now) result ≡ meta.now }
{
    match meta {
        Some(meta) => Some(meta.as_slice()),
        None => None,
    }
}

// The node that a path has in the first parent, or, where it is absent there, in the second; the null id where it is in neither.
fn node_in_parents(path: &[u8], first: &mut Cursor<'_>, second: &mut Cursor<'_>) -> Id
    ensures node { result ≡ node_at path.now first.old second.old }
    ensures first_same { first.new ≡ first.old }
    ensures second_same { second.new ≡ second.old }
{
    match first.get(path) {
        Some(entry) => entry.node,
        None => node_or_null(second.get(path)),
    }
}

// The file whose revision is a copy of another path's at a node, without parents; none where the node is null.
fn copied_row(
    alloc: Global,
    known: &Known,
    c: &GitDraft,
    file: &FileRow,
    source: &[u8],
    node: Id,
) -> Result<Option<RuledRow>, NoMemory>
    requires content { (t : TreeRow) × (t.id ≡ file.now.id) × IsBlobHeld (c.now.fresh ++ known.now.git) t }
    ensures found { IfOk result (λ found. (t : TreeRow) → IsContentOf (c.now.fresh ++ known.now.git) file.now t
        → MatchOption found (NamesNoCopy node source.now t) (NamesCopy known.now.hg file.now node source.now t)) }
    ensures fresh { IfOk result (λ found. IfSome found (λ made. IsFresh known.now.hg file.now.path made.fresh)) }
{
    if node.is_null() {
        return Ok(None);
    }
    let meta = copy_meta(alloc, source, &node)?;
    row_with_revision(
        alloc,
        known,
        c,
        file,
        (Id::NULL, Id::NULL),
        Some(meta.as_slice()),
    )
}

// The metadata of a copy.
fn copy_meta(alloc: Global, source: &[u8], node: &Id) -> Result<Bytes, NoMemory>
    ensures { IfOk result (λ meta. meta ≡ file_text.copy_meta source.now node.now) }
{
    let mut meta = Vec::new(alloc);
    meta.extend_from_slice(b"copy: ")?;
    meta.extend_from_slice(source)?;
    meta.extend_from_slice(b"\ncopyrev: ")?;
    meta.extend_from_slice(&node.hex())?;
    meta.push(b'\n')?;
    Ok(Bytes::keep(meta))
}
