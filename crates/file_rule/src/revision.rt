ghost use Rattle.std.specs.Prelude.{◌≡◌, ℕ, ◌++◌, true, false, List, Option, IfOk, IfSome, option_map, unwrap_or};
ghost use Rattle.std.specs.Option.{option_copied, option_or};
ghost use Rattle.text_model.specs.Text.{IsBytes};
ghost use Rattle.text_model.specs.Id.{null};
ghost use Rattle.hg_model.specs.FileText as file_text;
ghost use Rattle.hg_model.specs.FileText.{IsFileText, plain_meta};
ghost use Rattle.hg_manifest.specs.Values.{manifest_entry, file_flag};
ghost use Rattle.git_object.specs.Values.{mode_value};
ghost use Rattle.hg_store.specs.Known.{AreAdded, knows_same, AreFileParents};
ghost use Rattle.view_model.specs.View.{FileRevision, file_node, TreeRow};
ghost use Rattle.view_model.specs.Held.{IsBlobHeld};
ghost use Rattle.pair_model.specs.Rule as rule;
ghost use Rattle.file_rule.specs.Parents.{IsRevisionAt, row_with};
ghost use Rattle.file_rule.specs.Made.{IsMadeRow, IsRowOf, IsFresh, IsKnownAs, IsTextOver, IsRevisionOver, revision_with};

use bridge_text::{Bytes, Id, NoMemory, node_id};
use git_object::Mode;
use hg_filelog::{canonical_pair, plain_into};
use hg_manifest::{Entry, Flag};
use hg_store::HgStore;
use pair_known::{FreshFile, GitDraft, HgRow, Known};
use shared_text::{Text, again, keep};
use std::alloc::Global;
use tree_shape::FileRow;

/// What stands before and behind metadata.
pub(crate) const MARK: &[u8] = b"\x01\n";

/// A file of the changeset that the rule gives, and its revision where it isn't stored.
#[derive(Drop)]
pub struct RuledRow {
    pub row: HgRow,
    pub fresh: Option<FreshFile>,
}

// The node of an entry's revision, where its body is the blob.
fn node_with_blob(store: &HgStore, entry: Option<&Entry>, blob: &Id) -> Option<Id>
    ensures node { (path : List ℕ) (r : Option FileRevision) → IsRevisionAt store.now path (option_map manifest_entry (option_copied entry.entry)) r
        → result ≡ option_map file_node (rule.with_body blob.now r) }
    ensures known { IfSome result (λ _. AreAdded store.now) }
{
    let Some(entry) = entry else {
        return None;
    };
    match store.file_blob(entry.path.as_slice(), &entry.node) {
        Some(found) => {
            if found == *blob {
                Some(entry.node)
            } else {
                None
            }
        }
        None => None,
    }
}

/// The node of the first parent's revision where its body is the blob, else of the second's where its is.
pub fn kept_node(
    store: &HgStore,
    first: Option<&Entry>,
    second: Option<&Entry>,
    blob: &Id,
) -> Option<Id>
    ensures node { (path : List ℕ) (r s : Option FileRevision) → IsRevisionAt store.now path (option_map manifest_entry (option_copied first.entry)) r
        → IsRevisionAt store.now path (option_map manifest_entry (option_copied second.entry)) s
        → result ≡ option_map file_node (option_or (rule.with_body blob.now r) (rule.with_body blob.now s)) }
    ensures known { IfSome result (λ _. AreAdded store.now) }
{
    match node_with_blob(store, first, blob) {
        Some(node) => Some(node),
        None => node_with_blob(store, second, blob),
    }
}

/// The content of a blob that the draft brings or the store holds, which the caller may own too.
pub fn content_text<'a>(known: &'a Known, c: &'a GitDraft, id: &Id) -> &'a Text
    requires held { (t : TreeRow) × (t.id ≡ id.now) × IsBlobHeld (c.now.fresh ++ known.now.git) t }
    ensures { (t : TreeRow) → t.id ≡ id.now → IsBlobHeld (c.entry.now.fresh ++ known.entry.now.git) t → result.now ≡ t.content }
{
    match c.fresh.get(id) {
        Some(blob) => &blob.content,
        None => match known.git.shared_object(id) {
            Some((_, content)) => content,
            None => unreachable!(),
        },
    }
}

// Whether a file revision is held with this text and these parents.
fn is_held(store: &HgStore, path: &[u8], node: &Id, parents: (Id, Id), text: &[u8]) -> bool
    ensures held { result ≡ true → IsKnownAs store.now path.now node.now parents.0 parents.1 text.now }
    ensures free { result ≡ false → (meta : Option (List ℕ)) (body : List ℕ) → IsFileText text.now meta body → parents ≡ file_text.file_order meta parents.0 parents.1
        → knows_same store.now (revision_with path.now node.now parents.0 parents.1 text.now) ≡ false }
{
    match store.file_text(path, node) {
        Some(found) => found == text && has_parents(store, path, node, parents),
        None => false,
    }
}

/// Whether a file revision that is held has these parents.
pub fn has_parents(store: &HgStore, path: &[u8], node: &Id, parents: (Id, Id)) -> bool
    ensures held { result ≡ true → AreFileParents store.now path.now node.now parents }
    ensures other { result ≡ false → AreFileParents store.now path.now node.now parents → ⊥ }
{
    match store.file_parents(path, node) {
        Some(found) => found.0 == parents.0 && found.1 == parents.1,
        None => false,
    }
}

/// The node of an entry; the null id where there is none.
pub fn node_or_null(entry: Option<&Entry>) -> Id
    ensures { result ≡ unwrap_or (option_map (λ e. e.node) (option_map manifest_entry (option_copied entry.entry))) null }
{
    match entry {
        Some(entry) => entry.node,
        None => Id::NULL,
    }
}

/// Two parents, of which one stands alone where they are the same; a null one last, else in rising order.
pub fn parents_over(p: Id, q: Id) -> (Id, Id)
    ensures { result ≡ file_text.manifest_order (rule.one_or_two p q).0 (rule.one_or_two p q).1 }
{
    let q = if p == q { Id::NULL } else { q };
    canonical_pair(p, q)
}

fn flag_of(mode: Mode) -> Flag
    ensures { file_flag result ≡ rule.flag_of_mode (mode_value mode) }
{
    match mode {
        Mode::File | Mode::Group | Mode::Dir | Mode::Gitlink => Flag::Plain,
        Mode::Exec => Flag::Exec,
        Mode::Link => Flag::Link,
    }
}

// A file with the node of its revision.
pub(crate) fn row_of(file: &FileRow, node: Id) -> Result<HgRow, NoMemory>
    ensures { IfOk result (λ row. row ≡ record { path = file.now.path; flag = rule.flag_of_mode file.now.mode; node = node; blob = file.now.id }) }
{
    Ok(HgRow {
        path: again(&file.path)?,
        flag: flag_of(file.mode()),
        node,
        blob: *file.blob(),
    })
}

// The text of a body that has no metadata of its own: the body itself, not copied, unless it begins with a mark.
fn plain_text(alloc: Global, body: &Text) -> Result<Text, NoMemory>
    ensures bytes { IsBytes body.now }
    ensures text { IfOk result (λ text. text ≡ file_text.file_text (plain_meta body.now) body.now) }
{
    let raw = body.as_slice();
    if !raw.starts_with(MARK) {
        return again(body);
    }
    let mut text = Vec::new(alloc);
    plain_into(&mut text, raw)?;
    keep(text)
}

/// The row of a file whose revision has this text and these parents, which stand in their order; and the revision where the store doesn't
/// hold it.
pub fn row_with_text(
    alloc: Global,
    store: &HgStore,
    file: &FileRow,
    parents: (Id, Id),
    text: Text,
) -> Result<RuledRow, NoMemory>
    requires text { (meta : Option (List ℕ)) × (body : List ℕ) × IsTextOver text meta body parents.0 parents.1 }
    ensures ok { IfOk result (λ made. (r : FileRevision) → IsRevisionOver r file.now.id parents.0 parents.1 text
        → IsMadeRow store.now made (row_with file.now.path (rule.flag_of_mode file.now.mode) r)) }
    ensures fresh { IfOk result (λ made. IsFresh store.now file.now.path made.fresh) }
{
    let node = node_id(&parents.0, &parents.1, text.as_slice());
    let row = row_of(file, node)?;
    if is_held(store, file.path(), &node, parents, text.as_slice()) {
        return Ok(RuledRow { row, fresh: None });
    }
    let fresh = FreshFile {
        path: Bytes::of(alloc, file.path())?,
        node,
        p: parents.0,
        q: parents.1,
        text,
    };
    Ok(RuledRow {
        row,
        fresh: Some(fresh),
    })
}

// The row of a new revision over those of the parents, whose body is the content of the file's blob.
fn new_row(
    alloc: Global,
    known: &Known,
    c: &GitDraft,
    file: &FileRow,
    first: Option<&Entry>,
    second: Option<&Entry>,
) -> Result<RuledRow, NoMemory>
    requires content { (t : TreeRow) × (t.id ≡ file.now.id) × IsBlobHeld (c.now.fresh ++ known.now.git) t }
    ensures ok { IfOk result (λ made. (r s : Option FileRevision) (t : TreeRow)
        → IsRowOf known.now.hg (c.now.fresh ++ known.now.git) file.now (option_map manifest_entry (option_copied first.entry)) (option_map manifest_entry (option_copied second.entry)) r s t
        → IsMadeRow known.now.hg made (row_with file.now.path (rule.flag_of_mode file.now.mode) (rule.new_revision r s t.content))) }
    ensures fresh { IfOk result (λ made. IsFresh known.now.hg file.now.path made.fresh) }
{
    let text = plain_text(alloc, content_text(known, c, file.blob()))?;
    let parents = parents_over(node_or_null(first), node_or_null(second));
    row_with_text(alloc, &known.hg, file, parents, text)
}

/// The file that the rule gives for a file of a commit: its revision is the first parent's where its body is the blob, else
/// the second's where its is, else a new one, whatever the length of its text.
pub fn make_row(
    alloc: Global,
    known: &Known,
    c: &GitDraft,
    file: &FileRow,
    first: Option<&Entry>,
    second: Option<&Entry>,
) -> Result<RuledRow, NoMemory>
    requires content { (t : TreeRow) × (t.id ≡ file.now.id) × IsBlobHeld (c.now.fresh ++ known.now.git) t }
    ensures ok { IfOk result (λ made. (r s : Option FileRevision) (t : TreeRow)
        → IsRowOf known.now.hg (c.now.fresh ++ known.now.git) file.now (option_map manifest_entry (option_copied first.entry)) (option_map manifest_entry (option_copied second.entry)) r s t
        → IsMadeRow known.now.hg made (row_with file.now.path (rule.flag_of_mode file.now.mode) (rule.ruled_revision r s t))) }
    ensures fresh { IfOk result (λ made. IsFresh known.now.hg file.now.path made.fresh) }
{
    let Some(node) = kept_node(&known.hg, first, second, file.blob()) else {
        return new_row(alloc, known, c, file, first, second);
    };
    let row = row_of(file, node)?;
    Ok(RuledRow { row, fresh: None })
}
