ghost use Rattle.std.specs.Prelude.{◌≡◌, ◌++◌, ◌↔◌, ℕ, List, Option, option_map, IsTrue};
ghost use Rattle.hg_model.specs.FileText as model;
ghost use Rattle.hg_model.specs.FileText.{IsFileText};
ghost use Rattle.view_model.specs.View.{FileRevision, Row};
ghost use Rattle.commit_rule.specs.Parts.{IsRowOf};
ghost use Rattle.commit_mark.specs.Parts.{ArePartsOf, SaysTheSame};

use bridge_text::Id;
use hg_filelog::{file_order, split};
use hg_store::HgStore;
use pair_known::{FreshFiles, HgRow};

/// What a file revision says, lent.
#[derive(Drop)]
pub struct FileParts<'a> {
    /// The first parent in canonical order, or the null id.
    pub p: Id,
    /// The second parent, or the null id.
    pub q: Id,
    /// The metadata; `None` where the text has no place for any.
    pub meta: Option<&'a [u8]>,
    /// The body.
    pub body: &'a [u8],
}

/// What the revision of a row says, which a draft brings or else the store holds.
pub fn parts_of<'a>(store: &'a HgStore, fresh: &'a FreshFiles, row: &HgRow) -> FileParts<'a>
    requires held { (w : Row) × IsRowOf (fresh.now ++ store.now) row.now w }
    ensures { (w : Row) → IsRowOf (fresh.entry.now ++ store.entry.now) row.now w → ArePartsOf result w.revision }
{
    match fresh.get(row.path.as_slice(), &row.node) {
        Some(file) => parts_with(file.text.as_slice(), file.p, file.q),
        None => stored_parts(store, row),
    }
}

/// What the revision of a row says, which the store holds.
pub fn stored_parts<'a>(store: &'a HgStore, row: &HgRow) -> FileParts<'a>
    requires held { (w : Row) × IsRowOf store.now row.now w }
    ensures { (w : Row) → IsRowOf store.entry.now row.now w → ArePartsOf result w.revision }
{
    let path = row.path.as_slice();
    let Some(parents) = store.file_parents(path, &row.node) else {
        unreachable!()
    };
    match store.file_text(path, &row.node) {
        Some(text) => {
            let (meta, body) = split_text(text);
            FileParts {
                p: parents.0,
                q: parents.1,
                meta,
                body,
            }
        }
        None => unreachable!(),
    }
}

// What a revision says with this text and these parents in any order.
fn parts_with(text: &[u8], p: Id, q: Id) -> FileParts<'_>
    requires spells { (meta : Option (List ℕ)) × (body : List ℕ) × IsFileText text.now meta body }
    ensures spells { IsFileText text.entry.now (option_map (λ m. m.now) result.meta) result.body.now }
    ensures order { (result.p, result.q) ≡ model.file_order (option_map (λ m. m.now) result.meta) p q }
{
    let (meta, body) = split_text(text);
    let (p, q) = file_order(meta, p, q);
    FileParts { p, q, meta, body }
}

// The metadata and the body of a text.
fn split_text(text: &[u8]) -> (Option<&[u8]>, &[u8])
    requires spells { (meta : Option (List ℕ)) × (body : List ℕ) × IsFileText text.now meta body }
    ensures { IsFileText text.entry.now (option_map (λ m. m.now) result.0) result.1.now }
{
    match split(text) {
        Ok(parts) => parts,
        Err(_) => unreachable!(),
    }
}

impl FileParts<'_> {
    /// Whether these are the parents, in this order.
    pub fn has_parents(&self, parents: (Id, Id)) -> bool
        ensures { IsTrue result ↔ (self.now.p ≡ parents.0) × (self.now.q ≡ parents.1) }
    {
        self.p == parents.0 && self.q == parents.1
    }

    /// Whether another revision has the same parents and the same metadata.
    pub fn says_the_same(&self, other: &FileParts<'_>) -> bool
        ensures { (r s : FileRevision) → ArePartsOf self.now r → ArePartsOf other.now s → (IsTrue result ↔ SaysTheSame r s) }
    {
        self.p == other.p && self.q == other.q && self.meta == other.meta
    }
}
