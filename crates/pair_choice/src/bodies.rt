// Whether the blobs of a commit are the bodies of its changeset.
ghost use Rattle.std.specs.Prelude.{◌≡◌, ◌++◌, ◌↔◌, List, option_map, IsTrue};
ghost use Rattle.text_model.specs.Lists.{Each};
ghost use Rattle.text_model.specs.Id.{blob};
ghost use Rattle.git_model.specs.Object.{AreObjects};
ghost use Rattle.git_store.specs.Known.{content_at};
ghost use Rattle.view_model.specs.View.{Row};
ghost use Rattle.commit_rule.specs.Parts.{IsRowOf, AreRowsOf};
ghost use Rattle.pair_choice.specs.Bodies.{IsBodyAlone};

use bridge_text::{Id, Kind};
use commit_rule::body_of;
use git_object::Objects;
use pair_known::{GitDraft, HgDraft, HgRow, Known};

// The content of the blob with this id, which the store holds or else the draft brings; `None` too where an object with it is no blob.
fn content_of<'a>(known: &'a Known, d: &'a GitDraft, id: &Id) -> Option<&'a [u8]>
    ensures content { option_map (λ content. content.now) result ≡ content_at blob (known.entry.now.git ++ d.entry.now.fresh) id.now }
    ensures objects { AreObjects known.entry.now.git }
{
    match known.git.content(id) {
        Some((Kind::Blob, content)) => Some(content),
        Some((Kind::Tree, _)) => None,
        Some((Kind::Commit, _)) => None,
        Some((Kind::Tag, _)) => None,
        None => match d.fresh.get(id) {
            Some(blob) => Some(blob.content.as_slice()),
            None => None,
        },
    }
}

// Whether the object that has the blob id of a file is the file's body.
fn has_body(known: &Known, h: &HgDraft, d: &GitDraft, row: &HgRow) -> bool
    requires held { (r : Row) × IsRowOf (h.now.fresh ++ known.now.hg) row.now r }
    ensures { (r : Row) → IsRowOf (h.now.fresh ++ known.now.hg) row.now r → (IsTrue result ↔ IsBodyAlone known.now.git d.now.fresh r) }
{
    match content_of(known, d, &row.blob) {
        Some(content) => content == body_of(known, h, row),
        None => false,
    }
}

/// Whether the objects that have the blob ids of a changeset's files, which the store holds or the draft of a commit brings, are their bodies.
pub fn has_bodies(known: &Known, h: &HgDraft, d: &GitDraft) -> bool
    requires held { (rows : List Row) × AreRowsOf (h.now.fresh ++ known.now.hg) h.now.rows rows }
    ensures { (rows : List Row) → AreRowsOf (h.now.fresh ++ known.now.hg) h.now.rows rows → (IsTrue result ↔ Each (IsBodyAlone known.now.git d.now.fresh) rows) }
{
    let rows = h.rows.as_slice();
    for row in rows {
        if !has_body(known, h, d, row) {
            return false;
        }
    }
    true
}
