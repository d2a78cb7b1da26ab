// The bodies of a changeset's files, beside the blobs of a store.
ghost use Rattle.std.specs.Prelude.{◌≡◌, ◌&&◌, true, false, List, IfSome, bytes_eq};
ghost use Rattle.text_model.specs.Id.{blob, same_kind};
ghost use Rattle.bridge_text.specs.Kinds.{object_kind};
ghost use Rattle.text_model.specs.Lists.{Each, SomeOf};
ghost use Rattle.hg_model.specs.Revision.{Revision};
ghost use Rattle.git_model.specs.Object.{Object};
ghost use Rattle.tree_shape.specs.Laws.{IsKnown};
ghost use Rattle.view_model.specs.View.{ChangesetView};
ghost use Rattle.hg_manifest.specs.Values.{manifest_entry};
ghost use Rattle.pair_state.specs.Blocks.{body_blob};
ghost use Rattle.pair_state.specs.Step.{AreBlobs, HaveBlobs, IsAskedLine, IsAskedOf, IsBlobLine, IsElse, IsElseLine};

use bridge_text::{Id, IdSet, Kind};
use git_object::Objects;
use hg_dump::lines_of;
use hg_filelog::split;
use hg_manifest::{Beside, Cursor, Entry, Near};
use hg_store::HgStore;
use pair_known::Known;

/// Whether the blob of each file of a changeset, which is held, is its body. Such a blob is an object of the store by its id, which need not be
/// that of the body. A file with the revision that an agreed parent has needs no look at its body: that of the parent is a blob of the store. Of
/// the files that the first parent has too, whole blocks are passed over.
pub fn have_bodies(known: &Known, agreed: &IdSet, node: &Id) -> bool
    requires held { (v : ChangesetView) × IsAskedOf known.now.hg known.now.git node.now v }
    requires agreed { HaveBlobs known.now.hg known.now.git agreed.now }
    ensures yes { result ≡ true → (v : ChangesetView) → IsAskedOf known.now.hg known.now.git node.now v
        → Each (λ x. IsKnown known.now.git (body_blob x)) v.rows }
    ensures otherwise { result ≡ false → (v : ChangesetView) → IsAskedOf known.now.hg known.now.git node.now v
        → SomeOf v.rows (λ x. IsElse known.now.git (body_blob x)) }
{
    let (p1, p2) = known.hg.parents_of(node).unwrap();
    let lines = lines_of(&known.hg, node);
    let near = lines_near(&known.hg, agreed, &p1);
    have_blobs(known, lines, near, walk_of(&known.hg, agreed, &p2))
}

// The lines of a parent's manifest, where the parent is agreed, and else none.
fn lines_near<'a>(hg: &'a HgStore, agreed: &IdSet, parent: &Id) -> Near<'a>
    ensures { (git : List Object) → HaveBlobs hg.now git agreed.now → AreBlobs hg.now git result }
{
    if !agreed.contains(parent) {
        return Near::none();
    }
    match hg.lines_of_changeset(parent) {
        Some((_, lines)) => lines,
        None => Near::none(),
    }
}

// A walk through the manifest of a parent, where the parent is agreed.
fn walk_of<'a>(hg: &'a HgStore, agreed: &IdSet, parent: &Id) -> Option<Cursor<'a>>
    ensures { IfSome result (λ entries. (git : List Object) → HaveBlobs hg.now git agreed.now → AreBlobs hg.now git entries) }
{
    if !agreed.contains(parent) {
        return None;
    }
    match hg.manifest_of_changeset(parent) {
        Some((_, manifest)) => Some(Cursor::new(manifest)),
        None => None,
    }
}

// Whether the blob of each line's file is its body, where that is so of the lines that are near, and of those of the second parent.
fn have_blobs<'a>(
    known: &Known,
    lines: Near<'a>,
    near: Near<'a>,
    mut second: Option<Cursor<'_>>,
) -> bool
    requires lines { Each (IsAskedLine known.now.hg known.now.git) lines }
    requires near { AreBlobs known.now.hg known.now.git near }
    requires second { IfSome second (AreBlobs known.now.hg known.now.git) }
    ensures yes { result ≡ true → AreBlobs known.now.hg known.now.git lines.entry }
    ensures otherwise { result ≡ false → SomeOf lines.entry (IsElseLine known.now.hg known.now.git) }
{
    let mut walk = Beside::of(lines, near, None);
    while let Some(line) = walk.next() {
        if !has_blob(known, line, &mut second) {
            return false;
        }
    }
    true
}

// Whether the blob of a line's file is its body, where that is so of the lines of the second parent.
fn has_blob(known: &Known, line: &Entry, second: &mut Option<Cursor<'_>>) -> bool
    requires line { IsAskedLine known.now.hg known.now.git (manifest_entry line.now) }
    requires second { IfSome second.old (AreBlobs known.now.hg known.now.git) }
    ensures yes { result ≡ true → IsBlobLine known.now.hg known.now.git (manifest_entry line.now) }
    ensures otherwise { result ≡ false → IsElseLine known.now.hg known.now.git (manifest_entry line.now) }
    ensures same { second.new ≡ second.old }
{
    is_kept(line, second) || has_body(known, line)
}

// Whether a parent has the file with the same revision.
fn is_kept(line: &Entry, parent: &mut Option<Cursor<'_>>) -> bool
    ensures kept { result ≡ true → (hg : List Revision) (git : List Object) → IfSome parent.old (AreBlobs hg git)
        → IsBlobLine hg git (manifest_entry line.now) }
    ensures same { parent.new ≡ parent.old }
{
    match parent {
        Some(walk) => walk.has_line(line.path.as_slice(), &line.node),
        None => false,
    }
}

// Whether the blob of a line's file is its body.
fn has_body(known: &Known, line: &Entry) -> bool
    requires line { IsAskedLine known.now.hg known.now.git (manifest_entry line.now) }
    ensures yes { result ≡ true → IsBlobLine known.now.hg known.now.git (manifest_entry line.now) }
    ensures otherwise { result ≡ false → IsElseLine known.now.hg known.now.git (manifest_entry line.now) }
{
    let path = line.path.as_slice();
    let text = known.hg.file_text(path, &line.node).unwrap();
    let body = match split(text) {
        Ok((_, body)) => body,
        Err(_) => unreachable!(),
    };
    let blob = known.hg.file_blob(path, &line.node).unwrap();
    match known.git.content(&blob) {
        Some((kind, content)) => is_blob_of(kind, content, body),
        None => unreachable!(),
    }
}

// Whether an object of this kind and content is the blob of a body.
fn is_blob_of(kind: Kind, content: &[u8], body: &[u8]) -> bool
    ensures { result ≡ (same_kind blob (object_kind kind) && bytes_eq body.now content.now) }
{
    is_blob(kind) && body == content
}

fn is_blob(kind: Kind) -> bool
    ensures { result ≡ same_kind blob (object_kind kind) }
{
    kind == Kind::Blob
}
