ghost use Rattle.std.specs.Prelude.{◌≡◌, ◌++◌};
ghost use Rattle.sha1.specs.Sha1.{sha1};
ghost use Rattle.text_model.specs.Id as id;
ghost use Rattle.bridge_text.specs.Kinds.{object_kind};

use crate::id::Id;
use crate::kind::Kind;
use itoa::Buffer;
use sha1::Sha1;
use std::cmp::Ordering;

/// The node of a Mercurial revision with these two parents, in any order, and this text:
/// SHA-1 (FIPS 180-4) of the smaller parent's 20 bytes, the larger one's and the text.
/// This is the node of Mercurial's help topic `internals.revlogs`.
#[tactic(auto, unfolding(text_model::specs::Id::node_id))]
pub fn node_id(p: &Id, q: &Id, text: &[u8]) -> Id
    ensures { result ≡ id.node_id p.now q.now text.now }
{
    match q.cmp(p) {
        Ordering::Less => digest_of(q, p, text),
        Ordering::Equal | Ordering::Greater => digest_of(p, q, text),
    }
}

fn digest_of(first: &Id, second: &Id, text: &[u8]) -> Id
    ensures { result ≡ sha1 (first.now ++ second.now ++ text.now) }
{
    let mut hasher = Sha1::new();
    hasher.update(&first.bytes());
    hasher.update(&second.bytes());
    hasher.update(text);
    Id::new(hasher.finalize())
}

/// The id of a Git object: SHA-1 (FIPS 180-4) of the kind's word, a space, the size of the
/// content in decimal, a NUL and the content. This is the id that `git hash-object` prints.
#[tactic(auto, unfolding(text_model::specs::Id::object_id))]
pub fn object_id(kind: Kind, content: &[u8]) -> Id
    ensures { result ≡ id.object_id (object_kind kind) content.now }
{
    let mut size = Buffer::new();
    let mut hasher = Sha1::new();
    hasher.update(kind.word());
    hasher.update(b" ");
    hasher.update(size.format(content.len()).as_bytes());
    hasher.update(b"\0");
    hasher.update(content);
    Id::new(hasher.finalize())
}
