// Contents whose ids are known.
ghost use Rattle.std.specs.Prelude.{◌≡◌, true, bytes_eq};
ghost use Rattle.text_model.specs.Id.{blob, object_id};
ghost use Rattle.bridge_text.specs.Kinds.{object_kind};

use bridge_text::{Id, Kind, object_id};

/// Blobs whose ids are known, so that their contents needn't be hashed again.
pub trait Contents {
    /// Whether these bytes are known to be the content of the blob with this id. `false` says nothing.
    fn has_blob(&self, id: &Id, content: &[u8]) -> bool
        ensures { result ≡ true → object_id blob content.now ≡ id.now };
}

/// No blob is known.
#[derive(Clone, Copy, Debug)]
pub struct NoContents;

impl Contents for NoContents {
    fn has_blob(&self, _id: &Id, _content: &[u8]) -> bool {
        false
    }
}

/// Whether an object of this kind with this content has this id. The content of a blob that is known isn't hashed.
pub fn has_id<C: Contents>(known: &C, kind: Kind, id: &Id, content: &[u8]) -> bool
    ensures { result ≡ bytes_eq id.now (object_id (object_kind kind) content.now) }
{
    (kind == Kind::Blob && known.has_blob(id, content)) || object_id(kind, content) == *id
}
