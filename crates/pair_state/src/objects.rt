// Objects of a commit that come to a store.
ghost use Rattle.std.specs.Prelude.{◌≡◌, ◌++◌, [], ◌∷◌, Err, None, OnOk};
ghost use Rattle.text_model.specs.Id as kinds;
ghost use Rattle.text_model.specs.Id.{object_id};
ghost use Rattle.text_model.specs.Lists.{Each};
ghost use Rattle.bridge_text.specs.Kinds.{object_kind};
ghost use Rattle.git_model.specs.Object.{content_fault};
ghost use Rattle.git_store.specs.Known.{AreKnown, object_with};
ghost use Rattle.git_store.specs.Growth.{IsRight, HasGrown, Clash};
ghost use Rattle.pair_state.specs.declared.fault.PushFault.TheVariants.{Collision};

use crate::fault::PushFault;
use bridge_text::{Id, Kind};
use git_store::{GitAddFault, GitStore};
use pair_known::FreshBlobs;
use shared_text::{Text, keep};
use tree_shape::TreeList;

// Adds an object, whose content is right.
pub fn add_object(git: &mut GitStore, id: Id, kind: Kind, content: Text) -> Result<(), PushFault>
    requires its_id { object_id (object_kind kind) content ≡ id }
    requires fits { content_fault (object_kind kind) content ≡ None }
    ensures ok { OnOk result (HasGrown git.old git.new (object_with id kind content ∷ [])) }
    ensures sound { OnOk result (AreKnown git.new) }
    ensures collision { result ≡ Err Collision → Clash git.old (object_with id kind content ∷ []) }
{
    match git.add(id, kind, content) {
        Ok(_) => Ok(()),
        Err(GitAddFault::Collision) => Err(PushFault::Collision),
        Err(GitAddFault::Memory) => Err(PushFault::Memory),
        Err(GitAddFault::ObjectShape) => unreachable!(),
        Err(GitAddFault::ModeOut) => unreachable!(),
        Err(GitAddFault::NameUnfit) => unreachable!(),
        Err(GitAddFault::ParentTwice) => unreachable!(),
        Err(GitAddFault::ParentLimit) => unreachable!(),
    }
}

// Adds blobs, not copied.
pub fn add_blobs(git: &mut GitStore, blobs: FreshBlobs) -> Result<(), PushFault>
    requires right { Each IsRight blobs }
    ensures ok { OnOk result (HasGrown git.old git.new blobs) }
    ensures collision { result ≡ Err Collision → Clash git.old blobs }
{
    for blob in blobs.into_vec() {
        add_object(git, blob.id, Kind::Blob, blob.content)?;
    }
    Ok(())
}

// Adds trees, not copied.
pub fn add_trees(git: &mut GitStore, trees: TreeList) -> Result<(), PushFault>
    requires right { Each IsRight trees }
    ensures ok { OnOk result (HasGrown git.old git.new trees) }
    ensures collision { result ≡ Err Collision → Clash git.old trees }
{
    for tree in trees.into_vec() {
        let content = keep(tree.content.into_vec())?;
        add_object(git, tree.id, Kind::Tree, content)?;
    }
    Ok(())
}
