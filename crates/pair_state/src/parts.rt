// The changesets of a block that come to a store.
ghost use Rattle.std.specs.Prelude.{◌≡◌, ◌++◌, ◌∷◌, [], true, false, Err, OnOk, IfOk, IfSome, List, map};
ghost use Rattle.hg_model.specs.Changeset.{changeset_text};
ghost use Rattle.hg_model.specs.Revision.{Revision};
ghost use Rattle.hg_store.specs.Known.{AreAdded};
ghost use Rattle.hg_changeset.specs.Values.{changeset_value};
ghost use Rattle.view_model.specs.View.{ChangesetView, changeset_node};
ghost use Rattle.pair_model.specs.Block.{Block};
ghost use Rattle.pair_state.specs.Came.{IsPartOver, ArePartsOf, PartsCame, PartsCollide};
ghost use Rattle.pair_state.specs.Step.{AreItsTexts};
ghost use Rattle.pair_state.specs.declared.fault.PushFault.TheVariants.{Collision};

use crate::fault::PushFault;
use crate::node_list::NodeList;
use crate::revisions::add_changeset;
use bridge_text::{Bytes, Id, IdList, NoMemory, node_id};
use hg_changeset::Changeset;
use hg_store::HgStore;
use pair_known::{DraftTexts, HgBlock, HgDraft};
use shared_text::{Text, keep};
use std::alloc::Global;

/// The nodes of a block's changesets.
#[derive(Drop)]
pub struct PartNodes {
    /// The nodes of its links.
    pub links: IdList,
    /// The node of its changeset.
    pub last: Id,
}

// Adds the revisions of the changesets of a block, none of which is saved. The texts were made for the last of them.
pub fn add_parts(
    alloc: Global,
    hg: &mut HgStore,
    saved: &NodeList,
    block: &HgBlock,
    texts: DraftTexts,
) -> Result<PartNodes, PushFault>
    requires parts { (blocks : List Block) × (ls : List ChangesetView) × (h : ChangesetView) × ArePartsOf hg.old saved.now block.now blocks ls h }
    requires texts { AreItsTexts block.now.last texts }
    ensures links { IfOk result (λ nodes. (blocks : List Block) (ls : List ChangesetView) (h : ChangesetView) → ArePartsOf hg.old saved.now block.now blocks ls h
        → nodes.links ≡ map changeset_node ls) }
    ensures last { IfOk result (λ nodes. (blocks : List Block) (ls : List ChangesetView) (h : ChangesetView) → ArePartsOf hg.old saved.now block.now blocks ls h
        → nodes.last ≡ changeset_node h) }
    ensures came { IfOk result (λ nodes. (blocks : List Block) (ls : List ChangesetView) (h : ChangesetView) → ArePartsOf hg.old saved.now block.now blocks ls h
        → PartsCame hg.old hg.new saved.now (ls ++ h ∷ [])) }
    ensures added { OnOk result (AreAdded hg.new) }
    ensures collision { result ≡ Err Collision → (blocks : List Block) (ls : List ChangesetView) (h : ChangesetView) → ArePartsOf hg.old saved.now block.now blocks ls h
        → PartsCollide hg.old saved.now (ls ++ h ∷ []) }
{
    let mut links = IdList::new(alloc);
    let list = block.links.as_slice();
    for link in list {
        let node = add_part(alloc, hg, saved, link, DraftTexts::none())?;
        links.push(node)?;
    }
    let last = add_part(alloc, hg, saved, &block.last, texts)?;
    Ok(PartNodes { links, last })
}

// Adds the revisions of a changeset that isn't saved, and gives its node.
fn add_part(
    alloc: Global,
    hg: &mut HgStore,
    saved: &NodeList,
    d: &HgDraft,
    texts: DraftTexts,
) -> Result<Id, PushFault>
    requires part { (base : List Revision) × (k : ChangesetView) × IsPartOver base hg.old d.now k }
    requires texts { AreItsTexts d.now texts }
    ensures node { IfOk result (λ node. (base : List Revision) (k : ChangesetView) → IsPartOver base hg.old d.now k → node ≡ changeset_node k) }
    ensures came { IfOk result (λ node. (base : List Revision) (k : ChangesetView) → IsPartOver base hg.old d.now k → PartsCame hg.old hg.new saved.now (k ∷ [])) }
    ensures added { OnOk result (AreAdded hg.new) }
    ensures collision { result ≡ Err Collision → (base : List Revision) (k : ChangesetView) → IsPartOver base hg.old d.now k → PartsCollide hg.old saved.now (k ∷ []) }
{
    let text = text_of_changeset(alloc, &d.changeset, texts.changeset)?;
    let node = node_id(&d.p1, &d.p2, text.as_slice());
    if saved.contains(&node) {
        return Err(PushFault::Collision);
    }
    add_changeset(alloc, hg, d, node, text, texts.manifest)?;
    Ok(node)
}

// The text of a changeset: the one that was made, or else a new one.
fn text_of_changeset(
    alloc: Global,
    changeset: &Changeset,
    made: Option<Bytes>,
) -> Result<Text, NoMemory>
    requires made { IfSome made (λ text. text ≡ changeset_text (changeset_value changeset.now)) }
    ensures { IfOk result (λ text. text ≡ changeset_text (changeset_value changeset.now)) }
{
    if let Some(text) = made {
        return keep(text.into_vec());
    }
    let mut text = Vec::new(alloc);
    changeset.write_into(&mut text)?;
    keep(text)
}
