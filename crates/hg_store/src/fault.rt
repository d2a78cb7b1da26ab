ghost use Rattle.std.specs.Prelude.{◌≡◌};
ghost use Rattle.hg_store.specs.declared.fault.AddFault.TheVariants.{Memory};

use bridge_text::NoMemory;
use thiserror::Error;

/// Why a revision was not added: the first of these, in this order, that holds.
#[derive(Clone, Copy, Debug, PartialEq, Eq, Error)]
pub enum AddFault {
    /// A changeset has a null first parent and another second one, or equal parents that aren't null.
    #[error("the parents of a changeset stand in the wrong order")]
    ParentOrder,
    /// A parent that isn't null is no known revision of the same kind and path.
    #[error("a parent is unknown")]
    ParentUnknown,
    /// The link of a changeset isn't the changeset itself, or that of another revision is no known changeset.
    #[error("the link is unknown")]
    LinkUnknown,
    /// The node isn't that of the parents and the text.
    #[error("the node isn't that of the parents and the text")]
    NodeWrong,
    /// The text is that of no changeset.
    #[error("the text is that of no changeset")]
    ChangesetShape,
    /// A line of the manifest has another form, or its path doesn't rise.
    #[error("the text is that of no manifest")]
    ManifestShape,
    /// The first line of the manifest that isn't right has a path that isn't fit.
    #[error("a path of the manifest isn't fit")]
    PathUnfit,
    /// The metadata of the file revision have no end.
    #[error("the metadata of the file revision have no end")]
    FileShape,
    /// The node is known with another text or other parents, or it is the null id.
    /// The parents of a changeset have an order, those of another revision don't.
    #[error("the node is known with another text or other parents")]
    Collision,
    /// Memory ran out.
    #[error("memory ran out")]
    Memory,
}

impl From<NoMemory> for AddFault {
    ghost from_gives = { λ _ fault. fault ≡ Memory };

    fn from(_error: NoMemory) -> AddFault {
        AddFault::Memory
    }
}

/// Why a changeset has no view.
#[derive(Clone, Copy, Debug, PartialEq, Eq, Error)]
pub enum ViewFault {
    /// No changeset has the node.
    #[error("the changeset is unknown")]
    ChangesetUnknown,
    /// The manifest that the changeset names is unknown.
    #[error("the manifest of the changeset is unknown")]
    ManifestUnknown,
    /// The file revision that this line of the manifest names, counted from 0, is the first that is unknown.
    #[error("the file revision of line {0} of the manifest is unknown")]
    FileUnknown(usize),
}
