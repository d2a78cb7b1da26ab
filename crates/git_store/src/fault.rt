// Why an object was not added.
ghost use Rattle.std.specs.Prelude.{◌≡◌};
ghost use Rattle.git_store.specs.Faults.{name_of};
ghost use Rattle.git_store.specs.declared.fault.GitAddFault.TheVariants.{Memory};

use bridge_text::{Fault, NoMemory};
use thiserror::Error;

/// Why an object was not added: the first of these, in this order, that holds.
#[derive(Clone, Copy, Debug, PartialEq, Eq, Error)]
pub enum GitAddFault {
    /// The content isn't that of an object of its kind. In a tree the first entry that isn't right is cut, has a mode
    /// that isn't octal digits, doesn't stand above the one before it, or has the name of an earlier one.
    #[error("the content isn't that of an object of its kind")]
    ObjectShape,
    /// The first entry of the tree that isn't right has a mode other than `100644`, `100664`, `100755`, `120000`, `40000`
    /// and `160000`.
    #[error("an entry of the tree has a mode that isn't taken")]
    ModeOut,
    /// The first entry of the tree that isn't right has a name that isn't fit.
    #[error("a name in the tree isn't fit")]
    NameUnfit,
    /// The commit names a parent twice.
    #[error("the commit names a parent twice")]
    ParentTwice,
    /// The commit has more than 64 parents.
    #[error("the commit has more than 64 parents")]
    ParentLimit,
    /// The id is known with another kind or content.
    #[error("the id is known with another kind or content")]
    Collision,
    /// Memory ran out.
    #[error("out of memory")]
    Memory,
}

impl GitAddFault {
    /// The word that is printed: the variant's name.
    #[tactic(auto, unfolding(text_model::specs::Fault::fault_word))]
    pub fn name(&self) -> &'static [u8]
        ensures { result.now ≡ name_of self.now }
    {
        match self {
            GitAddFault::ObjectShape => Fault::ObjectShape.name(),
            GitAddFault::ModeOut => Fault::ModeOut.name(),
            GitAddFault::NameUnfit => Fault::NameUnfit.name(),
            GitAddFault::ParentTwice => Fault::ParentTwice.name(),
            GitAddFault::ParentLimit => Fault::ParentLimit.name(),
            GitAddFault::Collision => Fault::Collision.name(),
            GitAddFault::Memory => b"Memory",
        }
    }
}

impl From<NoMemory> for GitAddFault {
    ghost from_gives = { λ _ fault. fault ≡ Memory };

    fn from(_error: NoMemory) -> GitAddFault {
        GitAddFault::Memory
    }
}
