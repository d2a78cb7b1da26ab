ghost use Rattle.std.specs.Prelude.{◌≡◌};
ghost use Rattle.tree_shape.specs.declared.fault.BuildFault.TheVariants as build;
ghost use Rattle.tree_shape.specs.declared.fault.TreeFault.TheVariants as tree;

use bridge_text::{Id, NoMemory};
use std::alloc::AllocFailed;
use thiserror::Error;

/// Why a tree stands for no files: the first refusal of a walk through it, depth first, an entry before what lies below
/// it.
#[derive(Clone, Copy, Debug, PartialEq, Eq, Error)]
pub enum TreeFault {
    /// The root, or the object of an entry, is unknown or isn't of the kind that is due.
    #[error("an object of a tree is unknown")]
    ObjectUnknown(Id),
    /// The whole path of an entry isn't fit.
    #[error("a path isn't fit")]
    PathUnfit,
    /// The rows, each counted as its path's bytes and 42, pass 2^26.
    #[error("a tree stands for too many files")]
    Limit,
    /// Memory ran out.
    #[error("out of memory")]
    Memory,
}

impl From<NoMemory> for TreeFault {
    ghost from_gives = { λ _ fault. fault ≡ tree.Memory };

    fn from(_error: NoMemory) -> TreeFault {
        TreeFault::Memory
    }
}

impl<T: Drop> From<AllocFailed<T>> for TreeFault {
    ghost from_gives = { λ _ fault. fault ≡ tree.Memory };

    fn from(_error: AllocFailed<T>) -> TreeFault {
        TreeFault::Memory
    }
}

/// Why files are those of no tree.
#[derive(Clone, Copy, Debug, PartialEq, Eq, Error)]
pub enum BuildFault {
    /// The path of the row at this place lies below the path of an earlier row, as `a/b` below `a`. It is the first such
    /// row.
    #[error("the path of row {0} lies below that of a file")]
    PathClash(usize),
    /// Memory ran out.
    #[error("out of memory")]
    Memory,
}

impl From<NoMemory> for BuildFault {
    ghost from_gives = { λ _ fault. fault ≡ build.Memory };

    fn from(_error: NoMemory) -> BuildFault {
        BuildFault::Memory
    }
}
