ghost use Rattle.std.specs.Prelude.{◌≡◌};
ghost use Rattle.git_object.specs.declared.fault.CommitFault.TheVariants as commit;
ghost use Rattle.git_object.specs.declared.fault.TagFault.TheVariants as tag;
ghost use Rattle.git_object.specs.declared.fault.TreeReadFault.TheVariants as tree;

use bridge_text::NoMemory;
use std::alloc::AllocFailed;
use thiserror::Error;

/// Why no commit was read.
#[derive(Clone, Copy, Debug, PartialEq, Eq, Error)]
pub enum CommitFault {
    /// The content is no commit's. This is the offset of the first line that doesn't fit.
    #[error("no line of a commit at offset {0}")]
    Shape(usize),
    /// Memory ran out.
    #[error("out of memory")]
    Memory,
}

impl From<NoMemory> for CommitFault {
    ghost from_gives = { λ _ fault. fault ≡ commit.Memory };

    fn from(_error: NoMemory) -> CommitFault {
        CommitFault::Memory
    }
}

/// Why no tag was read.
#[derive(Clone, Copy, Debug, PartialEq, Eq, Error)]
pub enum TagFault {
    /// The content is no tag's. This is the offset of the first line that doesn't fit.
    #[error("no line of a tag at offset {0}")]
    Shape(usize),
    /// Memory ran out.
    #[error("out of memory")]
    Memory,
}

impl From<NoMemory> for TagFault {
    ghost from_gives = { λ _ fault. fault ≡ tag.Memory };

    fn from(_error: NoMemory) -> TagFault {
        TagFault::Memory
    }
}

/// Why no tree was read. Each offset is that of the first entry that doesn't fit.
#[derive(Clone, Copy, Debug, PartialEq, Eq, Error)]
pub enum TreeReadFault {
    /// The entry is cut, its mode isn't octal digits, it doesn't stand above the entry before it,
    /// or its name stands in an earlier entry.
    #[error("no entry of a tree at offset {0}")]
    Shape(usize),
    /// The mode of the entry is none of those that a tree may have here.
    #[error("a mode that isn't taken at offset {0}")]
    ModeOut(usize),
    /// The name of the entry isn't fit.
    #[error("a name that isn't fit at offset {0}")]
    NameUnfit(usize),
    /// Memory ran out.
    #[error("out of memory")]
    Memory,
}

impl From<NoMemory> for TreeReadFault {
    ghost from_gives = { λ _ fault. fault ≡ tree.Memory };

    fn from(_error: NoMemory) -> TreeReadFault {
        TreeReadFault::Memory
    }
}

impl<T: Drop> From<AllocFailed<T>> for TreeReadFault {
    ghost from_gives = { λ _ fault. fault ≡ tree.Memory };

    fn from(_error: AllocFailed<T>) -> TreeReadFault {
        TreeReadFault::Memory
    }
}
