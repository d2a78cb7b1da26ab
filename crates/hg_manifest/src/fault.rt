ghost use Rattle.std.specs.Prelude.{◌≡◌};
ghost use Rattle.hg_manifest.specs.declared.fault.ManifestFault.TheVariants.{Memory};

use bridge_text::NoMemory;
use std::alloc::AllocFailed;
use std::fmt;
use thiserror::Error;

/// Why a text is no manifest. A place is the offset of the first line that doesn't fit.
#[derive(Clone, Copy, Debug, PartialEq, Eq, Error)]
pub enum ManifestFault {
    /// The line isn't a path, NUL, 40 lower case hex digits, a flag and LF, or its path doesn't stand after that of the line before.
    #[error("the line at offset {0} is none of a manifest, or it doesn't rise")]
    Shape(usize),
    /// The line has that form and rises, and its path isn't fit.
    #[error("the path of the line at offset {0} isn't fit")]
    PathUnfit(usize),
    /// Memory ran out.
    #[error("memory ran out")]
    Memory,
}

impl From<NoMemory> for ManifestFault {
    ghost from_gives = { λ _ fault. fault ≡ Memory };

    fn from(_error: NoMemory) -> ManifestFault {
        ManifestFault::Memory
    }
}

impl<T: Drop> From<AllocFailed<T>> for ManifestFault {
    ghost from_gives = { λ _ fault. fault ≡ Memory };

    fn from(_error: AllocFailed<T>) -> ManifestFault {
        ManifestFault::Memory
    }
}
