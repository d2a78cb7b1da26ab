ghost use Rattle.std.specs.Prelude.{◌≡◌, ◌++◌, [], ◌∷◌, OnOk};

use bridge_text::NoMemory;
use std::alloc::Global;
use std::marker::Model;

/// Which entries of a manifest another one may lack, near which it was read, as a parent's. Contracts see for each of them how many entries stand
/// between it and the one before.
#[derive(Drop)]
pub struct Newer {
    gaps: Vec<usize>,
}

impl Model for Newer {
    ghost use Rattle.std.specs.Prelude.{List, ℕ};

    ghost Value = { List ℕ };

    ghost view = { λ n. n.gaps.items };
}

impl Newer {
    // None.
    pub(crate) fn new(alloc: Global) -> Newer
        ensures { result ≡ [] }
    {
        Newer {
            gaps: Vec::new(alloc),
        }
    }

    // Adds an entry, so many behind the last one.
    pub(crate) fn push(&mut self, gap: usize) -> Result<(), NoMemory>
        ensures { OnOk result (self.new ≡ self.old ++ gap ∷ []) }
    {
        Ok(self.gaps.push(gap)?)
    }

    // The gaps.
    pub(crate) fn gaps(&self) -> &[usize]
        ensures { result.now ≡ self.now }
    {
        &self.gaps
    }
}
