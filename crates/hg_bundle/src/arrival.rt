ghost use Rattle.std.specs.Prelude.{◌≡◌};
ghost use Rattle.hg_bundle.specs.Arrivals.{count_of_kind};

use bridge_text::{Bytes, Id, List};

/// What a revision is of.
#[derive(Clone, Copy, Debug, PartialEq, Eq)]
pub enum RevKind {
    Changeset,
    Manifest,
    File,
}

/// An entry of a bundle that was read into a store.
#[derive(Debug, Drop)]
pub struct Arrival {
    pub kind: RevKind,
    /// The path of a file; no bytes for a changeset or a manifest.
    pub path: Bytes,
    pub node: Id,
    /// The offset of the entry in the bundle.
    pub at: u64,
    /// Whether the revision wasn't known before.
    pub fresh: bool,
}

/// The entries of a bundle, in its order. Contracts see the list.
pub type Arrivals = List<Arrival>;

/// How many of the entries are of a kind.
pub fn count_entries(arrivals: &Arrivals, kind: RevKind) -> usize
    ensures { result ≡ count_of_kind kind arrivals.now }
{
    arrivals
        .as_slice()
        .iter()
        .filter(|a| a.kind == kind)
        .count()
}
