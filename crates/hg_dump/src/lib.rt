//! Bundles HG10UN of changesets that a store holds, without what earlier ones refer to (help topics `internals.bundles`
//! and `internals.changegroups`). The order of the entries and the form of the deltas are this project's own.
#![tactic(auto)]

mod brought;
mod bundle;
mod dump;
mod entry;
mod group;
mod held;
mod length;
mod references;
mod refers;
mod strip;

pub use bundle::{read_is_dump, write, written_len};
pub use dump::Dump;
pub use held::are_held;
pub use refers::{Refers, lines_of, manifest_of};
