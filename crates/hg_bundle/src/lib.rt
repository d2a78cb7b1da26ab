//! Bundles HG10UN: their entries, listed, or read into a store; and the writer of them.
#![tactic(auto)]

mod arrival;
mod entry;
mod fault;
mod gather;
mod laws;
mod line;
mod listing;
mod payload;
mod place;
mod read;

pub use arrival::{Arrival, Arrivals, RevKind, count_entries};
pub use fault::BundleFault;
pub use hg_dump::write;
pub use laws::bundles_are_listed;
pub use listing::list;
pub use read::read_into;
