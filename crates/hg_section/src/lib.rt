//! The changesets of a saved state, read from their dump.
#![tactic(auto)]

mod nodes;
mod read;
mod section;
mod written;

pub use section::{HgSection, read_changesets};
