//! The audit of a saved history: whether each block is the one that its changeset gets, and its blobs are the bodies.
#![tactic(auto)]

mod audit;
mod checked;
mod files;
mod judge;
mod kept;
mod late;
mod partner;
mod seen;
mod verdict;

pub use audit::verify;
pub use verdict::Verdict;
