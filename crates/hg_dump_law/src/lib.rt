//! What is written as a bundle is read again: a law of `hg_dump`'s bundles and `hg_bundle`'s reading.
#![tactic(auto)]

mod laws;

pub use laws::written_is_read;
