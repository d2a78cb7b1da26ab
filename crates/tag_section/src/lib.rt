//! The kept tags of a saved state, read from their stream.
#![tactic(auto)]

mod kept;
mod stream;
mod tags;

pub use tags::{TagSection, read_tags};
