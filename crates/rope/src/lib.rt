//! A text in pieces, which grows at its end.
#![tactic(auto)]

mod rope;

pub use rope::Rope;
