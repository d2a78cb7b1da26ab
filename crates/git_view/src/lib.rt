//! Commits of a store with all that they stand for: laws of the views of what the store holds.
#![tactic(auto)]

mod laws;

pub use laws::commits_are_held;
