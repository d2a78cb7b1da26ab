//! Changesets of a store with all that they stand for: laws of the views that a store lends.
#![tactic(auto)]

mod laws;

pub use laws::views_are_held;
