//! Laws of what the definitions say of pulls: a pull comes to one thing.
#![tactic(auto)]

mod laws;

pub use laws::{bundle_outcome_is_one, stream_outcome_is_one};
