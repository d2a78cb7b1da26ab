//! Laws of what commands come to: an outcome of a listing or check tells whether its bytes are a bundle or a stream, and a pull has at most one outcome.
#![tactic(auto)]

mod formats;
mod pulls;

pub use formats::{outcomes_of_bundles, outcomes_of_streams};
pub use pulls::pulls_come_to_one;
