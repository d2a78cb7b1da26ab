//! Pulls over a saved state: a bundle or a stream is taken into it with its tags and within its limits, and what it brings to the other side is
//! made.
#![tactic(auto)]

mod git;
mod hg;
mod limit;
mod pulled;
mod tags;

pub use git::pull_git;
pub use hg::pull_hg;
pub use pull_outcome::{Fault, PullFault};
pub use pulled::Pulled;
