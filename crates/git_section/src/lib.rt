//! The Git section of a saved state: its commits, read from their dump.
#![tactic(auto)]

mod commits;
mod section;
mod walks;

pub use commits::read_commits;
pub use section::GitSection;
