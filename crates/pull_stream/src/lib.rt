//! The pull of a stream of objects: each commit that it brings gets its changeset.
#![tactic(auto)]

mod commits;
mod late;
mod objects;
mod ordering;
mod place;
mod pull;
mod take;
mod taking;

pub use pull::pull_git;
