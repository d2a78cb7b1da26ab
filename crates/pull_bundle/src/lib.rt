//! The pull of a bundle: each changeset that it brings gets its commit. And which parents that a changeset names come too late.
#![tactic(auto)]

mod arrivals;
mod draft;
mod late;
mod left_over;
mod link;
mod pull;
mod read;
mod take;
mod taking;

pub use late::{has_late_parent, is_file_late, is_manifest_late};
pub use pull::pull_hg;
