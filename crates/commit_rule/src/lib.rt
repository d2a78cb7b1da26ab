//! The plain rule from a changeset to its commit.
#![tactic(auto)]

mod fields;
mod fits;
mod fresh;
mod near_blobs;
mod rows;
mod rule;
mod trees;

pub use fields::author_of;
pub use fits::{bodies_fit, commit_fits};
pub use fresh::{body_of, fresh_blobs};
pub use rows::files_of;
pub use rule::{make_commit, rule_commit};
pub use trees::{tree_of_partner, trees_over};
