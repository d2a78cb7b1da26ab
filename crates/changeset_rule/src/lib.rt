//! The rule of a commit: its changeset.
#![tactic(auto)]

mod fields;
mod fits;
mod parents;
mod rule;

pub use fits::changeset_fits;
pub use parents::{ParentNodes, parent_nodes, parent_with};
pub use rule::{make_changeset, rule_changeset};
