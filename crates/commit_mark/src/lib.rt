//! The marks of a changeset, and its marked commit: the one that the rule gives, with a header for each part of the changeset that the rule
//! back would lose.
#![tactic(auto)]

mod commit;
mod entry;
mod fields;
mod file_parts;
mod marks;
mod over;
mod put;

pub use commit::mark_commit;
pub use marks::marks_of;
