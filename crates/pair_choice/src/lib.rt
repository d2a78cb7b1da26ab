//! The partner of a changeset or of a commit: the marked member of the other side where the depth of the member is even, else its unmarking.
#![tactic(auto)]

mod bodies;
mod changeset;
mod clash;
mod commit;
mod depth;
mod draft;
mod parents;
mod unmark;
mod within;

pub use changeset::pair_of_changeset;
pub use commit::pair_of_commit;
