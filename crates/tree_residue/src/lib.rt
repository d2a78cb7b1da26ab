//! What a tree has beside the files that a changeset can hold: files that their group may write, commits of other
//! repositories and empty subtrees. What of it a commit hands on, and the rows of files with it.
#![tactic(auto)]

mod carried;
mod handed;
mod items;
mod rows;
mod walk;

pub use carried::carry;
pub use handed::{is_handed_on, is_same_residue};
pub use items::residue_of;
pub use rows::with_residue;
pub use walk::residue_at;
