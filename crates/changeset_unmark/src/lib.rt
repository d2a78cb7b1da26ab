//! The unmarking of a changeset: the commit that its extras name, where it is marked as this changeset again.
#![tactic(auto)]

mod head;
mod lists;
mod made;
mod octopus;
mod parents;
mod residue;
mod rows;
mod unmark;

pub use unmark::unmark_changeset;
