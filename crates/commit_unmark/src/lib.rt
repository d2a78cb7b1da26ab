//! The unmarking of a commit: the changeset whose marked commit it is.
#![tactic(auto)]

mod extras;
mod fields;
mod line;
mod manifest;
mod marks;
mod named;
mod revision;
mod right;
mod row;
mod rows;
mod unmark;

pub use unmark::unmark_commit;
