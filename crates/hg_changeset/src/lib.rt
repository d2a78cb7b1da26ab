//! Changesets: the node of a manifest, a user, a date line, paths of files and a description, as
//! the texts of Mercurial's changelog have them (help topic `internals.revlogs`, and
//! `hg debugdata -c`).
#![tactic(auto)]

mod changeset;
mod date;
mod escape;
mod extras;
mod fault;
mod laws;
mod lines;
mod number;

pub use changeset::Changeset;
pub use date::DateLine;
pub use extras::{ExtraItem, Extras};
pub use fault::ChangesetFault;
pub use laws::{date_laws, reads_exactly};
