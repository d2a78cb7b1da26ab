//! The marked changeset of a commit: the one that the rule gives, with an extra for each part of the commit that the
//! rule would not give back from it.
#![tactic(auto)]

mod dated;
mod head;
mod marked;
mod marks;
mod residue;

pub use marked::mark_changeset;
