//! Deltas: rows of hunks that replace parts of a base text, as Mercurial's help topics
//! `internals.bundles` and `internals.revlogs` have them.
#![tactic(auto)]

mod fault;
mod hunk;
mod patch;
mod replace;
mod room;

pub use fault::HunkFault;
pub use patch::{apply, fill, is_whole, patched_len, reads_patches};
pub use replace::{replace_into, replaces};
