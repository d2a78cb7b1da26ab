//! Streams of commits that a store holds, as `git cat-file --batch` writes objects, without what earlier commits have. The
//! order of the objects is this project's own.
#![tactic(auto)]

mod dump;
mod length;
mod listed;
mod walk;
mod written;

pub use dump::{Dump, is_in_order, write, written_len};
pub use listed::{append_objects, objects_len};
