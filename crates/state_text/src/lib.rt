//! A saved state is read from its text and written as it.
#![tactic(auto)]

mod appended;
mod assemble;
mod blocks;
mod fault;
mod heads;
mod nameable;
mod names;
mod reading;
mod sections;
mod sizes;
mod write;

pub use fault::StateFault;
pub use nameable::{Nameable, id_set};
pub use reading::read;
pub use sizes::Sizes;
pub use write::{dump_git, dump_hg, map_into, tags_text, write_into};
