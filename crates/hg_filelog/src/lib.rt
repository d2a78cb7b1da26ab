//! The texts of file revisions: a body, alone or behind metadata between two marks, as Mercurial's filelog has them.
#![tactic(auto)]

mod copy;
mod fault;
mod join;
mod law;
mod order;
mod parts;

pub use copy::{copy_of, has_copy};
pub use fault::FileShape;
pub use join::{join_into, plain_into};
pub use law::splits_exactly;
pub use order::{canonical_pair, file_order};
pub use parts::split;
