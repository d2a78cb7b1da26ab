//! What stands below each tree, in numbers: they decide whether the walk through a tree passes, and each tree is looked at
//! once.
#![tactic(auto)]

mod entry;
mod sum;
mod sums;

pub use sum::Sum;
pub use sums::Sums;
