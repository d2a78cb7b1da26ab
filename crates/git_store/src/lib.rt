//! Git's objects by their ids: blobs, trees, commits and tags, each parsed once when it is added (manual pages
//! `git-cat-file` and `git-hash-object`); and the order in which commits are taken, each behind its parents.
#![tactic(auto)]

mod add;
mod fault;
mod held;
mod lookup;
mod order;
mod parents;
mod parse;
mod store;
mod written;

pub use fault::GitAddFault;
pub use order::OrderFault;
pub use store::GitStore;
pub use written::Written;
