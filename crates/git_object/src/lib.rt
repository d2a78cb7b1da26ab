//! Git's trees, commits and tags, and the idents of their authors.
#![tactic(auto)]

mod commit;
mod entry;
mod fault;
mod ident;
mod laws;
mod line;
mod mode;
mod objects;
mod order;
mod residue;
mod tag;
mod tree;

pub use commit::Commit;
pub use entry::TreeEntry;
pub use fault::{CommitFault, TagFault, TreeReadFault};
pub use ident::{Ident, is_zone};
pub use laws::{commit_laws, ident_laws, object_laws, tag_laws, tree_laws};
pub use mode::Mode;
pub use objects::Objects;
pub use order::OrderName;
pub use residue::{Residue, ResidueItem, ResidueKind};
pub use tag::Tag;
pub use tree::Tree;
