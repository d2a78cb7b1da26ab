//! The files of a changeset by the plain rule: for each file of a commit the revision of a parent, or a new one over those of
//! the parents. And whether a file of a changeset comes back so.
#![tactic(auto)]

mod back;
mod near;
mod parents;
mod revision;
mod rows;

pub use back::{is_plain, is_ruled};
pub use parents::{Parent, parent_of};
pub use revision::{
    RuledRow, content_text, has_parents, kept_node, make_row, node_or_null, parents_over,
    row_with_text,
};
pub use rows::{RuledRows, make_rows};
