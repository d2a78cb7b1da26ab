//! Trees and the rows that they stand for, both ways: Git's tree objects as sorted lists of files, gitlinks and empty
//! subtrees, and the tree objects of such a list.
#![tactic(auto)]

mod assemble;
mod clash;
mod fault;
mod file_row;
mod files;
mod laws;
mod leaf;
mod near;
mod sorting;
mod tree_item;
mod unfold;
mod walk;

pub use assemble::{LEVELS, build, build_apart, count_in, put_below, put_entry, put_tree, rest_of};
pub use clash::{HasPath, begins_with_slash, find_clash, find_row_clash};
pub use fault::{BuildFault, TreeFault};
pub use file_row::FileRow;
pub use files::Files;
pub use laws::{shape_laws, unfold_laws};
pub use leaf::{is_empty_tree, is_leaf};
pub use sorting::{by_paths, by_walk, has_directory};
pub use tree_item::{TreeItem, TreeList, Trees};
pub use unfold::{flatten, flatten_near};
pub use walk::push_name;
