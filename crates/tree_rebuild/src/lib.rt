//! The tree objects of files over a tree that is there already: a directory that has the same rows in both keeps its tree.
#![tactic(auto)]

mod entries;
mod group;
mod over;

pub use over::{rebuild, rebuild_apart, rebuild_over};
