//! A large valid history that is made from a number, as a bundle.
#![tactic(auto)]

mod add;
mod bundle;
mod draft;
mod fault;
mod fields;
mod numbers;
mod parents;
mod paths;
mod row;
mod rows;

pub use bundle::make_bundle;
pub use fault::MakeFault;
