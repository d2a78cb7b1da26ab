//! With which of its new blocks and tags a state first passes a limit.
#![tactic(auto)]

mod bundle;
mod count;
mod large;
mod passes;
mod past;
mod stream;

pub use large::{Large, first_large};
