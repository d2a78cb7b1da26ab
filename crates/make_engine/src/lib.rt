//! What is counted of a history that is made from two numbers: its bundle is taken into an empty state, and the stream of that state into another.
#![tactic(auto)]

mod counts;
mod fault;
mod lines;
mod taken;

pub use counts::make_counts;
pub use fault::CountsFault;
