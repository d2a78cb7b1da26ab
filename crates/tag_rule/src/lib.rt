//! Annotated tags: which of those that a stream brings are kept.
#![tactic(auto)]

mod fates;
mod fault;
mod named;
mod new;
mod rows;

pub use fault::TagFault;
pub use new::new_tags;
