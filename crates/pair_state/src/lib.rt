//! The state of a bridge: what both sides hold, and the history of their pairs.
#![tactic(auto)]

mod blocks;
mod bodies;
mod fault;
mod files;
mod node_list;
mod objects;
mod order;
mod parts;
mod push;
mod revisions;
mod state;
mod state_parts;

pub use blocks::{Block, Blocks};
pub use bodies::have_bodies;
pub use fault::PushFault;
pub use node_list::NodeList;
pub use revisions::add_changeset;
pub use state::State;
pub use state_parts::StateParts;
