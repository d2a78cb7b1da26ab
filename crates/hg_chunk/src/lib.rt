//! Chunks of a bundle, read from any source.
#![tactic(auto)]

mod fault;
mod item;
mod number;
mod put;
mod reader;

pub use fault::ChunkFault;
pub use put::{put_chunk, put_empty};
pub use reader::{ChunkReader, Piece};
