//! Streams of Git objects, as `git cat-file --batch` writes them: object by object, listed, read into a store and
//! written.
#![tactic(auto)]

mod arrival;
mod byte;
mod content;
mod contents;
mod fault;
mod gather;
mod header;
mod input;
mod laws;
mod line;
mod listing;
mod put;
mod read;
mod reader;
mod stream_fault;

pub use arrival::{ObjectArrival, ObjectArrivals, commit_ids, count_objects};
pub use contents::{Contents, NoContents};
pub use fault::BatchFault;
pub use laws::{stream_laws, stream_reading_laws};
pub use listing::list;
pub use put::{put_object, put_with_id};
pub use read::{read_into, read_known_into};
pub use reader::{BatchReader, Item};
pub use stream_fault::StreamFault;
