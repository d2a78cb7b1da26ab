//! The commands of the bridge: one call, `run`, from the words of the command line to the status.
#![tactic(auto)]

mod audit;
mod command;
mod counts;
mod fetch;
mod line;
mod made;
mod names;
mod output;
mod printed;
mod report;
mod saved;
mod status;
mod words;
mod work;

pub use command::{run, without_memory};
pub use status::Status;
pub use words::Words;
