//! The outside as the bridge sees it: sources, sinks and a slot, each by its bytes and a count of its faults.
#![tactic(auto)]

mod calls;
mod cut;
mod failed;
mod file_slot;
mod filling;
mod mem_sink;
mod mem_slot;
mod mem_source;
mod ropes;
mod sink;
mod slot;
mod source;
mod std_sink;
mod std_source;
mod steps;

pub use failed::Failed;
pub use file_slot::FileSlot;
pub use filling::{FillFault, fill, fill_vec, skip};
pub use mem_sink::MemSink;
pub use mem_slot::MemSlot;
pub use mem_source::MemSource;
pub use sink::{Sink, write_all, write_rope};
pub use slot::{Slot, SlotFault};
pub use source::Source;
pub use std_sink::StdSink;
pub use std_source::StdSource;
pub use steps::Steps;
