//! What a pull comes to: the next state with what is written, or why the input is refused.
#![tactic(auto)]

mod pulled;
mod refused;
mod take_fault;

pub use bridge_text::{Fault, Refusal};
pub use pulled::{GitPulled, HgPulled};
pub use refused::PullFault;
pub use take_fault::TakeFault;
