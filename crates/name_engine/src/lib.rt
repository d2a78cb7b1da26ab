//! Names over a saved state: a text of either side is set in place of all its names, and the text of its names is written for either side.
#![tactic(auto)]

mod fault;
mod input;
mod print;
mod set;

pub use fault::SetFault;
pub use print::names_text;
pub use ref_map::Side;
pub use set::set_names;
