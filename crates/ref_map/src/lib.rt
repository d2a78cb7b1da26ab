//! Names of commits and tags, as both sides write them.
#![tactic(auto)]

mod calls;
mod fault;
mod fit;
mod form;
mod line;
mod lookup;
mod phase;
mod put;
mod read;
mod row;
mod rows;

pub use calls::{read_names, read_refs, write_names, write_refs};
pub use fault::{LineFault, NameFault};
pub use fit::fit_ref;
pub use form::{commit_line, tag_line};
pub use line::NameLine;
pub use lookup::Lookup;
pub use phase::Phase;
pub use put::{put_line, put_ref};
pub use read::{name_line, ref_line};
pub use row::{Row, Side, line_of, row_at};
pub use rows::Rows;
