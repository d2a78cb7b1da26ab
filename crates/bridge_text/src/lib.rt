//! Ids, byte strings, paths, escapes, decimals, limits and refusals: what both sides of the bridge share.
#![tactic(auto)]

mod bytes;
mod cut;
mod decimal;
mod escape;
mod fault;
mod hash;
mod id;
mod id_set;
mod kind;
mod laws;
mod limits;
mod list;
mod memory;
mod path;

pub use bytes::Bytes;
pub use cut::{cut_at, first_line, line_end};
pub use decimal::{decimal_into, decimal_of, is_decimal_of};
pub use escape::{TextFault, escape_into, unescape_into};
pub use fault::{Fault, Refusal};
pub use hash::{node_id, object_id};
pub use id::Id;
pub use id_set::IdSet;
pub use kind::{Added, Kind};
pub use laws::{decimal_laws, escape_laws, hex_laws, node_laws};
pub use limits::{
    CHANGESET_LIMIT, COMMIT_LIMIT, COMPONENT_LIMIT, DEPTH_LIMIT, DUMP_LIMIT, ENTRY_LIMIT,
    INPUT_LIMIT, LINE_LIMIT, LINK_LIMIT, MADE_LIMIT, NAME_LIMIT, PARENT_LIMIT, PATH_CHUNK_LIMIT,
    PATH_LIMIT, REF_LIMIT, ROWS_LIMIT, SLOT_LIMIT, SUM_LIMIT, TEXT_LIMIT,
};
pub use list::{IdList, List, Paths};
pub use memory::NoMemory;
pub use path::{fit_name, fit_path};
