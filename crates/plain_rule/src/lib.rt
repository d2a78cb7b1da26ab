//! Whether the plain rules give a commit back.
#![tactic(auto)]

mod commit;

pub use commit::{has_what_is_handed_on, is_plain_commit};
