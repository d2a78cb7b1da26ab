//! How users, dates and messages of one side become those of the other. Mercurial has a user, a
//! time and a time zone in seconds, as `hg log` shows them, and a description; Git has the line
//! of an author, as `git commit-tree` writes it, and a message.
#![tactic(auto)]

mod address;
mod laws;
mod line;
mod message;
mod text;
mod user;
mod zone;

pub use laws::{line_laws, message_laws, user_laws, zone_laws};
pub use line::line_of_user;
pub use message::{desc_of_message, message_of_desc};
pub use user::{UserDate, user_of_line};
pub use zone::{tz_of_zone, zone_of_tz};
