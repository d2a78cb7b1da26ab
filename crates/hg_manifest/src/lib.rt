//! Manifests: the files of a changeset, a line for each, in the flat manifest format that Mercurial keeps in its revlogs (help topic `internals.revlogs`).
#![tactic(auto)]

mod ahead;
mod beside;
mod cursor;
mod entry;
mod fault;
mod law;
mod line;
mod lines;
mod list;
mod near;
mod newer;
mod rev;

pub use ahead::Ahead;
pub use beside::Beside;
pub use cursor::Cursor;
pub use entry::{Entry, Flag};
pub use fault::ManifestFault;
pub use law::reads_exactly;
pub use lines::{line_len, put_line};
pub use list::Manifest;
pub use near::Near;
pub use newer::Newer;
pub use rev::ManifestRev;
