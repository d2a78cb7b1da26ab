//! The manifest and the list of files that a changeset has by the rule.
#![tactic(auto)]

mod files;
mod manifest;
mod merge;

pub use files::{are_same_paths, files_over, ruled_files};
pub use manifest::{RuledManifest, is_ruled_manifest, lines_fit, lines_of, make_manifest};
