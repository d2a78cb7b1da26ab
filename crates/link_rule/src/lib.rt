//! Links: the changesets between the parents of an octopus commit and the changeset of that commit.
#![tactic(auto)]

mod chain;
mod form;
mod link;
mod links;
mod octopus;
mod parts;
mod walk;

pub use form::is_link;
pub use link::Link;
pub use links::{link_nodes, links_of};
pub use octopus::Octopus;
pub use walk::walk_links;
