//! Mercurial's revisions: changesets, manifests and files, each checked against its node, its parents and its link
//! when it is added (help topics `internals.revlogs` and `internals.changegroups`).
#![tactic(auto)]

mod add;
mod addition;
mod fault;
mod group;
mod held;
mod law;
mod lookup;
mod parse;
mod store;
mod view;

pub use addition::Addition;
pub use fault::{AddFault, ViewFault};
pub use group::Group;
pub use law::views_exactly;
pub use store::HgStore;
pub use view::View;
