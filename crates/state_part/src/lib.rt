//! The form of a saved state's text, apart from what its sections say.
#![tactic(auto)]

mod count;
mod dumps;
mod head;
mod laws;
mod map;
mod pairs;
mod part;
mod section;
mod shared;

pub use count::{count_into, put_count, read_count};
pub use dumps::{Dumps, GIT, HG, dumps_in};
pub use head::{HeadFault, put_head, read_head};
pub use laws::section_laws;
pub use map::{MapSection, put_map, put_pair, put_sorted_map, read_map};
pub use pairs::{IdPair, IdPairs};
pub use part::{Part, SharedPart};
pub use section::{Section, put_section, read_section};
pub use shared::{SharedSection, shared_section};
