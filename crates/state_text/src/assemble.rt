// A state from its sections.
ghost use Rattle.std.specs.Prelude.{◌≡◌, map, IfOk};
ghost use Rattle.state_model.specs.Kept as model;
ghost use Rattle.state_text.specs.Stands.{Stands, HoldsExactly};
ghost use Rattle.state_text.specs.Whole.{AreSectionsOf};

use crate::blocks::node_list;
use crate::names::NamePart;
use bridge_text::{IdSet, NoMemory};
use hg_section::HgSection;
use pair_known::Known;
use pair_state::{Blocks, State, StateParts};
use std::alloc::Global;
use tag_section::TagSection;

/// The state whose sections these are, with its blocks.
pub fn assemble(
    alloc: Global,
    hg: HgSection,
    blocks: Blocks,
    tags: TagSection,
    named: NamePart,
) -> Result<State, NoMemory>
    requires sections { (m : model.State) × AreSectionsOf hg blocks tags named.names m }
    requires partners { named.partners ≡ map (λ b. (b.node, b.commit)) blocks }
    ensures stands { IfOk result (λ s. (m : model.State) → AreSectionsOf hg blocks tags named.names m → Stands s m) }
    ensures exactly { IfOk result (λ s. (m : model.State) → AreSectionsOf hg blocks tags named.names m → HoldsExactly s m) }
{
    let (partners, names) = named.into_parts();
    let changesets = node_list(alloc, hg.nodes.as_slice())?;
    let (git, commits, tags) = tags.into_parts();
    Ok(State::from_parts(StateParts {
        known: Known {
            hg: hg.into_store(),
            git,
            partners,
        },
        blocks,
        changesets,
        commits,
        tags,
        names,
        agreed: IdSet::new(alloc),
        alloc,
    }))
}
