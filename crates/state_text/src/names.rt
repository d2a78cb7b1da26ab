// The names of a state's text.
ghost use Rattle.std.specs.Prelude.{◌≡◌, ◌≢◌, List, map, IfOk, IsTrue, MatchOption};
ghost use Rattle.text_model.specs.Text.{Bytes};
ghost use Rattle.git_model.specs.Tree.{has_distinct};
ghost use Rattle.state_model.specs.Kept.{NameRow};
ghost use Rattle.state_model.specs.Text.{refs_text};
ghost use Rattle.state_model.specs.Names.{AreNames};
ghost use Rattle.name_model.specs.Targets.{AreTargets};
ghost use Rattle.state_text.specs.Sections.{NoNames, HasNames, targets_read};

use crate::blocks::partners_of;
use crate::nameable::{Nameable, id_set};
use bridge_text::{Id, IdSet, NoMemory};
use pair_known::Partners;
use pair_state::Blocks;
use ref_map::{NameFault, Rows, read_refs, write_refs};
use state_part::read_section;
use std::alloc::Global;

/// The section of the names.
pub const NAMES: &[u8] = b"names";

/// The section of the names that bytes are, over pairs.
pub struct NamePart {
    /// The pairs.
    pub partners: Partners,
    /// The names.
    pub names: Rows,
}

impl Drop for NamePart {
    fn drop(self) {
        let NamePart {
            partners: _,
            names: _,
        } = self;
    }
}

impl NamePart {
    /// The pairs, and the names.
    pub fn into_parts(self) -> (Partners, Rows)
        ensures partners { result.0 ≡ self.partners }
        ensures names { result.1 ≡ self.names }
    {
        let NamePart { partners, names } = self;
        (partners, names)
    }
}

/// The names whose section the bytes are, over these blocks and the tags with these ids; `None` exactly where the bytes are the section of
/// no names that can be kept.
pub fn read_named(
    alloc: Global,
    blocks: &Blocks,
    tags: &[Id],
    bytes: &[u8],
) -> Result<Option<NamePart>, NoMemory>
    requires nodes { IsTrue (has_distinct (map (λ b. b.node) blocks.now)) }
    requires commits { IsTrue (has_distinct (map (λ b. b.commit) blocks.now)) }
    requires tags { IsTrue (has_distinct tags.now) }
    ensures { IfOk result (λ found. AreTargets (targets_read blocks.now tags.now) → MatchOption found (NoNames (targets_read blocks.now tags.now) bytes.now)
        (λ p. (p.partners ≡ map (λ b. (b.node, b.commit)) blocks.now) × HasNames (targets_read blocks.now tags.now) bytes.now p.names)) }
{
    let Some(part) = read_section(NAMES, bytes) else {
        return Ok(None);
    };
    if !part.rest.is_empty() {
        return Ok(None);
    }
    let partners = partners_of(alloc, blocks)?;
    let tags = id_set(alloc, tags)?;
    let Some(names) = names_in(alloc, &partners, &tags, part.text)? else {
        return Ok(None);
    };
    Ok(Some(NamePart { partners, names }))
}

// The names that have this text in their order; `None` exactly where no names that can be kept have it.
#[tactic(auto, using(crate::proofs::NameLemmas::not_refused))]
fn names_in(
    alloc: Global,
    partners: &Partners,
    tags: &IdSet,
    text: &[u8],
) -> Result<Option<Rows>, NoMemory>
    ensures { IfOk result (λ found. AreTargets (record { pairs = partners.now; tags = tags.now })
        → MatchOption found ((names : List NameRow) → AreNames (record { pairs = partners.now; tags = tags.now }) names → refs_text names ≢ text.now)
        (λ names. AreNames (record { pairs = partners.now; tags = tags.now }) names × (refs_text names ≡ text.now))) }
{
    let known = Nameable { partners, tags };
    match read_refs(alloc, &known, text) {
        Ok(names) => printed(alloc, names, text),
        Err(NameFault::Memory) => Err(NoMemory),
        Err(NameFault::NameLimit(_)) => Ok(None),
        Err(NameFault::NameShape(_)) => Ok(None),
        Err(NameFault::RefUnfit(_)) => Ok(None),
        Err(NameFault::TargetUnknown(_)) => Ok(None),
        Err(NameFault::TagUnknown(_)) => Ok(None),
        Err(NameFault::NameTwice(_)) => Ok(None),
    }
}

// The names, if the text is theirs.
fn printed(alloc: Global, names: Rows, text: &[u8]) -> Result<Option<Rows>, NoMemory>
    ensures { IfOk result (λ found. MatchOption found (refs_text names ≢ text.now) (λ same. (same ≡ names) × (refs_text names ≡ text.now))) }
{
    let own = write_refs(alloc, &names)?;
    if own.as_slice() == text {
        Ok(Some(names))
    } else {
        Ok(None)
    }
}
