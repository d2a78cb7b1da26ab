// Names as Mercurial's side has them.
ghost use Rattle.std.specs.Prelude.{◌≡◌, ◌++◌, ◌∷◌, IfOk};
ghost use Rattle.text_model.specs.Id.{hex};
ghost use Rattle.name_model.specs.Line as model;
ghost use Rattle.name_model.specs.Reading as reading;
ghost use Rattle.ref_map.specs.Values.{phase_value, line_value};

use crate::phase::Phase;
use bridge_text::{Id, NoMemory};
use std::alloc::Global;

/// What the name of a bookmark is put behind.
pub const HEADS: &[u8] = b"refs/heads/";

/// What the name of a tag is put behind.
pub const TAGS: &[u8] = b"refs/tags/";

/// What a phase and a node are put behind.
pub const PHASES: &[u8] = b"refs/hg/phase/";

/// A name as Mercurial's side has it, which is lent from a text.
#[derive(Clone, Copy, Debug)]
pub enum NameLine<'a> {
    /// A bookmark of a changeset.
    Bookmark { node: Id, name: &'a [u8] },
    /// A tag of a changeset.
    PlainTag { node: Id, name: &'a [u8] },
    /// A tag of a kept tag.
    Annotated { id: Id, name: &'a [u8] },
    /// The phase of a changeset.
    InPhase { phase: Phase, node: Id },
    /// Any other ref.
    OtherRef { id: Id, name: &'a [u8] },
}

impl NameLine<'_> {
    /// The name of the ref that the line names.
    pub fn ref_name(&self, alloc: Global) -> Result<Vec<u8>, NoMemory>
        ensures { IfOk result (λ name. name.items ≡ model.ref_name (line_value self.now)) }
    {
        match self {
            NameLine::Bookmark { name, .. } => joined(alloc, HEADS, name),
            NameLine::PlainTag { name, .. } => joined(alloc, TAGS, name),
            NameLine::Annotated { name, .. } => joined(alloc, TAGS, name),
            NameLine::InPhase { phase, node } => phase_ref(alloc, *phase, node),
            NameLine::OtherRef { name, .. } => joined(alloc, b"", name),
        }
    }

    /// Whether the line is that of any other ref.
    pub fn is_other(&self) -> bool
        ensures { result ≡ reading.is_other (line_value self.now) }
    {
        match self {
            NameLine::Bookmark { .. } => false,
            NameLine::PlainTag { .. } => false,
            NameLine::Annotated { .. } => false,
            NameLine::InPhase { .. } => false,
            NameLine::OtherRef { .. } => true,
        }
    }
}

fn joined(alloc: Global, front: &[u8], name: &[u8]) -> Result<Vec<u8>, NoMemory>
    ensures { IfOk result (λ whole. whole.items ≡ front.now ++ name.now) }
{
    let mut whole = Vec::from_slice(alloc, front)?;
    whole.extend_from_slice(name)?;
    Ok(whole)
}

// The ref that keeps the phase of a changeset.
fn phase_ref(alloc: Global, phase: Phase, node: &Id) -> Result<Vec<u8>, NoMemory>
    ensures { IfOk result (λ name. name.items ≡ model.phase_ref (phase_value phase) node.now) }
{
    let mut name = Vec::from_slice(alloc, PHASES)?;
    name.extend_from_slice(phase.word())?;
    name.push(b'/')?;
    name.extend_from_slice(&node.hex())?;
    Ok(name)
}
