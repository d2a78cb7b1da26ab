// Lines that are written.
ghost use Rattle.std.specs.Prelude.{◌≡◌, ◌++◌, ◌∷◌, [], OnOk};
ghost use Rattle.std.specs.Io.{StartsWith};
ghost use Rattle.text_model.specs.Text.{line, spaced};
ghost use Rattle.text_model.specs.Id.{hex};
ghost use Rattle.state_model.specs.Text.{ref_line};
ghost use Rattle.name_model.specs.Line as model;
ghost use Rattle.ref_map.specs.Values.{phase_value, line_value};

use crate::line::NameLine;
use crate::phase::Phase;
use bridge_text::{Id, NoMemory};

/// Appends the line of a name. After want of memory what `out` was is its beginning.
pub fn put_line(out: &mut Vec<u8>, name: &NameLine<'_>) -> Result<(), NoMemory>
    ensures ok { OnOk result (out.new.items ≡ out.old.items ++ model.line_text (line_value name.now)) }
    ensures front { StartsWith out.new.items out.old.items }
{
    match name {
        NameLine::Bookmark { node, name } => put_named(out, b"bookmark", node, name),
        NameLine::PlainTag { node, name } => put_named(out, b"tag", node, name),
        NameLine::Annotated { id, name } => put_named(out, b"annotated", id, name),
        NameLine::InPhase { phase, node } => put_phase(out, *phase, node),
        NameLine::OtherRef { id, name } => put_named(out, b"ref", id, name),
    }
}

fn put_named(out: &mut Vec<u8>, word: &[u8], id: &Id, name: &[u8]) -> Result<(), NoMemory>
    ensures ok { OnOk result (out.new.items ≡ out.old.items ++ line (spaced (word.now ∷ hex id.now ∷ name.now ∷ []))) }
    ensures front { StartsWith out.new.items out.old.items }
{
    out.extend_from_slice(word)?;
    out.push(b' ')?;
    put_ref(out, id, name)
}

fn put_phase(out: &mut Vec<u8>, phase: Phase, node: &Id) -> Result<(), NoMemory>
    ensures ok { OnOk result (out.new.items ≡ out.old.items ++ model.line_text (model.InPhase (phase_value phase) node.now)) }
    ensures front { StartsWith out.new.items out.old.items }
{
    out.extend_from_slice(b"phase ")?;
    out.extend_from_slice(phase.word())?;
    out.push(b' ')?;
    out.extend_from_slice(&node.hex())?;
    out.push(b'\n')?;
    Ok(())
}

/// Appends the line of a ref as Git's side has it. After want of memory what `out` was is its beginning.
pub fn put_ref(out: &mut Vec<u8>, id: &Id, name: &[u8]) -> Result<(), NoMemory>
    ensures ok { OnOk result (out.new.items ≡ out.old.items ++ ref_line (record { id = id.now; name = name.now })) }
    ensures front { StartsWith out.new.items out.old.items }
{
    out.extend_from_slice(&id.hex())?;
    out.push(b' ')?;
    out.extend_from_slice(name)?;
    out.push(b'\n')?;
    Ok(())
}
