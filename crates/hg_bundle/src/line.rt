// The line that lists an entry.
ghost use Rattle.std.specs.Prelude.{◌≡◌, ◌+◌, ◌≤◌, ◌++◌, ◌∷◌, length, take, drop, OnOk};
ghost use Rattle.std.specs.Io.{StartsWith};
ghost use Rattle.text_model.specs.Id.{hex};
ghost use Rattle.hg_model.specs.Bundle.{entry_line, entry_of};
ghost use Rattle.hg_bundle.specs.Place.{group_value};
ghost use Rattle.hg_bundle.specs.Line.{group_text};

use crate::place::Group;
use bridge_text::{Id, NoMemory, decimal_into, escape_into};

/// The four ids that stand before the delta of an entry.
pub const HEADER: usize = 80;

/// Appends the line of an entry: what it is of, its four ids in hex digits, and how many bytes its delta has.
pub fn append_line(out: &mut Vec<u8>, group: &Group, payload: &[u8]) -> Result<(), NoMemory>
    requires { 80 ≤ length payload.now }
    ensures front { StartsWith out.new.items out.old.items }
    ensures line { OnOk result (out.new.items ≡ out.old.items ++ entry_line (group_value group.now) (entry_of payload.now)) }
{
    append_group(out, group)?;
    append_id(out, payload, 0)?;
    append_id(out, payload, 20)?;
    append_id(out, payload, 40)?;
    append_id(out, payload, 60)?;
    out.push(b' ')?;
    decimal_into(out, (payload.len() - HEADER) as u64)?;
    out.push(b'\n')?;
    Ok(())
}

fn append_group(out: &mut Vec<u8>, group: &Group) -> Result<(), NoMemory>
    ensures front { StartsWith out.new.items out.old.items }
    ensures text { OnOk result (out.new.items ≡ out.old.items ++ group_text (group_value group.now)) }
{
    match group {
        Group::Changesets => out.extend_from_slice(b"changeset")?,
        Group::Manifests => out.extend_from_slice(b"manifest")?,
        Group::File(path) => {
            out.extend_from_slice(b"file ")?;
            escape_into(out, path.as_slice())?
        }
    }
    Ok(())
}

// Appends a space, and the id at a place of the payload.
fn append_id(out: &mut Vec<u8>, payload: &[u8], at: usize) -> Result<(), NoMemory>
    requires { at + 20 ≤ length payload.now }
    ensures front { StartsWith out.new.items out.old.items }
    ensures text { OnOk result (out.new.items ≡ out.old.items ++ 32 ∷ hex (take 20 (drop at payload.now))) }
{
    let mut bytes = [0; 20];
    bytes.copy_from_slice(&payload[at..at + 20]);
    out.push(b' ')?;
    out.extend_from_slice(&Id::new(bytes).hex())?;
    Ok(())
}
