// The form in which Mercurial's side has a ref: the first that fits.
ghost use Rattle.std.specs.Prelude.{◌≡◌, if◌then◌else◌, option_map};
ghost use Rattle.name_model.specs.Line as line;
ghost use Rattle.name_model.specs.Targets as model;
ghost use Rattle.ref_map.specs.Values.{phase_value, line_value};

use crate::line::{HEADS, NameLine, PHASES, TAGS};
use crate::phase::Phase;
use bridge_text::{Id, cut_at};

/// The line of a ref of the commit with this id, which is the partner of the changeset with this node.
pub fn commit_line<'a>(node: Id, id: Id, name: &'a [u8]) -> NameLine<'a>
    ensures { line_value result ≡ model.commit_line (record { id = id; name = name.entry.now }) node }
{
    if let Some(name) = behind(HEADS, name) {
        NameLine::Bookmark { node, name }
    } else if let Some(name) = behind(TAGS, name) {
        NameLine::PlainTag { node, name }
    } else {
        phase_line(node, id, name)
    }
}

fn phase_line<'a>(node: Id, id: Id, name: &'a [u8]) -> NameLine<'a>
    ensures { line_value result ≡ model.phase_line (record { id = id; name = name.entry.now }) node (model.phase_in name.entry.now node) }
{
    match phase_in(name, &node) {
        Some(phase) => NameLine::InPhase { phase, node },
        None => NameLine::OtherRef { id, name },
    }
}

/// The line of a ref of no commit, which may be one of a kept tag.
pub fn tag_line<'a>(is_kept: bool, id: Id, name: &'a [u8]) -> NameLine<'a>
    ensures { line_value result ≡ (if is_kept then model.tag_line_by (record { id = id; name = name.entry.now }) (model.behind line.tags name.entry.now)
        else line.OtherRef id name.entry.now) }
{
    if is_kept {
        annotated_line(id, name)
    } else {
        NameLine::OtherRef { id, name }
    }
}

fn annotated_line<'a>(id: Id, name: &'a [u8]) -> NameLine<'a>
    ensures { line_value result ≡ model.tag_line_by (record { id = id; name = name.entry.now }) (model.behind line.tags name.entry.now) }
{
    match behind(TAGS, name) {
        Some(name) => NameLine::Annotated { id, name },
        None => NameLine::OtherRef { id, name },
    }
}

// The name without what it begins with, where it begins so.
fn behind<'a>(front: &[u8], name: &'a [u8]) -> Option<&'a [u8]>
    ensures { option_map (λ x. x.now) result ≡ model.behind front.now name.entry.now }
{
    name.strip_prefix(front)
}

// The phase of which the ref is, of the changeset with this node.
fn phase_in(name: &[u8], node: &Id) -> Option<Phase>
    ensures { option_map phase_value result ≡ model.phase_in name.now node.now }
{
    let rest = name.strip_prefix(PHASES)?;
    let (word, digits) = cut_at(b'/', rest)?;
    if digits == node.hex().as_slice() {
        Phase::of(word)
    } else {
        None
    }
}
