// Lines that are read.
ghost use Rattle.std.specs.Prelude.{◌≡◌, option_map};
ghost use Rattle.name_model.specs.Line as model;
ghost use Rattle.ref_map.specs.Values.{line_value};

use crate::line::NameLine;
use crate::phase::Phase;
use bridge_text::{Id, cut_at};

/// What a line of Git's side says, if it has the form of one: the digits of an id, a space, the name of a ref, LF.
pub fn ref_line(text: &[u8]) -> Option<NameLine<'_>>
    ensures { option_map line_value result ≡ model.ref_line_of text.now }
{
    let (words, _) = cut_at(b'\n', text)?;
    let Some((id, name)) = id_and_rest(words) else {
        return None;
    };
    Some(NameLine::OtherRef { id, name })
}

/// What a line of Mercurial's side says, if it has the form of one.
pub fn name_line(text: &[u8]) -> Option<NameLine<'_>>
    ensures { option_map line_value result ≡ model.name_line_of text.now }
{
    let (line, _) = cut_at(b'\n', text)?;
    let (word, rest) = cut_at(b' ', line)?;
    line_by(word, rest)
}

// By the first word and what stands behind the space after it.
fn line_by<'a>(word: &[u8], rest: &'a [u8]) -> Option<NameLine<'a>>
    ensures { option_map line_value result ≡ model.line_by word.now rest.entry.now }
{
    if word == b"bookmark".as_slice() {
        let Some((node, name)) = id_and_rest(rest) else {
            return None;
        };
        Some(NameLine::Bookmark { node, name })
    } else if word == b"tag".as_slice() {
        let Some((node, name)) = id_and_rest(rest) else {
            return None;
        };
        Some(NameLine::PlainTag { node, name })
    } else if word == b"annotated".as_slice() {
        let Some((id, name)) = id_and_rest(rest) else {
            return None;
        };
        Some(NameLine::Annotated { id, name })
    } else if word == b"phase".as_slice() {
        phase_and_id(rest)
    } else if word == b"ref".as_slice() {
        let Some((id, name)) = id_and_rest(rest) else {
            return None;
        };
        Some(NameLine::OtherRef { id, name })
    } else {
        None
    }
}

// The digits of an id, a space, and what is left.
fn id_and_rest(text: &[u8]) -> Option<(Id, &[u8])>
    ensures { option_map (λ x. (x.0, x.1.now)) result ≡ model.id_and_rest text.now }
{
    let (digits, rest) = cut_at(b' ', text)?;
    let id = Id::from_hex(digits)?;
    Some((id, rest))
}

fn phase_and_id(text: &[u8]) -> Option<NameLine<'_>>
    ensures { option_map line_value result ≡ model.phase_and_id text.now }
{
    let (word, digits) = cut_at(b' ', text)?;
    let phase = Phase::of(word)?;
    let node = Id::from_hex(digits)?;
    Some(NameLine::InPhase { phase, node })
}
