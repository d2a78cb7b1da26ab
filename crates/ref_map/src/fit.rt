// Which names of refs are fit.
ghost use Rattle.std.specs.Prelude.{◌≡◌};
ghost use Rattle.std.specs.List.{list_all};
ghost use Rattle.text_model.specs.Text as text;
ghost use Rattle.text_model.specs.Path.{components};
ghost use Rattle.state_model.specs.Ref.{is_ref_byte, is_ref_part, is_fit_ref};

use bridge_text::{REF_LIMIT, cut_at};
use memchr::memmem;

/// Whether the name of a ref is fit: it begins with `refs/`, has 4,096 bytes at most, and `git check-ref-format` takes it. No part
/// between slashes is empty, begins with `.` or ends with `.lock`; the name doesn't end with `.`; it has no `..`, no `@{`, no space,
/// no control character, and none of `~^:?*[\`.
#[tactic(auto, unfolding(state_model::specs::Ref::is_fit_ref))]
pub fn fit_ref(name: &[u8]) -> bool
    ensures { result ≡ is_fit_ref name.now }
{
    name.starts_with(b"refs/")
        && name.len() <= REF_LIMIT
        && has_ref_bytes(name)
        && has_ref_parts(name)
        && !name.ends_with(b".")
        && !has_piece(b"..", name)
        && !has_piece(b"@{", name)
}

fn has_ref_bytes(name: &[u8]) -> bool
    ensures { result ≡ list_all is_ref_byte name.now }
{
    name.iter().all(|byte| is_ref_byte(*byte))
}

fn is_ref_byte(byte: u8) -> bool
    ensures { result ≡ is_ref_byte byte }
{
    byte > b' ' && byte != 0x7f && !b"~^:?*[\\".contains(&byte)
}

fn has_ref_parts(name: &[u8]) -> bool
    ensures { result ≡ list_all is_ref_part (components name.now) }
{
    let mut rest = name;
    while let Some((part, after)) = cut_at(b'/', rest) {
        if !is_ref_part(part) {
            return false;
        }
        rest = after;
    }
    is_ref_part(rest)
}

fn is_ref_part(part: &[u8]) -> bool
    ensures { result ≡ is_ref_part part.now }
{
    !part.is_empty() && !part.starts_with(b".") && !part.ends_with(b".lock")
}

// Whether the piece stands somewhere in the name.
fn has_piece(piece: &[u8], name: &[u8]) -> bool
    ensures { result ≡ text.has_piece piece.now name.now }
{
    memmem::find(name, piece).is_some()
}
