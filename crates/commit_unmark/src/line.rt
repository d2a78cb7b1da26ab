// Lines of a changeset's text.
ghost use Rattle.std.specs.Prelude.{◌≡◌, ◌↔◌, false, IsTrue};
ghost use Rattle.text_model.specs.Lists.{Each};
ghost use Rattle.text_model.specs.Text.{has_byte};
ghost use Rattle.commit_unmark.specs.Parts.{IsOneLine};

use bridge_text::{Paths, cut_at};

/// Whether a text is one line, and not an empty one.
pub fn is_line(text: &[u8]) -> bool
    ensures { IsTrue result ↔ IsOneLine text.now }
{
    !text.is_empty() && is_without(b'\n', text)
}

/// Whether a byte stands nowhere in a text.
pub fn is_without(byte: u8, text: &[u8]) -> bool
    ensures { IsTrue result ↔ has_byte byte text.now ≡ false }
{
    cut_at(byte, text).is_none()
}

/// Whether each of the paths is one line, and not an empty one.
pub fn are_lines(paths: &Paths) -> bool
    ensures { IsTrue result ↔ Each IsOneLine paths.now }
{
    for path in paths.as_slice() {
        if !is_line(path.as_slice()) {
            return false;
        }
    }
    true
}
