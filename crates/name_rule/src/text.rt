// Tests and values of texts.
ghost use Rattle.std.specs.Prelude.{◌≡◌};
ghost use Rattle.git_model.specs.Commit.{has_angle};
ghost use Rattle.text_model.specs.Text.{has_byte};
ghost use Rattle.pair_model.specs.User.{or_unknown};

/// The email that stands for none.
pub const NO_EMAIL: &[u8] = b"none@none";

/// Whether an angle bracket stands in the text.
pub fn has_angle(text: &[u8]) -> bool
    ensures { result ≡ has_angle text.now }
{
    text.contains(&b'<') || text.contains(&b'>')
}

/// Whether an `@` stands in the text.
pub fn has_at(text: &[u8]) -> bool
    ensures { result ≡ has_byte 64 text.now }
{
    text.contains(&b'@')
}

/// The text, or `unknown` where it is empty.
pub fn or_unknown(text: &[u8]) -> &[u8]
    ensures { result.now ≡ or_unknown text.now }
{
    if text.is_empty() { b"unknown" } else { text }
}
