// Sections of a text that is shared, as parts of it.
ghost use Rattle.std.specs.Prelude.{◌≡◌, ◌<◌, ◌^◌, length, IfOk, IfSome, MatchOption};
ghost use Rattle.state_part.specs.Form.{IsEnd, HasSection, NoSection};

use crate::section::read_section;
use bridge_text::NoMemory;
use shared_text::{Text, part};

/// A section that bytes begin with.
pub struct SharedSection<'a> {
    /// What the section says.
    pub text: Text,
    /// What follows the section.
    pub rest: &'a [u8],
}

impl Drop for SharedSection<'_> {
    fn drop(self) {
        let SharedSection { text: _, rest: _ } = self;
    }
}

impl SharedSection<'_> {
    /// What the section says.
    pub fn into_text(self) -> Text
        ensures { result ≡ self.entry.text }
    {
        let SharedSection { text, rest: _ } = self;
        text
    }
}

/// The section of this word that begins the bytes, an end of the text, of which it keeps a part; `None` exactly where no such section begins
/// them.
pub fn shared_section<'a>(
    word: &[u8],
    text: &Text,
    bytes: &'a [u8],
) -> Result<Option<SharedSection<'a>>, NoMemory>
    requires ends { IsEnd text.now bytes.now }
    ensures section { IfOk result (λ found. MatchOption found (NoSection word.now bytes.entry.now) (λ s. HasSection word.now bytes.entry.now s.text s.rest.now)) }
    ensures short { IfOk result (λ found. IfSome found (λ s. length s.text < 2 ^ 64)) }
{
    let Some(found) = read_section(word, bytes) else {
        return Ok(None);
    };
    let end = text.len() - found.rest.len() - 1;
    let own = part(text, end - found.text.len()..end)?;
    Ok(Some(SharedSection {
        text: own,
        rest: found.rest,
    }))
}
