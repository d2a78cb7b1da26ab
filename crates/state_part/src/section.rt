// A section that tells the size of its text.
ghost use Rattle.std.specs.Prelude.{◌≡◌, ◌++◌, MatchOption, OnOk};
ghost use Rattle.std.specs.Io.{StartsWith};
ghost use Rattle.state_model.specs.Text.{sized};
ghost use Rattle.state_part.specs.Form.{HasSection, NoSection};

use crate::count::{put_count, read_count};
use bridge_text::NoMemory;
use rope::Rope;

/// A section that bytes begin with.
#[derive(Clone, Copy)]
pub struct Section<'a> {
    /// What the section says.
    pub text: &'a [u8],
    /// What follows the section.
    pub rest: &'a [u8],
}

/// The section of this word that begins the bytes: the word, a space, the size of the text in decimal, LF, the text and LF.
/// `None` exactly where no such section begins them.
pub fn read_section<'a>(word: &[u8], bytes: &'a [u8]) -> Option<Section<'a>>
    ensures { MatchOption result (NoSection word.now bytes.entry.now) (λ s. HasSection word.now bytes.entry.now s.text.now s.rest.now) }
{
    let (size, behind) = read_count(word, bytes)?;
    let (text, after) = behind.split_at_checked(size as usize)?;
    let rest = after.strip_prefix(b"\n")?;
    Some(Section { text, rest })
}

/// Appends a section. After want of memory what `out` was is its beginning.
pub fn put_section(out: &mut Rope, word: &[u8], text: &[u8]) -> Result<(), NoMemory>
    ensures ok { OnOk result (out.new ≡ out.old ++ sized word.now text.now) }
    ensures front { StartsWith out.new out.old }
{
    put_count(out, word, text.len() as u64)?;
    out.put(text)?;
    out.push(b'\n')?;
    Ok(())
}
