// The dumps in a state's text.
ghost use Rattle.std.specs.Prelude.{IfOk, MatchOption};
ghost use Rattle.state_part.specs.Form.{HasDumps, NoDumps};

use crate::head::read_head;
use crate::shared::shared_section;
use bridge_text::NoMemory;
use shared_text::Text;

/// The word with which the section of the changesets begins.
pub const HG: &[u8] = b"hg";

/// The word with which the section of the commits begins.
pub const GIT: &[u8] = b"git";

/// The dumps of both sides, which are parts of a state's text.
pub struct Dumps {
    /// The bundle of the changesets.
    pub bundle: Text,
    /// The stream of the commits.
    pub stream: Text,
}

impl Drop for Dumps {
    fn drop(self) {
        let Dumps {
            bundle: _,
            stream: _,
        } = self;
    }
}

/// The dumps with which a state's text begins: its first two sections, behind its first line. Of these sections nothing is read but their sizes.
/// `None` exactly where the bytes don't begin so.
pub fn dumps_in(text: &Text) -> Result<Option<Dumps>, NoMemory>
    ensures { IfOk result (λ found. MatchOption found (NoDumps text.now) (λ d. HasDumps text.now d.bundle d.stream)) }
{
    let Ok(behind_head) = read_head(text.as_slice()) else {
        return Ok(None);
    };
    let Some(hg) = shared_section(HG, text, behind_head)? else {
        return Ok(None);
    };
    let Some(git) = shared_section(GIT, text, hg.rest)? else {
        return Ok(None);
    };
    Ok(Some(Dumps {
        bundle: hg.into_text(),
        stream: git.into_text(),
    }))
}
