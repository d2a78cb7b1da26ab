// The first line of a state's text, which names its version.
ghost use Rattle.std.specs.Prelude.{◌≡◌, ◌++◌, OnOk, IfOk, MatchResult, not};
ghost use Rattle.std.specs.Io.{StartsWith};
ghost use Rattle.std.specs.List.{list_all};
ghost use Rattle.text_model.specs.Text.{is_digit, is_decimal};
ghost use Rattle.state_model.specs.Saved.{IsVersionFault};
ghost use Rattle.state_part.specs.Form.{head_line, IsHeadFault};

use bridge_text::{NoMemory, cut_at};
use rope::Rope;

/// The first line without its LF, before the number of the version.
const VERSION_WORD: &[u8] = b"hg-git-bridge ";

/// The number of the version that is in force.
const VERSION: &[u8] = b"2";

/// Why bytes don't begin with the first line of a state's text.
#[derive(Clone, Copy, Debug, PartialEq, Eq)]
pub enum HeadFault {
    /// The first line names another version.
    OtherVersion,
    /// The first line is of another form, or has no LF.
    Shape,
}

/// What follows the first line of a state's text. `OtherVersion` comes exactly where the first line is
/// `hg-git-bridge` and the decimal of another number, of any size. `Shape` comes exactly where the bytes begin with no
/// such line and not with that of the version in force.
pub fn read_head(bytes: &[u8]) -> Result<&[u8], HeadFault>
    ensures head { MatchResult result (λ rest. bytes.now ≡ head_line ++ rest.now) (IsHeadFault bytes.now) }
    ensures version { IfOk result (λ _. ¬ (IsVersionFault bytes.now)) }
{
    let Some((line, rest)) = cut_at(b'\n', bytes) else {
        return Err(HeadFault::Shape);
    };
    let Some(number) = line.strip_prefix(VERSION_WORD) else {
        return Err(HeadFault::Shape);
    };
    if number == VERSION {
        Ok(rest)
    } else if is_decimal(number) {
        Err(HeadFault::OtherVersion)
    } else {
        Err(HeadFault::Shape)
    }
}

fn is_decimal(text: &[u8]) -> bool
    ensures { result ≡ is_decimal text.now }
{
    !text.is_empty() && are_digits(text) && (text.len() == 1 || text[0] != b'0')
}

fn are_digits(text: &[u8]) -> bool
    ensures { result ≡ list_all is_digit text.now }
{
    text.iter().all(|byte| byte.is_ascii_digit())
}

/// Appends the first line of a state's text. After want of memory what `out` was is its beginning.
pub fn put_head(out: &mut Rope) -> Result<(), NoMemory>
    ensures ok { OnOk result (out.new ≡ out.old ++ head_line) }
    ensures front { StartsWith out.new out.old }
{
    Ok(out.put(b"hg-git-bridge 2\n")?)
}
