ghost use Rattle.std.specs.Prelude.{◌≡◌, ℕ, List, Option, false, is_err, IfOk, option_map};
ghost use Rattle.hg_model.specs.FileText.{IsFileText, lacks_second_mark};

use crate::fault::FileShape;
use memchr::memmem;

/// The bytes 0x01 and LF, which stand before and behind metadata.
pub const MARK: &[u8] = b"\x01\n";

/// The metadata and the body of the text of a file revision, as Mercurial's filelog has them.
/// There are metadata where the text begins with 0x01 LF; they go up to the next 0x01 LF, and the body is what follows.
/// FileShape comes exactly where such a text has no further 0x01 LF from offset 2 on. A text is that of one pair of metadata
/// and body at most, and that of a pair is never refused.
pub fn split(raw: &[u8]) -> Result<(Option<&[u8]>, &[u8]), FileShape>
    ensures ok { IfOk result (λ parts. IsFileText raw.now (option_map (λ meta. meta.now) parts.0) parts.1.now) }
    ensures only { IfOk result (λ parts. (meta : Option (List ℕ)) (body : List ℕ) → IsFileText raw.now meta body
        → (option_map (λ meta. meta.now) parts.0 ≡ meta) × (parts.1.now ≡ body)) }
    ensures fault { is_err result ≡ lacks_second_mark raw.now }
    ensures taken { (meta : Option (List ℕ)) (body : List ℕ) → IsFileText raw.now meta body → is_err result ≡ false }
{
    let Some(rest) = raw.strip_prefix(MARK) else {
        return Ok((None, raw));
    };
    match memmem::find(rest, MARK) {
        None => Err(FileShape),
        Some(end) => Ok((Some(&rest[..end]), &rest[end + MARK.len()..])),
    }
}
