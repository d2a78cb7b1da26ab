ghost use Rattle.std.specs.Prelude.{◌≡◌, ◌++◌, Some, OnOk, OnErr};
ghost use Rattle.std.specs.Io.{StartsWith};
ghost use Rattle.std.specs.Option.{option_copied};
ghost use Rattle.hg_model.specs.FileText.{file_text, plain_meta};
ghost use Rattle.hg_filelog.specs.Parts.{CanJoin};

use crate::parts::MARK;
use bridge_text::NoMemory;

// The metadata between two marks and the body, of which want of memory may leave a part.
fn append_parts(out: &mut Vec<u8>, meta: &[u8], body: &[u8]) -> Result<(), NoMemory>
    ensures ok { OnOk result (out.new.items ≡ out.old.items ++ file_text (Some meta.now) body.now) }
    ensures front { StartsWith out.new.items out.old.items }
{
    out.extend_from_slice(MARK)?;
    out.extend_from_slice(meta)?;
    out.extend_from_slice(MARK)?;
    out.extend_from_slice(body)?;
    Ok(())
}

fn append_wrapped(out: &mut Vec<u8>, meta: &[u8], body: &[u8]) -> Result<(), NoMemory>
    ensures ok { OnOk result (out.new.items ≡ out.old.items ++ file_text (Some meta.now) body.now) }
    ensures err { OnErr result (out.new.items ≡ out.old.items) }
{
    let start = out.len();
    if append_parts(out, meta, body).is_err() {
        out.truncate(start);
        return Err(NoMemory);
    }
    Ok(())
}

/// Adds the text of a file revision with these metadata and this body.
/// Metadata hold no 0x01 LF, and a body without metadata doesn't begin with one, so that the text splits into these two again.
/// After want of memory `out` is as it was.
pub fn join_into(out: &mut Vec<u8>, meta: Option<&[u8]>, body: &[u8]) -> Result<(), NoMemory>
    requires { CanJoin (option_copied meta) body.now }
    ensures ok { OnOk result (out.new.items ≡ out.old.items ++ file_text (option_copied meta.entry) body.now) }
    ensures err { OnErr result (out.new.items ≡ out.old.items) }
{
    match meta {
        Some(meta) => append_wrapped(out, meta, body),
        None => Ok(out.extend_from_slice(body)?),
    }
}

/// Adds the text of a body that has no metadata: the body itself, behind empty metadata where it begins with 0x01 LF.
/// After want of memory `out` is as it was.
pub fn plain_into(out: &mut Vec<u8>, body: &[u8]) -> Result<(), NoMemory>
    ensures ok { OnOk result (out.new.items ≡ out.old.items ++ file_text (plain_meta body.now) body.now) }
    ensures err { OnErr result (out.new.items ≡ out.old.items) }
{
    if body.starts_with(MARK) {
        append_wrapped(out, b"", body)
    } else {
        Ok(out.extend_from_slice(body)?)
    }
}
