// The lines of a changeset's text.
ghost use Rattle.std.specs.Prelude.{◌≡◌, ◌++◌, false, true, Some, None, option_map, MatchResult, MatchOption, IfOk, OnOk};
ghost use Rattle.std.specs.List.{flat_map};
ghost use Rattle.std.specs.Io.{StartsWith};
ghost use Rattle.text_model.specs.Text.{first_line, line};
ghost use Rattle.hg_model.specs.Changeset.{changeset_fault, has_blank_line};
ghost use Rattle.hg_changeset.specs.Reading.{IsHead, AreFiles};

use bridge_text::{Bytes, Id, NoMemory, Paths, cut_at};
use std::alloc::Global;

/// The first three lines of a changeset, and what follows them.
#[derive(Clone, Copy)]
pub struct Head<'a> {
    pub manifest: Id,
    pub user: &'a [u8],
    pub date: &'a [u8],
    pub rest: &'a [u8],
}

/// The text before its first LF and what follows it; `None` where it has no LF.
pub fn first_line(text: &[u8]) -> Option<(&[u8], &[u8])>
    ensures { option_map (λ x. (x.0.now, x.1.now)) result ≡ first_line text.now }
{
    cut_at(b'\n', text)
}

/// The first three lines of a text. An error is the offset of the first of them that doesn't fit.
pub fn read_head(text: &[u8]) -> Result<Head<'_>, usize>
    ensures { MatchResult result (λ head. IsHead text.now head.manifest head.user.now head.date.now head.rest.now) (λ place. changeset_fault text.now ≡ Some place) }
{
    let Some((digits, behind_manifest)) = first_line(text) else {
        return Err(0);
    };
    let Some(manifest) = Id::from_hex(digits) else {
        return Err(0);
    };
    let Some((user, behind_user)) = first_line(behind_manifest) else {
        return Err(text.len() - behind_manifest.len());
    };
    if user.is_empty() {
        return Err(text.len() - behind_manifest.len());
    }
    let Some((date, rest)) = first_line(behind_user) else {
        return Err(text.len() - behind_user.len());
    };
    Ok(Head {
        manifest,
        user,
        date,
        rest,
    })
}

/// Adds the lines before the blank one, without their LFs. The answer is what follows the blank
/// line; `None` where there is none.
pub fn take_files<'a>(
    files: &mut Paths,
    alloc: Global,
    text: &'a [u8],
) -> Result<Option<&'a [u8]>, NoMemory>
    ensures { IfOk result (λ description. MatchOption description (has_blank_line text.entry.now ≡ false) (λ description. AreFiles text.entry.now files.old files.new description.now)) }
{
    let mut rest = text;
    'files: while let Some((file, after)) = first_line(rest) {
        if file.is_empty() {
            return Ok(Some(after));
        }
        files.push(Bytes::of(alloc, file)?)?;
        rest = after;
    }
    Ok(None)
}

/// Appends a text and LF, of which want of memory may leave a part.
pub fn put_line(out: &mut Vec<u8>, text: &[u8]) -> Result<(), NoMemory>
    ensures ok { OnOk result (out.new.items ≡ out.old.items ++ line text.now) }
    ensures front { StartsWith out.new.items out.old.items }
{
    out.extend_from_slice(text)?;
    Ok(out.push(b'\n')?)
}

/// Appends a line for each file, of which want of memory may leave a part.
pub fn put_files(out: &mut Vec<u8>, files: &[Bytes]) -> Result<(), NoMemory>
    ensures ok { OnOk result (out.new.items ≡ out.old.items ++ flat_map line files.now) }
    ensures front { StartsWith out.new.items out.old.items }
{
    for file in files {
        put_line(out, file.as_slice())?;
    }
    Ok(())
}
