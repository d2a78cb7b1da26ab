// Marks read from the lines of a commit's headers. Each word is cut off at its space and
// unescaped once.
ghost use Rattle.std.specs.Prelude.{◌≡◌, ◌==◌, decimal, option_map, IfOk};
ghost use Rattle.std.specs.List.{slice_split};
ghost use Rattle.text_model.specs.Text.{sp};
ghost use Rattle.hg_model.specs.Changeset.{Plain, date_of};
ghost use Rattle.mark_code.specs.Values.{mark_value};
ghost use Rattle.mark_code.specs.Reading.{rename_of, meta_of, file_of, parents_of, manifest_of, raws_of, files_of, user_of, date_mark, raw_date_of, extra_mark_of, mark_of_kind, mark_of, counted};

use crate::escape::unescaped;
use crate::kind;
use crate::mark::Mark;
use bridge_text::{Bytes, Id, NoMemory, Paths, cut_at, is_decimal_of};
use hg_changeset::{DateLine, Extras};
use hg_manifest::ManifestRev;
use std::alloc::Global;

/// The mark that a line is, without its LF; `None` where it is none.
#[tactic(auto, unfolding(crate::specs::Reading::mark_of))]
pub fn read_mark(alloc: Global, line: &[u8]) -> Result<Option<Mark>, NoMemory>
    ensures { IfOk result (λ mark. option_map mark_value mark ≡ mark_of line.now) }
{
    match cut_at(b' ', line) {
        Some((kind, words)) => read_kind(alloc, kind, words),
        None => Ok(None),
    }
}

fn read_kind(alloc: Global, kind: &[u8], words: &[u8]) -> Result<Option<Mark>, NoMemory>
    ensures { IfOk result (λ mark. option_map mark_value mark ≡ mark_of_kind kind.now words.now) }
{
    if kind == kind::RENAME {
        read_rename(alloc, words)
    } else if kind == kind::FILE {
        read_file(alloc, words)
    } else if kind == kind::MANIFEST {
        Ok(read_manifest(words))
    } else if kind == kind::FILES {
        read_files(alloc, words)
    } else if kind == kind::USER {
        read_user(alloc, words)
    } else if kind == kind::DATE {
        read_date(alloc, words)
    } else if kind == kind::RAW {
        read_raw(alloc, words)
    } else if kind == kind::EXTRA {
        read_extra(alloc, words)
    } else {
        Ok(None)
    }
}

// `PATH FROM`.
#[tactic(auto, unfolding(crate::specs::Reading::rename_of))]
fn read_rename(alloc: Global, words: &[u8]) -> Result<Option<Mark>, NoMemory>
    ensures { IfOk result (λ mark. option_map mark_value mark ≡ rename_of words.now) }
{
    let Some((path, from)) = cut_at(b' ', words) else {
        return Ok(None);
    };
    let Some(path) = unescaped(alloc, path)? else {
        return Ok(None);
    };
    let Some(from) = unescaped(alloc, from)? else {
        return Ok(None);
    };
    Ok(Some(Mark::Rename { path, from }))
}

// `PATH P Q META`.
#[tactic(auto, unfolding(crate::specs::Reading::file_of))]
fn read_file(alloc: Global, words: &[u8]) -> Result<Option<Mark>, NoMemory>
    ensures { IfOk result (λ mark. option_map mark_value mark ≡ file_of words.now) }
{
    let Some((path, words)) = cut_at(b' ', words) else {
        return Ok(None);
    };
    let Some(path) = unescaped(alloc, path)? else {
        return Ok(None);
    };
    let Some((p, words)) = cut_at(b' ', words) else {
        return Ok(None);
    };
    let Some(p) = Id::from_hex(p) else {
        return Ok(None);
    };
    let Some((q, meta)) = cut_at(b' ', words) else {
        return Ok(None);
    };
    let Some(q) = Id::from_hex(q) else {
        return Ok(None);
    };
    let Some(meta) = read_meta(alloc, meta)? else {
        return Ok(None);
    };
    Ok(Some(Mark::File { path, p, q, meta }))
}

// `-`, or `=` and metadata.
fn read_meta(alloc: Global, text: &[u8]) -> Result<Option<Option<Bytes>>, NoMemory>
    ensures { IfOk result (λ meta. meta ≡ meta_of text.now) }
{
    match text {
        [b'=', meta @ ..] => match unescaped(alloc, meta)? {
            Some(meta) => Ok(Some(Some(meta))),
            None => Ok(None),
        },
        [b'-'] => Ok(Some(None)),
        _ => Ok(None),
    }
}

// `null` or `P Q`.
fn read_manifest(words: &[u8]) -> Option<Mark>
    ensures { option_map mark_value result ≡ manifest_of words.now }
{
    if words == b"null".as_slice() {
        Some(Mark::Manifest(ManifestRev::Null))
    } else {
        read_parents(words)
    }
}

#[tactic(auto, unfolding(crate::specs::Reading::parents_of))]
fn read_parents(words: &[u8]) -> Option<Mark>
    ensures { option_map mark_value result ≡ parents_of words.now }
{
    let (p, q) = cut_at(b' ', words)?;
    let p = Id::from_hex(p)?;
    let q = Id::from_hex(q)?;
    Some(Mark::Manifest(ManifestRev::Over { p, q }))
}

// `N` and N paths.
#[tactic(auto, unfolding(crate::specs::Reading::files_of))]
fn read_files(alloc: Global, words: &[u8]) -> Result<Option<Mark>, NoMemory>
    ensures { IfOk result (λ mark. option_map mark_value mark ≡ files_of words.now) }
{
    match cut_at(b' ', words) {
        None => Ok(counted(words, Paths::new(alloc))),
        Some((count, words)) => match read_paths(alloc, words)? {
            Some(paths) => Ok(counted(count, paths)),
            None => Ok(None),
        },
    }
}

// The paths, where there are as many as the decimal says.
fn counted(count: &[u8], paths: Paths) -> Option<Mark>
    ensures { option_map mark_value result ≡ counted count.now paths }
{
    if is_decimal_of(count, paths.len() as u64) {
        Some(Mark::Files(paths))
    } else {
        None
    }
}

// Paths with one space between each two.
fn read_paths(alloc: Global, words: &[u8]) -> Result<Option<Paths>, NoMemory>
    ensures { IfOk result (λ paths. paths ≡ raws_of (slice_split (λ b. b == sp) words.now)) }
{
    let mut paths = Paths::new(alloc);
    let mut rest = words;
    'words: while let Some((word, after)) = cut_at(b' ', rest) {
        let Some(path) = unescaped(alloc, word)? else {
            return Ok(None);
        };
        paths.push(path)?;
        rest = after;
    }
    let Some(path) = unescaped(alloc, rest)? else {
        return Ok(None);
    };
    paths.push(path)?;
    Ok(Some(paths))
}

fn read_user(alloc: Global, words: &[u8]) -> Result<Option<Mark>, NoMemory>
    ensures { IfOk result (λ mark. option_map mark_value mark ≡ user_of words.now) }
{
    match unescaped(alloc, words)? {
        Some(user) => Ok(Some(Mark::User(user))),
        None => Ok(None),
    }
}

// `TIME TZ`, which is a date line without extras.
fn read_date(alloc: Global, words: &[u8]) -> Result<Option<Mark>, NoMemory>
    ensures { IfOk result (λ mark. option_map mark_value mark ≡ date_mark (date_of words.now)) }
{
    match DateLine::read(alloc, words)? {
        DateLine::Plain { time, tz, extras } => Ok(date_without(time, tz, &extras)),
        DateLine::Raw(_) => Ok(None),
    }
}

// The date, where there are no extras.
fn date_without(time: i64, tz: i64, extras: &Extras) -> Option<Mark>
    ensures { option_map mark_value result ≡ date_mark (Plain time tz extras.now) }
{
    if extras.is_empty() {
        Some(Mark::Date { time, tz })
    } else {
        None
    }
}

fn read_raw(alloc: Global, words: &[u8]) -> Result<Option<Mark>, NoMemory>
    ensures { IfOk result (λ mark. option_map mark_value mark ≡ raw_date_of words.now) }
{
    match unescaped(alloc, words)? {
        Some(text) => Ok(Some(Mark::Raw(text))),
        None => Ok(None),
    }
}

// `KEY VALUE`.
#[tactic(auto, unfolding(crate::specs::Reading::extra_mark_of))]
fn read_extra(alloc: Global, words: &[u8]) -> Result<Option<Mark>, NoMemory>
    ensures { IfOk result (λ mark. option_map mark_value mark ≡ extra_mark_of words.now) }
{
    let Some((key, value)) = cut_at(b' ', words) else {
        return Ok(None);
    };
    let Some(key) = unescaped(alloc, key)? else {
        return Ok(None);
    };
    let Some(value) = unescaped(alloc, value)? else {
        return Ok(None);
    };
    Ok(Some(Mark::Extra { key, value }))
}
