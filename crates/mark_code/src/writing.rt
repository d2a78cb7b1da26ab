// Marks written as the lines of a commit's headers.
ghost use Rattle.std.specs.Prelude.{◌≡◌, ◌++◌, [], ◌∷◌, map, decimal, OnOk};
ghost use Rattle.std.specs.List.{flat_map};
ghost use Rattle.std.specs.Io.{StartsWith};
ghost use Rattle.text_model.specs.Text.{sp, line, spaced, signed_decimal};
ghost use Rattle.text_model.specs.Id.{hex};
ghost use Rattle.text_model.specs.Escape.{escape};
ghost use Rattle.pair_model.specs.MarkList as model;
ghost use Rattle.pair_model.specs.MarkList.{mark_words, manifest_words, meta_word, marks_text};
ghost use Rattle.hg_manifest.specs.Values.{manifest_value};
ghost use Rattle.mark_code.specs.Values.{mark_value};

use crate::kind;
use crate::mark::Mark;
use bridge_text::{Bytes, Id, NoMemory, Paths, decimal_into, escape_into};
use hg_manifest::ManifestRev;

/// Appends a line for each mark, of which want of memory may leave a part.
#[tactic(auto, unfolding(pair_model::specs::MarkList::marks_text))]
pub fn put_marks(out: &mut Vec<u8>, marks: &[Mark]) -> Result<(), NoMemory>
    ensures ok { OnOk result (out.new.items ≡ out.old.items ++ marks_text (map mark_value marks.now)) }
    ensures front { StartsWith out.new.items out.old.items }
{
    for mark in marks {
        put_mark(out, mark)?;
    }
    Ok(())
}

fn put_mark(out: &mut Vec<u8>, mark: &Mark) -> Result<(), NoMemory>
    ensures ok { OnOk result (out.new.items ≡ out.old.items ++ line (spaced (mark_words (mark_value mark.now)))) }
    ensures front { StartsWith out.new.items out.old.items }
{
    put_words(out, mark)?;
    Ok(out.push(b'\n')?)
}

fn put_words(out: &mut Vec<u8>, mark: &Mark) -> Result<(), NoMemory>
    ensures ok { OnOk result (out.new.items ≡ out.old.items ++ spaced (mark_words (mark_value mark.now))) }
    ensures front { StartsWith out.new.items out.old.items }
{
    match mark {
        Mark::Rename { path, from } => put_pair(out, kind::RENAME, path, from),
        Mark::File { path, p, q, meta } => put_file(out, path, p, q, meta),
        Mark::Manifest(manifest) => put_manifest(out, manifest),
        Mark::Files(paths) => put_files(out, paths),
        Mark::User(user) => put_one(out, kind::USER, user),
        Mark::Date { time, tz } => put_date(out, *time, *tz),
        Mark::Raw(text) => put_one(out, kind::RAW, text),
        Mark::Extra { key, value } => put_pair(out, kind::EXTRA, key, value),
    }
}

fn put_one(out: &mut Vec<u8>, kind: &[u8], text: &Bytes) -> Result<(), NoMemory>
    ensures ok { OnOk result (out.new.items ≡ out.old.items ++ spaced (kind.now ∷ escape text.now ∷ [])) }
    ensures front { StartsWith out.new.items out.old.items }
{
    out.extend_from_slice(kind)?;
    put_escaped(out, text)
}

fn put_pair(out: &mut Vec<u8>, kind: &[u8], first: &Bytes, second: &Bytes) -> Result<(), NoMemory>
    ensures ok { OnOk result (out.new.items ≡ out.old.items ++ spaced (kind.now ∷ escape first.now ∷ escape second.now ∷ [])) }
    ensures front { StartsWith out.new.items out.old.items }
{
    out.extend_from_slice(kind)?;
    put_escaped(out, first)?;
    put_escaped(out, second)
}

fn put_file(
    out: &mut Vec<u8>,
    path: &Bytes,
    p: &Id,
    q: &Id,
    meta: &Option<Bytes>,
) -> Result<(), NoMemory>
    ensures ok { OnOk result (out.new.items ≡ out.old.items ++ spaced (mark_words (model.File path.now p.now q.now meta.now))) }
    ensures front { StartsWith out.new.items out.old.items }
{
    out.extend_from_slice(kind::FILE)?;
    put_escaped(out, path)?;
    put_id(out, p)?;
    put_id(out, q)?;
    put_meta(out, meta)
}

fn put_manifest(out: &mut Vec<u8>, manifest: &ManifestRev) -> Result<(), NoMemory>
    ensures ok { OnOk result (out.new.items ≡ out.old.items ++ spaced (mark_words (model.Manifest (manifest_value manifest.now)))) }
    ensures front { StartsWith out.new.items out.old.items }
{
    out.extend_from_slice(kind::MANIFEST)?;
    put_parents(out, manifest)
}

// A space and `null`, or the two parents, each with a space before it.
fn put_parents(out: &mut Vec<u8>, manifest: &ManifestRev) -> Result<(), NoMemory>
    ensures ok { OnOk result (out.new.items ≡ out.old.items ++ flat_map (λ w. sp ∷ w) (manifest_words (manifest_value manifest.now))) }
    ensures front { StartsWith out.new.items out.old.items }
{
    match manifest {
        ManifestRev::Null => Ok(out.extend_from_slice(b" null")?),
        ManifestRev::Over { p, q } => {
            put_id(out, p)?;
            put_id(out, q)
        }
    }
}

fn put_files(out: &mut Vec<u8>, paths: &Paths) -> Result<(), NoMemory>
    ensures ok { OnOk result (out.new.items ≡ out.old.items ++ spaced (mark_words (model.Files paths.now))) }
    ensures front { StartsWith out.new.items out.old.items }
{
    out.extend_from_slice(kind::FILES)?;
    put_count(out, paths.len())?;
    put_paths(out, paths.as_slice())
}

fn put_date(out: &mut Vec<u8>, time: i64, tz: i64) -> Result<(), NoMemory>
    ensures ok { OnOk result (out.new.items ≡ out.old.items ++ spaced (mark_words (model.Date time tz))) }
    ensures front { StartsWith out.new.items out.old.items }
{
    out.extend_from_slice(kind::DATE)?;
    put_signed(out, time)?;
    put_signed(out, tz)
}

// A space and the escape of these bytes.
fn put_escaped(out: &mut Vec<u8>, raw: &Bytes) -> Result<(), NoMemory>
    ensures ok { OnOk result (out.new.items ≡ out.old.items ++ sp ∷ escape raw.now) }
    ensures front { StartsWith out.new.items out.old.items }
{
    out.push(b' ')?;
    escape_into(out, raw.as_slice())
}

// A space and the digits of an id.
fn put_id(out: &mut Vec<u8>, id: &Id) -> Result<(), NoMemory>
    ensures ok { OnOk result (out.new.items ≡ out.old.items ++ sp ∷ hex id.now) }
    ensures front { StartsWith out.new.items out.old.items }
{
    out.push(b' ')?;
    Ok(out.extend_from_slice(&id.hex())?)
}

// A space, and `-` or `=` and the escape of the metadata.
fn put_meta(out: &mut Vec<u8>, meta: &Option<Bytes>) -> Result<(), NoMemory>
    ensures ok { OnOk result (out.new.items ≡ out.old.items ++ sp ∷ meta_word meta.now) }
    ensures front { StartsWith out.new.items out.old.items }
{
    match meta {
        None => Ok(out.extend_from_slice(b" -")?),
        Some(meta) => {
            out.extend_from_slice(b" =")?;
            escape_into(out, meta.as_slice())
        }
    }
}

// A space and a decimal.
fn put_count(out: &mut Vec<u8>, count: usize) -> Result<(), NoMemory>
    ensures ok { OnOk result (out.new.items ≡ out.old.items ++ sp ∷ decimal count) }
    ensures front { StartsWith out.new.items out.old.items }
{
    out.push(b' ')?;
    decimal_into(out, count as u64)
}

// The escape of each path, with a space before it.
fn put_paths(out: &mut Vec<u8>, paths: &[Bytes]) -> Result<(), NoMemory>
    ensures ok { OnOk result (out.new.items ≡ out.old.items ++ flat_map (λ w. sp ∷ w) (map escape paths.now)) }
    ensures front { StartsWith out.new.items out.old.items }
{
    for path in paths {
        put_escaped(out, path)?;
    }
    Ok(())
}

// A space and a decimal, with `-` where it is negative.
fn put_signed(out: &mut Vec<u8>, number: i64) -> Result<(), NoMemory>
    ensures ok { OnOk result (out.new.items ≡ out.old.items ++ sp ∷ signed_decimal number) }
    ensures front { StartsWith out.new.items out.old.items }
{
    out.push(b' ')?;
    if number < 0 {
        out.push(b'-')?;
    }
    decimal_into(out, number.unsigned_abs())
}
