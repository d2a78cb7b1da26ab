// The lines of commits and tags.
ghost use Rattle.std.specs.Prelude.{◌≡◌, ◌++◌, ◌+◌, ◌≤◌, length, vec_len, vec_capacity, option_map, MatchResult, OnOk, OnErr};
ghost use Rattle.text_model.specs.Text.{line};
ghost use Rattle.bridge_text.specs.Kinds.{object_kind};
ghost use Rattle.git_object.specs.Lines.{behind, worded_line, id_line, kind_of, type_line, IsSplit, IsCutAt};

use bridge_text::{Id, Kind, NoMemory, cut_at};

/// What stands behind the word in the first line, and what follows that line.
#[tactic(auto, unfolding(crate::specs::Lines::worded_line))]
pub fn worded_line<'a>(word: &[u8], text: &'a [u8]) -> Option<(&'a [u8], &'a [u8])>
    ensures { option_map (λ x. (x.0.now, x.1.now)) result ≡ worded_line word.now text.entry.now }
{
    let (line, rest) = cut_at(b'\n', text)?;
    let value = behind(word, line)?;
    Some((value, rest))
}

fn behind<'a>(word: &[u8], line: &'a [u8]) -> Option<&'a [u8]>
    ensures { option_map (λ value. value.now) result ≡ behind word.now line.entry.now }
{
    if line.starts_with(word) {
        Some(&line[word.len()..])
    } else {
        None
    }
}

/// The id in the first line, behind the word, and what follows that line.
#[tactic(auto, unfolding(crate::specs::Lines::id_line))]
pub fn id_line<'a>(word: &[u8], text: &'a [u8]) -> Option<(Id, &'a [u8])>
    ensures { option_map (λ x. (x.0, x.1.now)) result ≡ id_line word.now text.entry.now }
{
    let (digits, rest) = worded_line(word, text)?;
    let id = Id::from_hex(digits)?;
    Some((id, rest))
}

/// The kind in a first line `type KIND`, and what follows that line.
#[tactic(auto, unfolding(crate::specs::Lines::type_line))]
pub fn type_line(text: &[u8]) -> Option<(Kind, &[u8])>
    ensures { option_map (λ x. (object_kind x.0, x.1.now)) result ≡ type_line text.now }
{
    let (word, rest) = worded_line(b"type ", text)?;
    let kind = kind_of(word)?;
    Some((kind, rest))
}

fn kind_of(word: &[u8]) -> Option<Kind>
    ensures { option_map object_kind result ≡ kind_of word.now }
{
    if word == b"blob".as_slice() {
        Some(Kind::Blob)
    } else if word == b"tree".as_slice() {
        Some(Kind::Tree)
    } else if word == b"commit".as_slice() {
        Some(Kind::Commit)
    } else if word == b"tag".as_slice() {
        Some(Kind::Tag)
    } else {
        None
    }
}

/// The header lines and what follows the blank line behind them. An error is the offset of the
/// line that lacks its LF.
pub fn split_headers(text: &[u8]) -> Result<(&[u8], &[u8]), usize>
    ensures { MatchResult result (λ x. IsSplit text.now x.0.now x.1.now) (λ at. IsCutAt text.now at) }
{
    let mut rest = text;
    'lines: while let Some((line, after)) = cut_at(b'\n', rest) {
        if line.is_empty() {
            let (headers, _) = text.split_at(text.len() - rest.len());
            return Ok((headers, after));
        }
        rest = after;
    }
    Err(text.len() - rest.len())
}

/// Appends a line: the word, the value and an LF. If memory runs out, `out` is as it was.
pub fn put_line(out: &mut Vec<u8>, word: &[u8], value: &[u8]) -> Result<(), NoMemory>
    ensures ok { OnOk result (out.new.items ≡ out.old.items ++ line (word.now ++ value.now)) }
    ensures err { OnErr result (out.new.items ≡ out.old.items) }
{
    out.reserve(word.len() + value.len() + 1)?;
    put(out, word);
    put(out, value);
    put(out, b"\n");
    Ok(())
}

/// Appends bytes for which there is room.
pub fn put(out: &mut Vec<u8>, bytes: &[u8])
    requires { vec_len out.old + length bytes.now ≤ vec_capacity out.old }
    ensures items { out.new.items ≡ out.old.items ++ bytes.now }
    ensures len { vec_len out.new ≡ vec_len out.old + length bytes.now }
    ensures room { vec_capacity out.old ≤ vec_capacity out.new }
{
    out.extend_from_slice(bytes).unwrap();
}
