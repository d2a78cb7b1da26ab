// What the line of an object says.
ghost use Rattle.std.specs.Prelude.{◌≡◌, ◌&&◌, ◌==◌, ◌≤◌, ℕ, nat_le, IfOk, IfErr, option_map};
ghost use Rattle.std.specs.List.{list_all, slice_split};
ghost use Rattle.text_model.specs.Text.{sp, is_digit, is_decimal};
ghost use Rattle.git_model.specs.Stream.{is_kind_word, kind_of, size_limit};
ghost use Rattle.git_model.specs.Stream as stream;
ghost use Rattle.bridge_text.specs.Kinds.{object_kind};
ghost use Rattle.git_batch.specs.Faults.{AnswerCause, IsFraming};
ghost use Rattle.git_batch.specs.Header.{ReadsHeader, header_text, three_words};

use crate::BatchFault;
use bridge_text::{COMMIT_LIMIT, Id, Kind, TEXT_LIMIT, cut_at, decimal_of};

/// The line of an object.
#[derive(Clone, Copy, Debug, PartialEq, Eq)]
pub struct Header {
    /// The id that it names.
    pub id: Id,
    /// The kind that it names.
    pub kind: Kind,
    /// How many bytes the content has.
    pub size: usize,
}

/// Reads a line at an offset, without its LF: the id in hex digits, the kind's word and the size of the content in
/// decimal, with a space between each two.
pub fn header_of(at: u64, text: &[u8]) -> Result<Header, BatchFault>
    ensures reads { ReadsHeader (stream.header_of at (slice_split (λ b. b == sp) text.now)) result }
    ensures text { IfOk result (λ header. text.now ≡ header_text header) }
    ensures limit { IfOk result (λ header. header.size ≤ size_limit (object_kind header.kind)) }
    ensures names { IfErr result IsFraming }
    ensures cause { (faults : ℕ) → AnswerCause faults faults result }
{
    let Some((digits, word, size)) = words_of(text) else {
        return Err(BatchFault::Line(at));
    };
    if !is_kind_word(word) || !is_decimal(size) {
        return Err(BatchFault::Line(at));
    }
    let Some(id) = Id::from_hex(digits) else {
        return Err(BatchFault::Line(at));
    };
    let Some(kind) = kind_of(word) else {
        return Err(BatchFault::KindUnknown(id, at));
    };
    let Some(size) = decimal_of(size) else {
        return Err(BatchFault::Limit(at));
    };
    if size > size_limit(kind) {
        return Err(BatchFault::Limit(at));
    }
    Ok(Header {
        id,
        kind,
        size: size as usize,
    })
}

// The words of a line of three.
fn words_of(text: &[u8]) -> Option<(&[u8], &[u8], &[u8])>
    ensures { option_map (λ w. (w.0.now, w.1.now, w.2.now)) result ≡ three_words (slice_split (λ b. b == sp) text.now) }
{
    let (first, rest) = cut_at(b' ', text)?;
    let (second, third) = cut_at(b' ', rest)?;
    match cut_at(b' ', third) {
        Some(_) => None,
        None => Some((first, second, third)),
    }
}

fn kind_of(word: &[u8]) -> Option<Kind>
    ensures { option_map object_kind result ≡ kind_of word.now }
{
    match word {
        b"blob" => Some(Kind::Blob),
        b"tree" => Some(Kind::Tree),
        b"commit" => Some(Kind::Commit),
        b"tag" => Some(Kind::Tag),
        _ => None,
    }
}

// How many bytes a content of the kind has at most.
fn size_limit(kind: Kind) -> u64
    ensures { result ≡ size_limit (object_kind kind) }
{
    match kind {
        Kind::Commit => COMMIT_LIMIT as u64,
        Kind::Blob | Kind::Tree | Kind::Tag => TEXT_LIMIT as u64,
    }
}

fn is_kind_word(word: &[u8]) -> bool
    ensures { result ≡ is_kind_word word.now }
{
    !word.is_empty() && are_letters(word)
}

fn are_letters(word: &[u8]) -> bool
    ensures { result ≡ list_all (λ b. nat_le 97 b && nat_le b 122) word.now }
{
    word.iter().all(|byte| byte.is_ascii_lowercase())
}

// Digits alone, at least one, the first not `0` unless it stands alone.
fn is_decimal(text: &[u8]) -> bool
    ensures { result ≡ is_decimal text.now }
{
    !text.is_empty() && are_digits(text) && (text.len() == 1 || text[0] != b'0')
}

fn are_digits(text: &[u8]) -> bool
    ensures { result ≡ list_all is_digit text.now }
{
    text.iter().all(|byte| byte.is_ascii_digit())
}
