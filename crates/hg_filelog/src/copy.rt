ghost use Rattle.std.specs.Prelude.{◌≡◌, List, ℕ, Some, IfSome, option_map};
ghost use Rattle.std.specs.Option.{option_copied};
ghost use Rattle.hg_model.specs.FileText.{IsCopy};
ghost use Rattle.hg_model.specs.FileText as file_text;
ghost use Rattle.hg_filelog.specs.Reading.{after_word, path_in, node_in, copy_in};

use bridge_text::{Id, cut_at};

/// What the line with the path of a copy begins with.
const PATH_WORD: &[u8] = b"copy: ";

/// What the line with the node of a copy begins with.
const NODE_WORD: &[u8] = b"copyrev: ";

/// The path and the node of a copy, as Mercurial's filelog writes them into metadata.
/// There are any exactly where the metadata are the two lines `copy: PATH` and `copyrev: NODE` and nothing else, with a path that isn't empty and a node of 40 lower case hex digits.
pub fn copy_of(meta: &[u8]) -> Option<(&[u8], Id)>
    ensures value { option_map (λ copy. (copy.0.now, copy.1)) result ≡ file_text.copy_of meta.now }
    ensures found { IfSome result (λ copy. IsCopy meta.now copy.0.now copy.1) }
    ensures each { (path node : List ℕ) → IsCopy meta.now path node
        → option_map {U = List ℕ × List ℕ} (λ copy. (copy.0.now, copy.1)) result ≡ Some (path, node) }
{
    read_copy(meta)
}

/// Whether a line of metadata begins with `copy: `.
pub fn has_copy(meta: &[u8]) -> bool
    ensures { result ≡ file_text.has_copy meta.now }
{
    let mut rest = meta;
    while let Some((line, after)) = cut_at(b'\n', rest) {
        if line.starts_with(PATH_WORD) {
            return true;
        }
        rest = after;
    }
    rest.starts_with(PATH_WORD)
}

#[tactic(auto, unfolding(crate::specs::Reading::after_word))]
fn after_word<'a>(word: &[u8], text: &'a [u8]) -> Option<&'a [u8]>
    ensures { option_copied result ≡ after_word word.now text.entry.now }
{
    if text.starts_with(word) {
        Some(&text[word.len()..])
    } else {
        None
    }
}

#[tactic(auto, unfolding(crate::specs::Reading::path_in))]
fn path_in(line: &[u8]) -> Option<&[u8]>
    ensures { option_copied result ≡ path_in line.now }
{
    let path = after_word(PATH_WORD, line)?;
    if path.is_empty() { None } else { Some(path) }
}

#[tactic(auto, unfolding(crate::specs::Reading::node_in))]
fn node_in(line: &[u8]) -> Option<Id>
    ensures { result ≡ node_in line.now }
{
    let digits = after_word(NODE_WORD, line)?;
    Id::from_hex(digits)
}

#[tactic(auto, unfolding(crate::specs::Reading::copy_in))]
fn read_copy(meta: &[u8]) -> Option<(&[u8], Id)>
    ensures { option_map (λ copy. (copy.0.now, copy.1)) result ≡ copy_in meta.now }
{
    let (first, rest) = cut_at(b'\n', meta)?;
    let (second, rest) = cut_at(b'\n', rest)?;
    let path = path_in(first)?;
    let node = node_in(second)?;
    if rest.is_empty() {
        Some((path, node))
    } else {
        None
    }
}
