ghost use Rattle.std.specs.Prelude.{◌≡◌, ◌++◌, option_map, OnOk, OnErr};
ghost use Rattle.git_model.specs.Tree.{is_directory, is_directory_text, tree_entry_text, first_entry, entry_and_rest, is_octal, is_octal_digit};
ghost use Rattle.std.specs.List.{list_all};
ghost use Rattle.git_object.specs.Values.{mode_value, raw_entry};

use crate::line::put;
use crate::mode::{Mode, is_directory_text};
use crate::order::OrderName;
use bridge_text::{Bytes, Id, NoMemory, cut_at};
use std::marker::Model;

/// An entry of a tree.
#[derive(Debug, Drop)]
pub struct TreeEntry {
    /// What it is.
    pub mode: Mode,
    /// Its name, one component of a path.
    pub name: Bytes,
    /// The id of its blob or tree.
    pub id: Id,
}

impl Model for TreeEntry {
    ghost use Rattle.git_model.specs.Tree as model;
    ghost use Rattle.git_object.specs.Values.{mode_value};

    ghost Value = { model.TreeEntry };

    ghost view = { λ e. record { mode = mode_value e.mode; name = e.name; id = e.id } };
}

impl TreeEntry {
    /// What the entry is.
    pub fn mode(&self) -> Mode
        ensures { mode_value result ≡ self.now.mode }
    {
        self.mode
    }

    /// Its name.
    pub fn name(&self) -> &[u8]
        ensures { result.now ≡ self.now.name }
    {
        self.name.as_slice()
    }

    /// The id of its blob or tree.
    pub fn id(&self) -> &Id
        ensures { result.now ≡ self.now.id }
    {
        &self.id
    }

    /// The name as it counts in the order of entries.
    pub fn order_name(&self) -> OrderName<'_>
        ensures name { result.name.now ≡ self.now.name }
        ensures directory { result.is_directory ≡ is_directory self.now.mode }
    {
        OrderName {
            name: self.name.as_slice(),
            is_directory: self.mode.is_directory(),
        }
    }
}

/// An entry as it stands in a content: nothing is said of its mode's text or of its name.
#[derive(Clone, Copy)]
pub struct RawEntry<'a> {
    pub mode: &'a [u8],
    pub name: &'a [u8],
    pub id: Id,
}

impl<'a> RawEntry<'a> {
    /// The name as it counts in the order of entries.
    pub fn order_name(&self) -> OrderName<'a>
        ensures name { result.name.now ≡ self.now.name.now }
        ensures directory { result.is_directory ≡ is_directory_text self.now.mode.now }
    {
        OrderName {
            name: self.name,
            is_directory: is_directory_text(self.mode),
        }
    }
}

/// The entry at the beginning of a content, and what follows it; `None` where it is cut.
#[tactic(auto, unfolding(git_model::specs::Tree::first_entry))]
pub fn first_entry(content: &[u8]) -> Option<(RawEntry<'_>, &[u8])>
    ensures { option_map (λ x. (raw_entry x.0, x.1.now)) result ≡ first_entry content.now }
{
    let (mode, rest) = cut_at(b' ', content)?;
    let (name, tail) = cut_at(b'\0', rest)?;
    entry_and_rest(mode, name, tail)
}

fn entry_and_rest<'a>(
    mode: &'a [u8],
    name: &'a [u8],
    tail: &'a [u8],
) -> Option<(RawEntry<'a>, &'a [u8])>
    ensures { option_map (λ x. (raw_entry x.0, x.1.now)) result ≡ entry_and_rest mode.entry.now name.entry.now tail.entry.now }
{
    match tail.split_first_chunk::<20>() {
        Some((id, rest)) => Some((
            RawEntry {
                mode,
                name,
                id: Id::new(*id),
            },
            rest,
        )),
        None => None,
    }
}

/// Whether the text is one or more octal digits.
pub fn is_octal(text: &[u8]) -> bool
    ensures { result ≡ is_octal text.now }
{
    !text.is_empty() && are_octal_digits(text)
}

fn are_octal_digits(text: &[u8]) -> bool
    ensures { result ≡ list_all is_octal_digit text.now }
{
    text.iter().all(|digit| is_octal_digit(*digit))
}

fn is_octal_digit(digit: u8) -> bool
    ensures { result ≡ is_octal_digit digit }
{
    digit >= b'0' && digit <= b'7'
}

/// Appends the text of an entry. If memory runs out, `out` is as it was.
pub fn put_entry(out: &mut Vec<u8>, entry: &TreeEntry) -> Result<(), NoMemory>
    ensures ok { OnOk result (out.new.items ≡ out.old.items ++ tree_entry_text entry.now) }
    ensures err { OnErr result (out.new.items ≡ out.old.items) }
{
    let mode = entry.mode.text();
    let name = entry.name.as_slice();
    let id = entry.id.bytes();
    out.reserve(mode.len() + name.len() + 22)?;
    put(out, mode);
    put(out, b" ");
    put(out, name);
    put(out, b"\0");
    put(out, &id);
    Ok(())
}
