// The text of a residue: a word for each item, with one space between each two.
ghost use Rattle.std.specs.Prelude.{◌≡◌, ◌==◌, ◌++◌, [], ◌∷◌, map, option_map, if◌then◌else◌, codes, List, None, OnOk, IfOk};
ghost use Rattle.std.specs.List.{flat_map};
ghost use Rattle.text_model.specs.Lists.{Each};
ghost use Rattle.text_model.specs.Text.{Bytes as Text, IsBytes, sp};
ghost use Rattle.text_model.specs.Escape.{escape};
ghost use Rattle.text_model.specs.Id.{IsId, hex};
ghost use Rattle.git_object.specs.Values.{kind_value};
ghost use Rattle.pair_model.specs.MarkList.{item_word, residue_words, residue_text, IsResidue};
ghost use Rattle.mark_code.specs.ResidueText.{item_of_path, link_of, item_of_kind, item_of_word, items_behind, residue_of_text, IsItem};

use crate::escape::unescaped;
use bridge_text::{Bytes, Id, NoMemory, cut_at, escape_into};
use git_object::{Residue, ResidueItem, ResidueKind};
use std::alloc::Global;

const GROUP: &[u8] = b"group";

const LINK: &[u8] = b"link";

const EMPTY: &[u8] = b"empty";

/// The residue whose text this is; `None` where it is that of none.
pub fn read_residue(alloc: Global, text: &[u8]) -> Result<Option<Residue>, NoMemory>
    ensures { IfOk result (λ residue. residue ≡ residue_of_text text.now) }
{
    let mut residue = Residue::new(alloc);
    if text.is_empty() {
        return Ok(Some(residue));
    }
    let mut rest = text;
    'words: while let Some((word, after)) = cut_at(b' ', rest) {
        if !take_word(alloc, &mut residue, word)? {
            return Ok(None);
        }
        rest = after;
    }
    if take_word(alloc, &mut residue, rest)? {
        Ok(Some(residue))
    } else {
        Ok(None)
    }
}

// Puts the item that a word is behind the others; `false` where it is none, or its path does not
// stand above the last.
fn take_word(alloc: Global, residue: &mut Residue, word: &[u8]) -> Result<bool, NoMemory>
    ensures { IfOk result (λ taken. (words : List Text) → items_behind residue.old (word.now ∷ words) ≡ (if taken then items_behind residue.new words else None)) }
{
    let Some(item) = read_item(alloc, word)? else {
        return Ok(false);
    };
    if !residue.fits(&item) {
        return Ok(false);
    }
    residue.push(item)?;
    Ok(true)
}

// `group:PATH`, `link:HEX:PATH` or `empty:PATH`.
#[tactic(auto, unfolding(crate::specs::ResidueText::item_of_word))]
fn read_item(alloc: Global, word: &[u8]) -> Result<Option<ResidueItem>, NoMemory>
    ensures { IfOk result (λ item. item ≡ item_of_word word.now) }
{
    match cut_at(b':', word) {
        Some((kind, text)) => read_kind(alloc, kind, text),
        None => Ok(None),
    }
}

fn read_kind(alloc: Global, kind: &[u8], text: &[u8]) -> Result<Option<ResidueItem>, NoMemory>
    ensures { IfOk result (λ item. item ≡ item_of_kind kind.now text.now) }
{
    if kind == GROUP {
        read_path(alloc, ResidueKind::Group, text)
    } else if kind == LINK {
        read_link(alloc, text)
    } else if kind == EMPTY {
        read_path(alloc, ResidueKind::Empty, text)
    } else {
        Ok(None)
    }
}

// `HEX:PATH`.
#[tactic(auto, unfolding(crate::specs::ResidueText::link_of))]
fn read_link(alloc: Global, text: &[u8]) -> Result<Option<ResidueItem>, NoMemory>
    ensures { IfOk result (λ item. item ≡ link_of text.now) }
{
    let Some((id, path)) = cut_at(b':', text) else {
        return Ok(None);
    };
    match Id::from_hex(id) {
        Some(id) => read_path(alloc, ResidueKind::Link(id), path),
        None => Ok(None),
    }
}

fn read_path(alloc: Global, kind: ResidueKind, text: &[u8]) -> Result<Option<ResidueItem>, NoMemory>
    ensures { IfOk result (λ item. item ≡ item_of_path (kind_value kind) text.now) }
{
    match unescaped(alloc, text)? {
        Some(path) => Ok(Some(ResidueItem { path, kind })),
        None => Ok(None),
    }
}

/// The text of a residue. Its paths are bytes, and rise; its links are ids.
pub fn residue_text(alloc: Global, residue: &Residue) -> Result<Bytes, NoMemory>
    ensures text { IfOk result (λ text. text ≡ residue_text residue.now) }
    ensures residue { OnOk result (IsResidue residue.now) }
{
    let mut text = Vec::new(alloc);
    put_items(&mut text, residue.as_slice())?;
    Ok(Bytes::keep(text))
}

#[tactic(auto, unfolding(pair_model::specs::MarkList::residue_text))]
fn put_items(out: &mut Vec<u8>, items: &[ResidueItem]) -> Result<(), NoMemory>
    ensures put { OnOk result (out.new.items ≡ out.old.items ++ residue_text items.now) }
    ensures items { OnOk result (Each IsItem items.now) }
{
    match items {
        [first, rest @ ..] => {
            put_item(out, first)?;
            put_more(out, rest)
        }
        [] => Ok(()),
    }
}

// The word of each item, with a space before it.
fn put_more(out: &mut Vec<u8>, items: &[ResidueItem]) -> Result<(), NoMemory>
    ensures put { OnOk result (out.new.items ≡ out.old.items ++ flat_map (λ w. sp ∷ w) (residue_words items.now)) }
    ensures items { OnOk result (Each IsItem items.now) }
{
    for item in items {
        out.push(b' ')?;
        put_item(out, item)?;
    }
    Ok(())
}

fn put_item(out: &mut Vec<u8>, item: &ResidueItem) -> Result<(), NoMemory>
    ensures put { OnOk result (out.new.items ≡ out.old.items ++ item_word item.now.path item.now.kind) }
    ensures item { OnOk result (IsItem item.now) }
{
    match item.kind() {
        ResidueKind::Group => out.extend_from_slice(b"group:")?,
        ResidueKind::Link(id) => put_link(out, &id)?,
        ResidueKind::Empty => out.extend_from_slice(b"empty:")?,
    }
    put_path(out, item.path())
}

// The escape of a path, which is bytes.
fn put_path(out: &mut Vec<u8>, path: &[u8]) -> Result<(), NoMemory>
    ensures put { OnOk result (out.new.items ≡ out.old.items ++ escape path.now) }
    ensures bytes { IsBytes path.now }
{
    escape_into(out, path)
}

// `link:HEX:`.
fn put_link(out: &mut Vec<u8>, id: &Id) -> Result<(), NoMemory>
    ensures put { OnOk result (out.new.items ≡ out.old.items ++ codes "link:" ++ hex id.now ++ 58 ∷ []) }
    ensures id { OnOk result (IsId id.now) }
{
    out.extend_from_slice(b"link:")?;
    out.extend_from_slice(&id.hex())?;
    Ok(out.push(b':')?)
}
