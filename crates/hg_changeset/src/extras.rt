ghost use Rattle.std.specs.Prelude.{◌≡◌, ◌≢◌, ◌==◌, ◌<◌, ◌++◌, [], ◌∷◌, false, length, slice_get, Some, None, if◌then◌else◌, option_map, IsTrue, OnOk, OnErr, IfOk};
ghost use Rattle.std.specs.List.{flat_map};
ghost use Rattle.std.specs.Io.{StartsWith};
ghost use Rattle.std.specs.Option.{option_and_then};
ghost use Rattle.text_model.specs.Text.{nul, has_byte, IsBytes};
ghost use Rattle.hg_model.specs.Changeset.{extra_at, extra_text, extra_of, extras_of, last_key, key_rises, with_extra};
ghost use Rattle.hg_changeset.specs.Reading.{extras_part};

use crate::escape::{put_escaped, unescaped};
use bridge_text::{Bytes, NoMemory, cut_at};
use std::alloc::Global;
use std::cmp::Ordering;
use std::marker::Model;

/// An item of the extras of a changeset, as `branch` and its name.
#[derive(Debug, Drop)]
pub struct ExtraItem {
    /// The key, not empty and without `:`.
    pub key: Bytes,
    /// The value, any bytes.
    pub value: Bytes,
}

impl Model for ExtraItem {
    ghost use Rattle.hg_model.specs.Changeset.{Extra};

    ghost Value = { Extra };

    ghost view = { λ e. record { key = e.key; value = e.value } };
}

impl ExtraItem {
    /// The item that a text, escaped, spells; `None` where it spells none.
    #[tactic(auto, unfolding(hg_model::specs::Changeset::extra_of))]
    fn read(alloc: Global, text: &[u8]) -> Result<Option<ExtraItem>, NoMemory>
        ensures { IfOk result (λ item. item ≡ extra_of text.now) }
    {
        let Some((key, value)) = cut_at(b':', text) else {
            return Ok(None);
        };
        if key.is_empty() {
            return Ok(None);
        }
        let Some(key) = unescaped(alloc, key)? else {
            return Ok(None);
        };
        let Some(value) = unescaped(alloc, value)? else {
            return Ok(None);
        };
        Ok(Some(ExtraItem { key, value }))
    }

    fn put(&self, out: &mut Vec<u8>) -> Result<(), NoMemory>
        ensures ok { OnOk result (out.new.items ≡ out.old.items ++ extra_text self.now) }
        ensures front { StartsWith out.new.items out.old.items }
    {
        put_escaped(out, self.key.as_slice())?;
        out.push(b':')?;
        put_escaped(out, self.value.as_slice())
    }
}

/// The extras of a changeset: items whose keys rise strictly as bytes. Contracts see the list.
#[derive(Debug, Drop)]
pub struct Extras {
    items: Vec<ExtraItem>,
}

impl Model for Extras {
    ghost use Rattle.std.specs.Prelude.{List};
    ghost use Rattle.hg_model.specs.Changeset.{Extra, AreExtras};

    ghost Value = { List Extra };

    ghost view = { λ list. list.items.items };

    ghost invariant = { λ list. AreExtras list.items.items };
}

impl Extras {
    /// No items.
    pub fn new(alloc: Global) -> Extras
        ensures { result ≡ [] }
    {
        Extras {
            items: Vec::new(alloc),
        }
    }

    /// Puts an item at the end. Its key isn't empty, has no `:`, and rises above that of the last
    /// item. After want of memory the list is as it was.
    pub fn push(&mut self, item: ExtraItem) -> Result<(), NoMemory>
        requires some { item.key ≢ [] }
        requires plain { has_byte 58 item.key ≡ false }
        requires rises { IsTrue (key_rises (last_key self.old) item.key) }
        ensures ok { OnOk result (self.new ≡ self.old ++ item ∷ []) }
        ensures err { OnErr result (self.new ≡ self.old) }
    {
        let item = ExtraItem {
            key: fitted(item.key),
            value: fitted(item.value),
        };
        Ok(self.items.push(item)?)
    }

    /// How many items there are.
    pub fn len(&self) -> usize
        ensures { result ≡ length self.now }
    {
        self.items.len()
    }

    /// Whether there are no items.
    pub fn is_empty(&self) -> bool
        ensures { result ≡ (length self.now == 0) }
    {
        self.items.is_empty()
    }

    /// The item at place `i`, which is below the length.
    pub fn at(&self, i: usize) -> &ExtraItem
        requires { i < length self.now }
        ensures { slice_get self.now i ≡ Some result.now }
    {
        &self.items[i]
    }

    /// The value that stands under a key; `None` where no item has the key.
    pub fn get(&self, key: &[u8]) -> Option<&[u8]>
        ensures { option_map (λ value. value.now) result ≡ extra_at key.now self.now }
    {
        for item in &self.items {
            if item.key.as_slice() == key {
                return Some(item.value.as_slice());
            }
        }
        None
    }

    /// The items that a text spells, each escaped, with one NUL between each two; `None` where it
    /// spells none.
    #[tactic(auto, unfolding(hg_model::specs::Changeset::extras_of))]
    pub(crate) fn read(alloc: Global, text: &[u8]) -> Result<Option<Extras>, NoMemory>
        ensures { IfOk result (λ extras. extras ≡ extras_of text.now) }
    {
        let mut extras = Extras::new(alloc);
        let mut rest = text;
        'items: while let Some((item, after)) = cut_at(b'\0', rest) {
            if !extras.take(alloc, item)? {
                return Ok(None);
            }
            rest = after;
        }
        if extras.take(alloc, rest)? {
            Ok(Some(extras))
        } else {
            Ok(None)
        }
    }

    /// Whether the text spells an item whose key rises above the others; then it stands at the end.
    fn take(&mut self, alloc: Global, text: &[u8]) -> Result<bool, NoMemory>
        ensures { IfOk result (λ taken. option_and_then (with_extra self.old) (extra_of text.now) ≡ (if taken then Some self.new else None)) }
    {
        let Some(item) = ExtraItem::read(alloc, text)? else {
            return Ok(false);
        };
        if !key_rises(self.last_key(), item.key.as_slice()) {
            return Ok(false);
        }
        self.push(item)?;
        Ok(true)
    }

    fn last_key(&self) -> Option<&[u8]>
        ensures { option_map (λ key. key.now) result ≡ last_key self.now }
    {
        match self.items.as_slice() {
            [.., last] => Some(last.key.as_slice()),
            [] => None,
        }
    }

    /// Appends a space and the items, with one NUL between each two; nothing where there are none.
    pub(crate) fn put(&self, out: &mut Vec<u8>) -> Result<(), NoMemory>
        ensures ok { OnOk result (out.new.items ≡ out.old.items ++ extras_part self.now) }
        ensures front { StartsWith out.new.items out.old.items }
    {
        match self.items.as_slice() {
            [] => Ok(()),
            [first, others @ ..] => {
                out.push(b' ')?;
                first.put(out)?;
                put_others(out, others)
            }
        }
    }
}

// The bytes with no room to spare, since a store keeps what it has read.
fn fitted(bytes: Bytes) -> Bytes
    ensures same { result ≡ bytes }
    ensures bytes { IsBytes result }
{
    let mut raw = bytes.into_vec();
    raw.shrink_to_fit();
    Bytes::keep(raw)
}

fn put_others(out: &mut Vec<u8>, items: &[ExtraItem]) -> Result<(), NoMemory>
    ensures ok { OnOk result (out.new.items ≡ out.old.items ++ flat_map (λ e. nul ∷ extra_text e) items.now) }
    ensures front { StartsWith out.new.items out.old.items }
{
    for item in items {
        put_other(out, item)?;
    }
    Ok(())
}

fn put_other(out: &mut Vec<u8>, item: &ExtraItem) -> Result<(), NoMemory>
    ensures ok { OnOk result (out.new.items ≡ out.old.items ++ nul ∷ extra_text item.now) }
    ensures front { StartsWith out.new.items out.old.items }
{
    out.push(b'\0')?;
    item.put(out)
}

fn key_rises(last: Option<&[u8]>, key: &[u8]) -> bool
    ensures { result ≡ key_rises (option_map (λ last. last.now) last.entry) key.now }
{
    match last {
        None => true,
        Some(last) => last.cmp(key) == Ordering::Less,
    }
}
