// The extras that marks name.
ghost use Rattle.std.specs.Prelude.{◌≡◌, ◌↔◌, ◌++◌, [], true, IfOk, IfSome, IsTrue, MatchOption, option_map};
ghost use Rattle.hg_model.specs.Changeset.{AreExtras, key_rises, last_key};
ghost use Rattle.std.specs.List.{cons_option};
ghost use Rattle.partner_model.specs.Filled.{extra_mark};
ghost use Rattle.mark_code.specs.Values.{mark_value};
ghost use Rattle.commit_unmark.specs.Parts.{extras_by, IsKey};

use crate::line::is_without;
use bridge_text::{Bytes, NoMemory};
use hg_changeset::{ExtraItem, Extras};
use mark_code::{CommitMarks, Mark};
use std::alloc::Global;

/// The extras that marks name; `None` exactly where those are no extras, since a key is empty or has a `:`.
pub fn named_extras(alloc: Global, marks: &CommitMarks) -> Result<Option<Extras>, NoMemory>
    ensures { IfOk result (λ found. MatchOption found (AreExtras (extras_by marks.now) → ⊥) (λ extras. (extras ≡ extras_by marks.now) × AreExtras (extras_by marks.now))) }
{
    let mut extras = Extras::new(alloc);
    for place in 0..marks.len() {
        let put = put_extra(alloc, &mut extras, marks.at(place))?;
        if !put {
            return Ok(None);
        }
    }
    Ok(Some(extras))
}

// Puts the item that a mark names at the end, if it names one; `false` exactly where its key is none.
fn put_extra(alloc: Global, extras: &mut Extras, mark: &Mark) -> Result<bool, NoMemory>
    requires rises { IfSome (extra_mark (mark_value mark.now)) (λ e. IsTrue (key_rises (last_key extras.old) e.key)) }
    ensures put { IfOk result (λ put. put ≡ true → extras.new ≡ extras.old ++ cons_option (extra_mark (mark_value mark.now)) []) }
    ensures key { IfOk result (λ put. IsTrue put ↔ IfSome (extra_mark (mark_value mark.now)) (λ e. IsKey e.key)) }
{
    let Some((key, value)) = extra_in(mark) else {
        return Ok(true);
    };
    if !is_key(key.as_slice()) {
        return Ok(false);
    }
    let item = item_of(alloc, key, value)?;
    extras.push(item)?;
    Ok(true)
}

fn extra_in(mark: &Mark) -> Option<(&Bytes, &Bytes)>
    ensures { option_map (λ e. record { key = e.0.now; value = e.1.now }) result ≡ extra_mark (mark_value mark.now) }
{
    match mark {
        Mark::Extra { key, value } => Some((key, value)),
        _ => None,
    }
}

fn item_of(alloc: Global, key: &Bytes, value: &Bytes) -> Result<ExtraItem, NoMemory>
    ensures { IfOk result (λ item. item ≡ record { key = key.now; value = value.now }) }
{
    Ok(ExtraItem {
        key: Bytes::of(alloc, key.as_slice())?,
        value: Bytes::of(alloc, value.as_slice())?,
    })
}

// Whether a text is a key: it isn't empty, and has no `:`.
fn is_key(text: &[u8]) -> bool
    ensures { IsTrue result ↔ IsKey text.now }
{
    !text.is_empty() && is_without(b':', text)
}
