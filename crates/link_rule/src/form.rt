ghost use Rattle.std.specs.Prelude.{◌≡◌, ◌+◌, ◌&&◌, nat_le, pos};
ghost use Rattle.hg_model.specs.Changeset.{Plain};
ghost use Rattle.text_model.specs.Text.{is_decimal, number_of};
ghost use Rattle.hg_changeset.specs.Values.{changeset_value, date_value};
ghost use Rattle.pair_model.specs.Octopus as octopus;
ghost use Rattle.partner_model.specs.Filled as filled;
ghost use Rattle.link_rule.specs.Form.{parts_of};

use crate::parts::three_parts;
use bridge_text::{Id, decimal_of, is_decimal_of};
use hg_changeset::{Changeset, DateLine, Extras};

/// The user of a link.
pub const LINK_USER: &[u8] = b"hg-git";

/// The key of the item that names the commit of a link.
pub const LINK_KEY: &[u8] = b"hg-git-link";

/// The description of a link.
pub const LINK_DESCRIPTION: &[u8] = b"octopus link";

/// Whether a changeset with these parents has the form of a link of an octopus commit: two parents, the user and the description of a link,
/// the date 0, no files, and one item `HEX:K:N` of an id and of the numbers K from 1 to N - 2 and N from 3 to 64.
#[tactic(auto, unfolding(pair_model::specs::Octopus::is_link))]
pub fn is_link(x: &Changeset, p: &Id, q: &Id) -> bool
    ensures { result ≡ octopus.is_link (changeset_value x.now) p.now q.now }
{
    !p.is_null()
        && !q.is_null()
        && x.user.as_slice() == LINK_USER
        && is_link_date(&x.date)
        && x.files.is_empty()
        && x.desc.as_slice() == LINK_DESCRIPTION
}

// Whether a date line is that of a link.
fn is_link_date(date: &DateLine) -> bool
    ensures { result ≡ octopus.is_link_date (date_value date.now) }
{
    match date {
        DateLine::Plain { time, tz, extras } => *time == 0 && *tz == 0 && has_link_item(extras),
        DateLine::Raw(_) => false,
    }
}

// Whether the items are the one of a link.
fn has_link_item(extras: &Extras) -> bool
    ensures { result ≡ octopus.is_link_date (Plain (pos 0) (pos 0) extras.now) }
{
    if extras.len() != 1 {
        return false;
    }
    let item = extras.at(0);
    item.key.as_slice() == LINK_KEY && is_link_value(item.value.as_slice())
}

// Whether the value of an item is that of a link's.
fn is_link_value(value: &[u8]) -> bool
    ensures { result ≡ octopus.is_link_value (parts_of value.now) }
{
    match three_parts(value) {
        Some((id, number, count)) => Id::from_hex(id).is_some() && are_counts(number, count),
        None => false,
    }
}

// Whether these are the decimals of a link's number and of how many parents there are.
fn are_counts(k: &[u8], n: &[u8]) -> bool
    ensures { result ≡ (is_decimal k.now && is_decimal n.now && nat_le 3 (number_of n.now) && nat_le (number_of n.now) 64
        && nat_le 1 (number_of k.now) && nat_le (number_of k.now + 2) (number_of n.now)) }
{
    let Some(number) = decimal_of(k) else {
        return false;
    };
    let Some(parents) = decimal_of(n) else {
        return false;
    };
    3 <= parents && parents <= 64 && 1 <= number && number <= parents - 2
}

/// Whether a changeset with these parents has the form of link `number` of `count`.
pub fn is_link_of(x: &Changeset, p: &Id, q: &Id, number: u8, count: u8) -> bool
    ensures { result ≡ (octopus.is_link (changeset_value x.now) p.now q.now && filled.is_numbered number count (date_value x.now.date)) }
{
    is_link(x, p, q) && is_numbered(&x.date, number, count)
}

// Whether the one item of a date line names link `number` of `count`.
fn is_numbered(date: &DateLine, number: u8, count: u8) -> bool
    ensures { result ≡ filled.is_numbered number count (date_value date.now) }
{
    match date {
        DateLine::Plain { extras, .. } => has_numbered_item(extras, number, count),
        DateLine::Raw(_) => false,
    }
}

// Whether the items are one that names link `number` of `count`.
fn has_numbered_item(extras: &Extras, number: u8, count: u8) -> bool
    ensures { result ≡ filled.is_numbered number count (Plain (pos 0) (pos 0) extras.now) }
{
    extras.len() == 1 && has_numbers(extras.at(0).value.as_slice(), number, count)
}

// Whether the value of an item names link `number` of `count`.
fn has_numbers(value: &[u8], number: u8, count: u8) -> bool
    ensures { result ≡ filled.has_numbers number count (parts_of value.now) }
{
    match three_parts(value) {
        Some((_, k, n)) => is_decimal_of(k, u64::from(number))
            && is_decimal_of(n, u64::from(count)),
        None => false,
    }
}
