ghost use Rattle.std.specs.Prelude.{◌≡◌, ◌++◌, OnOk, IfOk, option_map};
ghost use Rattle.std.specs.Io.{StartsWith};
ghost use Rattle.hg_model.specs.Changeset.{date_text, plain_date_text, date_of, plain_date_of, date_in_zone};
ghost use Rattle.hg_changeset.specs.Values.{date_value};

use crate::extras::Extras;
use crate::number::{put_signed, signed_of};
use bridge_text::{Bytes, NoMemory, cut_at};
use std::alloc::Global;

/// The most seconds of a time, before 1970 or after it.
const MOST_TIME: u64 = 1 << 62;

/// The most seconds of a time zone, east or west.
const MOST_ZONE: u64 = 1 << 31;

/// The date line of a changeset.
#[derive(Debug, Drop)]
pub enum DateLine {
    /// `TIME TZ`, or `TIME TZ EXTRAS` with at least one item.
    Plain {
        /// Seconds since 1970 began, in UTC; from -2^62 to 2^62.
        time: i64,
        /// Seconds west of UTC, from -2^31 to 2^31.
        tz: i64,
        /// Further items, as the name of a branch.
        extras: Extras,
    },
    /// Any other line, without its LF.
    Raw(Bytes),
}

impl DateLine {
    /// The date line that a text without LF is.
    #[tactic(auto, unfolding(hg_model::specs::Changeset::date_of))]
    pub fn read(alloc: Global, text: &[u8]) -> Result<DateLine, NoMemory>
        ensures { IfOk result (λ date. date_value date ≡ date_of text.now) }
    {
        match read_plain(alloc, text)? {
            Some(date) => Ok(date),
            None => Ok(DateLine::Raw(Bytes::of(alloc, text)?)),
        }
    }

    /// Appends the text of the date line, of which want of memory may leave a part.
    pub(crate) fn put(&self, out: &mut Vec<u8>) -> Result<(), NoMemory>
        ensures ok { OnOk result (out.new.items ≡ out.old.items ++ date_text (date_value self.now)) }
        ensures front { StartsWith out.new.items out.old.items }
    {
        match self {
            DateLine::Plain { time, tz, extras } => put_plain(out, *time, *tz, extras),
            DateLine::Raw(text) => Ok(out.extend_from_slice(text.as_slice())?),
        }
    }
}

#[tactic(auto, unfolding(hg_model::specs::Changeset::plain_date_of))]
fn read_plain(alloc: Global, text: &[u8]) -> Result<Option<DateLine>, NoMemory>
    ensures { IfOk result (λ date. option_map date_value date ≡ plain_date_of text.now) }
{
    let Some((time, rest)) = cut_at(b' ', text) else {
        return Ok(None);
    };
    let Some(time) = signed_of(time, MOST_TIME) else {
        return Ok(None);
    };
    match cut_at(b' ', rest) {
        None => Ok(date_in_zone(time, rest, Extras::new(alloc))),
        Some((zone, items)) => match Extras::read(alloc, items)? {
            None => Ok(None),
            Some(extras) => Ok(date_in_zone(time, zone, extras)),
        },
    }
}

fn date_in_zone(time: i64, zone: &[u8], extras: Extras) -> Option<DateLine>
    ensures { option_map date_value result ≡ date_in_zone time zone.now extras }
{
    let tz = signed_of(zone, MOST_ZONE)?;
    Some(DateLine::Plain { time, tz, extras })
}

fn put_plain(out: &mut Vec<u8>, time: i64, tz: i64, extras: &Extras) -> Result<(), NoMemory>
    ensures ok { OnOk result (out.new.items ≡ out.old.items ++ plain_date_text time tz extras.now) }
    ensures front { StartsWith out.new.items out.old.items }
{
    put_signed(out, time)?;
    out.push(b' ')?;
    put_signed(out, tz)?;
    extras.put(out)
}
