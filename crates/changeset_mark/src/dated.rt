// A changeset with another date.
ghost use Rattle.std.specs.Prelude.{◌≡◌, IfOk};
ghost use Rattle.hg_model.specs.Changeset.{Plain, changeset_text};
ghost use Rattle.hg_changeset.specs.Values.{changeset_value};

use bridge_text::{Bytes, NoMemory};
use hg_changeset::{Changeset, DateLine, Extras};
use name_rule::UserDate;
use std::alloc::Global;

/// Gives a changeset the given date and these extras.
pub fn set_date(changeset: &mut Changeset, given: &UserDate, extras: Extras)
    ensures { changeset_value changeset.new ≡ record (changeset_value changeset.old) { date = Plain given.now.time given.now.tz extras } }
{
    changeset.date = DateLine::Plain {
        time: given.time,
        tz: given.tz,
        extras,
    };
}

/// The text of a changeset.
pub fn text_of(alloc: Global, changeset: &Changeset) -> Result<Bytes, NoMemory>
    ensures { IfOk result (λ text. text ≡ changeset_text (changeset_value changeset.now)) }
{
    let mut text = Vec::new(alloc);
    changeset.write_into(&mut text)?;
    Ok(Bytes::keep(text))
}
