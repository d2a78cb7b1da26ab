// The fields of a changeset.
ghost use Rattle.std.specs.Prelude.{◌≡◌, ◌*◌, ◌++◌, ◌<◌, ◌≤◌, IfOk, pos, codes, decimal};
ghost use Rattle.make_model.specs.Dump.{most_changesets};
ghost use Rattle.hg_model.specs.Changeset.{Plain, changeset_text};
ghost use Rattle.hg_changeset.specs.Values.{changeset_value};
ghost use Rattle.make_model.specs.History.{made_user, made_zone, made_extras};
ghost use Rattle.make_history.specs.Made.{numbers_value};

use crate::numbers::Numbers;
use crate::paths::description_of;
use bridge_text::{Bytes, Id, NoMemory, Paths};
use hg_changeset::{Changeset, DateLine, ExtraItem, Extras};
use shared_text::{Text, keep};
use std::alloc::Global;

/// The fields of the changeset with this number, which is at most 20,000, over this manifest and these files.
pub fn make_fields(
    alloc: Global,
    numbers: &Numbers,
    number: u64,
    manifest: Id,
    files: Paths,
) -> Result<Changeset, NoMemory>
    requires { number ≤ most_changesets }
    ensures { IfOk result (λ x. changeset_value x ≡ record {
      manifest = manifest;
      user = made_user numbers.now.user;
      date = Plain (pos (1000 * number)) (made_zone numbers.now.zone) (made_extras numbers.now.branch);
      files = files;
      description = codes "c" ++ decimal number;
    }) }
{
    Ok(Changeset {
        manifest,
        user: Bytes::of(alloc, user_of(numbers.user))?,
        date: DateLine::Plain {
            time: (1000 * number) as i64,
            tz: zone_of(numbers.zone),
            extras: extras_of(alloc, numbers.branch)?,
        },
        files,
        desc: description_of(alloc, number)?,
    })
}

fn user_of(number: u64) -> &'static [u8]
    ensures { result.now ≡ made_user number }
{
    match number {
        0 => b"Ann <ann@x>",
        1 => b"bob",
        2 => b"carl@x",
        _ => b"d<e>f",
    }
}

// Seconds west of UTC.
fn zone_of(number: u64) -> i64
    ensures { result ≡ made_zone number }
{
    match number {
        0 => 0,
        1 => 3600,
        2 => -19800,
        _ => 90,
    }
}

fn extras_of(alloc: Global, number: u64) -> Result<Extras, NoMemory>
    ensures { IfOk result (λ extras. extras ≡ made_extras number) }
{
    let mut extras = Extras::new(alloc);
    if number == 0 {
        extras.push(ExtraItem {
            key: Bytes::of(alloc, b"branch")?,
            value: Bytes::of(alloc, b"stable")?,
        })?;
    }
    Ok(extras)
}

/// The text of a changeset.
pub fn text_of(alloc: Global, changeset: &Changeset) -> Result<Text, NoMemory>
    ensures { IfOk result (λ text. text ≡ changeset_text (changeset_value changeset.now)) }
{
    let mut text = Vec::new(alloc);
    changeset.write_into(&mut text)?;
    keep(text)
}
