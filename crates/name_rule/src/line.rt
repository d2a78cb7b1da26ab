ghost use Rattle.std.specs.Prelude.{◌≡◌, ◌++◌, ◌∷◌, decimal, IfOk, OnOk};
ghost use Rattle.text_model.specs.Text.{sp};
ghost use Rattle.pair_model.specs.User.{line_of_user, line_of_address, other_address, seconds_of, zone_of};
ghost use Rattle.name_rule.specs.Values.{address_value};

use crate::address::{Address, plain_address, split_user, without_angles};
use crate::text::{has_angle, or_unknown};
use crate::zone::zone_of_tz;
use bridge_text::{Bytes, NoMemory, decimal_into};
use std::alloc::Global;

/// The line of an author, without its word and its LF, of a user and a date. A user `N <E>` with
/// N nonempty and no further bracket is the name N and the email E. Of any other user the
/// brackets are removed, and where nothing is left of it `unknown` is taken; that is the name, and
/// the email where it has an `@`, else the email is `none@none`. `time` is in seconds since 1970
/// began, and 0 where it is negative; `tz` is in seconds west of UTC.
#[tactic(auto, unfolding(pair_model::specs::User::line_of_user))]
pub fn line_of_user(alloc: Global, user: &[u8], time: i64, tz: i64) -> Result<Bytes, NoMemory>
    ensures { IfOk result (λ line. line ≡ line_of_user user.now time tz) }
{
    match split_user(user) {
        Some(address) => line_of_address(alloc, &address, time, tz),
        None => line_of_other(alloc, user, time, tz),
    }
}

/// The line of a user that isn't `N <E>`.
fn line_of_other(alloc: Global, user: &[u8], time: i64, tz: i64) -> Result<Bytes, NoMemory>
    ensures { IfOk result (λ line. line ≡ line_of_address (other_address user.now) time tz) }
{
    if has_angle(user) {
        let rest = without_angles(alloc, user)?;
        let address = plain_address(or_unknown(rest.as_slice()));
        line_of_address(alloc, &address, time, tz)
    } else {
        line_of_address(alloc, &plain_address(user), time, tz)
    }
}

fn line_of_address(
    alloc: Global,
    address: &Address<'_>,
    time: i64,
    tz: i64,
) -> Result<Bytes, NoMemory>
    ensures { IfOk result (λ line. line ≡ line_of_address (address_value address.now) time tz) }
{
    let mut line = Vec::new(alloc);
    line.extend_from_slice(address.name)?;
    line.extend_from_slice(b" <")?;
    line.extend_from_slice(address.email)?;
    line.extend_from_slice(b"> ")?;
    put_date(&mut line, time, tz)?;
    Ok(Bytes::keep(line))
}

/// Appends the seconds and the zone of a date, of which want of memory may leave a part.
fn put_date(line: &mut Vec<u8>, time: i64, tz: i64) -> Result<(), NoMemory>
    ensures { OnOk result (line.new.items ≡ line.old.items ++ decimal (seconds_of time) ++ sp ∷ zone_of tz) }
{
    decimal_into(line, seconds_of(time))?;
    line.push(b' ')?;
    Ok(line.extend_from_slice(&zone_of_tz(tz))?)
}

/// The time, or 0 where it is negative.
fn seconds_of(time: i64) -> u64
    ensures { result ≡ seconds_of time }
{
    if time < 0 { 0 } else { time as u64 }
}
