ghost use Rattle.std.specs.Prelude.{◌≡◌, ◌++◌, ◌∷◌, [], codes, IfOk};
ghost use Rattle.pair_model.specs.User.{user_of_line, user_of_ident};

use crate::text::{NO_EMAIL, has_at, or_unknown};
use crate::zone::tz_of_zone;
use bridge_text::{Bytes, NoMemory};
use git_object::Ident;
use std::alloc::Global;
use std::marker::Model;

/// A user and a date of Mercurial.
#[derive(Debug, Drop)]
pub struct UserDate {
    /// The user.
    pub user: Bytes,
    /// Seconds since 1970 began, in UTC.
    pub time: i64,
    /// Seconds west of UTC.
    pub tz: i64,
}

impl Model for UserDate {
    ghost use Rattle.pair_model.specs.User as model;

    ghost Value = { model.UserDate };

    ghost view = { λ u. record { user = u.user; time = u.time; tz = u.tz } };
}

/// The user and the date of an author's line, which has neither its word nor its LF. A line that is
/// no ident is itself the user, or `unknown` where it is empty, with time 0 and zone 0. Of an
/// ident with name N and email E the user is N, where E is `none@none` and N is nonempty without
/// `@`, or where E equals N and has an `@`; else it is `<E>` where N is empty, and else `N <E>`.
#[tactic(auto, unfolding(pair_model::specs::User::user_of_line))]
pub fn user_of_line(alloc: Global, line: &[u8]) -> Result<UserDate, NoMemory>
    ensures { IfOk result (λ found. found ≡ user_of_line line.now) }
{
    match Ident::read(line) {
        Some(ident) => Ok(UserDate {
            user: user_of_ident(alloc, ident.name, ident.email)?,
            time: ident.seconds as i64,
            tz: tz_of_zone(&ident.zone).unwrap_or(0),
        }),
        None => Ok(UserDate {
            user: Bytes::of(alloc, or_unknown(line))?,
            time: 0,
            tz: 0,
        }),
    }
}

fn user_of_ident(alloc: Global, name: &[u8], email: &[u8]) -> Result<Bytes, NoMemory>
    ensures { IfOk result (λ user. user ≡ user_of_ident name.now email.now) }
{
    if email == NO_EMAIL && !name.is_empty() && !has_at(name) {
        Bytes::of(alloc, name)
    } else if email == name && has_at(name) {
        Bytes::of(alloc, name)
    } else if name.is_empty() {
        email_in_angles(alloc, email)
    } else {
        name_and_email(alloc, name, email)
    }
}

fn email_in_angles(alloc: Global, email: &[u8]) -> Result<Bytes, NoMemory>
    ensures { IfOk result (λ user. user ≡ 60 ∷ email.now ++ 62 ∷ []) }
{
    let mut user = Vec::new(alloc);
    user.push(b'<')?;
    user.extend_from_slice(email)?;
    user.push(b'>')?;
    Ok(Bytes::keep(user))
}

fn name_and_email(alloc: Global, name: &[u8], email: &[u8]) -> Result<Bytes, NoMemory>
    ensures { IfOk result (λ user. user ≡ name.now ++ codes " <" ++ email.now ++ 62 ∷ []) }
{
    let mut user = Vec::new(alloc);
    user.extend_from_slice(name)?;
    user.extend_from_slice(b" <")?;
    user.extend_from_slice(email)?;
    user.push(b'>')?;
    Ok(Bytes::keep(user))
}
