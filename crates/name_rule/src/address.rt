// The name and the email of a user.
ghost use Rattle.std.specs.Prelude.{◌≡◌, IfOk, option_map};
ghost use Rattle.pair_model.specs.User.{name_in, email_in, split_user, plain_address, without_angles};
ghost use Rattle.name_rule.specs.Values.{address_value};

use crate::text::{NO_EMAIL, has_angle, has_at};
use bridge_text::{Bytes, NoMemory, cut_at};
use std::alloc::Global;

/// A name and an email, as the line of an author has them.
#[derive(Clone, Copy)]
pub struct Address<'a> {
    pub name: &'a [u8],
    pub email: &'a [u8],
}

/// The name and the email of a user `N <E>`, with N nonempty and no bracket in either; `None` of
/// any other user.
#[tactic(auto, unfolding(pair_model::specs::User::split_user))]
pub fn split_user(user: &[u8]) -> Option<Address<'_>>
    ensures { option_map address_value result ≡ split_user user.now }
{
    let (front, rest) = cut_at(b'<', user)?;
    let name = name_in(front)?;
    let email = email_in(rest)?;
    Some(Address { name, email })
}

fn name_in(text: &[u8]) -> Option<&[u8]>
    ensures { option_map (λ name. name.now) result ≡ name_in text.now }
{
    if text.ends_with(b" ") && text.len() > 1 && !has_angle(text) {
        Some(&text[..text.len() - 1])
    } else {
        None
    }
}

fn email_in(text: &[u8]) -> Option<&[u8]>
    ensures { option_map (λ email. email.now) result ≡ email_in text.now }
{
    if text.ends_with(b">") && !has_angle(&text[..text.len() - 1]) {
        Some(&text[..text.len() - 1])
    } else {
        None
    }
}

/// A user without brackets is the name, and the email too where it has an `@`.
pub fn plain_address(user: &[u8]) -> Address<'_>
    ensures { address_value result ≡ plain_address user.now }
{
    let email = if has_at(user) { user } else { NO_EMAIL };
    Address { name: user, email }
}

/// The text without its angle brackets.
pub fn without_angles(alloc: Global, text: &[u8]) -> Result<Bytes, NoMemory>
    ensures { IfOk result (λ rest. rest ≡ without_angles text.now) }
{
    let rest = text
        .iter()
        .copied()
        .filter(|byte| !(*byte == b'<' || *byte == b'>'))
        .collect(alloc)?;
    Ok(Bytes::keep(rest))
}
