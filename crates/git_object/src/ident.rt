ghost use Rattle.std.specs.Prelude.{◌≡◌, ◌+◌, ◌^◌, ◌||◌, if◌then◌else◌, Some, None, IfSome, codes, option_map};
ghost use Rattle.std.specs.List.{list_all};
ghost use Rattle.text_model.specs.Text.{is_digit, decimal_below};
ghost use Rattle.git_model.specs.Commit.{IsIdentLine, ident_of, begins, is_zone, name_before_space, seconds_and_zone, behind_space};
ghost use Rattle.git_object.specs.Values.{ident_value};

use bridge_text::{cut_at, decimal_of};

/// The most seconds of an ident.
const MOST_SECONDS: u64 = 1 << 62;

/// Who made a commit, and when: the parts of a line `NAME <EMAIL> SECONDS ZONE`, as
/// `git commit-tree` writes it.
#[derive(Clone, Copy, Debug, Drop)]
pub struct Ident<'a> {
    /// The name, without `<` and `>`.
    pub name: &'a [u8],
    /// The email, without `<` and `>`.
    pub email: &'a [u8],
    /// Seconds since 1970 began, in UTC; at most 2^62.
    pub seconds: u64,
    /// The time zone: a sign and four digits, of hours and minutes.
    pub zone: [u8; 5],
}

impl<'a> Ident<'a> {
    /// The ident that the line, without its LF, is; `None` where it is none.
    pub fn read(line: &'a [u8]) -> Option<Ident<'a>>
        ensures ident { option_map ident_value result ≡ ident_of line.entry.now }
        ensures found { IfSome result (λ ident. IsIdentLine line.entry.now (ident_value ident)) }
    {
        ident_in(line)
    }
}

#[tactic(auto, unfolding(git_model::specs::Commit::ident_of))]
fn ident_in(line: &[u8]) -> Option<Ident<'_>>
    ensures { option_map ident_value result ≡ ident_of line.now }
{
    let (front, rest) = cut_at(b'<', line)?;
    let (email, tail) = cut_at(b'>', rest)?;
    let name = name_before_space(front)?;
    let (seconds, zone) = behind_space(tail)?;
    if email.contains(&b'<') {
        return None;
    }
    Some(Ident {
        name,
        email,
        seconds,
        zone,
    })
}

fn name_before_space(text: &[u8]) -> Option<&[u8]>
    ensures { option_map (λ name. name.now) result ≡ name_before_space text.now }
{
    if text.ends_with(b" ") && !text.contains(&b'>') {
        Some(&text[..text.len() - 1])
    } else {
        None
    }
}

fn behind_space(text: &[u8]) -> Option<(u64, [u8; 5])>
    ensures { result ≡ behind_space text.now }
{
    match text {
        [b' ', rest @ ..] => seconds_and_zone(rest),
        _ => None,
    }
}

fn seconds_and_zone(text: &[u8]) -> Option<(u64, [u8; 5])>
    ensures { result ≡ seconds_and_zone text.now }
{
    let (seconds, zone) = cut_at(b' ', text)?;
    let seconds = seconds_of(seconds)?;
    let zone = zone_of(zone)?;
    Some((seconds, zone))
}

fn seconds_of(text: &[u8]) -> Option<u64>
    ensures { result ≡ decimal_below (2 ^ 62 + 1) text.now }
{
    let seconds = decimal_of(text)?;
    if seconds <= MOST_SECONDS {
        Some(seconds)
    } else {
        None
    }
}

fn zone_of(text: &[u8]) -> Option<[u8; 5]>
    ensures { result ≡ (if is_zone text.now then Some text.now else None) }
{
    if is_zone(text) {
        <[u8; 5]>::try_from(text).ok()
    } else {
        None
    }
}

/// Whether the text is a time zone, as the line of an author ends with it: a sign and four digits.
pub fn is_zone(text: &[u8]) -> bool
    ensures { result ≡ is_zone text.now }
{
    text.len() == 5 && has_sign(text) && are_digits(&text[1..])
}

fn has_sign(text: &[u8]) -> bool
    ensures { result ≡ (begins (codes "+") text.now || begins (codes "-") text.now) }
{
    text.starts_with(b"+") || text.starts_with(b"-")
}

fn are_digits(text: &[u8]) -> bool
    ensures { result ≡ list_all is_digit text.now }
{
    text.iter().all(|digit| digit.is_ascii_digit())
}
