// The fields of the changeset that marks name.
ghost use Rattle.std.specs.Prelude.{◌≡◌, [], Some, IfOk, MatchOption, option_map};
ghost use Rattle.text_model.specs.Text.{IsBytes};
ghost use Rattle.hg_model.specs.Changeset as model;
ghost use Rattle.hg_model.specs.Changeset.{Plain, Raw, IsChangeset, IsDateLine, IsPlainDate};
ghost use Rattle.hg_changeset.specs.Values.{changeset_value, date_value};
ghost use Rattle.pair_model.specs.MarkList.{IsMark};
ghost use Rattle.pair_model.specs.User.{description_of};
ghost use Rattle.partner_model.specs.Filled.{user_mark, date_mark, first_mark};
ghost use Rattle.mark_code.specs.Values.{mark_value};
ghost use Rattle.commit_unmark.specs.Parts.{extras_by, user_by, date_by, fields_by};

use crate::extras::named_extras;
use crate::line::{are_lines, is_line, is_without};
use crate::marks::{Kind, first_of};
use bridge_text::{Bytes, Id, NoMemory, Paths};
use git_object::Commit;
use hg_changeset::{Changeset, DateLine};
use mark_code::{CommitMarks, Mark};
use name_rule::{desc_of_message, user_of_line};
use std::alloc::Global;

/// The fields of a changeset with this manifest and these files that the marks of its commit name, or the rule where they have none;
/// `None` exactly where those are no changeset's.
pub fn named_fields(
    alloc: Global,
    commit: &Commit,
    marks: &CommitMarks,
    manifest: Id,
    files: Paths,
) -> Result<Option<Changeset>, NoMemory>
    ensures { IfOk result (λ found. MatchOption found (IsChangeset (fields_by commit.now marks.now manifest files) → ⊥)
        (λ x. (changeset_value x ≡ fields_by commit.now marks.now manifest files) × IsChangeset (fields_by commit.now marks.now manifest files))) }
{
    let given = user_of_line(alloc, commit.author.as_slice())?;
    let Some(date) = named_date(alloc, marks, given.time, given.tz)? else {
        return Ok(None);
    };
    let user = named_user(alloc, marks, given.user)?;
    if !is_line(user.as_slice()) || !are_lines(&files) {
        return Ok(None);
    }
    let desc = ruled_desc(alloc, commit.message.as_slice())?;
    Ok(Some(Changeset {
        manifest,
        user,
        date,
        files,
        desc,
    }))
}

// The description that the rule gives for a message.
fn ruled_desc(alloc: Global, message: &[u8]) -> Result<Bytes, NoMemory>
    ensures desc { IfOk result (λ desc. desc ≡ description_of message.now) }
    ensures bytes { IfOk result (λ desc. IsBytes desc) }
{
    Bytes::of(alloc, desc_of_message(message))
}

// The user that a mark names, or the given one.
fn named_user(alloc: Global, marks: &CommitMarks, given: Bytes) -> Result<Bytes, NoMemory>
    ensures { IfOk result (λ user. user ≡ user_by marks.now given) }
{
    match marked_user(marks) {
        Some(user) => Bytes::of(alloc, user),
        None => Ok(given),
    }
}

fn marked_user(marks: &CommitMarks) -> Option<&[u8]>
    ensures { option_map (λ user. user.now) result ≡ first_mark user_mark marks.now }
{
    let mark = first_of(marks, Kind::User)?;
    user_in(mark)
}

fn user_in(mark: &Mark) -> Option<&[u8]>
    ensures { option_map (λ user. user.now) result ≡ user_mark (mark_value mark.now) }
{
    match mark {
        Mark::User(user) => Some(user.as_slice()),
        _ => None,
    }
}

// The date line that marks name, with the given numbers where no mark names others; `None` exactly where it is no date line.
fn named_date(
    alloc: Global,
    marks: &CommitMarks,
    time: i64,
    tz: i64,
) -> Result<Option<DateLine>, NoMemory>
    requires { IsPlainDate time tz [] }
    ensures { IfOk result (λ found. MatchOption found (IsDateLine (date_by marks.now time tz) → ⊥)
        (λ date. (date_value date ≡ date_by marks.now time tz) × IsDateLine (date_by marks.now time tz))) }
{
    match first_of(marks, Kind::Date) {
        Some(mark) => marked_date(alloc, marks, mark),
        None => plain_date(alloc, marks, time, tz),
    }
}

// The date line that a mark names.
fn marked_date(
    alloc: Global,
    marks: &CommitMarks,
    mark: &Mark,
) -> Result<Option<DateLine>, NoMemory>
    requires mark { IsMark (mark_value mark.now) }
    ensures { IfOk result (λ found. MatchOption found ((d : model.DateLine) → date_mark (extras_by marks.now) (mark_value mark.now) ≡ Some d → IsDateLine d → ⊥)
        (λ date. (date_mark (extras_by marks.now) (mark_value mark.now) ≡ Some (date_value date)) × IsDateLine (date_value date))) }
{
    match mark {
        Mark::Raw(text) => raw_date(alloc, text.as_slice()),
        Mark::Date { time, tz } => plain_date(alloc, marks, *time, *tz),
        _ => Ok(None),
    }
}

// The date line with these numbers and the extras that marks name.
fn plain_date(
    alloc: Global,
    marks: &CommitMarks,
    time: i64,
    tz: i64,
) -> Result<Option<DateLine>, NoMemory>
    requires { IsPlainDate time tz [] }
    ensures { IfOk result (λ found. MatchOption found (IsPlainDate time tz (extras_by marks.now) → ⊥)
        (λ date. (date_value date ≡ Plain time tz (extras_by marks.now)) × IsPlainDate time tz (extras_by marks.now))) }
{
    match named_extras(alloc, marks)? {
        Some(extras) => Ok(Some(DateLine::Plain { time, tz, extras })),
        None => Ok(None),
    }
}

// The date line that is this text; `None` exactly where it reads as another, or is more than one line.
fn raw_date(alloc: Global, text: &[u8]) -> Result<Option<DateLine>, NoMemory>
    ensures { IfOk result (λ found. MatchOption found (IsDateLine (Raw text.now) → ⊥) (λ date. (date_value date ≡ Raw text.now) × IsDateLine (Raw text.now))) }
{
    if !is_without(b'\n', text) {
        return Ok(None);
    }
    let date = DateLine::read(alloc, text)?;
    match date {
        DateLine::Raw(_) => Ok(Some(date)),
        DateLine::Plain { .. } => Ok(None),
    }
}
