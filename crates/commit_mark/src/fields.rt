// The marks of a changeset's manifest, of its list of files, of its user and of its date.
ghost use Rattle.std.specs.Prelude.{◌≡◌, ◌++◌, [], ◌∷◌, if◌then◌else◌, IfOk, OnOk};
ghost use Rattle.hg_changeset.specs.Values.{date_value};
ghost use Rattle.view_model.specs.View.{ChangesetView};
ghost use Rattle.pair_model.specs.Block.{Parents};
ghost use Rattle.pair_model.specs.Rule.{author_by};
ghost use Rattle.pair_model.specs.MarkList.{Date};
ghost use Rattle.pair_model.specs.User as users;
ghost use Rattle.partner_model.specs.Mark as model;
ghost use Rattle.commit_mark.specs.Over.{IsOver};
ghost use Rattle.commit_mark.specs.Parts.{marks_in, BeginList};

use crate::over::Over;
use crate::put::{put, put_extras};
use bridge_text::{Bytes, NoMemory, Paths};
use hg_changeset::DateLine;
use manifest_rule::{are_same_paths, is_ruled_manifest, ruled_files};
use mark_code::{CommitMarks, Mark};
use name_rule::{UserDate, line_of_user, user_of_line};
use pair_known::HgDraft;
use std::alloc::Global;

/// The mark of a manifest that isn't the one of the rule.
pub fn manifest_mark(over: &Over<'_>, h: &HgDraft) -> Option<Mark>
    ensures { (ps : Parents) (v : ChangesetView) → IsOver over.now h.now ps v → marks_in result ≡ model.manifest_marks ps v }
{
    if is_ruled_manifest(over.store, &h.rows, &h.manifest, &over.first, &over.second) {
        return None;
    }
    Some(Mark::Manifest(h.manifest))
}

/// The mark of a list of files that isn't the one of the rule.
pub fn files_mark(alloc: Global, over: &Over<'_>, h: &HgDraft) -> Result<Option<Mark>, NoMemory>
    ensures { IfOk result (λ mark. (ps : Parents) (v : ChangesetView) → IsOver over.now h.now ps v → marks_in mark ≡ model.files_marks ps v) }
{
    let files = ruled_files(alloc, &h.rows, over.first.entries(), over.second.entries())?;
    if are_same_paths(&h.changeset.files, &files) {
        return Ok(None);
    }
    let copy = copy_of_paths(alloc, &h.changeset.files)?;
    Ok(Some(Mark::Files(copy)))
}

// The paths, as a list of its own.
fn copy_of_paths(alloc: Global, paths: &Paths) -> Result<Paths, NoMemory>
    ensures { IfOk result (λ copy. copy ≡ paths.now) }
{
    let mut copy = Paths::new(alloc);
    for place in 0..paths.len() {
        let path = Bytes::of(alloc, paths.at(place).as_slice())?;
        copy.push(path)?;
    }
    Ok(copy)
}

/// The user and the date that the rule gives back: those of the author's line. Of a date line that can't be read the time and the zone are 0.
pub fn given_of(alloc: Global, h: &HgDraft) -> Result<UserDate, NoMemory>
    ensures { IfOk result (λ given. given ≡ users.user_of_line (author_by h.now.changeset.user (date_value h.now.changeset.date))) }
{
    let (time, tz) = match h.changeset.date {
        DateLine::Plain { time, tz, .. } => (time, tz),
        DateLine::Raw(_) => (0, 0),
    };
    let line = line_of_user(alloc, h.changeset.user.as_slice(), time, tz)?;
    user_of_line(alloc, line.as_slice())
}

/// The mark of a user that the author's line doesn't give back.
pub fn user_mark(alloc: Global, user: &Bytes, given: &UserDate) -> Result<Option<Mark>, NoMemory>
    ensures { IfOk result (λ mark. marks_in mark ≡ model.user_marks user.now given.now) }
{
    if user.as_slice() == given.user.as_slice() {
        return Ok(None);
    }
    Ok(Some(Mark::User(Bytes::of(alloc, user.as_slice())?)))
}

/// Puts the marks of a date line at the end: its numbers, where the author's line gives others, and each item of the extras; or the line as it is,
/// where it can't be read.
pub fn put_date(
    alloc: Global,
    marks: &mut CommitMarks,
    date: &DateLine,
    given: &UserDate,
) -> Result<(), NoMemory>
    requires { BeginList (marks.old ++ model.date_marks (date_value date.now) given.now) }
    ensures { OnOk result (marks.new ≡ marks.old ++ model.date_marks (date_value date.now) given.now) }
{
    match date {
        DateLine::Plain { time, tz, extras } => {
            put(marks, numbers_mark(*time, *tz, given))?;
            put_extras(alloc, marks, extras)
        }
        DateLine::Raw(text) => put(marks, Some(Mark::Raw(Bytes::of(alloc, text.as_slice())?))),
    }
}

// The mark of a date's numbers, where the author's line gives others.
fn numbers_mark(time: i64, tz: i64, given: &UserDate) -> Option<Mark>
    ensures { marks_in result ≡ (if model.same_numbers time tz given.now then [] else Date time tz ∷ []) }
{
    if time == given.time && tz == given.tz {
        return None;
    }
    Some(Mark::Date { time, tz })
}
