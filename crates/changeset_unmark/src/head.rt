// The fields of the commit that the marks of a changeset name.
ghost use Rattle.std.specs.Prelude.{◌≡◌, ◌↔◌, List, unwrap_or, IfOk, IsTrue, MatchOption};
ghost use Rattle.text_model.specs.Id as id;
ghost use Rattle.git_model.specs.Commit.{IsCommit};
ghost use Rattle.hg_changeset.specs.Values.{changeset_value, date_value};
ghost use Rattle.mark_code.specs.Values.{changeset_marks};
ghost use Rattle.changeset_unmark.specs.Heads.{head_named, IsNeeded, HasDate, ComesBack, IsHead};

use bridge_text::{Bytes, Id, IdList, NoMemory};
use commit_rule::author_of;
use git_object::{Commit, CommitFault};
use hg_changeset::{Changeset, DateLine};
use mark_code::ChangesetMarks;
use name_rule::{UserDate, desc_of_message, message_of_desc, user_of_line};
use std::alloc::Global;

/// The fields of the commit over these parents that the marks of a changeset name, with no tree yet. `None` exactly where a mark is of a
/// part that the rule gives too, where the user, the date or the description of the changeset don't come back, or where the fields
/// are those of no commit.
pub fn head_named(
    alloc: Global,
    x: &Changeset,
    marks: ChangesetMarks,
    parents: IdList,
) -> Result<Option<Commit>, NoMemory>
    ensures { IfOk result (λ found. MatchOption found (¬ (IsHead id.null parents (changeset_value x.now) (changeset_marks marks)))
        (λ c. IsHead id.null parents (changeset_value x.now) (changeset_marks marks) × (c ≡ head_named id.null parents (changeset_value x.now) (changeset_marks marks)))) }
{
    let line = author_of(alloc, x)?;
    let text = message_of_desc(alloc, x.desc.as_slice())?;
    if !is_needed(&marks.author, line.as_slice()) || !is_needed(&marks.headers, b"") {
        return Ok(None);
    }
    if !is_needed(&marks.message, text.as_slice()) {
        return Ok(None);
    }
    let author = part_or(marks.author, line);
    if !is_needed(&marks.committer, author.as_slice()) {
        return Ok(None);
    }
    let given = Bytes::of(alloc, author.as_slice())?;
    let commit = Commit {
        tree: Id::NULL,
        parents,
        author,
        committer: part_or(marks.committer, given),
        headers: part_or(marks.headers, Bytes::new(alloc)),
        message: part_or(marks.message, text),
    };
    if !comes_back(alloc, x, &commit)? || !is_commit(alloc, &commit)? {
        return Ok(None);
    }
    Ok(Some(commit))
}

// The part that a mark names, or else the given one.
fn part_or(mark: Option<Bytes>, given: Bytes) -> Bytes
    ensures { result ≡ unwrap_or mark given }
{
    match mark {
        Some(part) => part,
        None => given,
    }
}

// Whether a mark, where there is one, names another part than the one that the rule gives.
fn is_needed(mark: &Option<Bytes>, given: &[u8]) -> bool
    ensures { IsTrue result ↔ IsNeeded mark.now given.now }
{
    match mark {
        Some(part) => part.as_slice() != given,
        None => true,
    }
}

// Whether user, date and description of a changeset come back from the fields of a commit.
fn comes_back(alloc: Global, x: &Changeset, commit: &Commit) -> Result<bool, NoMemory>
    ensures { IfOk result (λ back. IsTrue back ↔ ComesBack (changeset_value x.now) commit.now) }
{
    if desc_of_message(commit.message.as_slice()) != x.desc.as_slice() {
        return Ok(false);
    }
    let given = user_of_line(alloc, commit.author.as_slice())?;
    Ok(given.user.as_slice() == x.user.as_slice() && has_date(&given, &x.date))
}

// Whether these are the time and the time zone of a date line.
fn has_date(given: &UserDate, date: &DateLine) -> bool
    ensures { IsTrue result ↔ HasDate given.now (date_value date.now) }
{
    match date {
        DateLine::Plain { time, tz, .. } => given.time == *time && given.tz == *tz,
        DateLine::Raw(_) => false,
    }
}

// Whether these are the fields of a commit: its text reads as these again.
fn is_commit(alloc: Global, commit: &Commit) -> Result<bool, NoMemory>
    ensures { IfOk result (λ is. IsTrue is ↔ IsCommit commit.now) }
{
    let mut text = Vec::new(alloc);
    commit.write_into(&mut text)?;
    match Commit::read(alloc, text.as_slice()) {
        Ok(found) => Ok(is_same(&found, commit)),
        Err(CommitFault::Shape(_)) => Ok(false),
        Err(CommitFault::Memory) => Err(NoMemory),
    }
}

// Whether two commits have the same fields.
fn is_same(a: &Commit, b: &Commit) -> bool
    ensures { IsTrue result ↔ a.now ≡ b.now }
{
    if a.tree != b.tree {
        return false;
    }
    if !are_same_ids(&a.parents, &b.parents) {
        return false;
    }
    if !are_same_bytes(&a.author, &b.author) {
        return false;
    }
    if !are_same_bytes(&a.committer, &b.committer) {
        return false;
    }
    if !are_same_bytes(&a.headers, &b.headers) {
        return false;
    }
    are_same_bytes(&a.message, &b.message)
}

fn are_same_ids(a: &IdList, b: &IdList) -> bool
    ensures { IsTrue result ↔ a.now ≡ b.now }
{
    a.as_slice() == b.as_slice()
}

fn are_same_bytes(a: &Bytes, b: &Bytes) -> bool
    ensures { IsTrue result ↔ a.now ≡ b.now }
{
    a.as_slice() == b.as_slice()
}
