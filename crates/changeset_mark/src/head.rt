// The marks of a commit's own fields.
ghost use Rattle.std.specs.Prelude.{◌≡◌, ◌≤◌, length, [], IfOk};
ghost use Rattle.pair_model.specs.MarkList.{IsParentCount};
ghost use Rattle.pair_model.specs.User.{line_of_user, message_of, description_of};
ghost use Rattle.partner_model.specs.Mark.{part_unless};
ghost use Rattle.mark_code.specs.Values.{changeset_marks};
ghost use Rattle.changeset_mark.specs.Marks.{parents_mark};

use bridge_text::{Bytes, NoMemory};
use git_object::{Commit, Residue};
use mark_code::ChangesetMarks;
use name_rule::{UserDate, desc_of_message, line_of_user, message_of_desc};
use std::alloc::Global;

/// The marks of a commit of 64 parents at most, with the one of its residue: each field that isn't what the rule gives of the changeset, in
/// which `given` is the user and the date, and the number of parents where there are more than two.
pub fn head_marks(
    alloc: Global,
    commit: &Commit,
    given: &UserDate,
    tree: Option<Residue>,
) -> Result<ChangesetMarks, NoMemory>
    requires { length commit.now.parents ≤ 64 }
    ensures marks { IfOk result (λ marks. changeset_marks marks ≡ record {
      author = part_unless commit.now.author (line_of_user given.now.user given.now.time given.now.tz);
      committer = part_unless commit.now.committer commit.now.author;
      headers = part_unless commit.now.headers [];
      message = part_unless commit.now.message (message_of (description_of commit.now.message));
      parents = parents_mark (length commit.now.parents);
      tree = tree;
    }) }
    ensures count { IfOk result (λ marks. IsParentCount marks.parents) }
{
    let line = line_of_user(alloc, given.user.as_slice(), given.time, given.tz)?;
    let again = message_of_desc(alloc, desc_of_message(commit.message.as_slice()))?;
    let author = part_unless(alloc, &commit.author, line.as_slice())?;
    let committer = part_unless(alloc, &commit.committer, commit.author.as_slice())?;
    let headers = part_unless(alloc, &commit.headers, b"")?;
    let message = part_unless(alloc, &commit.message, again.as_slice())?;
    Ok(ChangesetMarks {
        author,
        committer,
        headers,
        message,
        parents: parent_count(commit),
        tree,
    })
}

// How many parents a commit has, where there are more than two.
fn parent_count(commit: &Commit) -> Option<u8>
    requires { length commit.now.parents ≤ 64 }
    ensures count { result ≡ parents_mark (length commit.now.parents) }
    ensures within { IsParentCount result }
{
    let count = commit.parents.len();
    if count <= 2 { None } else { Some(count as u8) }
}

// A copy of a part, where it isn't the one that the rule gives.
fn part_unless(alloc: Global, part: &Bytes, given: &[u8]) -> Result<Option<Bytes>, NoMemory>
    ensures { IfOk result (λ mark. mark ≡ part_unless part.now given.now) }
{
    if part.as_slice() == given {
        return Ok(None);
    }
    let copy = Bytes::of(alloc, part.as_slice())?;
    Ok(Some(copy))
}
