// Whether the changeset that the marks of a commit name has that commit for its marked one.
ghost use Rattle.std.specs.Prelude.{◌≡◌, ◌↔◌, List, IfOk, IsTrue};
ghost use Rattle.view_model.specs.View.{ChangesetView, CommitView};
ghost use Rattle.pair_model.specs.Block.{Block};
ghost use Rattle.pair_model.specs.MarkList.{marks_text};
ghost use Rattle.pair_known.specs.Over.{IsChangesetOver, IsCommitOver};
ghost use Rattle.partner_model.specs.Mark.{commit_marks, parents_of_changeset};
ghost use Rattle.commit_unmark.specs.Changesets.{IsRight, HasHead};
ghost use Rattle.hg_changeset.specs.Values.{changeset_value};

use bridge_text::NoMemory;
use commit_mark::marks_of;
use commit_rule::author_of;
use link_rule::is_link;
use pair_known::{GitDraft, HgDraft, Known};
use plain_rule::has_what_is_handed_on;
use std::alloc::Global;

/// Whether a changeset that the marks of a commit name is no link, and its marked commit is the commit: its author's line, the message, what
/// its tree has beside the files, and the headers.
pub fn is_right(
    alloc: Global,
    known: &Known,
    c: &GitDraft,
    named: &HgDraft,
) -> Result<bool, NoMemory>
    requires over { (blocks : List Block) × (h : ChangesetView) × IsChangesetOver known.now blocks named.now h }
    ensures { IfOk result (λ right. (blocks : List Block) (v : CommitView) (h : ChangesetView) → IsCommitOver known.now blocks c.now v → IsChangesetOver known.now blocks named.now h
        → (IsTrue right ↔ IsRight blocks v h)) }
{
    if is_link(&named.changeset, &named.p1, &named.p2) {
        return Ok(false);
    }
    if !has_head(alloc, c, named)? {
        return Ok(false);
    }
    if !has_what_is_handed_on(alloc, known, c)? {
        return Ok(false);
    }
    has_headers(alloc, known, c, named)
}

// Whether author, committer and message are those of the changeset.
fn has_head(alloc: Global, c: &GitDraft, named: &HgDraft) -> Result<bool, NoMemory>
    ensures { IfOk result (λ same. IsTrue same ↔ HasHead c.now.commit (changeset_value named.now.changeset)) }
{
    let author = c.commit.author.as_slice();
    if c.commit.committer.as_slice() != author {
        return Ok(false);
    }
    if !c.commit.message.as_slice().ends_with(b"\n") {
        return Ok(false);
    }
    let line = author_of(alloc, &named.changeset)?;
    Ok(line.as_slice() == author)
}

// Whether the headers are the marks of the changeset.
fn has_headers(
    alloc: Global,
    known: &Known,
    c: &GitDraft,
    named: &HgDraft,
) -> Result<bool, NoMemory>
    requires over { (blocks : List Block) × (h : ChangesetView) × IsChangesetOver known.now blocks named.now h }
    ensures { IfOk result (λ same. (blocks : List Block) (h : ChangesetView) → IsChangesetOver known.now blocks named.now h
        → (IsTrue same ↔ marks_text (commit_marks (parents_of_changeset blocks h) h) ≡ (c.now.commit).headers)) }
{
    let marks = marks_of(alloc, known, named)?;
    let mut text = Vec::new(alloc);
    marks.write_into(&mut text)?;
    Ok(text.as_slice() == c.commit.headers.as_slice())
}
