// What the tree of a commit has beside its files.
ghost use Rattle.std.specs.Prelude.{◌≡◌, List, IfOk};
ghost use Rattle.view_model.specs.View.{CommitView};
ghost use Rattle.pair_model.specs.Block.{Block};
ghost use Rattle.pair_known.specs.Over.{IsCommitOver};
ghost use Rattle.partner_model.specs.Mark.{residue_in, first_residue, residue_unless};
ghost use Rattle.changeset_mark.specs.Marks.{handed_to};

use bridge_text::NoMemory;
use git_object::Residue;
use pair_known::{GitDraft, Known};
use std::alloc::Global;
use tree_residue::{is_handed_on, residue_at, residue_of};

/// What the tree of a commit has beside its files, where it isn't what the commit's first parent hands on to the files of the changeset.
pub fn tree_mark(alloc: Global, known: &Known, c: &GitDraft) -> Result<Option<Residue>, NoMemory>
    ensures { IfOk result (λ mark. (blocks : List Block) (v : CommitView) → IsCommitOver known.now blocks c.now v
        → mark ≡ residue_unless (residue_in v.rows) (handed_to blocks v)) }
{
    let old = first_residue(alloc, known, c)?;
    if is_handed_on(alloc, &old, &c.files)? {
        return Ok(None);
    }
    let residue = residue_of(alloc, &c.files)?;
    Ok(Some(residue))
}

// What the tree of the first parent has beside its files; nothing where there is no parent.
fn first_residue(alloc: Global, known: &Known, c: &GitDraft) -> Result<Residue, NoMemory>
    ensures { IfOk result (λ residue. (blocks : List Block) (v : CommitView) → IsCommitOver known.now blocks c.now v
        → residue ≡ first_residue blocks (v.value).parents) }
{
    let Some(first) = c.commit.parents.as_slice().first() else {
        return Ok(Residue::new(alloc));
    };
    match known.git.commit(first) {
        Some(parent) => residue_at(alloc, &known.git, &parent.tree),
        None => Ok(Residue::new(alloc)),
    }
}
