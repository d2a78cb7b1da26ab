// The draft of a commit, put together.
ghost use Rattle.std.specs.Prelude.{◌≡◌, ◌++◌, None, List, map, IfOk};
ghost use Rattle.text_model.specs.Lists.{In, Each};
ghost use Rattle.git_model.specs.Shape.{root_of, trees_of, first_clash};
ghost use Rattle.view_model.specs.View.{Row};
ghost use Rattle.pair_model.specs.Rule.{tree_row_of};
ghost use Rattle.commit_rule.specs.Parts.{AreRowsOf, AreBrought, HasStoredBlob, WalksThrough};

use bridge_text::{Id, NoMemory};
use commit_rule::{fresh_blobs, trees_over};
use git_object::Commit;
use pair_known::{GitDraft, HgDraft, HgRow, Known};
use std::alloc::Global;
use tree_shape::Files;

/// The draft of the commit with these fields and the tree of these files, with the blobs of the changeset that the store doesn't hold. Of the trees
/// those over an old one, where there is one, are made that aren't in it. No blob is looked up that stands at its place among those of the near rows.
pub fn made_of(
    alloc: Global,
    known: &Known,
    h: &HgDraft,
    old: Option<Id>,
    head: Commit,
    files: Files,
    near: &[HgRow],
) -> Result<GitDraft, NoMemory>
    requires held { (rows : List Row) × AreRowsOf (h.now.fresh ++ known.now.hg) h.now.rows rows }
    requires walks { WalksThrough known.now.git old }
    requires apart { first_clash files ≡ None }
    requires near { Each (HasStoredBlob known.now.git) near.now }
    ensures commit { IfOk result (λ d. d.commit ≡ record head { tree_id = root_of files }) }
    ensures files { IfOk result (λ d. d.files ≡ files) }
    ensures blobs { IfOk result (λ d. (rows : List Row) → AreRowsOf (h.now.fresh ++ known.now.hg) h.now.rows rows → AreBrought known.now.git d.fresh (map tree_row_of rows)) }
    ensures trees_are { IfOk result (λ d. Each (λ o. In o (trees_of files)) d.trees) }
    ensures trees_held { IfOk result (λ d. Each (λ o. In o (d.trees ++ known.now.git)) (trees_of files)) }
{
    let trees = trees_over(alloc, &known.git, old, &files)?;
    let fresh = fresh_blobs(alloc, known, h, near)?;
    let commit = with_tree(head, trees.root);
    Ok(GitDraft {
        commit,
        files,
        fresh,
        trees: trees.made,
    })
}

// The fields with this tree.
fn with_tree(head: Commit, tree: Id) -> Commit
    ensures { result ≡ record head { tree_id = tree } }
{
    let mut commit = head;
    commit.tree = tree;
    commit
}
