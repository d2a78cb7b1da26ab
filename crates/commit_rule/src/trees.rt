// The trees of a commit.
ghost use Rattle.std.specs.Prelude.{◌≡◌, ◌++◌, List, None, IfOk, IfSome, MatchOption};
ghost use Rattle.text_model.specs.Lists.{In, Each};
ghost use Rattle.git_model.specs.Shape.{root_of, trees_of, first_clash};
ghost use Rattle.git_store.specs.Known.{AreKnown};
ghost use Rattle.pair_model.specs.Block.{Block, block_of_node};
ghost use Rattle.pair_known.specs.Blocks.{AreBlocksHeld};
ghost use Rattle.commit_rule.specs.Parts.{IsTreeOf, WalksThrough};

use bridge_text::{Id, NoMemory};
use git_store::GitStore;
use pair_known::Known;
use std::alloc::Global;
use tree_rebuild::rebuild_apart;
use tree_shape::{Files, Trees, build_apart};

/// The tree of the commit that is the partner of a changeset; `None` exactly where this has no partner.
pub fn tree_of_partner(known: &Known, node: &Id) -> Option<Id>
    ensures tree { (blocks : List Block) → AreBlocksHeld known.now blocks
        → MatchOption result (block_of_node blocks node.now ≡ None) (IsTreeOf blocks node.now) }
    ensures known { IfSome result (λ _. AreKnown known.now.git) }
{
    let Some(partner) = known.partners.git_of(node) else {
        return None;
    };
    match known.git.commit(&partner) {
        Some(commit) => Some(commit.tree),
        None => None,
    }
}

/// The trees of rows of which none lies below another, over an old tree where there is one: its subtrees that stay are not made.
pub fn trees_over(
    alloc: Global,
    git: &GitStore,
    old: Option<Id>,
    files: &Files,
) -> Result<Trees, NoMemory>
    requires walks { WalksThrough git.now old }
    requires apart { first_clash files.now ≡ None }
    ensures root { IfOk result (λ trees. trees.root ≡ root_of files.now) }
    ensures are { IfOk result (λ trees. Each (λ o. In o (trees_of files.now)) trees.made) }
    ensures held { IfOk result (λ trees. Each (λ o. In o (trees.made ++ git.now)) (trees_of files.now)) }
{
    match old {
        Some(root) => rebuild_apart(alloc, git, &root, files),
        None => build_apart(alloc, files.as_slice()),
    }
}
