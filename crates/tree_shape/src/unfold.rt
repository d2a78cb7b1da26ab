ghost use Rattle.std.specs.Prelude.{◌≡◌, None, OnOk, IfOk, IfErr};
ghost use Rattle.git_model.specs.Unfold.{IsUnfolding, tree_rows, walk_fault};
ghost use Rattle.git_model.specs.Shape.{root_of, trees_of};
ghost use Rattle.git_model.specs.Unfold.{by_paths};
ghost use Rattle.git_model.proofs.SortLemmas.{Ascends, Distinct};
ghost use Rattle.tree_shape.specs.Orders.{met_path};
ghost use Rattle.tree_shape.specs.Faults.{IsTreeFault};
ghost use Rattle.tree_shape.specs.Laws.{AreKnown};

use crate::fault::TreeFault;
use crate::file_row::FileRow;
use crate::files::Files;
use crate::sorting::{by_paths, has_directory};
use crate::walk::{Walk, visit_tree};
use bridge_text::{COMPONENT_LIMIT, Id, NoMemory};
use git_object::Objects;
use std::alloc::Global;

/// The rows that a tree stands for, in rising order of their paths: files and gitlinks, as `git ls-tree -r` lists them, and
/// empty subtrees. The tree of the rows is the root again, and each of their trees is an object of the store.
pub fn flatten<G: Objects>(alloc: Global, store: &G, root: &Id) -> Result<Files, TreeFault>
    ensures unfolds { IfOk result (IsUnfolding (G.objects store.now) root.now) }
    ensures rows { IfOk result (λ files. files ≡ tree_rows (G.objects store.now) root.now) }
    ensures root { IfOk result (λ files. root_of files ≡ root.now) }
    ensures trees { IfOk result (λ files. AreKnown (G.objects store.now) (trees_of files)) }
    ensures fits { OnOk result (walk_fault (G.objects store.now) root.now ≡ None) }
    ensures fault { IfErr result (IsTreeFault (walk_fault (G.objects store.now) root.now)) }
{
    flatten_near(alloc, store, root, &[])
}

/// The rows that a tree stands for, as `flatten` gives them. A path that stands among these rows of another tree too, which
/// rise, isn't copied but shared.
pub fn flatten_near<G: Objects>(
    alloc: Global,
    store: &G,
    root: &Id,
    near: &[FileRow],
) -> Result<Files, TreeFault>
    ensures unfolds { IfOk result (IsUnfolding (G.objects store.now) root.now) }
    ensures rows { IfOk result (λ files. files ≡ tree_rows (G.objects store.now) root.now) }
    ensures root { IfOk result (λ files. root_of files ≡ root.now) }
    ensures trees { IfOk result (λ files. AreKnown (G.objects store.now) (trees_of files)) }
    ensures fits { OnOk result (walk_fault (G.objects store.now) root.now ≡ None) }
    ensures fault { IfErr result (IsTreeFault (walk_fault (G.objects store.now) root.now)) }
{
    let Some(tree) = store.tree(root) else {
        return Err(TreeFault::ObjectUnknown(*root));
    };
    let mut walk = Walk::new(alloc, near);
    visit_tree(alloc, store, tree, COMPONENT_LIMIT, &mut walk)?;
    let rows = rows_by_paths(alloc, walk.into_rows())?;
    Ok(Files::keep(rows))
}

/// The rows of a walk in the order of their paths. Where no directory is among them, they stand so already.
fn rows_by_paths(alloc: Global, rows: Vec<FileRow>) -> Result<Vec<FileRow>, NoMemory>
    requires order { Ascends met_path rows.items }
    requires paths { Distinct (λ r. r.path) rows.items }
    ensures { IfOk result (λ sorted. sorted.items ≡ by_paths rows.items) }
{
    if has_directory(&rows) {
        by_paths(alloc, rows)
    } else {
        Ok(rows)
    }
}
