//! Laws of trees and files. These functions do nothing when they run.
ghost use Rattle.std.specs.Prelude.{◌≡◌, List, None};
ghost use Rattle.text_model.specs.Id.{Id};
ghost use Rattle.git_model.specs.Object.{Object, AreObjects};
ghost use Rattle.git_model.specs.Unfold.{FileRow, IsUnfolding, tree_rows, walk_fault};
ghost use Rattle.git_model.specs.Shape.{root_of, trees_of};
ghost use Rattle.tree_shape.specs.Laws.{AreKnown, AreWalkable};

/// Where a walk through a tree ends without a refusal, its rows are what the tree stands for, the tree of the rows is the
/// tree again, and each tree of theirs is one of the objects.
pub fn unfold_laws()
    ensures unfolds { (known : List Object) (root : Id) → AreObjects known → walk_fault known root ≡ None → IsUnfolding known root (tree_rows known root) }
    ensures root { (known : List Object) (root : Id) → AreObjects known → walk_fault known root ≡ None → root_of (tree_rows known root) ≡ root }
    ensures trees { (known : List Object) (root : Id) → AreObjects known → walk_fault known root ≡ None → AreKnown known (trees_of (tree_rows known root)) }
{}

/// Where the trees of files are there, and the blobs that the files name, and the files are within the limit, a walk
/// through their tree ends without a refusal, and its rows are these files.
pub fn shape_laws()
    ensures fits { (known : List Object) (rows : List FileRow) → AreWalkable known rows → walk_fault known (root_of rows) ≡ None }
    ensures rows { (known : List Object) (rows : List FileRow) → AreWalkable known rows → tree_rows known (root_of rows) ≡ rows }
{}
