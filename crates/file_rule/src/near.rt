// Files whose revisions are told by the rows of another changeset.
ghost use Rattle.std.specs.Prelude.{◌≡◌, ℕ, ◌++◌, List, Option, Some, IfOk, IfSome, option_map};
ghost use Rattle.std.specs.Option.{option_copied};
ghost use Rattle.text_model.specs.Lists.{Each};
ghost use Rattle.hg_model.specs.Revision.{Revision};
ghost use Rattle.hg_manifest.specs.Values.{manifest_entry};
ghost use Rattle.view_model.specs.View.{FileRevision, file_node, TreeRow};
ghost use Rattle.view_model.specs.Held.{IsBlobHeld};
ghost use Rattle.pair_model.specs.Rule as rule;
ghost use Rattle.pair_known.specs.Drafts.{IsRowKnown};
ghost use Rattle.file_rule.specs.Parents.{IsRevisionAt, row_with};
ghost use Rattle.file_rule.specs.Made.{IsMadeRow, IsRowOf, IsFresh};

use crate::revision::{RuledRow, make_row, row_of};
use bridge_text::{Id, NoMemory};
use hg_manifest::Entry;
use pair_known::{GitDraft, Known, NearRows};
use std::alloc::Global;
use tree_shape::FileRow;

/// The file that the rule gives for a file of a commit, as `make_row` gives it; nothing is looked up where the rows tell that the first parent's
/// revision is kept.
pub(crate) fn make_near_row(
    alloc: Global,
    known: &Known,
    c: &GitDraft,
    file: &FileRow,
    first: Option<&Entry>,
    second: Option<&Entry>,
    near: &mut NearRows<'_>,
) -> Result<RuledRow, NoMemory>
    requires content { (t : TreeRow) × (t.id ≡ file.now.id) × IsBlobHeld (c.now.fresh ++ known.now.git) t }
    requires near { Each (IsRowKnown known.now.hg) near.old }
    ensures ok { IfOk result (λ made. (r s : Option FileRevision) (t : TreeRow)
        → IsRowOf known.now.hg (c.now.fresh ++ known.now.git) file.now (option_map manifest_entry (option_copied first.entry)) (option_map manifest_entry (option_copied second.entry)) r s t
        → IsMadeRow known.now.hg made (row_with file.now.path (rule.flag_of_mode file.now.mode) (rule.ruled_revision r s t))) }
    ensures fresh { IfOk result (λ made. IsFresh known.now.hg file.now.path made.fresh) }
    ensures same { near.new ≡ near.old }
{
    let Some(node) = near_node(first, near, file.blob()) else {
        return make_row(alloc, known, c, file, first, second);
    };
    let row = row_of(file, node)?;
    Ok(RuledRow { row, fresh: None })
}

// The node of the first parent's revision, where a row tells that its body is the blob.
fn near_node(first: Option<&Entry>, near: &mut NearRows<'_>, blob: &Id) -> Option<Id>
    ensures node { IfSome result (λ node. (known : List Revision) (path : List ℕ) (r : Option FileRevision) → Each (IsRowKnown known) near.old
        → IsRevisionAt known path (option_map manifest_entry (option_copied first.entry)) r → Some node ≡ option_map file_node (rule.with_body blob.now r)) }
    ensures same { near.new ≡ near.old }
{
    let entry = first?;
    let row = near.get(entry)?;
    if row.blob == *blob {
        Some(entry.node)
    } else {
        None
    }
}
