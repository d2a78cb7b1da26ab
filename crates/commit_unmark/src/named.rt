// The changeset that the marks of a commit name.
ghost use Rattle.std.specs.Prelude.{◌≡◌, ◌≤◌, List, length, IfOk, MatchOption};
ghost use Rattle.view_model.specs.View.{CommitView};
ghost use Rattle.pair_model.specs.Block.{Block};
ghost use Rattle.pair_known.specs.Over.{IsCommitOver};
ghost use Rattle.commit_unmark.specs.Changesets.{NamesNoChangeset, NamesChangeset};

use crate::fields::named_fields;
use crate::manifest::{named_files, named_manifest};
use crate::rows::named_rows;
use bridge_text::NoMemory;
use changeset_rule::{parent_nodes, parent_with};
use mark_code::CommitMarks;
use pair_known::{DraftTexts, GitDraft, HgDraft, Known};
use std::alloc::Global;

/// The changeset that the marks of a commit of two parents at most name; `None` exactly where they name none that is a right one.
/// It brings the text of its manifest, where that is a new one.
pub fn named_changeset(
    alloc: Global,
    known: &Known,
    c: &GitDraft,
    marks: &CommitMarks,
) -> Result<Option<HgDraft>, NoMemory>
    requires over { (blocks : List Block) × (v : CommitView) × IsCommitOver known.now blocks c.now v }
    requires few { length (c.now.commit).parents ≤ 2 }
    ensures { IfOk result (λ found. (blocks : List Block) (v : CommitView) → IsCommitOver known.now blocks c.now v
        → MatchOption found (NamesNoChangeset blocks v marks.now) (NamesChangeset known.now.hg blocks v marks.now)) }
{
    let nodes = parent_nodes(alloc, known, c)?;
    let first = parent_with(&known.hg, &nodes.p1, &nodes.first);
    let second = parent_with(&known.hg, &nodes.p2, &nodes.second);
    let Some(made) = named_rows(alloc, known, c, marks, &first, &second)? else {
        return Ok(None);
    };
    let Some(manifest) = named_manifest(alloc, &known.hg, marks, &made.rows, &first, &second)?
    else {
        return Ok(None);
    };
    let files = named_files(alloc, marks, &made.rows, &first, &second)?;
    let Some(changeset) = named_fields(alloc, &c.commit, marks, manifest.node, files)? else {
        return Ok(None);
    };
    Ok(Some(HgDraft {
        p1: nodes.p1,
        p2: nodes.p2,
        changeset,
        manifest: manifest.manifest,
        rows: made.rows,
        fresh: made.fresh,
        texts: DraftTexts {
            changeset: None,
            manifest: manifest.text,
        },
    }))
}
