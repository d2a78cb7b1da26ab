ghost use Rattle.std.specs.Prelude.{◌≡◌, ◌≤◌, List, length, Err, IfOk, OnOk};
ghost use Rattle.text_model.specs.Lists.{Each};
ghost use Rattle.view_model.specs.View.{CommitView, ChangesetFits};
ghost use Rattle.pair_model.specs.Block.{Block};
ghost use Rattle.pair_model.specs.Plain.{changeset_by_rule};
ghost use Rattle.pair_known.specs.Drafts.{IsRowKnown};
ghost use Rattle.pair_known.specs.Over.{IsCommitOver};
ghost use Rattle.pair_known.specs.Ruled.{IsMadeChangeset, IsRuledChangeset, HasFileParents, HasManifestParents};
ghost use Rattle.pair_known.specs.declared.fault.PairFault.TheVariants.{PairLimit};

use crate::fields::{fields_of, text_of};
use crate::fits::changeset_fits;
use crate::parents::{parent_nodes, parent_with};
use bridge_text::NoMemory;
use file_rule::make_rows;
use manifest_rule::{files_over, make_manifest};
use pair_known::{DraftTexts, GitDraft, HgDraft, HgRow, Known, PairFault};
use std::alloc::Global;

/// The changeset that the rule gives for a commit whose parents have partners, whatever the sizes of its texts. Its parents are the last link
/// and the last partner where the commit has three parents and more. It brings its text, and that of its manifest where this is new. Beside near
/// rows, which may be any, nothing is looked up for a file of the first parent that stands among them with the file's blob.
pub fn make_changeset(
    alloc: Global,
    known: &Known,
    c: &GitDraft,
    near: &[HgRow],
) -> Result<HgDraft, NoMemory>
    requires over { (blocks : List Block) × (v : CommitView) × IsCommitOver known.now blocks c.now v }
    requires near { Each (IsRowKnown known.now.hg) near.now }
    ensures { IfOk result (λ d. (blocks : List Block) (v : CommitView) → IsCommitOver known.now blocks c.now v
        → IsMadeChangeset known.now.hg d (changeset_by_rule blocks v)) }
{
    let nodes = parent_nodes(alloc, known, c)?;
    let first = parent_with(&known.hg, &nodes.p1, &nodes.first);
    let second = parent_with(&known.hg, &nodes.p2, &nodes.second);
    let made = make_rows(alloc, known, c, &first, &second, near)?;
    let manifest = make_manifest(alloc, &known.hg, &made.rows, &first, &second)?;
    let files = files_over(alloc, &made.rows, &first, &second)?;
    let changeset = fields_of(alloc, &c.commit, manifest.node, files)?;
    let text = text_of(alloc, &changeset)?;
    Ok(HgDraft {
        p1: nodes.p1,
        p2: nodes.p2,
        changeset,
        manifest: manifest.manifest,
        rows: made.rows,
        fresh: made.fresh,
        texts: DraftTexts {
            changeset: Some(text),
            manifest: manifest.text,
        },
    })
}

/// The changeset that the rule gives for a commit whose parents have partners. PairLimit comes exactly where a text of it passes its limit.
/// Of a commit of three and more parents nothing is said of both parents together: the node of a link is a hash, which may be null or that of
/// another parent.
pub fn rule_changeset(alloc: Global, known: &Known, c: &GitDraft) -> Result<HgDraft, PairFault>
    requires over { (blocks : List Block) × (v : CommitView) × IsCommitOver known.now blocks c.now v }
    ensures ok { IfOk result (λ d. (blocks : List Block) (v : CommitView) → IsCommitOver known.now blocks c.now v
        → IsMadeChangeset known.now.hg d (changeset_by_rule blocks v) × ChangesetFits (changeset_by_rule blocks v)) }
    ensures known_parents { OnOk result ((blocks : List Block) (v : CommitView) → IsCommitOver known.now blocks c.now v
        → Each (HasFileParents known.now.hg) (changeset_by_rule blocks v).rows × HasManifestParents known.now.hg (changeset_by_rule blocks v).manifest) }
    ensures strict { IfOk result (λ d. (blocks : List Block) (v : CommitView) → IsCommitOver known.now blocks c.now v
        → length (v.value).parents ≤ 2 → IsRuledChangeset known.now.hg d (changeset_by_rule blocks v)) }
    ensures limit { result ≡ Err PairLimit → (blocks : List Block) (v : CommitView) → IsCommitOver known.now blocks c.now v
        → ChangesetFits (changeset_by_rule blocks v) → ⊥ }
{
    let changeset = make_changeset(alloc, known, c, &[])?;
    if !changeset_fits(alloc, &changeset)? {
        return Err(PairFault::PairLimit);
    }
    Ok(changeset)
}
