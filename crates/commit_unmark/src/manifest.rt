// The manifest and the list of files that marks name.
ghost use Rattle.std.specs.Prelude.{◌≡◌, ◌↔◌, List, [], map, IfOk, IsTrue, MatchOption, option_map};
ghost use Rattle.view_model.specs.View.{Row, AreManifestParents};
ghost use Rattle.pair_model.specs.Block.{Parents};
ghost use Rattle.pair_model.specs.MarkList.{IsMarkList};
ghost use Rattle.partner_model.specs.Filled.{manifest_mark, files_mark, first_mark};
ghost use Rattle.hg_manifest.specs.Values.{manifest_value};
ghost use Rattle.mark_code.specs.Values.{mark_value};
ghost use Rattle.pair_known.specs.Rows.{row_value};
ghost use Rattle.manifest_rule.specs.Listed.{AreListedOver};
ghost use Rattle.manifest_rule.specs.Over.{AreRowsOver};
ghost use Rattle.commit_unmark.specs.Parts.{manifest_by, files_by, IsManifestWith};

use crate::marks::{Kind, first_of};
use bridge_text::{Bytes, Id, NoMemory, Paths, node_id};
use file_rule::Parent;
use hg_filelog::canonical_pair;
use hg_manifest::ManifestRev;
use hg_store::HgStore;
use manifest_rule::{RuledManifest, files_over, lines_of, make_manifest};
use mark_code::{CommitMarks, Mark};
use pair_known::HgRows;
use std::alloc::Global;

/// The manifest of a changeset's rows that a mark names, or the rule where it has none; `None` exactly where it is no right one, since its
/// parents stand in another order, or there is none of some rows.
pub fn named_manifest(
    alloc: Global,
    store: &HgStore,
    marks: &CommitMarks,
    rows: &HgRows,
    first: &Parent<'_>,
    second: &Parent<'_>,
) -> Result<Option<RuledManifest>, NoMemory>
    ensures { IfOk result (λ found. (ps : Parents) (hs : List Row) → AreRowsOver store.now rows.now first.now second.now ps hs
        → MatchOption found (AreManifestParents (manifest_by ps marks.now hs) hs → ⊥)
        (λ made. IsManifestWith made (manifest_by ps marks.now hs) hs × AreManifestParents (manifest_by ps marks.now hs) hs)) }
{
    let made = manifest_of(alloc, store, marks, rows, first, second)?;
    if is_manifest(&made.manifest, rows) {
        Ok(Some(made))
    } else {
        Ok(None)
    }
}

// The manifest, whether it is a right one or not.
fn manifest_of(
    alloc: Global,
    store: &HgStore,
    marks: &CommitMarks,
    rows: &HgRows,
    first: &Parent<'_>,
    second: &Parent<'_>,
) -> Result<RuledManifest, NoMemory>
    ensures { IfOk result (λ made. (ps : Parents) (hs : List Row) → AreRowsOver store.now rows.now first.now second.now ps hs
        → IsManifestWith made (manifest_by ps marks.now hs) hs) }
{
    match marked_manifest(marks) {
        Some(manifest) => with_parents(alloc, rows, manifest),
        None => make_manifest(alloc, store, rows, first, second),
    }
}

// The parents that a mark names.
fn marked_manifest(marks: &CommitMarks) -> Option<ManifestRev>
    ensures { option_map manifest_value result ≡ first_mark manifest_mark marks.now }
{
    let mark = first_of(marks, Kind::Manifest)?;
    manifest_in(mark)
}

fn manifest_in(mark: &Mark) -> Option<ManifestRev>
    ensures { option_map manifest_value result ≡ manifest_mark (mark_value mark.now) }
{
    match mark {
        Mark::Manifest(manifest) => Some(*manifest),
        _ => None,
    }
}

// The manifest of rows with these parents, or none.
fn with_parents(
    alloc: Global,
    rows: &HgRows,
    manifest: ManifestRev,
) -> Result<RuledManifest, NoMemory>
    ensures { IfOk result (λ made. (hs : List Row) → rows.now ≡ map row_value hs → IsManifestWith made (manifest_value manifest) hs) }
{
    match manifest {
        ManifestRev::Null => Ok(RuledManifest {
            node: Id::NULL,
            manifest,
            text: None,
        }),
        ManifestRev::Over { p, q } => {
            let text = lines_of(alloc, rows)?;
            Ok(RuledManifest {
                node: node_id(&p, &q, text.as_slice()),
                manifest,
                text: Some(text),
            })
        }
    }
}

// Whether these are parents of a manifest with the rows.
fn is_manifest(manifest: &ManifestRev, rows: &HgRows) -> bool
    ensures { (hs : List Row) → rows.now ≡ map row_value hs → (IsTrue result ↔ AreManifestParents (manifest_value manifest.now) hs) }
{
    match manifest {
        ManifestRev::Null => rows.is_empty(),
        ManifestRev::Over { p, q } => {
            let (first, second) = canonical_pair(*p, *q);
            first == *p && second == *q
        }
    }
}

/// The list of files of a changeset that a mark of a mark list names, or the rule where it has none.
pub fn named_files(
    alloc: Global,
    marks: &CommitMarks,
    rows: &HgRows,
    first: &Parent<'_>,
    second: &Parent<'_>,
) -> Result<Paths, NoMemory>
    ensures files { IfOk result (λ files. (ps : Parents) (hs : List Row) → AreListedOver rows.now first.now second.now ps hs → files ≡ files_by ps marks.now hs) }
    ensures list { IsMarkList marks.now }
{
    match marked_files(marks) {
        Some(paths) => copy_of(alloc, paths),
        None => files_over(alloc, rows, first, second),
    }
}

// The list that a mark names.
fn marked_files(marks: &CommitMarks) -> Option<&Paths>
    ensures named { option_map (λ paths. paths.now) result ≡ first_mark files_mark marks.now }
    ensures list { IsMarkList marks.now }
{
    let mark = first_of(marks, Kind::Files)?;
    files_in(mark)
}

fn files_in(mark: &Mark) -> Option<&Paths>
    ensures { option_map (λ paths. paths.now) result ≡ files_mark (mark_value mark.now) }
{
    match mark {
        Mark::Files(paths) => Some(paths),
        _ => None,
    }
}

fn copy_of(alloc: Global, paths: &Paths) -> Result<Paths, NoMemory>
    ensures { IfOk result (λ copy. copy ≡ paths.now) }
{
    let mut copy = Paths::new(alloc);
    for path in paths.as_slice() {
        copy.push(Bytes::of(alloc, path.as_slice())?)?;
    }
    Ok(copy)
}
