ghost use Rattle.std.specs.Prelude.{◌≡◌, ◌↔◌, ℕ, ◌+◌, ◌++◌, ◌<◌, List, [], ◌∷◌, length, true, if◌then◌else◌, option_map, map, IfOk, OnOk, IsTrue};
ghost use Rattle.view_model.specs.View.{Row};
ghost use Rattle.pair_model.specs.Block.{Parents};
ghost use Rattle.pair_model.specs.Rule as rule;
ghost use Rattle.manifest_rule.specs.Listed.{AreListed, AreListedBy, AreListedOver, entries_or_none};

use crate::merge::{entry_at, next, row_at};
use bridge_text::{Bytes, NoMemory, Paths};
use file_rule::Parent;
use hg_manifest::Manifest;
use pair_known::HgRows;
use std::alloc::Global;

/// The paths that a changeset lists by the rule, rising: those where it has something else than each of its parents, and all of its paths
/// where it has none.
pub fn ruled_files(
    alloc: Global,
    rows: &HgRows,
    first: Option<&Manifest>,
    second: Option<&Manifest>,
) -> Result<Paths, NoMemory>
    ensures { IfOk result (λ paths. (ps : Parents) (hs : List Row) → AreListed rows.now (option_map (λ m. m.now) first.entry) (option_map (λ m. m.now) second.entry) ps hs
        → paths ≡ rule.ruled_files ps hs) }
{
    let there = AreThere {
        first: first.is_some(),
        second: second.is_some(),
    };
    files_listed(alloc, rows, first, second, there)
}

/// The paths that a changeset lists by the rule over these parents. One that isn't there may have entries, as a link would whose node is the
/// null id: their paths are listed too.
pub fn files_over(
    alloc: Global,
    rows: &HgRows,
    first: &Parent<'_>,
    second: &Parent<'_>,
) -> Result<Paths, NoMemory>
    ensures { IfOk result (λ paths. (ps : Parents) (hs : List Row) → AreListedOver rows.now first.now second.now ps hs → paths ≡ rule.ruled_files ps hs) }
{
    let there = AreThere {
        first: first.is_there,
        second: second.is_there,
    };
    files_listed(
        alloc,
        rows,
        Some(first.manifest),
        Some(second.manifest),
        there,
    )
}

// Which parents are there.
#[derive(Clone, Copy)]
struct AreThere {
    first: bool,
    second: bool,
}

// The paths that are listed among those of three lists.
fn files_listed(
    alloc: Global,
    rows: &HgRows,
    first: Option<&Manifest>,
    second: Option<&Manifest>,
    there: AreThere,
) -> Result<Paths, NoMemory>
    ensures { IfOk result (λ paths. (ps : Parents) (hs : List Row)
        → AreListedBy rows.now there.first there.second (option_map (λ m. m.now) first.entry) (option_map (λ m. m.now) second.entry) ps hs
        → paths ≡ rule.ruled_files ps hs) }
{
    let mut paths = Paths::new(alloc);
    let mut place = 0;
    let mut in_first = 0;
    let mut in_second = 0;
    'paths: while let Some(found) = next(
        row_at(rows, place),
        entry_at(first, in_first),
        entry_at(second, in_second),
    ) {
        let listed = found.is_listed(there.first, there.second);
        push_if(alloc, &mut paths, found.path, listed)?;
        place = after(place, found.row.is_some(), rows.len());
        in_first = after(in_first, found.first.is_some(), len_of(first));
        in_second = after(in_second, found.second.is_some(), len_of(second));
    }
    Ok(paths)
}

/// Whether two lists of paths are the same.
pub fn are_same_paths(a: &Paths, b: &Paths) -> bool
    ensures { IsTrue result ↔ a.now ≡ b.now }
{
    if a.len() != b.len() {
        return false;
    }
    for place in 0..a.len() {
        if !is_same_path(a.at(place), b.at(place)) {
            return false;
        }
    }
    true
}

fn is_same_path(a: &Bytes, b: &Bytes) -> bool
    ensures { IsTrue result ↔ a.now ≡ b.now }
{
    a.as_slice() == b.as_slice()
}

// How many entries there are.
fn len_of(manifest: Option<&Manifest>) -> usize
    ensures { result ≡ length (entries_or_none (option_map (λ m. m.now) manifest.entry)) }
{
    match manifest {
        Some(manifest) => manifest.len(),
        None => 0,
    }
}

// The place after one that was met.
fn after(place: usize, met: bool, len: usize) -> usize
    requires { met ≡ true → place < len }
    ensures { result ≡ (if met then place + 1 else place) }
{
    if met { place + 1 } else { place }
}

// Puts a path at the end, where it is listed.
fn push_if(alloc: Global, paths: &mut Paths, path: &[u8], listed: bool) -> Result<(), NoMemory>
    ensures { OnOk result (paths.new ≡ paths.old ++ (if listed then path.now ∷ [] else [])) }
{
    if !listed {
        return Ok(());
    }
    paths.push(Bytes::of(alloc, path)?)
}
