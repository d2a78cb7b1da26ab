// What a check prints, how many revisions or objects of each kind there are, and what an audit does, how many blocks.
ghost use Rattle.std.specs.Prelude.{◌≡◌, IfOk, codes};
ghost use Rattle.saved_model.specs.Written.{count_line};
ghost use Rattle.bridge_cli.specs.Counts.{arrival_counts, stream_counts};

use bridge_text::{Kind, NoMemory};
use git_batch::{ObjectArrivals, count_objects};
use hg_bundle::{Arrivals, RevKind, count_entries};
use state_part::count_into;
use std::alloc::Global;

/// How many changesets, manifests and file revisions a bundle brought, a line each.
pub fn revision_counts(alloc: Global, arrivals: &Arrivals) -> Result<Vec<u8>, NoMemory>
    ensures { IfOk result (λ lines. lines.items ≡ arrival_counts arrivals.now) }
{
    let mut lines = Vec::new(alloc);
    count_into(
        &mut lines,
        b"changesets",
        count_entries(arrivals, RevKind::Changeset) as u64,
    )?;
    count_into(
        &mut lines,
        b"manifests",
        count_entries(arrivals, RevKind::Manifest) as u64,
    )?;
    count_into(
        &mut lines,
        b"files",
        count_entries(arrivals, RevKind::File) as u64,
    )?;
    Ok(lines)
}

/// How many commits, trees, blobs and tags a stream brought, a line each.
pub fn object_counts(alloc: Global, arrivals: &ObjectArrivals) -> Result<Vec<u8>, NoMemory>
    ensures { IfOk result (λ lines. lines.items ≡ stream_counts arrivals.now) }
{
    let mut lines = Vec::new(alloc);
    count_into(
        &mut lines,
        b"commits",
        count_objects(arrivals, Kind::Commit) as u64,
    )?;
    count_into(
        &mut lines,
        b"trees",
        count_objects(arrivals, Kind::Tree) as u64,
    )?;
    count_into(
        &mut lines,
        b"blobs",
        count_objects(arrivals, Kind::Blob) as u64,
    )?;
    count_into(
        &mut lines,
        b"tags",
        count_objects(arrivals, Kind::Tag) as u64,
    )?;
    Ok(lines)
}

/// How many blocks of a saved state were found right.
pub fn verified_count(alloc: Global, blocks: u64) -> Result<Vec<u8>, NoMemory>
    ensures { IfOk result (λ lines. lines.items ≡ count_line (codes "verified") blocks) }
{
    let mut lines = Vec::new(alloc);
    count_into(&mut lines, b"verified", blocks)?;
    Ok(lines)
}
