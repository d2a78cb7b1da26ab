// The sections of both dumps, written where they are to stand.
ghost use Rattle.std.specs.Prelude.{◌≡◌, ◌<◌, ◌-◌, ◌^◌, ◌++◌, [], List, length, IfOk, OnOk, codes};
ghost use Rattle.std.specs.Io.{StartsWith};
ghost use Rattle.view_model.specs.View.{ChangesetView, CommitView};
ghost use Rattle.view_model.specs.Held.{AreChangesetsHeld};
ghost use Rattle.view_model.specs.Dump.{hg_increment, git_increment};
ghost use Rattle.git_dump.specs.Commits.{AreWalkableCommits};
ghost use Rattle.state_model.specs.Text.{sized};

use bridge_text::{IdList, NoMemory};
use git_store::GitStore;
use hg_store::HgStore;
use rope::Rope;
use state_part::{GIT, HG, put_count};
use std::alloc::Global;

/// Appends the section of the bundle of these changesets, and tells the size of the bundle. What it brings is collected once, for its size, which is
/// counted first, and for its text. After want of memory what `out` was is its beginning.
pub fn append_bundle(
    out: &mut Rope,
    alloc: Global,
    store: &HgStore,
    nodes: &IdList,
) -> Result<u64, NoMemory>
    requires held { (hs : List ChangesetView) × AreChangesetsHeld store.now nodes.now hs }
    ensures ok { OnOk result ((hs : List ChangesetView) → AreChangesetsHeld store.now nodes.now hs
        → out.new ≡ out.old ++ sized (codes "hg") (hg_increment store.now [] hs)) }
    ensures size { IfOk result (λ size. (hs : List ChangesetView) → AreChangesetsHeld store.now nodes.now hs → size ≡ length (hg_increment store.now [] hs)) }
    ensures front { StartsWith out.new out.old }
{
    let dump = hg_dump::Dump::collect(alloc, store, nodes.as_slice(), 0)?;
    let size = told_size(dump.len())?;
    put_count(out, HG, size)?;
    dump.append(out)?;
    out.push(b'\n')?;
    Ok(size)
}

/// Appends the section of the stream of these commits in the same way.
pub fn append_stream(
    out: &mut Rope,
    alloc: Global,
    store: &GitStore,
    ids: &IdList,
) -> Result<u64, NoMemory>
    requires commits { (cs : List CommitView) × AreWalkableCommits store.now ids.now cs }
    ensures ok { OnOk result ((cs : List CommitView) → AreWalkableCommits store.now ids.now cs
        → out.new ≡ out.old ++ sized (codes "git") (git_increment [] cs)) }
    ensures size { IfOk result (λ size. (cs : List CommitView) → AreWalkableCommits store.now ids.now cs → size ≡ length (git_increment [] cs)) }
    ensures front { StartsWith out.new out.old }
{
    let dump = git_dump::Dump::collect(alloc, store, ids.as_slice(), 0)?;
    let size = told_size(dump.len())?;
    put_count(out, GIT, size)?;
    dump.append(out)?;
    out.push(b'\n')?;
    Ok(size)
}

// The size that a section tells of a dump of this length. The greatest number stands for all lengths that no number tells, and no memory has room
// for such a dump.
fn told_size(len: u64) -> Result<u64, NoMemory>
    ensures { IfOk result (λ size. (size ≡ len) × (size < 2 ^ 64 - 1)) }
{
    if len == u64::MAX {
        Err(NoMemory)
    } else {
        Ok(len)
    }
}
