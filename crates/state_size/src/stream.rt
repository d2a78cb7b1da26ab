// The size of a stream.
ghost use Rattle.std.specs.Prelude.{◌≡◌, List, IfOk};
ghost use Rattle.view_model.specs.View.{CommitView};
ghost use Rattle.git_dump.specs.Commits.{AreWalkableCommits};
ghost use Rattle.git_dump.specs.Walks.{objects_of};
ghost use Rattle.state_size.specs.Sizes.{is_stream_large};

use bridge_text::{DUMP_LIMIT, Id, NoMemory};
use git_dump::{objects_len, written_len};
use git_store::GitStore;
use std::alloc::Global;

/// Whether the stream of these commits is past its limit, with the objects behind it that are known under these ids.
pub fn passes_stream(
    alloc: Global,
    store: &GitStore,
    commits: &[Id],
    tags: &[Id],
) -> Result<bool, NoMemory>
    requires { (cs : List CommitView) × AreWalkableCommits store.now commits.now cs }
    ensures { IfOk result (λ passes. (cs : List CommitView) → AreWalkableCommits store.now commits.now cs
        → passes ≡ is_stream_large cs (objects_of store.now tags.now)) }
{
    let dump = written_len(alloc, store, commits)?;
    let all = dump.saturating_add(objects_len(store, tags));
    Ok(all > DUMP_LIMIT as u64)
}
