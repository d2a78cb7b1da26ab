// The commits of a saved state.
ghost use Rattle.std.specs.Prelude.{◌≡◌, ◌≢◌, List, IfOk, MatchOption};
ghost use Rattle.view_model.specs.View.{CommitView};
ghost use Rattle.state_model.specs.Kept.{git_dump};
ghost use Rattle.state_model.specs.Saved.{AreCommitsSaved};
ghost use Rattle.git_section.specs.Sections.{HoldsCommits};

use crate::section::{GitSection, read_section};
use crate::walks::have_walks;
use bridge_text::NoMemory;
use git_batch::Contents;
use git_dump::is_in_order;
use shared_text::Text;
use std::alloc::Global;

/// The commits whose dump these bytes are; `None` exactly where no list of commits that can be saved has this dump. The contents
/// of their objects are parts of these bytes. Blobs that are known aren't hashed.
pub fn read_commits<C: Contents>(
    alloc: Global,
    bytes: &Text,
    known: &C,
) -> Result<Option<GitSection>, NoMemory>
    ensures { IfOk result (λ found. MatchOption found ((cs : List CommitView) → AreCommitsSaved cs → git_dump cs ≢ bytes.now)
        (λ s. (cs : List CommitView) × AreCommitsSaved cs × (git_dump cs ≡ bytes.now) × HoldsCommits s cs)) }
{
    let Some(section) = read_section(alloc, bytes, known)? else {
        return Ok(None);
    };
    if !have_walks(alloc, &section.store, section.ids.as_slice())? {
        return Ok(None);
    }
    let is_whole = is_in_order(alloc, &section.store, section.ids.as_slice())?;
    if is_whole {
        Ok(Some(section))
    } else {
        Ok(None)
    }
}
