// The tags of a saved state.
ghost use Rattle.std.specs.Prelude.{◌≡◌, ◌≢◌, ◌+◌, List, IfOk, MatchOption, length, nat_le};
ghost use Rattle.git_model.specs.Object.{Object};
ghost use Rattle.git_model.specs.Stream.{stream_text};
ghost use Rattle.view_model.specs.View.{CommitView};
ghost use Rattle.state_model.specs.Kept.{git_dump};
ghost use Rattle.state_model.specs.Limits.{dump_limit};
ghost use Rattle.state_model.specs.Saved.{AreTagsSaved};
ghost use Rattle.git_section.specs.Sections.{HoldsCommits};
ghost use Rattle.tag_section.specs.Tags.{HoldsTags};

use crate::kept::kept_tags;
use crate::stream::read_stream;
use bridge_text::{INPUT_LIMIT, IdList, NoMemory};
use git_section::GitSection;
use git_store::GitStore;
use std::alloc::Global;

/// The commits and the kept tags of a saved state.
pub struct TagSection {
    /// All the objects of the commits, and behind them the tags.
    pub store: GitStore,
    /// The ids of the commits, in their order.
    pub ids: IdList,
    /// The ids of the tags, in their order.
    pub tags: IdList,
}

impl Drop for TagSection {
    fn drop(self) {
        let TagSection {
            store: _,
            ids: _,
            tags: _,
        } = self;
    }
}

impl TagSection {
    /// The objects, the ids of the commits, and those of the tags.
    pub fn into_parts(self) -> (GitStore, IdList, IdList)
        ensures store { result.0 ≡ self.store }
        ensures ids { result.1 ≡ self.ids }
        ensures tags { result.2 ≡ self.tags }
    {
        let TagSection { store, ids, tags } = self;
        (store, ids, tags)
    }
}

/// The tags whose stream these bytes are, over the commits of a section; `None` exactly where no tags that can be saved over
/// them have this stream. `used` is the length of the dump of the commits.
pub fn read_tags(
    alloc: Global,
    section: GitSection,
    used: usize,
    bytes: &[u8],
) -> Result<Option<TagSection>, NoMemory>
    ensures { IfOk result (λ found. (cs : List CommitView) → HoldsCommits section cs → length (git_dump cs) ≡ used
        → MatchOption found ((tags : List Object) → AreTagsSaved cs tags → stream_text tags ≢ bytes.now)
        (λ t. (tags : List Object) × AreTagsSaved cs tags × (stream_text tags ≡ bytes.now) × HoldsTags t cs tags)) }
{
    if !is_short(used as u64, bytes.len() as u64) {
        return Ok(None);
    }
    let (store, ids) = section.into_parts();
    let Some(arrived) = read_stream(alloc, store, bytes)? else {
        return Ok(None);
    };
    let Some(tags) = kept_tags(alloc, &arrived.store, ids.as_slice(), &arrived.came)? else {
        return Ok(None);
    };
    Ok(Some(TagSection {
        store: arrived.store,
        ids,
        tags,
    }))
}

// Whether so many bytes of commits and of tags are within their limit.
fn is_short(commits: u64, tags: u64) -> bool
    ensures { result ≡ nat_le (commits + tags) dump_limit }
{
    commits <= INPUT_LIMIT && tags <= INPUT_LIMIT - commits
}
