// Tags that can be saved.
ghost use Rattle.std.specs.Prelude.{◌≡◌, List, map, IfOk, MatchOption};
ghost use Rattle.git_model.specs.Stream.{Placed};
ghost use Rattle.history_model.specs.Pull.{objects_among};
ghost use Rattle.view_model.specs.View.{CommitView, commit_id};
ghost use Rattle.state_model.specs.Kept.{ids_of};
ghost use Rattle.tag_rule.specs.Answers.{HaveCome};
ghost use Rattle.tag_section.specs.Tags.{AreKept};

use bridge_text::{Id, IdList, IdSet, NoMemory};
use git_batch::ObjectArrivals;
use git_store::GitStore;
use std::alloc::Global;
use tag_rule::{TagFault, new_tags};

/// The ids of the objects that came, which are in the store; `None` exactly where they aren't all tags that can be kept over
/// the commits with these ids, each once.
pub fn kept_tags(
    alloc: Global,
    store: &GitStore,
    commits: &[Id],
    came: &ObjectArrivals,
) -> Result<Option<IdList>, NoMemory>
    ensures { IfOk result (λ found. (cs : List CommitView) (placed : List Placed) → commits.now ≡ map commit_id cs → HaveCome store.now came.now placed
        → MatchOption found (¬ (AreKept cs (objects_among placed))) (λ ids. AreKept cs (objects_among placed) × (ids ≡ ids_of (objects_among placed)))) }
{
    let saved = IdSet::of(alloc, commits)?;
    let none = IdSet::new(alloc);
    match new_tags(alloc, store, &saved, &none, came) {
        Ok(ids) => Ok(if ids.len() == came.len() {
            Some(ids)
        } else {
            None
        }),
        Err(TagFault::Refused(_)) => Ok(None),
        Err(TagFault::Memory) => Err(NoMemory),
    }
}
