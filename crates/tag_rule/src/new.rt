// The tags of a stream that are newly kept.
ghost use Rattle.std.specs.Prelude.{◌≡◌, List, None, IfOk, IfErr, OnOk, filter, find, map};
ghost use Rattle.std.specs.Option.{option_copied};
ghost use Rattle.git_model.specs.Object.{Object};
ghost use Rattle.git_model.specs.Stream.{Placed};
ghost use Rattle.pair_model.specs.Block.{Block, id_of};
ghost use Rattle.state_model.specs.Kept.{ids_of};
ghost use Rattle.saved_model.specs.Step as model;
ghost use Rattle.tag_rule.specs.Answers.{HaveCome, IsSetOf, IsTagFault, IsTargetFault};
ghost use Rattle.tag_rule.specs.Named.{arrival_lacks};
ghost use Rattle.tag_rule.specs.Fates.{is_new};

use crate::fates::Fates;
use crate::fault::TagFault;
use crate::named::Targets;
use crate::rows::TagRows;
use bridge_text::{Fault, Id, IdList, IdSet, NoMemory, Refusal};
use git_batch::{ObjectArrival, ObjectArrivals};
use git_store::GitStore;
use std::alloc::Global;

/// The tags of a stream that are newly kept, each once, in its order: those that lead to a commit and weren't kept. A tag
/// leads to one if it is of a commit, of a kept tag, or of a tag of the stream that leads to one.
///
/// `came` are the objects of the stream, which are in the store; `commits` has the ids of the saved commits, and `kept`
/// those of the kept tags. ObjectUnknown comes exactly at the first tag of the stream whose target isn't there: of a tag
/// of a commit a saved commit, of a tag of a tag a kept tag or one of the stream. The time is linear, also for long chains.
pub fn new_tags(
    alloc: Global,
    store: &GitStore,
    commits: &IdSet,
    kept: &IdSet,
    came: &ObjectArrivals,
) -> Result<IdList, TagFault>
    ensures ids { IfOk result (λ ids. (placed : List Placed) (tags : List Object) → HaveCome store.now came.now placed → IsSetOf kept.now (ids_of tags)
        → ids ≡ ids_of (model.new_tags tags placed)) }
    ensures targets { OnOk result ((placed : List Placed) (blocks : List Block) (tags : List Object) → HaveCome store.now came.now placed
        → IsSetOf commits.now (map id_of blocks) → IsSetOf kept.now (ids_of tags) → find (model.lacks_target blocks tags placed) placed ≡ None) }
    ensures fault { IfErr result (λ fault. (placed : List Placed) (blocks : List Block) (tags : List Object) → HaveCome store.now came.now placed
        → IsSetOf commits.now (map id_of blocks) → IsSetOf kept.now (ids_of tags) → IsTagFault (find (model.lacks_target blocks tags placed) placed) fault) }
    ensures names { IfErr result IsTargetFault }
{
    let rows = TagRows::among(alloc, came)?;
    let targets = Targets {
        store,
        commits,
        kept,
        came: &rows.set,
    };
    match first_lacking(&targets, came.as_slice()) {
        Some(tag) => Err(TagFault::Refused(Refusal {
            fault: Fault::ObjectUnknown,
            id: tag.id,
            place: tag.at,
        })),
        None => Ok(new_among(alloc, &targets, rows.ids.as_slice())?),
    }
}

// The first tag whose target isn't there.
fn first_lacking<'a>(targets: &Targets<'_>, came: &'a [ObjectArrival]) -> Option<&'a ObjectArrival>
    ensures { option_copied result ≡ find (arrival_lacks targets.now) came.entry.now }
{
    came.iter().find(|item| targets.arrival_lacks(item))
}

// Those of the tags that came that weren't kept and lead to a commit.
fn new_among(alloc: Global, targets: &Targets<'_>, came: &[Id]) -> Result<IdList, NoMemory>
    requires { targets.now.came.now ≡ came.now }
    ensures { IfOk result (λ new. new ≡ filter (is_new targets.now) came.now) }
{
    let mut fates = Fates::new(alloc);
    let mut new = IdList::new(alloc);
    for id in came {
        if !targets.kept.contains(id) && fates.leads(alloc, targets, id)? {
            new.push(*id)?;
        }
    }
    Ok(new)
}
