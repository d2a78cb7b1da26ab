// The kept tags of a state.
ghost use Rattle.std.specs.Prelude.{◌≡◌, ◌++◌, List, IfOk, IfErr, OnOk};
ghost use Rattle.std.specs.List.{find};
ghost use Rattle.text_model.specs.Id as text;
ghost use Rattle.git_model.specs.Object.{Object};
ghost use Rattle.git_model.specs.Order.{has};
ghost use Rattle.git_model.specs.Stream.{Placed};
ghost use Rattle.pair_model.specs.Block.{Block};
ghost use Rattle.saved_model.specs.Step.{lacks_target};
ghost use Rattle.pull_engine.specs.Names.{IsTargetFault};
ghost use Rattle.pull_engine.specs.Tags.{IsAsked, AreNewTags, IsLacking, HasTags, tag_refused};

use bridge_text::{IdList, IdSet, NoMemory};
use git_batch::ObjectArrivals;
use pair_state::State;
use pull_outcome::PullFault;
use tag_rule::{TagFault, new_tags};

/// The tags that a state newly keeps, of the objects that came to it. ObjectUnknown comes exactly at the first of its tags whose target isn't there.
pub fn tags_among(state: &State, came: &ObjectArrivals) -> Result<IdList, PullFault>
    ensures tags { IfOk result (λ ids. (blocks : List Block) (tags : List Object) (placed : List Placed) → IsAsked state.now came.now blocks tags placed
        → AreNewTags blocks tags placed ids) }
    ensures lacking { IfErr result (λ fault. (blocks : List Block) (tags : List Object) (placed : List Placed) → IsAsked state.now came.now blocks tags placed
        → IsLacking (find (lacks_target blocks tags placed) placed) fault) }
    ensures names { IfErr result IsTargetFault }
{
    let alloc = state.alloc();
    let commits = IdSet::of(alloc, state.commits().as_slice())?;
    let kept = IdSet::of(alloc, state.tags().as_slice())?;
    match new_tags(alloc, &state.known().git, &commits, &kept, came) {
        Ok(ids) => Ok(ids),
        Err(fault) => Err(tag_fault(fault)),
    }
}

// The refusal of a tag whose target isn't there.
fn tag_fault(fault: TagFault) -> PullFault
    ensures { result ≡ tag_refused fault }
{
    match fault {
        TagFault::Refused(why) => PullFault::Refused(why),
        TagFault::Memory => PullFault::Memory,
    }
}

/// Puts tags behind those that a state keeps.
pub fn keep_tags(state: State, tags: &IdList) -> Result<State, NoMemory>
    ensures { IfOk result (λ next. HasTags state next tags.now) }
{
    let mut parts = state.into_parts();
    put_behind(&mut parts.tags, tags)?;
    Ok(State::from_parts(parts))
}

// Puts ids behind others.
fn put_behind(list: &mut IdList, more: &IdList) -> Result<(), NoMemory>
    ensures { OnOk result (list.new ≡ list.old ++ more.now) }
{
    for id in more.as_slice() {
        list.push(*id)?;
    }
    Ok(())
}
