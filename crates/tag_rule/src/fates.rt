// Which tags lead to a commit.
ghost use Rattle.std.specs.Prelude.{◌≡◌, ◌||◌, ◌&&◌, true, IfOk, OnOk};
ghost use Rattle.text_model.specs.Id as text;
ghost use Rattle.git_model.specs.Order.{has};
ghost use Rattle.tag_rule.specs.Named.{names};
ghost use Rattle.tag_rule.specs.Fates.{HasFate, AreRight, IsFollowed};

use crate::named::{Named, Targets};
use bridge_text::{Id, IdList, IdSet, NoMemory};
use std::alloc::Global;

// Tags of which each names the next, up to one that was followed before, or that names no other tag.
#[derive(Drop)]
struct Chain {
    ids: IdList,
    // Whether all of them lead to a commit. If not, none does.
    leads: bool,
}

/// Which tags lead to a commit, as far as they were followed.
#[derive(Drop)]
pub struct Fates {
    // The tags that were followed.
    followed: IdSet,
    // Those of them that lead to a commit.
    leading: IdSet,
}

impl Fates {
    /// Nothing was followed.
    pub fn new(alloc: Global) -> Fates
        ensures { (named : text.Id → Named) → AreRight named result }
    {
        Fates {
            followed: IdSet::new(alloc),
            leading: IdSet::new(alloc),
        }
    }

    /// Whether a tag that came leads to a commit. Each tag is followed once, however often it is asked for or named.
    pub fn leads(&mut self, alloc: Global, targets: &Targets<'_>, id: &Id) -> Result<bool, NoMemory>
        requires came { has targets.now.came.now id.now ≡ true }
        requires right { AreRight (names targets.now) self.old }
        ensures fate { IfOk result (λ leads. HasFate (names targets.now) leads id.now) }
        ensures right { OnOk result (AreRight (names targets.now) self.new) }
    {
        let chain = self.follow(alloc, targets, *id)?;
        self.keep(&chain)?;
        Ok(chain.leads)
    }

    // Follows tags from one on, each to the one that it names.
    fn follow(&mut self, alloc: Global, targets: &Targets<'_>, from: Id) -> Result<Chain, NoMemory>
        requires came { has targets.now.came.now from ≡ true }
        requires right { AreRight (names targets.now) self.old }
        ensures { IfOk result (IsFollowed (names targets.now) from self.old self.new) }
    {
        let mut ids = IdList::new(alloc);
        let mut at = from;
        'tags: loop {
            let new = self.followed.insert(at)?;
            if !new {
                let leads = self.leading.contains(&at);
                return Ok(Chain { ids, leads });
            }
            ids.push(at)?;
            match targets.named(&at) {
                Named::Commit => return Ok(Chain { ids, leads: true }),
                Named::Tag(next) => at = next,
                Named::Other => return Ok(Chain { ids, leads: false }),
            }
        }
    }

    // Keeps which tags of a chain lead to a commit.
    fn keep(&mut self, chain: &Chain) -> Result<(), NoMemory>
        ensures leading { OnOk result ((id : text.Id) → has self.new.leading id ≡ (has self.old.leading id || (chain.now.leads && has chain.now.ids id))) }
        ensures followed { self.new.followed ≡ self.old.followed }
    {
        if !chain.leads {
            return Ok(());
        }
        for id in chain.ids.as_slice() {
            self.leading.insert(*id)?;
        }
        Ok(())
    }
}
