// The stream of commits.
ghost use Rattle.std.specs.Prelude.{◌≡◌, ◌≤◌, ◌-◌, ◌^◌, ◌++◌, ◌↔◌, [], List, length, min, take, drop, IfOk, IsTrue, OnOk};
ghost use Rattle.std.specs.Io.{StartsWith};
ghost use Rattle.text_model.specs.Lists.{only_new};
ghost use Rattle.git_model.specs.Object.{same_object};
ghost use Rattle.view_model.specs.View.{CommitView};
ghost use Rattle.view_model.specs.Dump.{git_increment, objects_in};
ghost use Rattle.git_dump.specs.Commits.{AreWalkableCommits};

use crate::listed::{append_objects, objects_len};
use crate::walk::Walk;
use crate::written::{append_part, part_len};
use bridge_text::{Id, IdList, NoMemory};
use git_store::GitStore;
use rope::Rope;
use std::alloc::Global;
use std::marker::Model;

/// A stream that isn't written yet: which objects it has, in its order. They were collected once, for its length and for its
/// text. Those that stand in the store one behind the other are named by their places, and others behind them by their ids.
pub struct Dump<'a> {
    store: &'a GitStore,
    start: usize,
    end: usize,
    listed: IdList,
}

impl<'a> Drop for Dump<'a> {
    fn drop(self) {
        let Dump {
            store: _,
            start: _,
            end: _,
            listed: _,
        } = self;
    }
}

impl<'a> Model for Dump<'a> {
    ghost use Rattle.std.specs.Prelude.{◌++◌};
    ghost use Rattle.text_model.specs.Text.{Bytes};
    ghost use Rattle.git_model.specs.Stream.{stream_text};
    ghost use Rattle.git_dump.specs.Walks.{objects_between, objects_of};

    ghost Value = { Bytes };

    ghost view = { λ d. stream_text (objects_between d.store.now d.start d.end ++ objects_of d.store.now d.listed) };
}

impl<'a> Dump<'a> {
    /// The stream of the commits of a list from place `from` on, as [`write`] gives it.
    pub fn collect(
        alloc: Global,
        store: &'a GitStore,
        ids: &[Id],
        from: usize,
    ) -> Result<Dump<'a>, NoMemory>
        requires from { from ≤ length ids.now }
        requires commits { (cs : List CommitView) × AreWalkableCommits store.now ids.now cs }
        ensures { IfOk result (λ dump. (cs : List CommitView) → AreWalkableCommits store.now ids.now cs
            → dump ≡ git_increment (take from cs) (drop from cs)) }
    {
        let mut walk = Walk::new(alloc, store);
        walk.visit_commits(store, &ids[..from])?;
        walk.begin_list(alloc);
        walk.visit_commits(store, &ids[from..])?;
        Ok(Dump {
            store,
            start: walk.start,
            end: walk.front,
            listed: walk.listed,
        })
    }

    /// How many bytes the stream has, or 2^64 - 1 if that is less.
    pub fn len(&self) -> u64
        ensures { result ≡ min (length self.now) (2 ^ 64 - 1) }
    {
        let front = part_len(self.store, self.start, self.end);
        front.saturating_add(objects_len(self.store, self.listed.as_slice()))
    }

    /// Appends the stream, which shares long contents with the store. After want of memory what `out` was is its beginning.
    pub fn append(&self, out: &mut Rope) -> Result<(), NoMemory>
        ensures ok { OnOk result (out.new ≡ out.old ++ self.now) }
        ensures front { StartsWith out.new out.old }
    {
        append_part(out, self.store, self.start, self.end)?;
        append_objects(out, self.store, self.listed.as_slice())
    }
}

/// The stream of the commits of a list from place `from` on, without the objects that the commits before that place have.
///
/// For each commit it has the blobs and trees of the commit that it doesn't have yet, and then the commit. A tree stands
/// behind the objects of its entries, which come in the tree's order, subtrees whole. Each commit is known, and its tree can
/// be walked through: all that it names is there, and its paths are fit. Long contents are shared with the store.
pub fn write(alloc: Global, store: &GitStore, order: &IdList, from: usize) -> Result<Rope, NoMemory>
    requires from { from ≤ length order.now }
    requires commits { (cs : List CommitView) × AreWalkableCommits store.now order.now cs }
    ensures { IfOk result (λ bytes. (cs : List CommitView) → AreWalkableCommits store.now order.now cs
        → bytes ≡ git_increment (take from cs) (drop from cs)) }
{
    let dump = Dump::collect(alloc, store, order.as_slice(), from)?;
    let mut out = Rope::new(alloc);
    dump.append(&mut out)?;
    Ok(out)
}

/// How many bytes the stream of all commits of a list has, or 2^64 - 1 if that is less. The stream is not written.
pub fn written_len(alloc: Global, store: &GitStore, order: &[Id]) -> Result<u64, NoMemory>
    requires { (cs : List CommitView) × AreWalkableCommits store.now order.now cs }
    ensures { IfOk result (λ len. (cs : List CommitView) → AreWalkableCommits store.now order.now cs
        → len ≡ min (length (git_increment [] cs)) (2 ^ 64 - 1)) }
{
    Ok(Dump::collect(alloc, store, order, 0)?.len())
}

/// Whether the store has exactly the objects of the stream of all commits of a list, in the order of that stream. No object is
/// compared or written.
pub fn is_in_order(alloc: Global, store: &GitStore, order: &[Id]) -> Result<bool, NoMemory>
    requires { (cs : List CommitView) × AreWalkableCommits store.now order.now cs }
    ensures { IfOk result (λ is. (cs : List CommitView) → AreWalkableCommits store.now order.now cs
        → IsTrue is ↔ (store.now ≡ only_new same_object [] (objects_in cs))) }
{
    let mut walk = Walk::new(alloc, store);
    walk.visit_commits(store, order)?;
    Ok(walk.is_whole())
}
