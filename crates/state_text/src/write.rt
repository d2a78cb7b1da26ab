// A state is written as its text.
ghost use Rattle.std.specs.Prelude.{◌≡◌, ◌++◌, List, IfOk, OnErr, OnOk};
ghost use Rattle.std.specs.Io.{StartsWith};
ghost use Rattle.git_model.specs.Stream.{stream_text};
ghost use Rattle.pair_model.specs.Block.{Block, changesets_in, commits_in};
ghost use Rattle.state_model.specs.Kept as model;
ghost use Rattle.state_model.specs.Saved.{AreBlocks};
ghost use Rattle.state_model.specs.Text.{state_text};
ghost use Rattle.saved_model.specs.Written.{map_text};
ghost use Rattle.pair_state.specs.AllBlocks.{HasAllBlocks};
ghost use Rattle.state_text.specs.Stands.{Stands};
ghost use Rattle.state_text.specs.Sizes.{AreSizes};

use crate::appended::{append_bundle, append_stream};
use crate::blocks::pairs_of;
use crate::names::NAMES;
use crate::sections::TAGS;
use crate::sizes::Sizes;
use bridge_text::NoMemory;
use git_dump::append_objects;
use pair_state::State;
use ref_map::write_refs;
use rope::Rope;
use state_part::{put_head, put_map, put_section, put_sorted_map};

/// Appends the one text of the state, and tells how many bytes its dumps take. After want of memory what `out` was is its beginning.
pub fn write_into(state: &State, out: &mut Rope) -> Result<Sizes, NoMemory>
    requires history { (blocks : List Block) × HasAllBlocks state.now blocks }
    ensures ok { OnOk result ((m : model.State) → Stands state.now m → AreBlocks m.blocks → out.new ≡ out.old ++ state_text m) }
    ensures sizes { IfOk result (λ sizes. (m : model.State) → Stands state.now m → AreSizes (model.kept_of m) sizes) }
    ensures front { StartsWith out.new out.old }
{
    let alloc = state.alloc();
    let mut pairs = Vec::new(alloc);
    put_map(&mut pairs, pairs_of(alloc, state.blocks())?.as_slice())?;
    let tags = tags_text(state)?;
    let names = write_refs(alloc, state.names())?;
    put_head(out)?;
    let bundle = append_bundle(out, alloc, &state.known().hg, state.changesets())?;
    let stream = append_stream(out, alloc, &state.known().git, state.commits())?;
    out.put(pairs.as_slice())?;
    put_section(out, TAGS, tags.as_slice())?;
    put_section(out, NAMES, names.as_slice())?;
    Ok(Sizes {
        bundle,
        stream,
        tags: tags.len() as u64,
    })
}

/// The stream of the kept tags alone, in one piece.
pub fn tags_text(state: &State) -> Result<Vec<u8>, NoMemory>
    ensures { IfOk result (λ text. (m : model.State) → Stands state.now m → text.items ≡ stream_text m.tags) }
{
    let mut text = Rope::new(state.alloc());
    append_objects(&mut text, &state.known().git, state.tags().as_slice())?;
    Ok(text.joined()?)
}

/// Appends `GIT HG` LF for each block, in rising order of the nodes. After want of memory `out` is as it was.
pub fn map_into(state: &State, out: &mut Vec<u8>) -> Result<(), NoMemory>
    ensures ok { OnOk result ((m : model.State) → Stands state.now m → out.new.items ≡ out.old.items ++ map_text m.blocks) }
    ensures err { OnErr result (out.new.items ≡ out.old.items) }
{
    let pairs = pairs_of(state.alloc(), state.blocks())?;
    put_sorted_map(out, pairs)
}

/// The bundle of the whole history.
pub fn dump_hg(state: &State) -> Result<Rope, NoMemory>
    requires stands { (m : model.State) × Stands state.now m }
    ensures { IfOk result (λ bytes. (m : model.State) → Stands state.now m → bytes ≡ model.hg_dump (changesets_in m.blocks)) }
{
    hg_dump::write(state.alloc(), &state.known().hg, state.changesets(), 0)
}

/// The stream of the whole history, with the kept tags behind it.
pub fn dump_git(state: &State) -> Result<Rope, NoMemory>
    requires stands { (m : model.State) × Stands state.now m }
    ensures { IfOk result (λ bytes. (m : model.State) → Stands state.now m
        → bytes ≡ model.git_dump (commits_in m.blocks) ++ stream_text m.tags) }
{
    let mut out = dump_commits(state)?;
    append_objects(&mut out, &state.known().git, state.tags().as_slice())?;
    Ok(out)
}

// The stream of the commits.
fn dump_commits(state: &State) -> Result<Rope, NoMemory>
    requires stands { (m : model.State) × Stands state.now m }
    ensures { IfOk result (λ bytes. (m : model.State) → Stands state.now m → bytes ≡ model.git_dump (commits_in m.blocks)) }
{
    git_dump::write(state.alloc(), &state.known().git, state.commits(), 0)
}
