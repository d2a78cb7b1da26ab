// The lines of what is counted.
ghost use Rattle.std.specs.Prelude.{◌≡◌, ◌++◌, IfOk, OnOk, List, count_by};
ghost use Rattle.view_model.specs.View.{CommitView};
ghost use Rattle.view_model.specs.Held.{IsCommitHeld, AreCommitsHeld};
ghost use Rattle.state_model.specs.Kept as model;
ghost use Rattle.state_text.specs.Stands.{Stands};
ghost use Rattle.command_model.specs.Made.{is_marked, last_line, made_lines};
ghost use Rattle.make_engine.specs.Lines.{last_ids, lines_with};

use bridge_text::{Id, NoMemory};
use git_store::GitStore;
use pair_state::{Block, State};
use state_part::count_into;
use std::alloc::Global;

/// How many changesets and commits a state has, how many of the commits are marked, and the ids of its last block, a line each.
pub fn lines_of(state: &State) -> Result<Vec<u8>, NoMemory>
    ensures { IfOk result (λ lines. (m : model.State) → Stands state.now m → lines.items ≡ made_lines m.blocks) }
{
    let changesets = state.changesets().len();
    let commits = state.commits().as_slice();
    let marked = marked_count(&state.known().git, commits);
    let last = last_ids(state.blocks().as_slice());
    lines_with(state.alloc(), changesets, commits.len(), marked, last)
}

// The lines of these numbers, and of the node and the id of a last block.
fn lines_with(
    alloc: Global,
    changesets: usize,
    commits: usize,
    marked: usize,
    last: (Id, Id),
) -> Result<Vec<u8>, NoMemory>
    ensures { IfOk result (λ lines. lines.items ≡ lines_with changesets commits marked last) }
{
    let mut lines = Vec::new(alloc);
    count_into(&mut lines, b"changesets", changesets as u64)?;
    count_into(&mut lines, b"commits", commits as u64)?;
    count_into(&mut lines, b"marked", marked as u64)?;
    put_last(&mut lines, &last.0, &last.1)?;
    Ok(lines)
}

// How many of the commits with these ids are marked.
fn marked_count(git: &GitStore, ids: &[Id]) -> usize
    ensures { (cs : List CommitView) → AreCommitsHeld git.now ids.now cs → result ≡ count_by is_marked cs }
{
    let mut count = 0;
    for id in ids {
        if is_marked(git, id) {
            count += 1;
        }
    }
    count
}

// Whether the commit with this id is marked: it has headers.
fn is_marked(git: &GitStore, id: &Id) -> bool
    ensures { (c : CommitView) → IsCommitHeld git.now id.now c → result ≡ is_marked c }
{
    match git.commit(id) {
        Some(found) => !found.headers.is_empty(),
        None => false,
    }
}

// The node and the id of the last block; null ids where there is none.
fn last_ids(blocks: &[Block]) -> (Id, Id)
    ensures { result ≡ last_ids blocks.now }
{
    match blocks.last() {
        Some(last) => (last.node, last.commit),
        None => (Id::NULL, Id::NULL),
    }
}

// Appends `last NODE ID` LF.
fn put_last(out: &mut Vec<u8>, node: &Id, commit: &Id) -> Result<(), NoMemory>
    ensures { OnOk result (out.new.items ≡ out.old.items ++ last_line node.now commit.now) }
{
    out.extend_from_slice(b"last ")?;
    out.extend_from_slice(&node.hex())?;
    out.push(b' ')?;
    out.extend_from_slice(&commit.hex())?;
    out.push(b'\n')?;
    Ok(())
}
