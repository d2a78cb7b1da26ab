// The names of a whole text, and the text of all names.
ghost use Rattle.std.specs.Prelude.{◌≡◌, Ok, IfOk, IfErr};
ghost use Rattle.state_model.specs.Text.{refs_text};
ghost use Rattle.name_model.specs.Reading.{refs_reading, names_reading, names_text, set_of};
ghost use Rattle.ref_map.specs.Faults.{IsNameFault};
ghost use Rattle.ref_map.specs.Rows.{reader};

use crate::fault::NameFault;
use crate::lookup::Lookup;
use crate::row::Side;
use crate::rows::Rows;
use bridge_text::NoMemory;
use std::alloc::Global;

/// The names that a text of refs sets, in the order of their refs. Its lines come in any order; each has the 40 lower case hex digits of
/// an id, a space, the name of a ref and LF, as `git for-each-ref --format='%(objectname) %(refname)'` prints them.
///
/// The first line that is refused is the fault, by the first of these that holds of it. `NameLimit`: it is line 100,001. `NameShape`: it
/// has another form, or lacks its LF. `RefUnfit`: `git check-ref-format` doesn't take the ref, it doesn't begin with `refs/`, or it has
/// more than 4,096 bytes. `TargetUnknown`: the id is that of no saved commit and no kept tag. `NameTwice`: an earlier line has the ref.
/// `Memory` comes where memory ran out.
pub fn read_refs<K: Lookup>(alloc: Global, known: &K, text: &[u8]) -> Result<Rows, NameFault>
    ensures names { IfOk result (λ rows. refs_reading (K.targets known.now) text.now ≡ Ok rows) }
    ensures fault { IfErr result (IsNameFault (refs_reading (K.targets known.now) text.now)) }
{
    read_side(alloc, known, Side::Git, text)
}

/// The names that a text of Mercurial's side sets, in the order of their refs. Its lines come in any order. A line is `bookmark NODE NAME`
/// (`hg help bookmarks`), `tag NODE NAME`, `annotated ID NAME` of a kept tag, `phase P NODE` with the number of a phase (`hg help phases`),
/// or `ref ID REF` of a ref that no other form fits. A node and an id are 40 lower case hex digits, one space stands between words, and LF
/// ends the line.
///
/// The first line that is refused is the fault, by the first of these that holds of it. `NameLimit`: it is line 100,001. `NameShape`: it
/// has another form, lacks its LF, or is a `ref` line of a ref that another form fits. `RefUnfit`: `git check-ref-format` doesn't take the
/// ref that it gives, that ref doesn't begin with `refs/`, or it has more than 4,096 bytes. `TargetUnknown`: the node is that of no
/// changeset with a partner, or the id of a `ref` line that of no saved commit and no kept tag. `TagUnknown`: `annotated` names no kept
/// tag. `NameTwice`: an earlier line gives the ref. `Memory` comes where memory ran out.
pub fn read_names<K: Lookup>(alloc: Global, known: &K, text: &[u8]) -> Result<Rows, NameFault>
    ensures names { IfOk result (λ rows. names_reading (K.targets known.now) text.now ≡ Ok rows) }
    ensures fault { IfErr result (IsNameFault (names_reading (K.targets known.now) text.now)) }
{
    read_side(alloc, known, Side::Hg, text)
}

// The names that a text of this side sets, in the order of their refs.
fn read_side<K: Lookup>(
    alloc: Global,
    known: &K,
    side: Side,
    text: &[u8],
) -> Result<Rows, NameFault>
    ensures names { IfOk result (λ rows. set_of (reader side (K.targets known.now)) text.now ≡ Ok rows) }
    ensures fault { IfErr result (IsNameFault (set_of (reader side (K.targets known.now)) text.now)) }
{
    let mut rows = Rows::of_text(alloc, known, side, text)?;
    rows.sort()?;
    Ok(rows)
}

/// The text of names as Git's side has them: a line for each in their order, the id's 40 hex digits, a space, the ref and LF. The one error
/// is want of memory.
pub fn write_refs(alloc: Global, rows: &Rows) -> Result<Vec<u8>, NoMemory>
    ensures { IfOk result (λ text. text.items ≡ refs_text rows.now) }
{
    let mut out = Vec::new(alloc);
    rows.put_refs(&mut out)?;
    Ok(out)
}

/// The text of names as Mercurial's side has them: a line for each in the order of the refs, in the first form that fits it
/// (`hg help bookmarks`, `hg help phases`). The one error is want of memory.
pub fn write_names<K: Lookup>(alloc: Global, known: &K, rows: &Rows) -> Result<Vec<u8>, NoMemory>
    ensures { IfOk result (λ text. text.items ≡ names_text (K.targets known.now) rows.now) }
{
    let mut out = Vec::new(alloc);
    rows.put_names(known, &mut out)?;
    Ok(out)
}
