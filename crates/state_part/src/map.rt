// The section of the pairs of ids.
ghost use Rattle.std.specs.Prelude.{◌≡◌, ◌++◌, MatchOption, IfOk, OnErr, OnOk};
ghost use Rattle.std.specs.Io.{StartsWith};
ghost use Rattle.std.specs.List.{flat_map};
ghost use Rattle.state_part.specs.Pairs.{IsPair, pair_line, NoPair, map_section, sorted_lines, HasMap, NoMap};

use crate::count::{count_into, read_count};
use crate::pairs::{IdPair, IdPairs, sorted_by_node};
use bridge_text::{Id, NoMemory, cut_at};
use std::alloc::Global;

/// The word of the section.
const MAP: &[u8] = b"map";

/// The section of pairs that bytes begin with.
#[derive(Debug, Drop)]
pub struct MapSection<'a> {
    /// The pairs, in the order of their lines.
    pub pairs: IdPairs,
    /// What follows the section.
    pub rest: &'a [u8],
}

/// The section of pairs that begins the bytes: `map`, a space, how many pairs there are in decimal and LF, and for each pair the
/// commit and the node in hex digits, with a space between, and LF. `None` exactly where no such section begins them.
pub fn read_map(alloc: Global, bytes: &[u8]) -> Result<Option<MapSection<'_>>, NoMemory>
    ensures { IfOk result (λ found. MatchOption found (NoMap bytes.now) (λ m. HasMap bytes.now m.pairs m.rest.now)) }
{
    let Some((count, lines)) = read_count(MAP, bytes) else {
        return Ok(None);
    };
    let mut pairs = IdPairs::new(alloc);
    let mut rest = lines;
    'lines: for _ in 0..count {
        let Some((pair, behind)) = read_pair(rest) else {
            return Ok(None);
        };
        pairs.push(pair)?;
        rest = behind;
    }
    Ok(Some(MapSection { pairs, rest }))
}

// The pair whose line begins the bytes, and what follows the line.
fn read_pair(bytes: &[u8]) -> Option<(IdPair, &[u8])>
    ensures { MatchOption result (NoPair bytes.now) (λ found. IsPair found.0 × (bytes.now ≡ pair_line found.0 ++ found.1.now)) }
{
    let (line, rest) = cut_at(b'\n', bytes)?;
    let (commit, node) = cut_at(b' ', line)?;
    let pair = IdPair {
        commit: Id::from_hex(commit)?,
        node: Id::from_hex(node)?,
    };
    Some((pair, rest))
}

/// Appends the section of pairs. After want of memory `out` is as it was.
pub fn put_map(out: &mut Vec<u8>, pairs: &[IdPair]) -> Result<(), NoMemory>
    ensures ok { OnOk result (out.new.items ≡ out.old.items ++ map_section pairs.now) }
    ensures err { OnErr result (out.new.items ≡ out.old.items) }
{
    let start = out.len();
    let put = append_map(out, pairs);
    if put.is_err() {
        out.truncate(start);
    }
    put
}

fn append_map(out: &mut Vec<u8>, pairs: &[IdPair]) -> Result<(), NoMemory>
    ensures ok { OnOk result (out.new.items ≡ out.old.items ++ map_section pairs.now) }
    ensures front { StartsWith out.new.items out.old.items }
{
    count_into(out, MAP, pairs.len() as u64)?;
    append_lines(out, pairs)
}

fn append_lines(out: &mut Vec<u8>, pairs: &[IdPair]) -> Result<(), NoMemory>
    ensures ok { OnOk result (out.new.items ≡ out.old.items ++ flat_map pair_line pairs.now) }
    ensures front { StartsWith out.new.items out.old.items }
{
    for pair in pairs {
        append_pair(out, pair)?;
    }
    Ok(())
}

/// Appends the lines of pairs, without how many there are, in rising order of the nodes. After want of memory `out` is as it was.
pub fn put_sorted_map(out: &mut Vec<u8>, pairs: IdPairs) -> Result<(), NoMemory>
    ensures ok { OnOk result (out.new.items ≡ out.old.items ++ sorted_lines pairs) }
    ensures err { OnErr result (out.new.items ≡ out.old.items) }
{
    let sorted = sorted_by_node(pairs)?;
    let start = out.len();
    let put = append_lines(out, sorted.as_slice());
    if put.is_err() {
        out.truncate(start);
    }
    put
}

/// Appends the line of a pair. After want of memory `out` is as it was.
pub fn put_pair(out: &mut Vec<u8>, pair: &IdPair) -> Result<(), NoMemory>
    ensures ok { OnOk result (out.new.items ≡ out.old.items ++ pair_line pair.now) }
    ensures err { OnErr result (out.new.items ≡ out.old.items) }
{
    let start = out.len();
    let put = append_pair(out, pair);
    if put.is_err() {
        out.truncate(start);
    }
    put
}

fn append_pair(out: &mut Vec<u8>, pair: &IdPair) -> Result<(), NoMemory>
    ensures ok { OnOk result (out.new.items ≡ out.old.items ++ pair_line pair.now) }
    ensures front { StartsWith out.new.items out.old.items }
{
    out.extend_from_slice(&pair.commit.hex())?;
    out.push(b' ')?;
    out.extend_from_slice(&pair.node.hex())?;
    out.push(b'\n')?;
    Ok(())
}
