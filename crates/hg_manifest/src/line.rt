ghost use Rattle.std.specs.Prelude.{◌≡◌, option_map};
ghost use Rattle.hg_model.specs.Manifest.{flag_of, entry_of_line};
ghost use Rattle.hg_manifest.specs.Values.{file_flag};
ghost use Rattle.hg_manifest.specs.Reading.{entry_in};

use crate::entry::Flag;
use bridge_text::{Id, cut_at};

/// A line of a manifest, which lends its path from the text.
#[derive(Clone, Copy)]
pub struct Line<'a> {
    pub path: &'a [u8],
    pub node: Id,
    pub flag: Flag,
}

/// What a line with its LF says, if it has the form of one.
pub fn read_line(line: &[u8]) -> Option<Line<'_>>
    ensures { option_map (λ x. record { path = x.path.now; node = x.node; flag = file_flag x.flag }) result ≡ entry_of_line line.now }
{
    let (path, tail) = cut_at(b'\0', line)?;
    line_of(path, tail)
}

#[tactic(auto, unfolding(crate::specs::Reading::entry_in))]
fn line_of<'a>(path: &'a [u8], tail: &[u8]) -> Option<Line<'a>>
    ensures { option_map (λ x. record { path = x.path.now; node = x.node; flag = file_flag x.flag }) result ≡ entry_in path.entry.now tail.now }
{
    if tail.len() < 40 {
        return None;
    }
    let (digits, end) = tail.split_at(40);
    let node = Id::from_hex(digits)?;
    let flag = flag_at(end)?;
    Some(Line { path, node, flag })
}

// The flag that ends a line.
fn flag_at(end: &[u8]) -> Option<Flag>
    ensures { option_map file_flag result ≡ flag_of end.now }
{
    if end == b"\n".as_slice() {
        Some(Flag::Plain)
    } else if end == b"x\n".as_slice() {
        Some(Flag::Exec)
    } else if end == b"l\n".as_slice() {
        Some(Flag::Link)
    } else {
        None
    }
}
