ghost use Rattle.std.specs.Prelude.{◌≡◌, ◌++◌, List, ℕ, OnOk, length, map};
ghost use Rattle.std.specs.Io.{StartsWith};
ghost use Rattle.hg_model.specs.Manifest.{flag_text, entry_text, manifest_text};
ghost use Rattle.hg_manifest.specs.Values.{file_flag, manifest_entry};
ghost use Rattle.hg_manifest.specs.Near.{StartsWithLines};

use crate::entry::{Flag, SharedEntry};
use bridge_text::{Id, NoMemory};

fn flag_bytes(flag: Flag) -> &'static [u8]
    ensures { result.now ≡ flag_text (file_flag flag) }
{
    match flag {
        Flag::Plain => b"",
        Flag::Exec => b"x",
        Flag::Link => b"l",
    }
}

/// Adds the line of a file: its path, NUL, the 40 lower case hex digits of its node, the letter of its flag if it has one,
/// and LF. Want of memory may leave a part of it.
pub fn put_line(out: &mut Vec<u8>, path: &[u8], node: &Id, flag: Flag) -> Result<(), NoMemory>
    ensures ok { OnOk result (out.new.items ≡ out.old.items ++ entry_text (record { path = path.now; node = node.now; flag = file_flag flag })) }
    ensures front { StartsWith out.new.items out.old.items }
{
    out.extend_from_slice(path)?;
    out.push(b'\0')?;
    out.extend_from_slice(&node.hex())?;
    out.extend_from_slice(flag_bytes(flag))?;
    out.push(b'\n')?;
    Ok(())
}

/// How many bytes the line of a file has: its path, NUL, two digits for each byte of its node, the letter of its flag if it has one, and LF.
pub fn line_len(path: &[u8], node: &Id, flag: Flag) -> usize
    ensures { result ≡ length (entry_text (record { path = path.now; node = node.now; flag = file_flag flag })) }
{
    path.len() + 2 * node.bytes().len() + flag_bytes(flag).len() + 2
}

// How many bytes of a text stand behind the lines of these entries, with which it begins.
pub(crate) fn len_behind(text: &[u8], entries: &[SharedEntry]) -> usize
    requires { (rest : List ℕ) × StartsWithLines text.now (map manifest_entry entries.now) rest }
    ensures { (rest : List ℕ) → StartsWithLines text.now (map manifest_entry entries.now) rest → result ≡ length rest }
{
    let mut behind = text.len();
    for entry in entries {
        let entry = entry.get();
        behind -= line_len(entry.path.as_slice(), &entry.node, entry.flag);
    }
    behind
}

/// Adds the lines of entries, of which want of memory may leave some and a part of the next.
#[tactic(auto, unfolding(hg_model::specs::Manifest::manifest_text))]
pub(crate) fn put_lines(out: &mut Vec<u8>, entries: &[SharedEntry]) -> Result<(), NoMemory>
    ensures ok { OnOk result (out.new.items ≡ out.old.items ++ manifest_text (map manifest_entry entries.now)) }
    ensures front { StartsWith out.new.items out.old.items }
{
    for entry in entries {
        let entry = entry.get();
        put_line(out, entry.path.as_slice(), &entry.node, entry.flag)?;
    }
    Ok(())
}
