ghost use Rattle.std.specs.Prelude.{◌≡◌, ◌==◌, ◌<◌, ◌++◌, [], ◌∷◌, length, slice_get, Some, MatchResult, OnOk, OnErr, IfOk, IfErr, IsTrue, map, option_map, find, bytes_eq};
ghost use Rattle.std.specs.Option.{option_copied};
ghost use Rattle.std.specs.Ordering.{nat_cmp};
ghost use Rattle.std.specs.Cmp.Lexicographic.{slice_cmp};
ghost use Rattle.hg_model.specs.Manifest.{IsManifest, IsManifestText, manifest_text, rises_above, last_path, entry_of_line, entry_fault};
ghost use Rattle.hg_manifest.specs.Values.{file_flag, manifest_entry, IsFault, IsNamed};
ghost use Rattle.hg_manifest.specs.Beside.{IsNewer};
ghost use Rattle.hg_manifest.specs.Near.{first_rises, IsEntryOf, IsFit};

use crate::entry::{Entry, SharedEntry};
use crate::fault::ManifestFault;
use crate::line::{Line, read_line};
use crate::lines::put_lines;
use crate::near::Near;
use crate::newer::Newer;
use bridge_text::{NoMemory, first_line, fit_path};
use shared_text::{Text, part};
use std::alloc::Global;
use std::cmp::Ordering;
use std::marker::Model;

// How many bytes the shortest line has: a path of one byte, NUL, 40 digits and LF.
const SHORTEST_LINE: usize = 43;

/// The entries of a manifest, whose paths are fit and rise strictly as bytes. Contracts see the list.
#[derive(Drop)]
pub struct Manifest {
    entries: Vec<SharedEntry>,
}

impl Model for Manifest {
    ghost use Rattle.std.specs.Prelude.{List, map};
    ghost use Rattle.hg_model.specs.Manifest.{ManifestEntry, IsManifest};
    ghost use Rattle.hg_manifest.specs.Values.{manifest_entry};

    ghost Value = { List ManifestEntry };

    ghost view = { λ m. map manifest_entry m.entries.items };

    ghost invariant = { λ m. IsManifest (map manifest_entry m.entries.items) };
}

impl Manifest {
    /// No entries.
    pub fn new(alloc: Global) -> Manifest
        ensures { result ≡ [] }
    {
        Manifest {
            entries: Vec::new(alloc),
        }
    }

    /// The manifest whose text this is, as [`Manifest::read_near`] gives it.
    pub fn read(alloc: Global, text: &Text, near: Near<'_>) -> Result<Manifest, ManifestFault>
        ensures { MatchResult result (IsManifestText text.now) (IsFault text.now) }
    {
        let (manifest, _) = Manifest::read_near(alloc, text, near)?;
        Ok(manifest)
    }

    /// The manifest whose text this is, and which of its lines another one may lack, near which it is read. The lines are a path, NUL, the 40
    /// lower case hex digits of a node, nothing or `x` or `l`, and LF;
    /// their paths rise strictly as bytes and are fit. The first line that doesn't fit decides the fault, and on one line Shape comes before PathUnfit.
    /// Memory comes where memory runs out. Where most lines are those of another manifest, as of a parent's, they are read the faster near that one.
    pub fn read_near(
        alloc: Global,
        text: &Text,
        near: Near<'_>,
    ) -> Result<(Manifest, Newer), ManifestFault>
        ensures manifest { MatchResult result (λ read. IsManifestText text.now read.0) (IsFault text.now) }
        ensures newer { IfOk result (λ read. IsNewer near.entry read.1 read.0) }
    {
        let mut manifest = room_for(alloc, text.as_slice())?;
        let mut newer = Newer::new(alloc);
        let mut told = 0;
        let mut near = near;
        let mut last = None;
        let mut rest = text.as_slice();
        while !rest.is_empty() {
            let place = text.len() - rest.len();
            if let Some((entries, after)) = near.take(rest)
                && first_rises(last, entries)
            {
                manifest.push_all(entries)?;
                last = last_path(entries);
                rest = after;
            } else {
                let (line, after) = first_line(rest);
                let line = match judged_line(line, last, place) {
                    Ok(line) => line,
                    Err(fault) => return Err(fault),
                };
                near.pass(line.path);
                newer.push(manifest.len() - told)?;
                let entry = Entry {
                    path: part(text, place..place + line.path.len())?,
                    node: line.node,
                    flag: line.flag,
                };
                manifest.push_shared(SharedEntry::new(alloc, entry)?)?;
                told = manifest.len();
                last = Some(line.path);
                rest = after;
            }
        }
        manifest.entries.shrink_to_fit();
        Ok((manifest, newer))
    }

    // Adds an entry behind the others, which may have other owners: it may stand in a manifest, and its path stands after that of the last one. After want of
    // memory the manifest is as it was.
    fn push_shared(&mut self, shared: SharedEntry) -> Result<(), NoMemory>
        requires fit { IsFit (manifest_entry shared) }
        requires rises { IsTrue (rises_above (last_path self.old) shared.path) }
        ensures ok { OnOk result (self.new ≡ self.old ++ manifest_entry shared ∷ []) }
        ensures err { OnErr result (self.new ≡ self.old) }
    {
        Ok(self.entries.push(shared)?)
    }

    // Adds entries of another manifest behind the others. Want of memory may leave some of them.
    fn push_all(&mut self, entries: &[SharedEntry]) -> Result<(), NoMemory>
        requires { IsManifest (self.old ++ map manifest_entry entries.now) }
        ensures { OnOk result (self.new ≡ self.old ++ map manifest_entry entries.now) }
    {
        for entry in entries {
            self.push_shared(entry.again()?)?;
        }
        Ok(())
    }

    // The entries.
    pub(crate) fn entries(&self) -> &[SharedEntry]
        ensures entries { map manifest_entry result.now ≡ self.now }
        ensures manifest { IsManifest self.now }
    {
        &self.entries
    }

    /// How many entries there are. They are those of a manifest.
    pub fn len(&self) -> usize
        ensures len { result ≡ length self.now }
        ensures manifest { IsManifest self.now }
    {
        self.entries.len()
    }

    /// Whether there are no entries.
    pub fn is_empty(&self) -> bool
        ensures { result ≡ (length self.now == 0) }
    {
        self.entries.is_empty()
    }

    /// The entry at place `i`, which is below the length.
    pub fn at(&self, i: usize) -> &Entry
        requires { i < length self.now }
        ensures { slice_get self.now i ≡ Some (manifest_entry result.now) }
    {
        self.entries[i].get()
    }

    /// The entry of a path; `None` exactly where no entry has it.
    pub fn get(&self, path: &[u8]) -> Option<&Entry>
        ensures { option_map (λ entry. manifest_entry entry.now) result ≡ find (λ entry. bytes_eq entry.path path.now) self.now }
    {
        let place = self.entries.binary_search_by(
            |shared: &SharedEntry| -> Ordering
                ensures { result ≡ slice_cmp nat_cmp shared.now.path path.entry.now }
            { shared.get().path.as_slice().cmp(path) },
        );
        match place {
            Ok(i) => Some(self.entries[i].get()),
            Err(_) => None,
        }
    }

    /// Adds the text of the manifest. After want of memory `out` is as it was.
    pub fn write_into(&self, out: &mut Vec<u8>) -> Result<(), NoMemory>
        ensures ok { OnOk result (out.new.items ≡ out.old.items ++ manifest_text self.now) }
        ensures err { OnErr result (out.new.items ≡ out.old.items) }
    {
        let start = out.len();
        if put_lines(out, &self.entries).is_err() {
            out.truncate(start);
            return Err(NoMemory);
        }
        Ok(())
    }
}

// No entries, with room for as many as a text of this length may have.
fn room_for(alloc: Global, text: &[u8]) -> Result<Manifest, NoMemory>
    ensures { IfOk result (λ manifest. manifest ≡ []) }
{
    Ok(Manifest {
        entries: Vec::with_capacity(alloc, text.len() / SHORTEST_LINE)?,
    })
}

// What the line at this place says, which follows one with this path, if there is one.
fn judged_line<'a>(
    line: &'a [u8],
    last: Option<&[u8]>,
    place: usize,
) -> Result<Line<'a>, ManifestFault>
    ensures line { IfOk result (λ x. IsEntryOf line.entry.now (option_copied last.entry) (record { path = x.path.now; node = x.node; flag = file_flag x.flag })) }
    ensures fault { IfErr result (IsNamed (entry_fault (option_copied last.entry) place (entry_of_line line.entry.now))) }
{
    let Some(line) = read_line(line) else {
        return Err(ManifestFault::Shape(place));
    };
    if !rises_above(last, line.path) {
        return Err(ManifestFault::Shape(place));
    }
    if !fit_path(line.path) {
        return Err(ManifestFault::PathUnfit(place));
    }
    Ok(line)
}

// Whether a path stands after that of the line before, if there is one.
fn rises_above(last: Option<&[u8]>, path: &[u8]) -> bool
    ensures { result ≡ rises_above (option_copied last.entry) path.now }
{
    match last {
        None => true,
        Some(last) => last.cmp(path) == Ordering::Less,
    }
}

// Whether the path of the first of these entries stands after that of the line before, if there is one.
fn first_rises(last: Option<&[u8]>, entries: &[SharedEntry]) -> bool
    ensures { result ≡ first_rises (option_copied last.entry) (map manifest_entry entries.now) }
{
    match entries.first() {
        Some(entry) => rises_above(last, entry.get().path.as_slice()),
        None => true,
    }
}

// The path of the last of these entries.
fn last_path(entries: &[SharedEntry]) -> Option<&[u8]>
    ensures { option_copied result ≡ last_path (map manifest_entry entries.now) }
{
    match entries.split_last() {
        Some((entry, _)) => Some(entry.get().path.as_slice()),
        None => None,
    }
}
