ghost use Rattle.std.specs.Prelude.{◌≡◌, Some, IfSome, find, option_map, bytes_eq};
ghost use Rattle.std.specs.Bool.{OnTrue};
ghost use Rattle.hg_manifest.specs.Values.{manifest_entry};
ghost use Rattle.hg_manifest.specs.Lines.{HasLine, has_line};

use crate::entry::Entry;
use crate::list::Manifest;
use bridge_text::Id;
use std::marker::Model;

/// Looks up paths in a manifest. Where they come in rising order, as those of a changeset's files do, all of them together take one walk
/// through the manifest, and a search only for those that it lacks. Contracts see the entries of the manifest.
#[derive(Drop)]
pub struct Cursor<'a> {
    manifest: &'a Manifest,
    // Where the walk stands.
    place: usize,
}

impl<'a> Model for Cursor<'a> {
    ghost use Rattle.std.specs.Prelude.{List};
    ghost use Rattle.hg_model.specs.Manifest.{ManifestEntry};

    ghost Value = { List ManifestEntry };

    ghost view = { λ c. (c.manifest).now };
}

impl<'a> Cursor<'a> {
    /// Before the first entry of a manifest.
    pub fn new(manifest: &'a Manifest) -> Cursor<'a>
        ensures { result ≡ manifest.now }
    {
        Cursor { manifest, place: 0 }
    }

    /// The entry of a path; `None` exactly where no entry has it.
    pub fn get(&mut self, path: &[u8]) -> Option<&'a Entry>
        ensures entry { option_map (λ entry. manifest_entry entry.now) result ≡ find (λ entry. bytes_eq entry.path path.now) self.old }
        ensures same { self.new ≡ self.old }
    {
        if let Some((entry, behind)) = entry_at(self.manifest, self.place, path) {
            self.place = behind;
            return Some(entry);
        }
        self.place = place_of(self.manifest, self.place, path);
        match entry_at(self.manifest, self.place, path) {
            Some((entry, behind)) => {
                self.place = behind;
                Some(entry)
            }
            None => self.manifest.get(path),
        }
    }

    /// Whether an entry has this path and this node.
    pub fn has_line(&mut self, path: &[u8], node: &Id) -> bool
        ensures there { result ≡ has_line path.now node.now self.old }
        ensures found { OnTrue result (HasLine path.now node.now self.old) }
        ensures same { self.new ≡ self.old }
    {
        match self.get(path) {
            Some(entry) => entry.node == *node,
            None => false,
        }
    }
}

// The first place from this one on where no path below the given one stands.
fn place_of(manifest: &Manifest, from: usize, path: &[u8]) -> usize {
    for place in from..manifest.len() {
        if manifest.at(place).path.as_slice().cmp(path).is_ge() {
            return place;
        }
    }
    manifest.len()
}

// The entry at a place and the place behind it, where the entry has this path.
fn entry_at<'a>(manifest: &'a Manifest, place: usize, path: &[u8]) -> Option<(&'a Entry, usize)>
    ensures { IfSome result (λ found. Some (manifest_entry found.0.now) ≡ find (λ entry. bytes_eq entry.path path.now) manifest.now) }
{
    if place >= manifest.len() {
        return None;
    }
    let entry = manifest.at(place);
    if entry.path.as_slice() == path {
        Some((entry, place + 1))
    } else {
        None
    }
}
