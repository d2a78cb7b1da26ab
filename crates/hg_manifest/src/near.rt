ghost use Rattle.std.specs.Prelude.{◌≡◌, ◌<◌, [], None, IfSome, length, map};
ghost use Rattle.text_model.specs.Lists.{Each};
ghost use Rattle.hg_model.specs.Manifest.{IsManifestText};
ghost use Rattle.hg_manifest.specs.Beside.{IsLineOf};
ghost use Rattle.hg_manifest.specs.Near.{IsSplit, AreFirstLines, IsFront, IsLater};
ghost use Rattle.hg_manifest.specs.Values.{manifest_entry};

use crate::entry::{Entry, SharedEntry};
use crate::lines::{len_behind, line_len};
use crate::list::Manifest;
use std::marker::Model;

// How many lines are compared at once.
pub(crate) const BLOCK: usize = 16;

/// The lines of a manifest that is known, those of them that are still ahead. A line of a text that is one of them needn't be judged.
/// Contracts see their entries.
#[derive(Drop)]
pub struct Near<'a> {
    entries: &'a [SharedEntry],
    lines: &'a [u8],
}

impl<'a> Model for Near<'a> {
    ghost use Rattle.std.specs.Prelude.{List, map};
    ghost use Rattle.hg_model.specs.Manifest.{ManifestEntry, IsManifestText};
    ghost use Rattle.hg_manifest.specs.Values.{manifest_entry};

    ghost Value = { List ManifestEntry };

    ghost view = { λ n. map manifest_entry (n.entries).now };

    ghost invariant = { λ n. IsManifestText (n.lines).now (map manifest_entry (n.entries).now) };
}

impl<'a> Near<'a> {
    /// No lines.
    pub fn none() -> Near<'a>
        ensures { result ≡ [] }
    {
        Near {
            entries: &[],
            lines: &[],
        }
    }

    /// The lines of a manifest, whose text this is.
    pub fn of(manifest: &'a Manifest, text: &'a [u8]) -> Near<'a>
        requires { IsManifestText text.now manifest.now }
        ensures { result ≡ manifest.now }
    {
        Near {
            entries: manifest.entries(),
            lines: text,
        }
    }

    /// The same lines.
    pub fn again(&self) -> Near<'a>
        ensures { result ≡ self.now }
    {
        Near {
            entries: self.entries,
            lines: self.lines,
        }
    }

    // The entries of the first lines, of many or of one, and what follows these lines in a text that begins with them. Then they are no longer ahead.
    pub(crate) fn take<'b>(&mut self, rest: &'b [u8]) -> Option<(&'a [SharedEntry], &'b [u8])>
        ensures first { IfSome result (λ found. AreFirstLines rest.entry.now (map manifest_entry found.0.now) found.1.now) }
        ensures lines { IfSome result (λ found. Each (IsLineOf self.old) (map manifest_entry found.0.now)) }
        ensures later { IsLater self.old self.new }
    {
        match self.take_front(rest, BLOCK) {
            Some(found) => Some(found),
            None => self.take_front(rest, 1),
        }
    }

    // The same of so many lines.
    fn take_front<'b>(
        &mut self,
        rest: &'b [u8],
        count: usize,
    ) -> Option<(&'a [SharedEntry], &'b [u8])>
        requires some { 0 < count }
        ensures first { IfSome result (λ found. AreFirstLines rest.entry.now (map manifest_entry found.0.now) found.1.now) }
        ensures lines { IfSome result (λ found. Each (IsLineOf self.old) (map manifest_entry found.0.now)) }
        ensures later { IsLater self.old self.new }
    {
        let (entries, text, behind) = self.front(count)?;
        let after = rest.strip_prefix(text)?;
        *self = behind;
        Some((entries, after))
    }

    // Passes over the lines up to that of a path.
    pub(crate) fn pass(&mut self, path: &[u8])
        ensures { IsLater self.old self.new }
    {
        while let Some((entry, _, behind)) = self.split()
            && entry.path.as_slice().cmp(path).is_le()
        {
            *self = behind;
        }
    }

    // The first entries, so many of them, the text of their lines, and the lines behind them; `None` where there are fewer.
    pub(crate) fn front(&self, count: usize) -> Option<(&'a [SharedEntry], &'a [u8], Near<'a>)>
        ensures some { IfSome result (λ parts. IsFront count self.now (map manifest_entry parts.0.now) parts.1.now parts.2) }
        ensures none { result ≡ None → length self.now < count }
    {
        if self.entries.len() < count {
            return None;
        }
        let (front, entries) = self.entries.split_at(count);
        let behind = len_behind(self.lines, front);
        let (text, lines) = self.lines.split_at(self.lines.len() - behind);
        Some((front, text, Near { entries, lines }))
    }

    // The first entry, its line, and the lines behind it.
    pub(crate) fn split(&self) -> Option<(&'a Entry, &'a [u8], Near<'a>)>
        ensures some { IfSome result (λ parts. IsSplit self.now parts.0.now parts.1.now parts.2) }
        ensures none { result ≡ None → self.now ≡ [] }
    {
        let shared = self.entries.first()?;
        let entry = shared.get();
        let (_, entries) = self.entries.split_at(1);
        let (line, lines) = self
            .lines
            .split_at(line_len(entry.path.as_slice(), &entry.node, entry.flag));
        Some((entry, line, Near { entries, lines }))
    }
}
