ghost use Rattle.std.specs.Prelude.{◌≡◌, ◌<◌, [], ◌∷◌, None, IfSome};
ghost use Rattle.text_model.specs.Lists.{Each};
ghost use Rattle.hg_manifest.specs.Values.{manifest_entry};
ghost use Rattle.hg_manifest.specs.Beside.{IsLineOf, IsPassed};

use crate::entry::Entry;
use crate::near::{BLOCK, Near};

/// The lines of a manifest and those of another one that are still ahead.
#[derive(Drop)]
pub struct Ahead<'a> {
    /// The lines.
    pub lines: Near<'a>,
    /// The lines of the other one.
    pub other: Near<'a>,
}

impl<'a> Ahead<'a> {
    // The entry of the next line that the other manifest may lack; it has each line before that one, and where there is `None` it has all.
    // Lines that follow each other in both are compared by the dozen.
    pub(crate) fn next(&mut self) -> Option<&'a Entry>
        ensures some { IfSome result (λ entry. IsPassed self.old self.new (manifest_entry entry.now ∷ [])) }
        ensures none { result ≡ None → Each (IsLineOf (self.old).other) (self.old).lines }
    {
        self.pass_same(BLOCK);
        self.pass_same(1);
        let (entry, _, behind) = self.lines.split()?;
        self.lines = behind;
        self.other.pass(entry.path.as_slice());
        Some(entry)
    }

    // Passes over so many lines at once, as long as both manifests go on with the same.
    fn pass_same(&mut self, count: usize)
        requires some { 0 < count }
        ensures { IsPassed self.old self.new [] }
    {
        while let Some((_, text, lines)) = self.lines.front(count)
            && let Some((_, other_text, other)) = self.other.front(count)
            && text == other_text
        {
            self.lines = lines;
            self.other = other;
        }
    }
}
