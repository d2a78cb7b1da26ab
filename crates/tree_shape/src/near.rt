ghost use Rattle.std.specs.Prelude.{◌≡◌, IfOk, IfSome};

use crate::file_row::FileRow;
use bridge_text::NoMemory;
use shared_text::{Text, again};
use std::alloc::Global;

/// Rows of another tree, those of them that are still ahead. A path that is one of theirs needn't be copied. They may be any
/// rows; paths are shared where both they and the paths that are asked for rise.
#[derive(Drop)]
pub struct NearRows<'n> {
    ahead: &'n [FileRow],
}

impl<'n> NearRows<'n> {
    /// All these rows.
    pub fn of(rows: &'n [FileRow]) -> NearRows<'n> {
        NearRows { ahead: rows }
    }

    /// A text of this path: that of the row ahead that has it, shared, or a copy.
    pub fn text_of(&mut self, alloc: Global, path: &[u8]) -> Result<Text, NoMemory>
        ensures { IfOk result (λ text. text ≡ path.now) }
    {
        if let Some(row) = self.take(path) {
            return again(&row.path);
        }
        self.pass(path);
        match self.take(path) {
            Some(row) => again(&row.path),
            None => Ok(Text::copy_from_slice(alloc, path)?),
        }
    }

    // The first row, where it has this path, and then it is no longer ahead.
    fn take(&mut self, path: &[u8]) -> Option<&'n FileRow>
        ensures { IfSome result (λ row. row.now.path ≡ path.now) }
    {
        let row = self.ahead.first()?;
        if row.path() != path {
            return None;
        }
        self.ahead = self.ahead.split_at(1).1;
        Some(row)
    }

    // Passes over the rows whose paths stand below this one.
    fn pass(&mut self, path: &[u8]) {
        while let Some(row) = self.ahead.first()
            && row.path().cmp(path).is_lt()
        {
            self.ahead = self.ahead.split_at(1).1;
        }
    }
}
