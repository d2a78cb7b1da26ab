ghost use Rattle.std.specs.Prelude.{◌≡◌, ◌≤◌, Some, None, MatchOption};
ghost use Rattle.tree_sum.specs.Numbers.{none_below, under, both, IsWithin};

use bridge_text::{PATH_LIMIT, ROWS_LIMIT};

/// What stands below a tree.
#[derive(Clone, Copy, Debug)]
pub struct Sum {
    /// How many rows: an entry that is no directory, or a directory whose tree has no entries.
    pub rows: usize,
    /// The sizes of the rows together, each the bytes of its path and 42.
    pub size: usize,
    /// The bytes of the longest path with a slash at its end; 0 where nothing stands below.
    pub longest: usize,
    /// The components of the path that has the most; 0 where nothing stands below.
    pub deepest: usize,
}

impl Sum {
    /// Nothing stands below.
    pub fn nothing() -> Sum
        ensures { result ≡ none_below }
    {
        Sum {
            rows: 0,
            size: 0,
            longest: 0,
            deepest: 0,
        }
    }

    /// An entry with a name of so many bytes, below which this stands. Where nothing does, the entry is a row.
    fn under(&self, name_len: usize) -> Sum
        requires within { IsWithin 256 self.now }
        requires name { name_len ≤ 4096 }
        ensures { result ≡ under name_len self.now }
    {
        if self.longest == 0 {
            return Sum {
                rows: 1,
                size: name_len + 42,
                longest: name_len + 1,
                deepest: 1,
            };
        }
        Sum {
            rows: self.rows,
            size: self.size + self.rows * (name_len + 1),
            longest: self.longest + name_len + 1,
            deepest: self.deepest + 1,
        }
    }

    /// These entries and one more with a name of so many bytes, below which `below` stands; `None` exactly where they are
    /// past a limit.
    pub fn with_entry(&self, name_len: usize, below: &Sum, levels: usize) -> Option<Sum>
        requires within { IsWithin levels self.now }
        requires below { IsWithin 256 below.now }
        requires name { name_len ≤ 4096 }
        requires levels { levels ≤ 256 }
        ensures { MatchOption result (IsWithin levels (both self.now (under name_len below.now)) → ⊥)
            (λ s. (s ≡ both self.now (under name_len below.now)) × IsWithin levels s) }
    {
        let entry = below.under(name_len);
        let sum = Sum {
            rows: self.rows + entry.rows,
            size: self.size + entry.size,
            longest: self.longest.max(entry.longest),
            deepest: self.deepest.max(entry.deepest),
        };
        if sum.size <= ROWS_LIMIT && sum.longest <= PATH_LIMIT + 1 && sum.deepest <= levels {
            Some(sum)
        } else {
            None
        }
    }

    /// These numbers, if no path has more components than that.
    pub fn up_to(&self, levels: usize) -> Option<Sum>
        ensures { MatchOption result (self.now.deepest ≤ levels → ⊥) (λ s. (s ≡ self.now) × (s.deepest ≤ levels)) }
    {
        if self.deepest <= levels {
            Some(*self)
        } else {
            None
        }
    }
}
