ghost use Rattle.std.specs.Prelude.{◌≡◌, ◌==◌, ◌<◌, ◌++◌, [], ◌∷◌, List, length, slice_get, Some, OnOk, OnErr, IfOk, MatchOption};
ghost use Rattle.pair_model.specs.MarkList as model;
ghost use Rattle.pair_model.specs.MarkList.{marks_text, IsMarkList, AreHeadersOf};
ghost use Rattle.mark_code.specs.Values.{mark_value};
ghost use Rattle.mark_code.specs.Reading.{may_end};

use crate::mark::Mark;
use crate::order::may_follow;
use crate::reading::read_mark;
use crate::writing::put_marks;
use bridge_text::{NoMemory, cut_at};
use std::alloc::Global;
use std::marker::Model;

/// The marks of a commit: paths of renames and files rise strictly as bytes, each later kind
/// stands once at most, but for extras, whose keys rise; and a raw date line stands beside no date
/// and no extra. Contracts see the list.
#[derive(Debug, Drop)]
pub struct CommitMarks {
    marks: Vec<Mark>,
}

impl Model for CommitMarks {
    ghost use Rattle.std.specs.Prelude.{List, map};
    ghost use Rattle.pair_model.specs.MarkList as model;
    ghost use Rattle.pair_model.specs.MarkList.{IsMarkList};
    ghost use Rattle.mark_code.specs.Values.{mark_value};

    ghost Value = { List model.Mark };

    ghost view = { λ list. map mark_value list.marks.items };

    ghost invariant = { λ list. IsMarkList (map mark_value list.marks.items) };
}

impl CommitMarks {
    /// No marks.
    pub fn new(alloc: Global) -> CommitMarks
        ensures { result ≡ [] }
    {
        CommitMarks {
            marks: Vec::new(alloc),
        }
    }

    /// The marks whose lines the headers are. `None` exactly where they are those of no marks.
    pub fn read(alloc: Global, headers: &[u8]) -> Result<Option<CommitMarks>, NoMemory>
        ensures { IfOk result (λ marks. MatchOption marks ((ms : List model.Mark) → ¬ (AreHeadersOf headers.now ms)) (AreHeadersOf headers.now)) }
    {
        let mut marks = CommitMarks::new(alloc);
        let mut rest = headers;
        'lines: while let Some((line, after)) = cut_at(b'\n', rest) {
            let Some(mark) = read_mark(alloc, line)? else {
                return Ok(None);
            };
            if !marks.may_end(&mark) {
                return Ok(None);
            }
            marks.push(mark)?;
            rest = after;
        }
        if rest.is_empty() {
            Ok(Some(marks))
        } else {
            Ok(None)
        }
    }

    fn may_end(&self, mark: &Mark) -> bool
        ensures { result ≡ may_end self.now (mark_value mark.now) }
    {
        match self.marks.as_slice() {
            [.., last] => may_follow(last, mark),
            [] => true,
        }
    }

    /// Puts a mark at the end, behind which the marks are still a mark list. After want of memory
    /// the list is as it was.
    pub fn push(&mut self, mark: Mark) -> Result<(), NoMemory>
        requires { IsMarkList (self.old ++ mark_value mark ∷ []) }
        ensures ok { OnOk result (self.new ≡ self.old ++ mark_value mark ∷ []) }
        ensures err { OnErr result (self.new ≡ self.old) }
    {
        Ok(self.marks.push(mark)?)
    }

    /// How many marks there are. They are a mark list.
    pub fn len(&self) -> usize
        ensures length { result ≡ length self.now }
        ensures list { IsMarkList self.now }
    {
        self.marks.len()
    }

    /// Whether there are no marks.
    pub fn is_empty(&self) -> bool
        ensures { result ≡ (length self.now == 0) }
    {
        self.marks.is_empty()
    }

    /// The mark at place `i`, which is below the length.
    pub fn at(&self, i: usize) -> &Mark
        requires { i < length self.now }
        ensures { slice_get self.now i ≡ Some (mark_value result.now) }
    {
        &self.marks[i]
    }

    /// Appends the lines of the marks, each with its LF. After want of memory `out` is as it was.
    pub fn write_into(&self, out: &mut Vec<u8>) -> Result<(), NoMemory>
        ensures ok { OnOk result (out.new.items ≡ out.old.items ++ marks_text self.now) }
        ensures err { OnErr result (out.new.items ≡ out.old.items) }
    {
        let start = out.len();
        let result = put_marks(out, &self.marks);
        if result.is_err() {
            out.truncate(start);
        }
        result
    }
}
