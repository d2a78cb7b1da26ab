// A reader of objects, which knows how far it is.
ghost use Rattle.std.specs.Prelude.{◌≡◌, ◌+◌, ◌≤◌, ℕ, [], length, IfOk, IfErr, OnOk, OnErr, IfSome};
ghost use Rattle.std.specs.Io.KnownBytes.{Consumes};
ghost use Rattle.text_model.specs.Fault.{input_limit};
ghost use Rattle.git_model.specs.Stream.{object_reading, checked_at};
ghost use Rattle.git_batch.specs.Faults.{AnswerCause, IsFraming};
ghost use Rattle.git_batch.specs.Item.{Reads, ReadsText, IsItem, EndsThere, HasItsId, item_text};

use crate::BatchFault;
use crate::content::{read_content, read_text};
use crate::contents::{Contents, has_id};
use crate::line::read_header;
use bridge_io::Source;
use bridge_text::{Id, Kind, object_id};
use shared_text::Text;
use std::alloc::Global;
use std::marker::Model;

/// What was read.
#[derive(Clone, Copy, Debug, PartialEq, Eq)]
pub enum Item {
    /// An object.
    Object {
        /// The id that its line names.
        id: Id,
        /// Its kind.
        kind: Kind,
        /// The offset of its line in the input.
        at: u64,
    },
    /// The input is at its end.
    End,
}

/// Reads objects one after the other, as `git cat-file --batch` writes them:
/// `id SP kind SP size LF content LF`, where the id is 40 hex digits in lower case and the size a decimal. After a
/// fault it is not used again.
#[derive(Debug, Drop)]
pub struct BatchReader {
    offset: u64,
}

impl Model for BatchReader {
    ghost Value = { ℕ };

    ghost view = { λ r. r.offset };

    ghost invariant = { λ r. r.offset ≤ input_limit };
}

impl BatchReader {
    /// At offset 0.
    pub fn new() -> BatchReader
        ensures { result ≡ 0 }
    {
        BatchReader { offset: 0 }
    }

    /// Reads the next object and puts its content into `into`. Its id is not compared with its content.
    ///
    /// The line is judged first. `InputLimit` comes where the line goes past byte 2^29 and the input does too, and
    /// `Truncated` where the input ends in it. A line of 4,096 bytes without LF ends there. Then come `Missing` for a
    /// line that ends with ` missing`, `Line` for another form, `KindUnknown` for another word of lower case letters as
    /// the kind, and `Limit` for a commit of more than 2^24 bytes or another object of more than 2^26. The content and
    /// its LF come next, with `InputLimit`, `Truncated`, and `Line` where another byte stands for the LF. After a fault
    /// `into` is empty.
    pub fn next<S: Source>(&mut self, src: &mut S, into: &mut Vec<u8>) -> Result<Item, BatchFault>
        // The object is the one that begins the bytes, and each fault is exactly what these are refused for.
        ensures reads { IfSome (S.left src.old) (λ bytes. Reads (object_reading self.old bytes) into.new.items result) }
        ensures bytes { IfOk result (λ item. Consumes (S.left src.old) (S.left src.new) (item_text item into.new.items)) }
        ensures end { IfOk result (EndsThere (S.left src.new)) }
        ensures item { IfOk result (IsItem self.old into.new.items) }
        ensures offset { IfOk result (λ item. self.new ≡ self.old + length (item_text item into.new.items)) }
        ensures limit { OnOk result (self.new ≤ input_limit) }
        ensures err { OnErr result (into.new.items ≡ []) }
        ensures names { IfErr result IsFraming }
        ensures cause { AnswerCause (S.faults src.old) (S.faults src.new) result }
    {
        into.clear();
        let read = self.read_object(src, into);
        if read.is_err() {
            into.clear();
        }
        read
    }

    /// Reads the next object as `next` does, and checks that it has the id that its line names. `IdWrong` comes
    /// where it has another, and no other fault does.
    pub fn next_checked<S: Source>(
        &mut self,
        src: &mut S,
        into: &mut Vec<u8>,
    ) -> Result<Item, BatchFault>
        ensures reads { IfSome (S.left src.old) (λ bytes.
            Reads (checked_at self.old (object_reading self.old bytes)) into.new.items result) }
        ensures bytes { IfOk result (λ item. Consumes (S.left src.old) (S.left src.new) (item_text item into.new.items)) }
        ensures end { IfOk result (EndsThere (S.left src.new)) }
        ensures item { IfOk result (IsItem self.old into.new.items) }
        ensures id { IfOk result (HasItsId into.new.items) }
        ensures offset { IfOk result (λ item. self.new ≡ self.old + length (item_text item into.new.items)) }
        ensures limit { OnOk result (self.new ≤ input_limit) }
        ensures err { OnErr result (into.new.items ≡ []) }
        ensures cause { AnswerCause (S.faults src.old) (S.faults src.new) result }
    {
        let item = self.next(src, into)?;
        if let Item::Object { id, kind, at } = item
            && object_id(kind, into) != id
        {
            into.clear();
            return Err(BatchFault::IdWrong(id, at));
        }
        Ok(item)
    }

    /// Reads the next object as `next_checked` does, with the same faults, and answers its content as a text: a part of
    /// what the source lends, or else bytes of its own. At the end the text is empty. `line` is room for lines, whose
    /// bytes are of no use afterwards; `next_checked` puts the content into such a vector, which can be used again. The
    /// content of a blob that is known isn't hashed.
    pub fn next_text<S: Source, C: Contents>(
        &mut self,
        alloc: Global,
        src: &mut S,
        known: &C,
        line: &mut Vec<u8>,
    ) -> Result<(Item, Text), BatchFault>
        ensures reads { IfSome (S.left src.old) (λ bytes. ReadsText (checked_at self.old (object_reading self.old bytes)) result) }
        ensures bytes { IfOk result (λ read. Consumes (S.left src.old) (S.left src.new) (item_text read.0 read.1)) }
        ensures end { IfOk result (λ read. EndsThere (S.left src.new) read.0) }
        ensures item { IfOk result (λ read. IsItem self.old read.1 read.0) }
        ensures id { IfOk result (λ read. HasItsId read.1 read.0) }
        ensures offset { IfOk result (λ read. self.new ≡ self.old + length (item_text read.0 read.1)) }
        ensures limit { OnOk result (self.new ≤ input_limit) }
        ensures cause { AnswerCause (S.faults src.old) (S.faults src.new) result }
    {
        let (item, text) = self.read_text_object(alloc, src, line)?;
        if let Item::Object { id, kind, at } = item
            && !has_id(known, kind, &id, text.as_slice())
        {
            return Err(BatchFault::IdWrong(id, at));
        }
        Ok((item, text))
    }

    // Reads the next object, with a text as its content.
    fn read_text_object<S: Source>(
        &mut self,
        alloc: Global,
        src: &mut S,
        line: &mut Vec<u8>,
    ) -> Result<(Item, Text), BatchFault>
        ensures reads { IfSome (S.left src.old) (λ bytes. ReadsText (object_reading self.old bytes) result) }
        ensures bytes { IfOk result (λ read. Consumes (S.left src.old) (S.left src.new) (item_text read.0 read.1)) }
        ensures end { IfOk result (λ read. EndsThere (S.left src.new) read.0) }
        ensures item { IfOk result (λ read. IsItem self.old read.1 read.0) }
        ensures offset { IfOk result (λ read. self.new ≡ self.old + length (item_text read.0 read.1)) }
        ensures limit { OnOk result (self.new ≤ input_limit) }
        ensures names { IfErr result IsFraming }
        ensures cause { AnswerCause (S.faults src.old) (S.faults src.new) result }
    {
        line.clear();
        let at = self.offset;
        let Some(header) = read_header(src, at, line)? else {
            return Ok((Item::End, Text::new()));
        };
        let start = at + line.len() as u64 + 1;
        let text = read_text(alloc, src, start, header.size)?;
        self.offset = start + header.size as u64 + 1;
        let item = Item::Object {
            id: header.id,
            kind: header.kind,
            at,
        };
        Ok((item, text))
    }

    // Reads the next object into an empty vector.
    fn read_object<S: Source>(
        &mut self,
        src: &mut S,
        into: &mut Vec<u8>,
    ) -> Result<Item, BatchFault>
        requires { into.old.items ≡ [] }
        ensures reads { IfSome (S.left src.old) (λ bytes. Reads (object_reading self.old bytes) into.new.items result) }
        ensures bytes { IfOk result (λ item. Consumes (S.left src.old) (S.left src.new) (item_text item into.new.items)) }
        ensures end { IfOk result (EndsThere (S.left src.new)) }
        ensures item { IfOk result (IsItem self.old into.new.items) }
        ensures offset { IfOk result (λ item. self.new ≡ self.old + length (item_text item into.new.items)) }
        ensures limit { OnOk result (self.new ≤ input_limit) }
        ensures names { IfErr result IsFraming }
        ensures cause { AnswerCause (S.faults src.old) (S.faults src.new) result }
    {
        let at = self.offset;
        let Some(header) = read_header(src, at, into)? else {
            return Ok(Item::End);
        };
        let start = at + into.len() as u64 + 1;
        into.clear();
        read_content(src, start, header.size, into)?;
        self.offset = start + header.size as u64 + 1;
        Ok(Item::Object {
            id: header.id,
            kind: header.kind,
            at,
        })
    }
}
