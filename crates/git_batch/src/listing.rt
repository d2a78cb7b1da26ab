// The objects of a stream, a line each.
ghost use Rattle.std.specs.Prelude.{◌≡◌, ◌++◌, OnOk, OnErr, IfErr, IfSome};
ghost use Rattle.std.specs.Io.{StartsWith};
ghost use Rattle.std.specs.Io.KnownBytes.{IsAtEnd};
ghost use Rattle.bridge_text.specs.Kinds.{object_kind};
ghost use Rattle.git_model.specs.Stream.{object_line};
ghost use Rattle.git_batch.specs.Faults.{AnswerCause, IsFraming};
ghost use Rattle.git_batch.specs.Listing.{Lists};

use crate::BatchFault;
use crate::reader::{BatchReader, Item};
use bridge_io::Source;
use bridge_text::{Id, Kind, NoMemory, decimal_into};
use std::alloc::Global;

/// Reads a stream, as `git cat-file --batch` writes it, to the end of its source and appends a line for each object, in
/// the order of the stream: the id that its line names, in hex digits, its kind and the size of its content. The ids are
/// not compared with the contents. After a fault `out` is as it was.
pub fn list<S: Source>(alloc: Global, src: &mut S, out: &mut Vec<u8>) -> Result<(), BatchFault>
    ensures lists { IfSome (S.left src.old) (λ bytes. Lists bytes out.old.items result out.new.items) }
    ensures end { OnOk result (IsAtEnd (S.left src.new)) }
    ensures kept { OnErr result (out.new.items ≡ out.old.items) }
    ensures names { IfErr result IsFraming }
    ensures cause { AnswerCause (S.faults src.old) (S.faults src.new) result }
{
    let start = out.len();
    let listed = append_lines(alloc, src, out);
    if listed.is_err() {
        out.truncate(start);
    }
    listed
}

fn append_lines<S: Source>(alloc: Global, src: &mut S, out: &mut Vec<u8>) -> Result<(), BatchFault>
    ensures lists { IfSome (S.left src.old) (λ bytes. Lists bytes out.old.items result out.new.items) }
    ensures end { OnOk result (IsAtEnd (S.left src.new)) }
    ensures front { StartsWith out.new.items out.old.items }
    ensures names { IfErr result IsFraming }
    ensures cause { AnswerCause (S.faults src.old) (S.faults src.new) result }
{
    let mut reader = BatchReader::new();
    let mut content = Vec::new(alloc);
    'objects: loop {
        match reader.next(src, &mut content)? {
            Item::Object { id, kind, .. } => append_line(out, &id, kind, content.len() as u64)?,
            Item::End => return Ok(()),
        }
    }
}

// Appends the line of an object.
fn append_line(out: &mut Vec<u8>, id: &Id, kind: Kind, size: u64) -> Result<(), NoMemory>
    ensures front { StartsWith out.new.items out.old.items }
    ensures line { OnOk result (out.new.items ≡ out.old.items ++ object_line id.now (object_kind kind) size) }
{
    out.extend_from_slice(&id.hex())?;
    out.push(b' ')?;
    out.extend_from_slice(kind.word())?;
    out.push(b' ')?;
    decimal_into(out, size)?;
    out.push(b'\n')?;
    Ok(())
}
