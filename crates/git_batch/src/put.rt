// Objects that are written.
ghost use Rattle.std.specs.Prelude.{◌≡◌, ◌++◌, decimal, OnOk};
ghost use Rattle.std.specs.Io.{StartsWith};
ghost use Rattle.git_model.specs.Object.{object_of};
ghost use Rattle.git_model.specs.Stream.{object_text};
ghost use Rattle.bridge_text.specs.Kinds.{object_kind};

use bridge_text::{Id, Kind, NoMemory, object_id};
use itoa::Buffer;
use rope::Rope;
use shared_text::Text;

/// Appends an object as `git cat-file --batch` writes it: its id in hex digits, the kind's word and the size of the
/// content in decimal with a space between each two, LF, the content and LF. A long content is shared, and not copied. If
/// memory runs out, what `out` was is its beginning.
pub fn put_object(out: &mut Rope, kind: Kind, content: &Text) -> Result<(), NoMemory>
    ensures ok { OnOk result (out.new ≡ out.old ++ object_text (object_of (object_kind kind) content.now)) }
    ensures front { StartsWith out.new out.old }
{
    put_with_id(out, &object_id(kind, content.as_slice()), kind, content)
}

/// Appends an object whose id is known in the same form. The id is not computed again. If memory runs out, what `out` was is
/// its beginning.
pub fn put_with_id(out: &mut Rope, id: &Id, kind: Kind, content: &Text) -> Result<(), NoMemory>
    ensures ok { OnOk result (out.new ≡ out.old ++ object_text (record { id = id.now; kind = object_kind kind; content = content.now })) }
    ensures front { StartsWith out.new out.old }
{
    out.put(&id.hex())?;
    out.push(b' ')?;
    out.put(kind.word())?;
    out.push(b' ')?;
    put_decimal(out, content.len())?;
    out.push(b'\n')?;
    out.share(content)?;
    out.push(b'\n')?;
    Ok(())
}

fn put_decimal(out: &mut Rope, number: usize) -> Result<(), NoMemory>
    ensures ok { OnOk result (out.new ≡ out.old ++ decimal number) }
    ensures front { StartsWith out.new out.old }
{
    let mut buffer = Buffer::new();
    Ok(out.put(buffer.format(number).as_bytes())?)
}
