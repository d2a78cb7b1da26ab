// Chunks that are written.
ghost use Rattle.std.specs.Prelude.{◌≡◌, ◌≤◌, ◌++◌, [], length, OnOk};
ghost use Rattle.std.specs.Io.{StartsWith};
ghost use Rattle.hg_model.specs.Bundle.{delta_limit};
ghost use Rattle.hg_model.specs.Chunk.{chunk_text};

use bridge_text::NoMemory;
use byteorder::{BigEndian, ByteOrder};
use rope::Rope;

/// Appends the chunk of a payload. After an error `out` begins with what it was.
pub fn put_chunk(out: &mut Rope, payload: &[u8]) -> Result<(), NoMemory>
    requires some { 1 ≤ length payload.now }
    requires limit { length payload.now ≤ delta_limit }
    ensures ok { OnOk result (out.new ≡ out.old ++ chunk_text payload.now) }
    ensures front { StartsWith out.new out.old }
{
    let mut field = [0; 4];
    BigEndian::write_u32(&mut field, (payload.len() + 4) as u32);
    out.put(&field)?;
    out.put(payload)?;
    Ok(())
}

/// Appends the empty chunk. After an error `out` begins with what it was.
pub fn put_empty(out: &mut Rope) -> Result<(), NoMemory>
    ensures ok { OnOk result (out.new ≡ out.old ++ chunk_text []) }
    ensures front { StartsWith out.new out.old }
{
    out.put(&[0; 4])?;
    Ok(())
}
