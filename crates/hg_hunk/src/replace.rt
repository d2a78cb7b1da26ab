ghost use Rattle.std.specs.Prelude.{◌≡◌, ◌++◌, ◌<◌, ◌^◌, length, OnOk};
ghost use Rattle.std.specs.Io.{StartsWith};
ghost use Rattle.text_model.specs.Text.{Bytes};
ghost use Rattle.hg_model.specs.Delta.{Patches, number32, hunk_text, whole_delta};

use bridge_text::NoMemory;
use byteorder::{BigEndian, ByteOrder};
use rope::Rope;
use shared_text::Text;

#[tactic(auto, unfolding(hg_model::specs::Delta::number32))]
fn number_bytes(number: u32) -> [u8; 4]
    ensures { result ≡ number32 number }
{
    let mut bytes = [0; 4];
    BigEndian::write_u32(&mut bytes, number);
    bytes
}

fn put_whole_hunk(out: &mut Rope, base_len: u32, text: &Text) -> Result<(), NoMemory>
    requires { length text.now < 2 ^ 32 }
    ensures ok { OnOk result (out.new ≡ out.old ++ hunk_text (record { start = 0; finish = base_len; bytes = text.now })) }
    ensures front { StartsWith out.new out.old }
{
    out.put(&number_bytes(0))?;
    out.put(&number_bytes(base_len))?;
    out.put(&number_bytes(text.len() as u32))?;
    out.share(text)?;
    Ok(())
}

/// Appends the delta that replaces a whole base of this length by the text: one hunk, or none where
/// base and text are both empty. After an error `out` begins with what it was.
pub fn replace_into(out: &mut Rope, base_len: u32, text: &Text) -> Result<(), NoMemory>
    requires { length text.now < 2 ^ 32 }
    ensures ok { OnOk result (out.new ≡ out.old ++ whole_delta base_len text.now) }
    ensures front { StartsWith out.new out.old }
{
    if base_len == 0 && text.is_empty() {
        return Ok(());
    }
    put_whole_hunk(out, base_len, text)
}

/// A law: the delta that [`replace_into`] appends turns any base of that length into the text.
pub fn replaces()
    ensures { (base text : Bytes) → length base < 2 ^ 32 → length text < 2 ^ 32 → Patches base (whole_delta (length base) text) text }
{}
