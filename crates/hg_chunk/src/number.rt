// Numbers in the fields of chunks.
ghost use Rattle.std.specs.Prelude.{◌≡◌, length};
ghost use Rattle.byteorder.specs.Endian.{big_bytes};

use byteorder::{BigEndian, ByteOrder};

/// The number whose four bytes these are, the highest first.
pub fn number_of(field: &[u8]) -> u32
    requires { length field.now ≡ 4 }
    ensures { big_bytes 4 result ≡ field.now }
{
    BigEndian::read_u32(field)
}
