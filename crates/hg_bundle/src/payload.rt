// The payload of a chunk.
ghost use Rattle.std.specs.Prelude.{◌≡◌};
ghost use Rattle.hg_chunk.specs.Reader.{payload_of};
ghost use Rattle.hg_bundle.specs.Payload.{payload_bytes};

use shared_text::Text;

/// The payload of a chunk, as it came.
#[derive(Clone, Copy)]
pub enum Payload<'a> {
    /// The source lent it, so that parts of it may be kept.
    Lent(&'a Text),
    /// It was read into a vector.
    Read(&'a [u8]),
}

impl<'a> Payload<'a> {
    /// What was lent, or else what was read.
    pub fn of(lent: &'a Option<Text>, read: &'a [u8]) -> Payload<'a>
        ensures { payload_bytes result ≡ payload_of lent.now read.now }
    {
        match lent {
            Some(text) => Payload::Lent(text),
            None => Payload::Read(read),
        }
    }

    /// Its bytes.
    pub fn bytes(&self) -> &'a [u8]
        ensures { result.now ≡ payload_bytes self.now }
    {
        match self {
            Payload::Lent(text) => text.as_slice(),
            Payload::Read(bytes) => bytes,
        }
    }
}
