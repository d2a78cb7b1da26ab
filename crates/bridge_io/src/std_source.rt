// A source over a reader of std.
ghost use Rattle.std.specs.Prelude.{◌≡◌, ℕ};
ghost use Rattle.bridge_io.specs.Streams.{ReaderState};

use crate::failed::Failed;
use crate::source::Source;
use std::io::Read;
use std::marker::Model;

/// A source over a reader, as standard input. Each error of the reader, an interrupted read too, is a fault.
#[derive(Drop)]
pub struct StdSource<R: Read + Drop> {
    reader: R,
    faults: u64,
}

impl<R: Read + Drop> Model for StdSource<R> {
    ghost Value = { ReaderState };

    ghost view = { λ s. record { left = R.remaining s.reader; faults = s.faults } };
}

impl<R: Read + Drop> StdSource<R> {
    /// What the reader has left, without a fault so far.
    pub fn new(reader: R) -> StdSource<R>
        ensures left { result.left ≡ R.remaining reader }
        ensures faults { result.faults ≡ 0 }
    {
        StdSource { reader, faults: 0 }
    }
}

impl<R: Read + Drop> Source for StdSource<R> {
    ghost left = { λ s. s.left };

    ghost faults = { λ s. s.faults };

    fn read(&mut self, buf: &mut [u8]) -> Result<usize, Failed> {
        match self.reader.read(buf) {
            Ok(count) => Ok(count),
            Err(_) => {
                self.faults = self.faults.saturating_add(1);
                Err(Failed)
            }
        }
    }
}
