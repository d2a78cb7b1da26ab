// The slot of the program: a file in the current folder.
ghost use Rattle.std.specs.Prelude.{◌≡◌, ◌≤◌, ℕ, [], None, Ok, false, OnOk, length};

use crate::failed::Failed;
use crate::slot::{Slot, SlotFault};
use bytes::Bytes;
use rope::Rope;
use std::alloc::Global;
use std::fs::OpenFile;
use std::io::{BufWriter, ErrorKind, Read, Write};
use std::marker::Model;
use std::rt::Files;
use std::{fs, io};

const STATE: &str = "hggit.state";

const NEW_STATE: &str = "hggit.state.new";

/// How many bytes are gathered before they are written: the pieces of a state are short, and the system takes its time for each write.
const WRITTEN_LEN: usize = 1 << 16;

/// The file `hggit.state` in the current folder. While there is no such file, nothing is held. It tells no content.
///
/// A replacement is written to `hggit.state.new`, handed to the disk, and renamed. So a replacement that fails or is cut
/// off before the renaming leaves the old file as it was.
#[derive(Drop)]
pub struct FileSlot<R: Files + Drop> {
    alloc: Global,
    files: R,
    faults: u64,
}

impl<R: Files + Drop> Model for FileSlot<R> {
    ghost Value = { ℕ };

    ghost view = { λ s. s.faults };
}

impl<R: Files + Drop> FileSlot<R> {
    /// A slot without a fault so far. Contracts see the number of its faults.
    pub fn new(alloc: Global, files: R) -> FileSlot<R>
        ensures { result ≡ 0 }
    {
        FileSlot {
            alloc,
            files,
            faults: 0,
        }
    }
}

impl<R: Files + Drop> Slot for FileSlot<R> {
    ghost held = { λ _. None };

    ghost faults = { λ s. s };

    /// `Failed` comes where the file can't be opened or read, where it is no plain file, and where its length changes
    /// while it is read.
    fn fetch(&mut self, max: usize, into: &mut Vec<u8>) -> Result<bool, SlotFault> {
        match fetch_file(&self.files, max, into) {
            Ok(found) => Ok(found),
            Err(fault) => {
                into.clear();
                if fault == SlotFault::Failed {
                    self.faults = self.faults.saturating_add(1);
                }
                Err(fault)
            }
        }
    }

    /// `Failed` comes where the new file can't be made, written or renamed, want of memory included.
    fn replace(&mut self, text: &Rope) -> Result<(), Failed> {
        match replace_file(self.alloc, &self.files, text) {
            Ok(()) => Ok(()),
            Err(_) => {
                self.faults = self.faults.saturating_add(1);
                Err(Failed)
            }
        }
    }
}

// Answers whether there is a file, and appends its bytes.
fn fetch_file(files: &impl Files, max: usize, into: &mut Vec<u8>) -> Result<bool, SlotFault>
    requires empty { into.old.items ≡ [] }
    ensures most { OnOk result (length into.new.items ≤ max) }
    ensures none { result ≡ Ok false → into.new.items ≡ [] }
{
    match fs::open(files, STATE) {
        Ok(file) => {
            read_whole(file, max, into)?;
            Ok(true)
        }
        Err(error) if error.kind() == ErrorKind::NotFound => Ok(false),
        Err(error) => Err(fault_of(&error)),
    }
}

// Reads a plain file of at most `max` bytes whole.
fn read_whole<F: Read + OpenFile + Drop>(
    file: F,
    max: usize,
    into: &mut Vec<u8>,
) -> Result<(), SlotFault>
    requires empty { into.old.items ≡ [] }
    ensures most { OnOk result (length into.new.items ≤ max) }
{
    let len = plain_len(&file)?;
    if len > max as u64 {
        return Err(SlotFault::TooLong);
    }
    // One byte more than its length, so that a file that grows is noticed and the end is read into room that is there.
    let limit = len.saturating_add(1);
    if into.reserve_exact(limit as usize).is_err() {
        return Err(SlotFault::Memory);
    }
    match file.take(limit).read_to_end(into) {
        Ok(count) if count as u64 == len => Ok(()),
        Ok(_) => Err(SlotFault::Failed),
        Err(error) => Err(fault_of(&error)),
    }
}

// The length of a plain file in bytes.
fn plain_len(file: &impl OpenFile) -> Result<u64, SlotFault> {
    match file.metadata() {
        Ok(metadata) if metadata.is_file() => Ok(metadata.len()),
        Ok(_) => Err(SlotFault::Failed),
        Err(error) => Err(fault_of(&error)),
    }
}

fn fault_of(error: &io::Error) -> SlotFault {
    match error.kind() {
        ErrorKind::OutOfMemory => SlotFault::Memory,
        _ => SlotFault::Failed,
    }
}

// Writes the new file, hands it to the disk, and puts it in the place of the old one.
fn replace_file(alloc: Global, files: &impl Files, text: &Rope) -> io::Result<()> {
    let file = fs::create(files, NEW_STATE)?;
    let mut writer = BufWriter::with_capacity(alloc, WRITTEN_LEN, file)?;
    let (pieces, end) = text.pieces();
    write_pieces(&mut writer, pieces)?;
    writer.write_all(end)?;
    let file = writer.into_inner()?;
    file.sync_all()?;
    fs::rename(files, NEW_STATE, STATE)
}

// Writes pieces one behind the other.
fn write_pieces(file: &mut impl Write, pieces: &[Bytes]) -> io::Result<()> {
    for piece in pieces {
        file.write_all(piece.as_slice())?;
    }
    Ok(())
}
