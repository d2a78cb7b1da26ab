// The slot of the program, over files that are read and written.
use crate::ropes::in_thirds;
use bridge_io::{Failed, FileSlot, Slot, SlotFault};
use rope::Rope;
use std::alloc::{Allocator, Global};
use std::fs::{Metadata, OpenFile, OpenOptions};
use std::io::{ErrorKind, Read, Seek, SeekFrom, Write};
use std::process::Abort;
use std::rt::Files;
use std::test::Fail;
use std::{fs, io};

const STATE: &str = "hggit.state";

const NEW_STATE: &str = "hggit.state.new";

// A test may start in a folder that an earlier run used, and leaves it as it found it.
fn clear(files: &impl Files) {
    for name in [STATE, NEW_STATE] {
        let _ = fs::remove_file(files, name);
        let _ = fs::remove_dir(files, name);
    }
}

// One test, since all of it goes over one file.
#[test]
fn a_file_slot_holds_its_last_replacement(rt: HostRuntime) -> Result<(), Fail> {
    clear(&rt);
    small_texts(&rt)?;
    large_texts(&rt)?;
    changing_text(&rt)?;
    clear(&rt);
    no_plain_file(&rt)?;
    clear(&rt);
    Ok(())
}

// Whether the slot has no text yet.
fn is_new(rt: &(impl Files + AllocGlobal)) -> bool {
    let mut into = Vec::new(rt.alloc());
    FileSlot::new(rt.alloc(), rt).fetch(9, &mut into) == Ok(false)
}

// Whether a text is put into the slot, and no other file is left.
fn is_replaced(rt: &(impl Files + AllocGlobal), text: &[u8]) -> Result<bool, Fail> {
    let rope = in_thirds(rt.alloc(), text)?;
    let is_put = FileSlot::new(rt.alloc(), rt).replace(&rope) == Ok(());
    let is_left = fs::exists(rt, NEW_STATE)?;
    Ok(is_put && !is_left)
}

// Whether the slot has this text, of `limit` bytes at most.
fn is_fetched(rt: &(impl Files + AllocGlobal), limit: usize, text: &[u8]) -> bool {
    let mut into = Vec::new(rt.alloc());
    FileSlot::new(rt.alloc(), rt).fetch(limit, &mut into) == Ok(true) && into.as_slice() == text
}

// Whether the slot gives nothing for this reason.
fn is_refused(rt: &(impl Files + AllocGlobal), limit: usize, fault: SlotFault) -> bool {
    let mut into = Vec::new(rt.alloc());
    FileSlot::new(rt.alloc(), rt).fetch(limit, &mut into) == Err(fault) && into.is_empty()
}

const TEXTS: &[&[u8]] = &[b"one", b"", b"longer than before", b"four"];

fn small_texts(rt: &(impl Files + AllocGlobal + Abort)) -> Result<(), Fail> {
    assert!(rt; is_new(rt));
    for text in TEXTS {
        let is_replaced = is_replaced(rt, text)?;
        let is_fetched = is_fetched(rt, text.len(), text);
        assert!(rt; is_replaced && is_fetched);
    }
    assert!(rt; is_refused(rt, 3, SlotFault::TooLong));
    Ok(())
}

// The numbers below a count, in four bytes each.
fn numbers(alloc: Global, count: u32) -> Result<Vec<u8>, Fail> {
    let mut text = Vec::new(alloc);
    for number in 0..count {
        text.extend_from_slice(&number.to_le_bytes())?;
    }
    Ok(text)
}

// How many numbers texts have: the thirds of the first are gathered before they are written, those of the other are written one by one.
const COUNTS: &[u32] = &[30_000, 300_000];

fn large_texts(rt: &(impl Files + AllocGlobal + Abort)) -> Result<(), Fail> {
    for count in COUNTS {
        let text = numbers(rt.alloc(), *count)?;
        let is_replaced = is_replaced(rt, &text)?;
        let is_fetched = is_fetched(rt, usize::MAX, &text);
        assert!(rt; is_replaced && is_fetched);
    }
    Ok(())
}

fn no_plain_file(rt: &(impl Files + AllocGlobal + Abort)) -> Result<(), Fail> {
    fs::create_dir(rt, STATE)?;
    let text = Rope::of(rt.alloc(), b"text".to_vec(rt.alloc())?);
    let is_put = FileSlot::new(rt.alloc(), rt).replace(&text) == Err(Failed);
    assert!(rt; is_put && is_refused(rt, 9, SlotFault::Failed));
    Ok(())
}

// Files of which an open one is as long as another file was.
#[derive(Drop)]
struct Changing<'a, R: Files> {
    files: &'a R,
    before: &'a Metadata,
}

impl<'a, R: Files> Files for Changing<'a, R> {
    type File = Changed<'a, R::File>;

    type Dir = R::Dir;

    fn open_file(&self, how: &OpenOptions, path: &str) -> io::Result<Changed<'a, R::File>> {
        let file = self.files.open_file(how, path)?;
        Ok(Changed {
            file,
            before: self.before,
        })
    }

    fn open_dir(&self, path: &str) -> io::Result<R::Dir> {
        self.files.open_dir(path)
    }

    fn metadata(&self, path: &str) -> io::Result<Metadata> {
        Files::metadata(self.files, path)
    }

    fn symlink_metadata(&self, path: &str) -> io::Result<Metadata> {
        self.files.symlink_metadata(path)
    }

    fn copy(&self, from: &str, to: &str) -> io::Result<u64> {
        self.files.copy(from, to)
    }

    fn rename(&self, from: &str, to: &str) -> io::Result<()> {
        self.files.rename(from, to)
    }

    fn remove_file(&self, path: &str) -> io::Result<()> {
        self.files.remove_file(path)
    }

    fn create_dir(&self, path: &str) -> io::Result<()> {
        self.files.create_dir(path)
    }

    fn remove_dir(&self, path: &str) -> io::Result<()> {
        self.files.remove_dir(path)
    }

    fn remove_dir_all<B: Allocator>(&self, alloc: B, path: &str) -> io::Result<()> {
        self.files.remove_dir_all(alloc, path)
    }
}

// An open file whose length was another when it was asked for.
#[derive(Drop)]
struct Changed<'a, F: Read + Write + Seek + Drop> {
    file: F,
    before: &'a Metadata,
}

impl<F: Read + Write + Seek + Drop> Read for Changed<'_, F> {
    fn read(&mut self, buf: &mut [u8]) -> io::Result<usize> {
        self.file.read(buf)
    }
}

impl<F: Read + Write + Seek + Drop> Write for Changed<'_, F> {
    fn write(&mut self, piece: &[u8]) -> io::Result<usize> {
        self.file.write(piece)
    }

    fn flush(&mut self) -> io::Result<()> {
        self.file.flush()
    }
}

impl<F: Read + Write + Seek + Drop> Seek for Changed<'_, F> {
    fn seek(&mut self, to: SeekFrom) -> io::Result<u64> {
        self.file.seek(to)
    }
}

impl<F: Read + Write + Seek + Drop> OpenFile for Changed<'_, F> {
    fn metadata(&self) -> io::Result<Metadata> {
        Ok(self.before.clone()?)
    }

    fn set_len(&self, _size: u64) -> io::Result<()> {
        Err(io::Error::from(ErrorKind::Unsupported))
    }

    fn sync_all(&self) -> io::Result<()> {
        Err(io::Error::from(ErrorKind::Unsupported))
    }

    fn sync_data(&self) -> io::Result<()> {
        Err(io::Error::from(ErrorKind::Unsupported))
    }
}

// Texts that are fetched where the length was that of `leaf`.
const CHANGED: &[(&str, Result<bool, SlotFault>)] = &[
    ("tree", Ok(true)),
    ("trees", Err(SlotFault::Failed)),
    ("oak", Err(SlotFault::Failed)),
    ("", Err(SlotFault::Failed)),
];

// What is fetched of a file that was another.
fn fetched_after(rt: &(impl Files + AllocGlobal), before: &Metadata) -> Result<bool, SlotFault> {
    let mut into = Vec::new(rt.alloc());
    FileSlot::new(rt.alloc(), Changing { files: rt, before }).fetch(4, &mut into)
}

// The metadata of the file `leaf`, which has another text then.
fn metadata_before(rt: &impl Files, text: &str) -> Result<Metadata, Fail> {
    fs::write(rt, STATE, "leaf")?;
    let before = fs::metadata(rt, STATE)?;
    fs::write(rt, STATE, text)?;
    Ok(before)
}

fn changing_text(rt: &(impl Files + AllocGlobal + Abort)) -> Result<(), Fail> {
    for (text, want) in CHANGED {
        let before = metadata_before(rt, text)?;
        assert!(rt; fetched_after(rt, &before) == *want);
    }
    Ok(())
}
