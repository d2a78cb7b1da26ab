// What each object gives and takes, and when it fails.
ghost use Rattle.std.specs.Prelude.{◌≡◌, ◌+◌, ◌<◌};

use crate::ropes::{bytes_from, in_thirds};
use bridge_io::{
    Failed, FillFault, MemSink, MemSlot, MemSource, Sink, Slot, SlotFault, Source, StdSink,
    StdSource, Steps, fill_vec, skip, write_all, write_rope,
};
use rope::Rope;
use std::alloc::Global;
use std::io;
use std::io::{ErrorKind, Read, Write};
use std::marker::Brand;
use std::sync::ledger::{Blank, Ledger};
use std::test::Fail;

/// What the calls of a source give that fails twice; none where the call fails.
const PIECES: &[Option<&[u8]>] = &[
    Some(b"abc"),
    None,
    Some(b"def"),
    None,
    Some(b"g"),
    Some(b""),
];

// Whether the next call gives these bytes, or fails where there are none.
fn gives(source: &mut MemSource, want: Option<&[u8]>) -> bool {
    let mut buf = [0; 5];
    match source.read(&mut buf) {
        Ok(count) => want == Some(&buf[..count]),
        Err(Failed) => want.is_none(),
    }
}

#[test]
fn a_source_gives_pieces_and_fails_where_told(rt: HostRuntime) -> Result<(), Fail> {
    let alloc = rt.alloc();
    let bytes = b"abcdefg".to_vec(alloc)?;
    let mut source = MemSource::new(bytes, 3, [1, 3].to_vec(alloc)?);
    for want in PIECES {
        let gives = gives(&mut source, *want);
        assert!(rt; gives);
    }
    Ok(())
}

/// How many bytes are skipped and how many are asked for, the call that fails, and what comes.
const READS: &[(u64, usize, u64, Result<&[u8], FillFault>)] = &[
    (0, 5, 9, Ok(b"abcde")),
    (2, 4, 9, Ok(b"cdef")),
    (5, 4, 9, Ok(b"fg")),
    (9, 1, 9, Ok(b"")),
    (2, 4, 2, Err(FillFault::Read)),
];

// A source of seven bytes, in pieces of at most two, of which a call fails.
fn seven_bytes(alloc: Global, failing: u64) -> Result<MemSource, Fail> {
    Ok(MemSource::new(b"abcdefg".to_vec(alloc)?, 2, [failing].to_vec(alloc)?))
}

fn are_skipped(source: &mut MemSource, count: u64) -> bool {
    skip(source, count) == Ok(count.min(7))
}

// Whether this comes where so many bytes are asked for.
fn comes(
    alloc: Global,
    source: &mut MemSource,
    count: usize,
    want: &Result<&[u8], FillFault>,
) -> bool {
    let mut into = Vec::new(alloc);
    match (fill_vec(source, &mut into, count), want) {
        (Ok(()), Ok(bytes)) => into.as_slice() == *bytes,
        (Err(fault), Err(wanted)) => fault == *wanted && into.is_empty(),
        _ => false,
    }
}

#[test]
fn reads_go_on_until_enough_came(rt: HostRuntime) -> Result<(), Fail> {
    for (skipped, count, failing, want) in READS {
        let mut source = seven_bytes(rt.alloc(), *failing)?;
        let are_skipped = are_skipped(&mut source, *skipped);
        let comes = comes(rt.alloc(), &mut source, *count, want);
        assert!(rt; are_skipped && comes);
    }
    Ok(())
}

/// Pieces, and how many of their bytes a sink with five bytes of room takes.
const TAKEN: &[(&[u8], Result<usize, Failed>)] = &[
    (b"abc", Ok(2)),
    (b"c", Err(Failed)),
    (b"c", Ok(1)),
    (b"", Ok(0)),
    (b"de", Ok(2)),
    (b"", Ok(0)),
    (b"f", Err(Failed)),
];

// A sink with so much room, in pieces of at most `cut` bytes, of which a call fails.
fn sink(alloc: Global, room: usize, cut: usize, failing: u64) -> Result<MemSink, Fail> {
    let bytes = Vec::with_capacity(alloc, room)?;
    Ok(MemSink::new(bytes, room, cut, [failing].to_vec(alloc)?))
}

fn takes(sink: &mut MemSink, piece: &[u8], want: Result<usize, Failed>) -> bool {
    sink.write(piece) == want
}

// Whether the flush of a sink with these bytes goes well, and not before it they are flushed.
fn is_flushed(sink: &mut MemSink, bytes: &[u8]) -> bool {
    let is_flushed_early = !sink.flushed().is_empty();
    let is_flushed = sink.flush() == Ok(()) && sink.flushed() == bytes && sink.bytes() == bytes;
    is_flushed && !is_flushed_early
}

#[test]
fn a_sink_takes_pieces_up_to_its_room(rt: HostRuntime) -> Result<(), Fail> {
    let mut sink = sink(rt.alloc(), 5, 2, 1)?;
    for (piece, want) in TAKEN {
        let takes = takes(&mut sink, piece, *want);
        assert!(rt; takes);
    }
    let is_flushed = is_flushed(&mut sink, b"abcde");
    assert!(rt; is_flushed);
    Ok(())
}

/// The longest piece that a sink takes, the call that fails, the answer, and what the sink has taken then.
const WRITTEN: &[(usize, u64, Result<(), Failed>, &[u8])] = &[
    (0, 9, Ok(()), b"abcdefg"),
    (3, 9, Ok(()), b"abcdefg"),
    (3, 2, Err(Failed), b"abcdef"),
    (3, 0, Err(Failed), b""),
];

fn is_written(sink: &mut MemSink, want: Result<(), Failed>, taken: &[u8]) -> bool {
    write_all(sink, b"abcdefg") == want && sink.bytes() == taken
}

#[test]
fn all_is_written_or_a_front(rt: HostRuntime) -> Result<(), Fail> {
    for (cut, failing, want, taken) in WRITTEN {
        let mut sink = sink(rt.alloc(), 7, *cut, *failing)?;
        let is_written = is_written(&mut sink, *want, taken);
        assert!(rt; is_written);
    }
    Ok(())
}

/// The longest piece that a sink takes, the call that fails, the answer, and how much the sink has taken of 9,000 bytes in
/// three pieces.
const ROPES: &[(usize, u64, Result<(), Failed>, usize)] = &[
    (0, 9, Ok(()), 9_000),
    (2_000, 9, Ok(()), 9_000),
    (2_000, 3, Err(Failed), 5_000),
    (0, 1, Err(Failed), 3_000),
    (0, 0, Err(Failed), 0),
];

// Whether the sink has so many bytes of a text in pieces after this answer.
fn is_rope_written(
    alloc: Global,
    sink: &mut MemSink,
    want: Result<(), Failed>,
    taken: usize,
) -> Result<bool, Fail> {
    let bytes = bytes_from(alloc, 0, 9_000)?;
    let rope = in_thirds(alloc, &bytes)?;
    Ok(write_rope(sink, &rope) == want && bytes.get(..taken) == Some(sink.bytes()))
}

#[test]
fn all_pieces_are_written_or_a_front(rt: HostRuntime) -> Result<(), Fail> {
    for (cut, failing, want, taken) in ROPES {
        let mut sink = sink(rt.alloc(), 9_000, *cut, *failing)?;
        let is_written = is_rope_written(rt.alloc(), &mut sink, *want, *taken)?;
        assert!(rt; is_written);
    }
    Ok(())
}

fn is_replaced(
    alloc: Global,
    slot: &mut MemSlot,
    text: &[u8],
    want: Result<(), Failed>,
) -> Result<bool, Fail> {
    let text = Rope::of(alloc, text.to_vec(alloc)?);
    Ok(slot.replace(&text) == want)
}

// Whether so many bytes at most are fetched so; where the answer is that there are some, these.
fn is_fetched(
    alloc: Global,
    slot: &mut MemSlot,
    limit: usize,
    want: Result<bool, SlotFault>,
    bytes: &[u8],
) -> bool {
    let mut into = Vec::new(alloc);
    slot.fetch(limit, &mut into) == want && into.as_slice() == bytes
}

/// A slot with five bytes of room, whose third call fails.
fn small_slot(alloc: Global) -> Result<MemSlot, Fail> {
    let room = Vec::with_capacity(alloc, 5)?;
    Ok(MemSlot::new(None, room, 5, [2].to_vec(alloc)?))
}

#[test]
fn a_slot_in_memory_holds_its_last_replacement(rt: HostRuntime) -> Result<(), Fail> {
    let mut slot = small_slot(rt.alloc())?;
    assert!(rt; is_fetched(rt.alloc(), &mut slot, 9, Ok(false), b""));
    assert!(rt; is_replaced(rt.alloc(), &mut slot, b"abc", Ok(()))?);
    assert!(rt; is_fetched(rt.alloc(), &mut slot, 3, Err(SlotFault::Failed), b""));
    assert!(rt; is_replaced(rt.alloc(), &mut slot, b"def", Err(Failed))?);
    assert!(rt; slot.bytes() == Some(b"abc".as_slice()));
    assert!(rt; is_replaced(rt.alloc(), &mut slot, b"de", Ok(()))?);
    assert!(rt; is_fetched(rt.alloc(), &mut slot, 1, Err(SlotFault::TooLong), b""));
    assert!(rt; is_fetched(rt.alloc(), &mut slot, 2, Ok(true), b"de"));
    Ok(())
}

/// How much room a slot has, and whether 9,000 bytes in three pieces are put into it.
const ROOMS: &[(usize, Result<(), Failed>)] = &[
    (9_000, Ok(())),
    (9_001, Ok(())),
    (8_999, Err(Failed)),
    (3_000, Err(Failed)),
    (0, Err(Failed)),
];

// Whether a slot with so much room has all of a text in pieces after this answer, or nothing.
fn is_whole_or_nothing(alloc: Global, room: usize, want: Result<(), Failed>) -> Result<bool, Fail> {
    let bytes = bytes_from(alloc, 0, 9_000)?;
    let rope = in_thirds(alloc, &bytes)?;
    let space = Vec::with_capacity(alloc, room)?;
    let mut slot = MemSlot::new(None, space, room, Vec::new(alloc));
    let is_answered = slot.replace(&rope) == want;
    let held = want.is_ok().then_some(bytes.as_slice());
    Ok(is_answered && slot.bytes() == held)
}

#[test]
fn a_slot_holds_all_pieces_or_none(rt: HostRuntime) -> Result<(), Fail> {
    for (room, want) in ROOMS {
        let is_whole_or_nothing = is_whole_or_nothing(rt.alloc(), *room, *want)?;
        assert!(rt; is_whole_or_nothing);
    }
    Ok(())
}

// A reader or writer whose every second call is an error, and which takes nothing of the piece `stuck`.
#[derive(Drop)]
struct Shaky {
    fails: bool,
}

impl Shaky {
    fn turn(&mut self) -> io::Result<()> {
        self.fails = !self.fails;
        if self.fails {
            Ok(())
        } else {
            Err(io::Error::from(ErrorKind::Other))
        }
    }
}

impl Read for Shaky {
    fn read(&mut self, buf: &mut [u8]) -> io::Result<usize> {
        self.turn()?;
        Ok(buf.len().min(1))
    }
}

impl Write for Shaky {
    fn write(&mut self, piece: &[u8]) -> io::Result<usize> {
        self.turn()?;
        Ok(if piece == b"stuck".as_slice() {
            0
        } else {
            piece.len()
        })
    }

    fn flush(&mut self) -> io::Result<()> {
        self.turn()
    }
}

fn reads(source: &mut StdSource<Shaky>, want: Result<usize, Failed>) -> bool {
    let mut buf = [0; 2];
    source.read(&mut buf) == want
}

#[test]
fn errors_of_a_reader_are_faults(rt: HostRuntime) {
    let mut source = StdSource::new(Shaky { fails: false });
    for want in [Ok(1), Err(Failed), Ok(1)] {
        let reads = reads(&mut source, want);
        assert!(rt; reads);
    }
}

/// Pieces, and how many of their bytes a shaky writer takes.
const SHAKY: &[(&[u8], Result<usize, Failed>)] = &[
    (b"ab", Ok(2)),
    (b"ab", Err(Failed)),
    (b"stuck", Err(Failed)),
    (b"", Err(Failed)),
    (b"", Ok(0)),
];

fn writes(sink: &mut StdSink<Shaky>, piece: &[u8], want: Result<usize, Failed>) -> bool {
    sink.write(piece) == want
}

fn flushes(sink: &mut StdSink<Shaky>, want: Result<(), Failed>) -> bool {
    sink.flush() == want
}

#[test]
fn errors_of_a_writer_are_faults(rt: HostRuntime) {
    let mut sink = StdSink::new(Shaky { fails: false });
    for (piece, want) in SHAKY {
        let writes = writes(&mut sink, piece, *want);
        assert!(rt; writes);
    }
    for want in [Err(Failed), Ok(())] {
        let flushes = flushes(&mut sink, want);
        assert!(rt; flushes);
    }
}

#[test]
fn steps_are_counted() {
    count_two::<Brand>(Blank::new(1));
}

fn count_two<L: Ledger>(blank: Blank)
    requires name { blank.name ≡ L.name }
    requires parts { blank.parts ≡ L.parts }
    requires some { 0 < blank.parts }
{
    let mut steps = Steps::<L>::new(blank);
    tick_twice(&mut steps);
}

// Two ticks are two steps.
fn tick_twice<L: Ledger>(steps: &mut Steps<L>)
    ensures { steps.new ≡ 2 + steps.old }
{
    steps.tick();
    steps.tick();
}
