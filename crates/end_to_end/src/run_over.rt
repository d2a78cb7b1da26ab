// A run of the program over objects in memory.
ghost use Rattle.std.specs.Prelude.{◌≡◌, ◌<◌};

use bridge_cli::{Status, Words, run};
use bridge_io::{MemSink, MemSlot, MemSource, Steps};
use std::alloc::{AllocError, Global};
use std::marker::Brand;
use std::sync::ledger::{Blank, Ledger};

/// How much an output takes, unless it is told otherwise.
pub const ROOM: usize = 4096;

/// What the outside of a run is.
#[derive(Clone, Copy)]
pub struct Outside<'a> {
    pub input: &'a [u8],
    /// The most bytes of one call of a source or a sink; 0 is no bound.
    pub cut: usize,
    /// The calls of the input and of the output that fail.
    pub input_fails: &'a [u64],
    pub output_fails: &'a [u64],
    /// How many bytes the output takes in all.
    pub room: usize,
    /// What the slot holds, and its calls that fail.
    pub held: Option<&'a [u8]>,
    pub slot_fails: &'a [u64],
}

impl<'a> Outside<'a> {
    /// An input that comes in pieces, an output with room, and a slot that holds nothing.
    pub fn of(input: &'a [u8], cut: usize) -> Outside<'a> {
        Outside {
            input,
            cut,
            input_fails: &[],
            output_fails: &[],
            room: ROOM,
            held: None,
            slot_fails: &[],
        }
    }

    /// The same over a slot that holds a text.
    pub fn over(input: &'a [u8], held: &'a [u8]) -> Outside<'a> {
        Outside {
            held: Some(held),
            ..Outside::of(input, 0)
        }
    }
}

/// What a run did: its status, its output and its line on the errors, and what the slot holds then.
#[derive(Drop)]
pub struct Outcome {
    pub status: Status,
    pub output: Vec<u8>,
    pub errors: Vec<u8>,
    pub held: Option<Vec<u8>>,
}

/// The words of a command line.
pub fn words_of(alloc: Global, words: &[&[u8]]) -> Result<Words, AllocError> {
    let mut list = Words::new(alloc);
    for word in words {
        if list.push(word).is_err() {
            return Err(AllocError);
        }
    }
    Ok(list)
}

/// Runs the command that the words ask for.
pub fn run_over(
    alloc: Global,
    words: &[&[u8]],
    outside: Outside<'_>,
) -> Result<Outcome, AllocError> {
    let words = words_of(alloc, words)?;
    counted::<Brand>(alloc, &words, outside, Blank::new(1))
}

fn input_of(alloc: Global, outside: &Outside<'_>) -> Result<MemSource, AllocError> {
    let bytes = outside.input.to_vec(alloc)?;
    let fails = outside.input_fails.to_vec(alloc)?;
    Ok(MemSource::new(bytes, outside.cut, fails))
}

// A sink with so much room, some calls of which fail.
pub fn sink_of(
    alloc: Global,
    room: usize,
    cut: usize,
    fails: &[u64],
) -> Result<MemSink, AllocError> {
    let bytes = Vec::with_capacity(alloc, room)?;
    let fails = fails.to_vec(alloc)?;
    Ok(MemSink::new(bytes, room, cut, fails))
}

// A slot that holds this, some calls of which fail.
fn slot_of(alloc: Global, outside: &Outside<'_>) -> Result<MemSlot, AllocError> {
    let held = copy_of(alloc, outside.held)?;
    let room = Vec::with_capacity(alloc, ROOM)?;
    let fails = outside.slot_fails.to_vec(alloc)?;
    Ok(MemSlot::new(held, room, ROOM, fails))
}

fn copy_of(alloc: Global, bytes: Option<&[u8]>) -> Result<Option<Vec<u8>>, AllocError> {
    match bytes {
        Some(bytes) => Ok(Some(bytes.to_vec(alloc)?)),
        None => Ok(None),
    }
}

fn outcome_of(
    alloc: Global,
    status: Status,
    output: &MemSink,
    errors: &MemSink,
    slot: &MemSlot,
) -> Result<Outcome, AllocError> {
    let output = output.bytes().to_vec(alloc)?;
    let errors = errors.bytes().to_vec(alloc)?;
    let held = copy_of(alloc, slot.bytes())?;
    Ok(Outcome {
        status,
        output,
        errors,
        held,
    })
}

fn counted<L: Ledger>(
    alloc: Global,
    words: &Words,
    outside: Outside<'_>,
    blank: Blank,
) -> Result<Outcome, AllocError>
    requires name { blank.name ≡ L.name }
    requires parts { blank.parts ≡ L.parts }
    requires some { 0 < blank.parts }
{
    let mut steps = Steps::<L>::new(blank);
    let mut input = input_of(alloc, &outside)?;
    let mut output = sink_of(alloc, outside.room, outside.cut, outside.output_fails)?;
    let mut errors = sink_of(alloc, ROOM, outside.cut, &[])?;
    let mut slot = slot_of(alloc, &outside)?;
    let status = run(
        alloc,
        words,
        &mut input,
        &mut output,
        &mut errors,
        &mut slot,
        &mut steps,
    );
    outcome_of(alloc, status, &output, &errors, &slot)
}
