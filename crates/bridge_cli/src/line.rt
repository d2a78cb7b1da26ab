// The line that a run prints on its errors, built without memory.
ghost use Rattle.std.specs.Prelude.{◌≡◌, ◌≤◌, length};
ghost use Rattle.command_model.specs.Run.{BadShape, mismatch_line, refused_line, state_line, report_line};
ghost use Rattle.bridge_text.specs.Refusals.{refusal_value};
ghost use Rattle.bridge_cli.specs.Report.{bad_value, report_value};

use crate::report::{BadState, Report};
use arrayvec::ArrayVec;
use bridge_text::{Id, Refusal};

/// The longest line has 91 bytes.
pub const LONGEST: usize = 96;

/// The line of a report; no bytes where the work was done.
pub fn line_of(report: &Report) -> ArrayVec<u8, LONGEST>
    ensures { result.items ≡ report_line (report_value report.now) }
{
    match report {
        Report::Done => ArrayVec::new(),
        Report::Refused(refusal) => refused_line(refusal),
        Report::Usage => line(b"usage\n"),
        Report::ReadFault => line(b"read fault\n"),
        Report::WriteFault => line(b"write fault\n"),
        Report::SlotFault => line(b"slot fault\n"),
        Report::StateBad(why) => state_line(why),
        Report::Memory => line(b"no memory\n"),
        Report::Mismatch { kept, right } => mismatch_line(kept, right),
    }
}

// These bytes as a line.
fn line(text: &[u8]) -> ArrayVec<u8, LONGEST>
    requires { length text.now ≤ 96 }
    ensures { result.items ≡ text.now }
{
    let mut line = ArrayVec::new();
    line.try_extend_from_slice(text).unwrap();
    line
}

// `refused`, the name, the id in hex digits and the place.
fn refused_line(refusal: &Refusal) -> ArrayVec<u8, LONGEST>
    ensures { result.items ≡ refused_line (refusal_value refusal.now) }
{
    let mut place = itoa::Buffer::new();
    let mut line = line(b"refused ");
    line.try_extend_from_slice(refusal.fault.name()).unwrap();
    line.push(b' ');
    line.try_extend_from_slice(&refusal.id.hex()).unwrap();
    line.push(b' ');
    line.try_extend_from_slice(place.format(refusal.place).as_bytes())
        .unwrap();
    line.push(b'\n');
    line
}

// `state`, a name, and the section that doesn't fit or 0.
fn state_line(why: &BadState) -> ArrayVec<u8, LONGEST>
    ensures { result.items ≡ state_line (bad_value why.now) }
{
    match why {
        BadState::TooLong => line(b"state TooLong 0\n"),
        BadState::OtherVersion => line(b"state StateVersion 0\n"),
        BadState::Shape(section) => shape_line(*section),
    }
}

// `state StateShape` and the section.
fn shape_line(section: u8) -> ArrayVec<u8, LONGEST>
    ensures { result.items ≡ state_line (BadShape section) }
{
    let mut number = itoa::Buffer::new();
    let mut line = line(b"state StateShape ");
    line.try_extend_from_slice(number.format(section).as_bytes())
        .unwrap();
    line.push(b'\n');
    line
}

// `mismatch`, and both ids in hex digits.
fn mismatch_line(kept: &Id, right: &Id) -> ArrayVec<u8, LONGEST>
    ensures { result.items ≡ mismatch_line kept.now right.now }
{
    let mut line = line(b"mismatch ");
    line.try_extend_from_slice(&kept.hex()).unwrap();
    line.push(b' ');
    line.try_extend_from_slice(&right.hex()).unwrap();
    line.push(b'\n');
    line
}
