//! How a run of the program ended.
ghost use Rattle.std.specs.Prelude.{◌≡◌, IfOk, string_bytes};
ghost use Rattle.swp_capture.specs.Statuses.{capture_code_of, capture_line, capture_fault_text};

use std::alloc::{AllocError, Global};
use vcd_text::VcdFault;

/// How a run of the program ended (this project's own).
#[derive(Clone, Copy, Debug, PartialEq, Eq)]
pub enum CaptureStatus {
    /// The capture was read to its end, and its record written.
    Done,
    /// The words are no command of the program.
    BadWords,
    /// Line `line`, from 1, is the first one that is no part of a capture.
    BadCapture { line: u64, fault: VcdFault },
    /// The rate was to be found, and fewer than 8 bit periods were.
    NoRate,
    /// A read of the input failed.
    ReadFault,
    /// A write of the output failed.
    WriteFault,
    /// There was no memory for the words.
    NoMemory,
    /// The record has more than 16,777,216 bytes.
    TooLong,
}

/// The exit status of the program.
pub fn exit_code(status: &CaptureStatus) -> u8
    ensures { result ≡ capture_code_of status.now }
{
    match status {
        CaptureStatus::Done => 0,
        CaptureStatus::BadWords => 2,
        CaptureStatus::BadCapture { .. } => 3,
        CaptureStatus::NoRate => 4,
        CaptureStatus::ReadFault => 5,
        CaptureStatus::WriteFault => 6,
        CaptureStatus::NoMemory => 8,
        CaptureStatus::TooLong => 9,
    }
}

/// What the program says of a status on standard error; of `Done` it says nothing.
pub fn status_text(alloc: Global, status: &CaptureStatus) -> Result<String, AllocError>
    ensures { IfOk result (λ text. string_bytes text ≡ capture_line status.now) }
{
    match status {
        CaptureStatus::Done => Ok(String::new(alloc)),
        CaptureStatus::BadWords => String::from_str(alloc, "usage: swp_capture vcd RATE|auto"),
        CaptureStatus::BadCapture { line, fault } => {
            let words = fault_words(*fault);
            format!(in alloc; "line {line}: {words}")
        }
        CaptureStatus::NoRate => String::from_str(alloc, "no rate: fewer than 8 bit periods found"),
        CaptureStatus::ReadFault => String::from_str(alloc, "read failed"),
        CaptureStatus::WriteFault => String::from_str(alloc, "write failed"),
        CaptureStatus::NoMemory => String::from_str(alloc, "out of memory"),
        CaptureStatus::TooLong => String::from_str(
            alloc,
            "record too long: more than 16777216 bytes",
        ),
    }
}

fn fault_words(fault: VcdFault) -> &'static str
    ensures { result.now ≡ capture_fault_text fault }
{
    match fault {
        VcdFault::NoVcd => "no declaration",
        VcdFault::NoDefinitions => "no end of the declarations",
        VcdFault::NoTimescale => "no time scale",
        VcdFault::BadTimescale => "bad time scale",
        VcdFault::BadVariable => "bad variable",
        VcdFault::NoS1 => "no signal S1",
        VcdFault::NoS2 => "no signal S2",
        VcdFault::TwoS1 => "two signals S1",
        VcdFault::TwoS2 => "two signals S2",
        VcdFault::SameSignal => "S1 and S2 are one signal",
        VcdFault::BadTime => "bad time",
        VcdFault::TimeBack => "time goes back",
        VcdFault::TimeTooLarge => "time too large",
        VcdFault::BadChange => "bad change",
        VcdFault::NoTime => "no time",
    }
}
