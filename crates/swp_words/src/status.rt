//! How a run of the program ended.
ghost use Rattle.std.specs.Prelude.{◌≡◌, ◌++◌, IfOk, OnOk, OnErr, string_bytes};
ghost use Rattle.swp_words.specs.Statuses.{fault_text, exit_code_of, at_line, status_line};

use nv_journal::JournalFault;
use schedule_text::LineFault;
use std::alloc::{AllocError, Global};
use swp_base::NoMemory;

/// How a run of the program ended (this project's own).
#[derive(Clone, Copy, Debug, PartialEq, Eq)]
pub enum Status {
    /// The job was done; the input, where the command reads any, was read to its end.
    Done,
    /// The words are no command of the program.
    BadWords,
    /// Line `line`, counted from 1, is the first one outside the forms of a schedule.
    BadSchedule { line: u64, fault: LineFault },
    /// Line `line` damages a frame so that it reads as another one.
    Undetected { line: u64 },
    /// A read of the input failed.
    ReadFault,
    /// A write of the output failed.
    WriteFault,
    /// A read or a write of the memory failed.
    NvFault,
    /// There was no memory for the run.
    NoMemory,
    /// More input began than is taken: `count` is the number of the line or byte that is one too many.
    TooMany { count: u64 },
    /// The memory's content can't be used.
    BadImage { fault: JournalFault },
}

/// What a run gives back.
pub struct Ended<N> {
    /// How it ended.
    pub status: Status,
    /// The memory that was handed in.
    pub nv: N,
}

/// The exit status of the program, 0 to 10.
pub fn exit_code(status: &Status) -> u8
    ensures { result ≡ exit_code_of status.now }
{
    match status {
        Status::Done => 0,
        Status::BadWords => 2,
        Status::BadSchedule { .. } => 3,
        Status::Undetected { .. } => 4,
        Status::ReadFault => 5,
        Status::WriteFault => 6,
        Status::NvFault => 7,
        Status::NoMemory => 8,
        Status::TooMany { .. } => 9,
        Status::BadImage { .. } => 10,
    }
}

/// Appends what the program says of a status on standard error, without the end of the line; of `Done` it says nothing.
/// Where there is no memory, `out` stays as it was.
pub fn status_text(alloc: Global, status: &Status, out: &mut Vec<u8>) -> Result<(), NoMemory>
    ensures ok { OnOk result (out.new.items ≡ out.old.items ++ status_line status.now) }
    ensures err { OnErr result (out.new.items ≡ out.old.items) }
{
    let text = text_of(alloc, status)?;
    out.extend_from_slice(text.as_bytes())?;
    Ok(())
}

fn text_of(alloc: Global, status: &Status) -> Result<String, AllocError>
    ensures { IfOk result (λ text. string_bytes text ≡ status_line status.now) }
{
    match status {
        Status::Done => Ok(String::new(alloc)),
        Status::BadWords => {
            String::from_str(
                alloc,
                "usage: swp replay | end ROLE LINK | decode | tables | gen N | tap FORM",
            )
        }
        Status::BadSchedule { line, fault } => {
            let words = fault_words(alloc, *fault)?;
            line_text(alloc, *line, words.as_str())
        }
        Status::Undetected { line } => line_text(alloc, *line, "damage not detected"),
        Status::ReadFault => String::from_str(alloc, "read failed"),
        Status::WriteFault => String::from_str(alloc, "write failed"),
        Status::NvFault => String::from_str(alloc, "memory failed"),
        Status::NoMemory => String::from_str(alloc, "out of memory"),
        Status::TooMany { count } => format!(in alloc; "too much input: {count}"),
        Status::BadImage { fault } => image_text(alloc, *fault),
    }
}

fn line_text(alloc: Global, line: u64, what: &str) -> Result<String, AllocError>
    ensures { IfOk result (λ text. string_bytes text ≡ at_line line what.now) }
{
    format!(in alloc; "line {line}: {what}")
}

fn fault_words(alloc: Global, fault: LineFault) -> Result<String, AllocError>
    ensures { IfOk result (λ text. string_bytes text ≡ fault_text fault) }
{
    match fault {
        LineFault::Word => String::from_str(alloc, "unknown word"),
        LineFault::Number { at } => format!(in alloc; "bad number in word {at}"),
        LineFault::Hex { at } => format!(in alloc; "bad hex in word {at}"),
        LineFault::Host { id } => {
            let host = hex::encode_upper(alloc, [id].as_slice())?;
            format!(in alloc; "bad host {host}")
        }
        LineFault::Order => String::from_str(alloc, "out of order"),
        LineFault::TooLong => String::from_str(alloc, "too long"),
    }
}

fn image_text(alloc: Global, fault: JournalFault) -> Result<String, AllocError>
    ensures { IfOk result (λ text. string_bytes text ≡ status_line (Status.BadImage fault)) }
{
    match fault {
        JournalFault::NvFault => String::from_str(alloc, "memory failed"),
        JournalFault::UnknownFormat { version } => {
            let version = hex::encode_upper(alloc, [version].as_slice())?;
            format!(in alloc; "bad image: version {version}")
        }
        JournalFault::BadRecord { at } => format!(in alloc; "bad image: place {at}"),
        JournalFault::GenerationsSpent => String::from_str(alloc, "bad image: generations spent"),
    }
}
