//! A schedule of a world of nodes that is drawn from a number.
#![tactic(auto)]

ghost use Rattle.std.specs.Prelude.{ℕ, None, Ok, length, drop, ◌≡◌, ◌≤◌, ◌++◌, IfOk, OnOk, OnErr};
ghost use Rattle.std.specs.List.{AllByRecursion};
ghost use Rattle.schedule_text.specs.declared.read.Read.TheVariants as read;
ghost use Rattle.schedule_text.specs.Words.{spaced};
ghost use Rattle.schedule_text.specs.Lines.{line_of};
ghost use Rattle.schedule_text.specs.Entries.{header_words, entry_line};
ghost use Rattle.drawn_schedule.specs.Schedule.{the_header, drawn_lines, lines_text, text_of_schedule, IsReadAsWritten, IsHarmless};
ghost use Rattle.trace_model.specs.Lines.{IsNodeHeader};

mod lines;

pub use lines::{draw_lines, drawn_header};
use schedule_text::write_entry;
use std::alloc::Global;
use swp_base::NoMemory;
use trace_model::{Entry, Line};

/// The bytes that stand before a line of a schedule where a transcript repeats it: `> `.
const MARK: usize = 2;

/// Appends the text of a schedule of 2,061 lines, each with its LF: three hosts come up, a pipe is made between two of them, 2,000
/// steps are drawn from `n`, and the tables of the controller are told. They are the lines that `draw_lines` gives, below their header.
/// Where there is no memory for all of it, `out` stays as it was.
pub fn gen_schedule(n: u32, out: &mut Vec<u8>) -> Result<(), NoMemory>
    ensures ok { OnOk result (out.new.items ≡ out.old.items ++ text_of_schedule the_header (drawn_lines n)) }
    ensures err { OnErr result (out.new.items ≡ out.old.items) }
{
    let alloc = *out.allocator();
    let Ok(text) = whole(alloc, n) else {
        return Err(NoMemory);
    };
    match out.extend_from_slice(text.as_slice()) {
        Ok(()) => Ok(()),
        Err(_) => Err(NoMemory),
    }
}

fn whole(alloc: Global, n: u32) -> Result<Vec<u8>, NoMemory>
    ensures { IfOk result (λ text. text.items ≡ text_of_schedule the_header (drawn_lines n)) }
{
    let mut text = Vec::new(alloc);
    append_line(alloc, &Entry::Head(drawn_header()), &mut text)?;
    append_lines(alloc, draw_lines(alloc, n)?, &mut text)?;
    Ok(text)
}

/// Appends lines of a schedule.
fn append_lines(alloc: Global, lines: Vec<Line>, text: &mut Vec<u8>) -> Result<(), NoMemory>
    ensures { OnOk result (text.new.items ≡ text.old.items ++ lines_text lines.items) }
{
    for line in lines {
        append_line(alloc, &Entry::Echo(line), text)?;
    }
    Ok(())
}

/// Appends a line of a schedule as a transcript repeats it, but for the mark before it.
fn append_line(alloc: Global, repeated: &Entry, text: &mut Vec<u8>) -> Result<(), NoMemory>
    requires marked { 2 ≤ length (entry_line repeated.now) }
    ensures { OnOk result (text.new.items ≡ text.old.items ++ drop 2 (entry_line repeated.now)) }
{
    let mut line = Vec::new(alloc);
    write_entry(alloc, repeated, &mut line)?;
    text.extend_from_slice(&line[MARK..])?;
    Ok(())
}

/// The lines of such a schedule may stand below its header, which is one of nodes, and none of them damages a frame or lets a world settle.
pub fn drawn_lines_may_be_played()
    ensures header { IsNodeHeader the_header }
    ensures lines { (n : ℕ) → AllByRecursion IsHarmless (drawn_lines n) }
{}

/// The lines of such a schedule are read as what they say: the header, and 2,060 lines that may stand below it.
pub fn drawn_lines_are_read()
    ensures header { line_of None (spaced (header_words the_header)) ≡ Ok (read.Header the_header) }
    ensures lines { (n : ℕ) → AllByRecursion IsReadAsWritten (drawn_lines n) }
    ensures count { (n : ℕ) → length (drawn_lines n) ≡ 2060 }
{}
