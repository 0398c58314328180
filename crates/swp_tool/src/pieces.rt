//! A schedule comes in pieces; each line is played as soon as it has ended.
ghost use Rattle.std.specs.Prelude.{◌≡◌, ◌==◌, ◌+◌, ◌<◌, ◌≤◌, ◌++◌, ◌∷◌, [], List, ℕ, length, OnOk, IfOk, IfErr, IfSome, IfNone};
ghost use Rattle.std.specs.Str.Lines.{strip_carriage_return};
ghost use Rattle.swp_tool.specs.Replays.{HasPlayed};
ghost use Rattle.swp_tool.specs.Transcripts.{IsDoneText};
ghost use Rattle.swp_tool.specs.Pieces.{schedule_read, LacksLineFeed, ended_line, HasRead, HasFed, IsReading, Halts, HaltsAtEnd, bytes_left};

use crate::replay::{Halt, Replay};
use memchr::memchr;
use schedule_text::LineFault;
use std::alloc::Global;

/// The most lines of a schedule (this project's own).
const MAX_LINES: u64 = 20_000;

/// The most bytes of a line, without the end of the line (this project's own).
const MAX_LINE: usize = 9_000;

/// The most text that is gathered behind a line before more lines are played.
const MOST_GATHERED: usize = 65_536;

/// A replay, and the front of the line that has not ended yet.
#[derive(Drop)]
pub struct Pieces {
    pub partial: Vec<u8>,
    pub replay: Replay,
}

impl Pieces {
    /// Before the first byte.
    pub fn new(alloc: Global) -> Self
        ensures read { HasRead result [] [] }
        ensures reading { IsReading result }
        ensures text { result.replay.text.items ≡ [] }
    {
        Pieces {
            partial: Vec::new(alloc),
            replay: Replay::new(alloc),
        }
    }

    /// Takes the bytes of a piece, line by line, until all are taken or, behind a line, more than 64 KiB of text are gathered. It gives the
    /// bytes that are left. Where it halts, the text is that of the lines before.
    pub fn feed<'a>(&mut self, alloc: Global, piece: &'a [u8]) -> Result<&'a [u8], Halt>
        requires { IsReading self.old }
        ensures read { IfOk result (λ left. HasFed self.old self.new piece.now left.now) }
        ensures reading { OnOk result (IsReading self.new) }
        ensures counted { self.new.replay.count ≤ 20000 }
        ensures halts { IfErr result (λ why. (bytes written : List ℕ) → HasRead self.old bytes written
            → Halts why self.new.replay.count (bytes ++ piece.now) (written ++ self.new.replay.text.items)) }
    {
        let mut left = piece;
        'lines: while let Some((line, more)) = cut_line(left) {
            self.take_line(alloc, line)?;
            left = more;
            if self.replay.text.len() > MOST_GATHERED {
                return Ok(left);
            }
        }
        self.keep(left)?;
        Ok(&[])
    }

    /// The bytes have ended: plays the line that no LF has ended, if there is one, and gathers the last line of the
    /// transcript. Where it halts, the text is that of the lines before.
    pub fn finish(&mut self, alloc: Global) -> Result<(), Halt>
        requires { IsReading self.old }
        ensures counted { self.new.replay.count ≤ 20000 }
        ensures done { OnOk result ((bytes written : List ℕ) → HasRead self.old bytes written
            → IsDoneText bytes (written ++ self.new.replay.text.items)) }
        ensures halts { IfErr result (λ why. (bytes written : List ℕ) → HasRead self.old bytes written
            → HaltsAtEnd why self.new.replay.count bytes (written ++ self.new.replay.text.items)) }
    {
        self.play_rest(alloc)?;
        self.replay.close(alloc)
    }

    /// Plays the line that no LF has ended, if there is one.
    fn play_rest(&mut self, alloc: Global) -> Result<(), Halt>
        requires { IsReading self.old }
        ensures counted { self.new.replay.count ≤ 20000 }
        ensures played { OnOk result ((bytes written : List ℕ) → HasRead self.old bytes written → HasPlayed self.new.replay (schedule_read bytes) written) }
        ensures halts { IfErr result (λ why. (bytes written : List ℕ) → HasRead self.old bytes written
            → HaltsAtEnd why self.new.replay.count bytes (written ++ self.new.replay.text.items)) }
    {
        let rest = self.partial.as_slice();
        if rest.is_empty() {
            return Ok(());
        }
        self.replay.play(alloc, rest)
    }

    /// Takes bytes and the LF that ends their line, which is played where it stands if it lies whole in the piece.
    fn take_line(&mut self, alloc: Global, bytes: &[u8]) -> Result<(), Halt>
        requires reading { IsReading self.old }
        requires lacks { LacksLineFeed bytes.now }
        ensures read { OnOk result ((before written : List ℕ) → HasRead self.old before written → HasRead self.new (before ++ ended_line bytes.now) written) }
        ensures reading { OnOk result (IsReading self.new) }
        ensures counted { self.new.replay.count ≤ 20000 }
        ensures progress { OnOk result (bytes_left self.new + length (ended_line bytes.now) ≤ bytes_left self.old) }
        ensures halts { IfErr result (λ why. (before written : List ℕ) → HasRead self.old before written
            → Halts why self.new.replay.count (before ++ ended_line bytes.now) (written ++ self.new.replay.text.items)) }
    {
        if self.replay.count == MAX_LINES {
            return Err(Halt::TooMany);
        }
        if self.partial.is_empty() && bytes.len() <= MAX_LINE + 1 {
            return self.replay.play(alloc, without_carriage_return(bytes));
        }
        self.keep(bytes)?;
        let line = without_carriage_return(self.partial.as_slice());
        self.replay.play(alloc, line)?;
        self.partial.clear();
        Ok(())
    }

    /// Keeps bytes of the line that has not ended.
    fn keep(&mut self, bytes: &[u8]) -> Result<(), Halt>
        requires reading { IsReading self.old }
        requires lacks { LacksLineFeed bytes.now }
        ensures read { OnOk result ((before written : List ℕ) → HasRead self.old before written → HasRead self.new (before ++ bytes.now) written) }
        ensures reading { OnOk result (IsReading self.new) }
        ensures same { self.new.replay ≡ self.old.replay }
        ensures counted { self.new.replay.count ≤ 20000 }
        ensures progress { OnOk result (bytes_left self.new + length bytes.now ≡ bytes_left self.old) }
        ensures halts { IfErr result (λ why. (before written : List ℕ) → HasRead self.old before written
            → Halts why self.new.replay.count (before ++ bytes.now) (written ++ self.new.replay.text.items)) }
    {
        if bytes.is_empty() {
            return Ok(());
        }
        if self.replay.count == MAX_LINES {
            return Err(Halt::TooMany);
        }
        if bytes.len() > MAX_LINE + 1 - self.partial.len() {
            return Err(Halt::Fault(LineFault::TooLong));
        }
        match self.partial.extend_from_slice(bytes) {
            Ok(()) => Ok(()),
            Err(_) => Err(Halt::NoMemory),
        }
    }
}

/// The bytes in front of the first LF, and those behind it.
fn cut_line(bytes: &[u8]) -> Option<(&[u8], &[u8])>
    ensures some { IfSome result (λ r. bytes.now ≡ ended_line r.0.now ++ r.1.now) }
    ensures lacks { IfSome result (λ r. LacksLineFeed r.0.now) }
    ensures none { IfNone result (LacksLineFeed bytes.now) }
{
    let end = memchr(b'\n', bytes)?;
    Some((&bytes[..end], &bytes[end + 1..]))
}

/// A line without the CR at its end, if it has one.
fn without_carriage_return(line: &[u8]) -> &[u8]
    ensures { result.now ≡ strip_carriage_return line.now }
{
    match line.last() {
        Some(b'\r') => &line[..line.len() - 1],
        _ => line,
    }
}
