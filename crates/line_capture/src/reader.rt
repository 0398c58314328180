//! The reader of a line.
ghost use Rattle.std.specs.Prelude.{◌≡◌, ◌+◌, ◌-◌, ◌*◌, ◌^◌, ◌≤◌, ◌<◌, ◌↔◌, IfOk, OnErr, OnOk, Err, true, option_to_list};
ghost use Rattle.line_capture.specs.Reading.{begun_line, bytes_of, change_bytes, after_change, end_bytes, stretch_bytes, looked_bytes, looks};
ghost use Rattle.line_capture.specs.Reading.{low_bytes, held_period};
ghost use Rattle.line_capture.specs.declared.change.CaptureFault.{CaptureFault as Fault};

use crate::change::{CaptureFault, Change, MOST_TIME, Piece};
use crate::shape::{Shape, byte_of, count_off, is_single, last_shape};
use std::marker::Model;

/// Reads a line as its changes come. It keeps what is here and no more, however long the line is.
#[derive(Drop)]
pub struct LineReader {
    unit: u64,
    at: u64,
    s1: bool,
    s2: bool,
    held: Option<bool>,
    rise: u64,
    until: u64,
    due: u64,
}

impl Model for LineReader {
    ghost use Rattle.std.specs.Prelude.{◌≡◌, ◌+◌, ◌*◌, ◌^◌, ◌≤◌, ◌<◌};
    ghost use Rattle.line_capture.specs.Reading.{Line};

    ghost Value = { Line };

    ghost view = { λ r. record {
      unit = r.unit;
      at = r.at;
      s1 = r.s1;
      s2 = r.s2;
      held = r.held;
      rise = r.rise;
      until = r.until;
      due = r.due;
    } };

    ghost invariant = { λ r. (0 < r.unit) × (r.unit ≤ 2 ^ 32) × (r.at < 2 ^ 63) × (r.rise ≤ r.until) × (r.until ≤ r.at)
        × (r.until ≤ r.due) × (r.due ≤ r.until + 18 * r.unit) };
}

impl LineReader {
    /// A line that is low from this time on. `unit` is a sixteenth of its bit period.
    pub fn begin(unit: u64, at: u64) -> Self
        requires some { 0 < unit }
        requires unit { unit ≤ 2 ^ 32 }
        requires at { at < 2 ^ 63 }
        ensures { result ≡ begun_line unit at }
    {
        LineReader {
            unit,
            at,
            s1: false,
            s2: false,
            held: None,
            rise: at,
            until: at,
            due: at + 2 * unit,
        }
    }

    /// Takes the next change, and gives the bytes that it makes known. A time that is refused changes nothing.
    pub fn take(&mut self, change: Change) -> Result<Piece, CaptureFault>
        ensures bytes { IfOk result (λ piece. bytes_of piece ≡ change_bytes self.old change) }
        ensures line { OnOk result (self.new ≡ after_change self.old change) }
        ensures back { (result ≡ Err Fault.TimeBack) ↔ (change.time < self.old.at) }
        ensures late { (result ≡ Err Fault.TooLate) ↔ ((self.old.at ≤ change.time) × (2 ^ 63 ≤ change.time)) }
        ensures err { OnErr result (self.new ≡ self.old) }
    {
        if change.time < self.at {
            return Err(CaptureFault::TimeBack);
        }
        if change.time >= MOST_TIME {
            return Err(CaptureFault::TooLate);
        }
        let piece = self.piece_before(change);
        self.note(change);
        Ok(piece)
    }

    /// The bytes of what is known and not given yet, where the line ends at this time. A last period that S1 is high in counts where
    /// half of it came.
    pub fn finish(&self, end: u64) -> Result<Piece, CaptureFault>
        ensures bytes { IfOk result (λ piece. bytes_of piece ≡ end_bytes self.now end) }
        ensures back { (result ≡ Err Fault.TimeBack) ↔ (end < self.now.at) }
        ensures late { (result ≡ Err Fault.TooLate) ↔ ((self.now.at ≤ end) × (2 ^ 63 ≤ end)) }
    {
        if end < self.at {
            return Err(CaptureFault::TimeBack);
        }
        if end >= MOST_TIME {
            return Err(CaptureFault::TooLate);
        }
        if self.s1 {
            Ok(self.last_high_piece(end))
        } else {
            Ok(self.low_piece(end))
        }
    }

    /// The bytes of a line that ends while S1 is high. The last period is left out where S1 was high for less than half of it.
    fn last_high_piece(&self, end: u64) -> Piece
        requires { end < 2 ^ 63 }
        ensures { self.now.s1 ≡ true → bytes_of result ≡ end_bytes self.now end }
    {
        let looked = self.count_looks(end);
        if end + 10 * self.unit < self.due + 16 * self.unit * looked {
            return self.high_piece(end);
        }
        Piece {
            first: whole_byte(self.held),
            byte: byte_of(Shape::Whole, self.s2),
            times: looked,
        }
    }

    /// The bytes that a change makes known.
    fn piece_before(&self, change: Change) -> Piece
        requires at { self.now.at ≤ change.time }
        requires time { change.time < 2 ^ 63 }
        ensures { bytes_of result ≡ change_bytes self.now change }
    {
        if self.s1 {
            self.high_piece(change.time)
        } else if change.s1 {
            self.low_piece(change.time)
        } else {
            Piece {
                first: None,
                byte: 0,
                times: 0,
            }
        }
    }

    /// The bytes of a line whose S1 is high up to this time.
    fn high_piece(&self, time: u64) -> Piece
        requires { time < 2 ^ 63 }
        ensures { bytes_of result ≡ looked_bytes self.now.held self.now.s2 (looks self.now time) }
    {
        let looked = self.count_looks(time);
        if looked == 0 {
            return Piece {
                first: None,
                byte: 0,
                times: 0,
            };
        }
        Piece {
            first: whole_byte(self.held),
            byte: byte_of(Shape::Whole, self.s2),
            times: looked - 1,
        }
    }

    /// The bytes of a line whose S1 is low up to this time.
    fn low_piece(&self, time: u64) -> Piece
        requires at { self.now.at ≤ time }
        requires time { time < 2 ^ 63 }
        ensures { bytes_of result ≡ low_bytes self.now time }
    {
        let tail = self.until + 18 * self.unit - self.due;
        stretch_piece(
            self.unit,
            self.held,
            self.until - self.rise,
            tail,
            time - self.until,
        )
    }

    /// How many periods are looked at up to this time, where S1 stays high.
    fn count_looks(&self, time: u64) -> u64
        requires { time < 2 ^ 63 }
        ensures { result ≡ looks self.now time }
    {
        if time < self.due {
            0
        } else {
            (time - self.due) / (16 * self.unit) + 1
        }
    }

    /// Notes a change.
    fn note(&mut self, change: Change)
        requires at { self.old.at ≤ change.time }
        requires time { change.time < 2 ^ 63 }
        ensures { self.new ≡ after_change self.old change }
    {
        if self.s1 {
            let looked = self.count_looks(change.time);
            if looked > 0 {
                self.held = Some(self.s2);
            }
            self.due += 16 * self.unit * looked;
            self.until = change.time;
        } else if change.s1 {
            self.held = None;
            self.rise = change.time;
            self.until = change.time;
            self.due = change.time + 2 * self.unit;
        }
        self.at = change.time;
        self.s1 = change.s1;
        self.s2 = change.s2;
    }
}

/// The byte of a period that S1 is high throughout, where there is one.
fn whole_byte(held: Option<bool>) -> Option<u8>
    ensures { option_to_list result ≡ held_period held }
{
    match held {
        Some(s2) => Some(byte_of(Shape::Whole, s2)),
        None => None,
    }
}

/// The bytes of a stretch of S1 low, from the last period on that began while S1 was high.
fn stretch_piece(unit: u64, held: Option<bool>, high: u64, tail: u64, low: u64) -> Piece
    requires some { 0 < unit }
    requires unit { unit ≤ 2 ^ 32 }
    requires tail { tail ≤ 18 * unit }
    requires whole { high + low < 2 ^ 63 }
    ensures { bytes_of result ≡ stretch_bytes unit held high tail low }
{
    let off = count_off(unit, low);
    match held {
        None => Piece {
            first: None,
            byte: 0,
            times: off,
        },
        Some(s2) => Piece {
            first: Some(byte_of(last_shape(unit, high, tail, low), s2)),
            byte: 0,
            times: if is_single(unit, high, high + low) {
                0
            } else {
                off
            },
        },
    }
}
