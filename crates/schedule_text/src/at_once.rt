//! Lines of the few forms that most lines have are read at once where they have no fault and their words stand as they are written.
//! Each other line is left to the table of the forms.
ghost use Rattle.std.specs.Prelude.{◌≡◌, ◌==◌, ◌≤◌, false, length, codes, Some, None, Ok, IfSome};
ghost use Rattle.std.specs.List.{list_any};
ghost use Rattle.trace_model.specs.declared.line.Line.TheVariants as line;
ghost use Rattle.schedule_text.specs.declared.read.Read.TheVariants as read;
ghost use Rattle.trace_model.specs.Lines.{MayFollow};
ghost use Rattle.schedule_text.specs.Words.{words};
ghost use Rattle.schedule_text.specs.Forms.{row_for};
ghost use Rattle.schedule_text.specs.Lines.{by_row, line_of};
ghost use Rattle.schedule_text.specs.AtOnce.{EndAndWord};

use crate::pairs::bytes_of;
use crate::read::{MAX_LINE, small_number};
use crate::values::{end_of, number_of, pair_of, side_of};
use crate::words::{
    behind_busy, behind_damage, behind_deliver, behind_lose, behind_ready, behind_reset,
    behind_send, behind_settle, behind_tick, next_word,
};
use arrayvec::ArrayVec;
use trace_model::{End, Header, Line, Octets};

/// The most digits of a message (this project's own).
const MOST_DIGITS: usize = 9000;

/// Reads the line below a header that has one of the forms `send`, `deliver`, `lose`, `damage`, `reset`, `tick`, `settle`, `ready` and
/// `busy`, if it has no fault, its words stand as they are written and there is memory for its message, which lies in memory that is left over.
/// It is put where none was before, since a line that is handed out is moved. None there says nothing of a line: `read_line` reads each.
pub fn read_at_once(header: &Header, bytes: &[u8], spare: &mut Vec<u8>, line: &mut Option<Line>)
    requires none { line.old ≡ None }
    ensures said { IfSome line.new (λ said. line_of (Some header.now) bytes.now ≡ Ok (read.Line said)) }
    ensures follows { IfSome line.new (λ said. MayFollow header.now said) }
{
    if bytes.len() > MAX_LINE {
        return;
    }
    if let Some(rest) = behind_deliver(bytes) {
        if let Some(at) = end_at_once(header, rest) {
            *line = Some(Line::Deliver { at, count: None });
        }
        return;
    }
    if let Some(rest) = behind_send(bytes) {
        send_at_once(header, rest, spare, line);
        return;
    }
    other_at_once(header, bytes, line);
}

/// The line, if it begins with another word that may stand in each world.
#[inline(never)]
fn other_at_once(header: &Header, bytes: &[u8], line: &mut Option<Line>)
    requires short { length bytes.now ≤ 9000 }
    requires none { line.old ≡ None }
    ensures { IfSome line.new (λ said. line_of (Some header.now) bytes.now ≡ Ok (read.Line said)) }
{
    if let Some(rest) = behind_lose(bytes) {
        if let Some(at) = end_at_once(header, rest) {
            *line = Some(Line::Lose { at });
        }
        return;
    }
    if let Some(rest) = behind_tick(bytes) {
        if let Some(times) = tick_at_once(header, rest) {
            *line = Some(Line::Tick { times: Some(times) });
        }
        return;
    }
    if let Some(rest) = behind_settle(bytes) {
        if let Some(rounds) = settle_at_once(header, rest) {
            *line = Some(Line::Settle { rounds });
        }
        return;
    }
    if let Some(rest) = behind_reset(bytes) {
        reset_at_once(header, rest, line);
        return;
    }
    if let Some(rest) = behind_damage(bytes) {
        damage_at_once(header, rest, line);
        return;
    }
    bare_at_once(header, bytes, line);
}

/// The line, if it begins with a word that may stand in a world without nodes alone.
#[inline(always)]
fn bare_at_once(header: &Header, bytes: &[u8], line: &mut Option<Line>)
    requires short { length bytes.now ≤ 9000 }
    requires none { line.old ≡ None }
    ensures { IfSome line.new (λ said. line_of (Some header.now) bytes.now ≡ Ok (read.Line said)) }
{
    if header.hci {
        return;
    }
    if let Some(rest) = behind_ready(bytes) {
        if let Some(at) = end_at_once(header, rest) {
            *line = Some(Line::Ready { at });
        }
        return;
    }
    if let Some(rest) = behind_busy(bytes) {
        if let Some(at) = end_at_once(header, rest) {
            *line = Some(Line::Busy { at });
        }
    }
}

/// The line `reset E` or `reset E W`, if it has no fault.
#[inline(always)]
fn reset_at_once(header: &Header, rest: &[u8], line: &mut Option<Line>)
    requires none { line.old ≡ None }
    ensures { IfSome line.new (λ said. Ok (read.Line said)
        ≡ by_row (Some header.now) (row_for (codes "reset") (words rest.now)) (words rest.now)) }
{
    if let Some(at) = end_at_once(header, rest) {
        *line = Some(Line::Reset { at, window: None });
        return;
    }
    if let Some((at, second)) = end_and_word(header, rest) {
        if let Some(window) = small_number(second, 4) {
            *line = Some(Line::Reset {
                at,
                window: Some(window),
            });
        }
    }
}

/// The line `damage E P` that damages one bit, if it has no fault.
#[inline(always)]
fn damage_at_once(header: &Header, rest: &[u8], line: &mut Option<Line>)
    requires none { line.old ≡ None }
    ensures { IfSome line.new (λ said. Ok (read.Line said)
        ≡ by_row (Some header.now) (row_for (codes "damage") (words rest.now)) (words rest.now)) }
{
    if let Some((at, second)) = end_and_word(header, rest) {
        if let Some(place) = number_of(second, 0, 399) {
            let mut places = ArrayVec::new();
            places.push(place);
            *line = Some(Line::Damage { at, places });
        }
    }
}

/// The end that the first of two words names, if the world has it, and the second one.
fn end_and_word<'a>(header: &Header, rest: &'a [u8]) -> Option<(End, &'a [u8])>
    ensures { IfSome result (λ found. EndAndWord header.now.hosts.items (words rest.now) found.0 found.1.now) }
{
    let (first, more) = next_word(rest)?;
    let (second, more) = next_word(more)?;
    let at = end_of(first)?;
    if !knows(header, at.link) || next_word(more).is_some() {
        return None;
    }
    Some((at, second))
}

/// The line `send E PID HEX`, if it has no fault, one space stands before each word and there is memory for its message.
#[inline(never)]
fn send_at_once(header: &Header, rest: &[u8], spare: &mut Vec<u8>, line: &mut Option<Line>)
    requires none { line.old ≡ None }
    ensures { IfSome line.new (λ said. Ok (read.Line said)
        ≡ by_row (Some header.now) (row_for (codes "send") (words rest.now)) (words rest.now)) }
{
    let [b' ', high, low, side, b' ', one, two, b' ', digits @ ..] = rest else {
        return;
    };
    let Some(link) = pair_of(*high, *low) else {
        return;
    };
    let Some(at_host) = side_of(*side) else {
        return;
    };
    let Some(pid) = pair_of(*one, *two) else {
        return;
    };
    if !knows(header, link) || (header.hci && !at_host) || 0x70 <= pid {
        return;
    }
    if digits.len() < 2 || MOST_DIGITS < digits.len() {
        return;
    }
    if let Some(bytes) = bytes_of(spare, digits) {
        *line = Some(Line::Send {
            at: End { link, at_host },
            pid,
            message: Octets { bytes },
        });
    }
}

/// The end of a line `deliver E`, `lose E`, `reset E`, `busy E` or `ready E`, if it has no fault and one space stands before the end.
#[inline(always)]
fn end_at_once(header: &Header, rest: &[u8]) -> Option<End>
    ensures deliver { IfSome result (λ at. Ok (read.Line (line.Deliver at None))
        ≡ by_row (Some header.now) (row_for (codes "deliver") (words rest.now)) (words rest.now)) }
    ensures lose { IfSome result (λ at. Ok (read.Line (line.Lose at))
        ≡ by_row (Some header.now) (row_for (codes "lose") (words rest.now)) (words rest.now)) }
    ensures reset { IfSome result (λ at. Ok (read.Line (line.Reset at None))
        ≡ by_row (Some header.now) (row_for (codes "reset") (words rest.now)) (words rest.now)) }
    ensures busy { header.now.hci ≡ false → IfSome result (λ at. Ok (read.Line (line.Busy at))
        ≡ by_row (Some header.now) (row_for (codes "busy") (words rest.now)) (words rest.now)) }
    ensures ready { header.now.hci ≡ false → IfSome result (λ at. Ok (read.Line (line.Ready at))
        ≡ by_row (Some header.now) (row_for (codes "ready") (words rest.now)) (words rest.now)) }
{
    let [b' ', word @ ..] = rest else {
        return None;
    };
    let at = end_of(word)?;
    if knows(header, at.link) {
        Some(at)
    } else {
        None
    }
}

/// How many ticks a line `tick N` lets pass, if it has no fault.
#[inline]
fn tick_at_once(header: &Header, rest: &[u8]) -> Option<u8>
    ensures { IfSome result (λ times. Ok (read.Line (line.Tick (Some times)))
        ≡ by_row (Some header.now) (row_for (codes "tick") (words rest.now)) (words rest.now)) }
{
    let (word, more) = next_word(rest)?;
    if next_word(more).is_some() {
        return None;
    }
    let times = small_number(word, 100)?;
    Some(times)
}

/// How many rounds a line `settle N` lets pass at most, if it has no fault.
#[inline]
fn settle_at_once(header: &Header, rest: &[u8]) -> Option<u32>
    ensures { IfSome result (λ rounds. Ok (read.Line (line.Settle rounds))
        ≡ by_row (Some header.now) (row_for (codes "settle") (words rest.now)) (words rest.now)) }
{
    let (word, more) = next_word(rest)?;
    if next_word(more).is_some() {
        return None;
    }
    let rounds = number_of(word, 1, 20000)?;
    Some(u32::from(rounds))
}

/// Whether the header names a host.
fn knows(header: &Header, host: u8) -> bool
    ensures { result ≡ list_any (λ known. known == host) header.now.hosts.items }
{
    header.hosts.as_slice().iter().any(|known| *known == host)
}
