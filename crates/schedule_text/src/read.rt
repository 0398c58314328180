//! A line of a schedule is read.
ghost use Rattle.std.specs.Prelude.{◌≡◌, ◌≤◌, ◌<◌, [], length, drop, ◌↔◌, Ok, Err, IfOk, IfSome, IfNone};
ghost use Rattle.std.specs.Option.{option_copied, option_map};
ghost use Rattle.schedule_text.specs.declared.forms.Name.TheVariants as name;
ghost use Rattle.schedule_text.specs.declared.read.Read.TheVariants as read;
ghost use Rattle.schedule_text.specs.Words.{words};
ghost use Rattle.schedule_text.specs.Values.{byte_value, number_in, sized_value};
ghost use Rattle.schedule_text.specs.Lines.{is_comment, may_stand, has_nodes, hosts_of, by_row, end_at, byte_in_word, number_at, bit_places};
ghost use Rattle.schedule_text.specs.Lines.{each_word, read_of, line_of};
ghost use Rattle.schedule_text.specs.Forms.{row_for};
ghost use Rattle.schedule_text.specs.Answers.{IsSaidOrNoMemory, IsReadOrNoMemory, CanBeRead, IsInGrammar, IsSkipped, IsOutOfOrder};

use crate::LineFault;
use crate::forms::{Name, Place, form_of};
use crate::rules::fault_in;
use crate::values::{byte_of, eight_of, end_of, fill_of, number_of, three_of, two_of};
use crate::words::{next_word, word_at};
use arrayvec::ArrayVec;
use hex::FromHexError;
use std::alloc::Global;
use trace_model::{End, Header, Line, Octets};

/// The most bytes of a line, without the end of the line (this project's own).
pub(crate) const MAX_LINE: usize = 9000;

/// What a line of a schedule is.
#[derive(Debug, Drop, PartialEq, Eq)]
pub enum Read {
    /// An empty line or a comment, which is counted and does nothing.
    Skip,
    /// The header of the schedule.
    Header(Header),
    /// A line behind the header.
    Line(Line),
    /// There was no memory for the bytes of the line's message.
    NoMemory,
}

/// Reads a line of a schedule, without the LF at its end and the CR before that: below the header, or as the first line
/// where there is no header yet. The texts are this project's own.
pub fn read_line(alloc: Global, header: Option<&Header>, bytes: &[u8]) -> Result<Read, LineFault>
    // A line is what its text says, unless there is no memory for the bytes of a line that has no fault.
    ensures said { IsReadOrNoMemory result (line_of (option_copied header.entry) bytes.now) }

    // A header comes first, and below it lines of its world.
    ensures fits { IfOk result (IsInGrammar (option_copied header.entry)) }
    ensures too_long { (result ≡ Err LineFault.TooLong) ↔ (9000 < length bytes.now) }
    ensures skip { (result ≡ Ok Read.Skip) ↔ ((length bytes.now ≤ 9000) × IsSkipped (words bytes.now)) }
    ensures order { (result ≡ Err LineFault.Order) ↔ ((length bytes.now ≤ 9000) × IsOutOfOrder (option_copied header.entry) (words bytes.now)) }
{
    if bytes.len() > MAX_LINE {
        return Err(LineFault::TooLong);
    }
    let Some((first, rest)) = next_word(bytes) else {
        return Ok(Read::Skip);
    };
    if comment(first) {
        return Ok(Read::Skip);
    }
    read_by_form(alloc, header, first, rest)
}

fn comment(word: &[u8]) -> bool
    ensures { result ≡ is_comment word.now }
{
    match word.first() {
        Some(letter) => *letter == b'#',
        None => false,
    }
}

/// Reads the words of a line by the table of the forms.
fn read_by_form(
    alloc: Global,
    header: Option<&Header>,
    first: &[u8],
    rest: &[u8],
) -> Result<Read, LineFault>
    requires { length rest.now ≤ 9000 }
    ensures { IsReadOrNoMemory result (by_row (option_copied header.entry) (row_for first.now (words rest.now)) (words rest.now)) }
{
    let Some(form) = form_of(first, rest) else {
        return Err(if header.is_some() {
            LineFault::Word
        } else {
            LineFault::Order
        });
    };
    if !allowed(form.place, header) {
        return Err(LineFault::Order);
    }
    if let Some(fault) = fault_in(nodes(header), hosts(header), &form, rest) {
        return Err(fault);
    }
    said(alloc, form.name, rest).ok_or(LineFault::Word)
}

fn allowed(place: Place, header: Option<&Header>) -> bool
    ensures { result ≡ may_stand place (option_copied header.entry) }
{
    match place {
        Place::First => header.is_none(),
        Place::Below => header.is_some(),
        Place::BelowBare => match header {
            Some(header) => !header.hci,
            None => false,
        },
        Place::BelowNodes => match header {
            Some(header) => header.hci,
            None => false,
        },
    }
}

fn nodes(header: Option<&Header>) -> bool
    ensures { result ≡ has_nodes (option_copied header.entry) }
{
    match header {
        Some(header) => header.hci,
        None => false,
    }
}

fn hosts(header: Option<&Header>) -> &[u8]
    ensures { result.now ≡ hosts_of (option_copied header.entry) }
{
    match header {
        Some(header) => header.hosts.as_slice(),
        None => &[],
    }
}

// What the words behind the first one say.
fn said(alloc: Global, name: Name, rest: &[u8]) -> Option<Read>
    requires { CanBeRead name (words rest.now) }
    ensures { IsSaidOrNoMemory result (read_of name (words rest.now)) }
{
    let line = match name {
        Name::Header => return header(rest),
        Name::NodesHeader => return nodes_header(rest),
        Name::Send => return send(alloc, rest),
        Name::Deliver => deliver(rest)?,
        Name::Lose => Line::Lose {
            at: end_at(rest, 0)?,
        },
        Name::Damage => damage(rest)?,
        Name::Tick => Line::Tick {
            times: number_at(rest, 0, 100),
        },
        Name::Reset => Line::Reset {
            at: end_at(rest, 0)?,
            window: number_at(rest, 1, 4),
        },
        Name::Busy => Line::Busy {
            at: end_at(rest, 0)?,
        },
        Name::Ready => Line::Ready {
            at: end_at(rest, 0)?,
        },
        Name::Boot => Line::Boot {
            node: byte_at(rest, 0)?,
        },
        Name::Cut => Line::Cut {
            node: byte_at(rest, 0)?,
        },
        Name::Activate => activate(rest)?,
        Name::Arm => arm(rest)?,
        Name::Init => init(rest)?,
        Name::Tables => Line::Tables {
            node: byte_at(rest, 0)?,
        },
        Name::Settle => settle(rest)?,
    };
    Some(Read::Line(line))
}

fn end_at(rest: &[u8], k: usize) -> Option<End>
    ensures { result ≡ end_at (words rest.now) k }
{
    end_of(word_at(rest, k)?)
}

fn byte_at(rest: &[u8], k: usize) -> Option<u8>
    ensures { result ≡ byte_in_word (words rest.now) k }
{
    byte_of(word_at(rest, k)?)
}

fn number_at(rest: &[u8], k: usize, high: u8) -> Option<u8>
    ensures { result ≡ number_at high (words rest.now) k }
{
    small_number(word_at(rest, k)?, high)
}

/// The number of a word, from 1 to `high`.
pub(crate) fn small_number(word: &[u8], high: u8) -> Option<u8>
    ensures { result ≡ number_in 1 high word.now }
{
    let number = number_of(word, 1, u16::from(high))?;
    u8::try_from(number).ok()
}

fn count_at(rest: &[u8], k: usize, high: u16) -> Option<u32>
    ensures { result ≡ number_at high (words rest.now) k }
{
    let number = number_of(word_at(rest, k)?, 1, high)?;
    Some(u32::from(number))
}

fn header(rest: &[u8]) -> Option<Read>
    ensures { result ≡ read_of name.Header (words rest.now) }
{
    let host = byte_at(rest, 2)?;
    let mut hosts = ArrayVec::new();
    hosts.push(host);
    Some(Read::Header(Header { hci: false, hosts }))
}

fn nodes_header(rest: &[u8]) -> Option<Read>
    requires { CanBeRead name.NodesHeader (words rest.now) }
    ensures { result ≡ read_of name.NodesHeader (words rest.now) }
{
    let hosts = match behind_two(rest) {
        Some(more) => hosts_in(more)?,
        None => ArrayVec::new(),
    };
    Some(Read::Header(Header { hci: true, hosts }))
}

/// What stands behind the first two words, if there are so many.
fn behind_two(rest: &[u8]) -> Option<&[u8]>
    ensures some { IfSome result (λ more. words more.now ≡ drop 2 (words rest.now)) }
    ensures none { IfNone result (drop 2 (words rest.now) ≡ []) }
{
    let (_, more) = next_word(rest)?;
    let (_, more) = next_word(more)?;
    Some(more)
}

fn hosts_in(rest: &[u8]) -> Option<ArrayVec<u8, 7>>
    requires { length (words rest.now) ≤ 7 }
    ensures { option_map (λ hosts. hosts.items) result ≡ each_word byte_value (words rest.now) }
{
    let mut hosts = ArrayVec::new();
    let mut left = rest;
    'words: while let Some((word, more)) = next_word(left) {
        hosts.push(byte_of(word)?);
        left = more;
    }
    Some(hosts)
}

fn send(alloc: Global, rest: &[u8]) -> Option<Read>
    requires { CanBeRead name.Send (words rest.now) }
    ensures { IsSaidOrNoMemory result (read_of name.Send (words rest.now)) }
{
    let (first, more) = next_word(rest)?;
    let (second, more) = next_word(more)?;
    let (third, _) = next_word(more)?;
    let at = end_of(first)?;
    let pid = byte_of(second)?;
    match hex::decode(alloc, third) {
        Ok(bytes) => Some(Read::Line(Line::Send {
            at,
            pid,
            message: Octets { bytes },
        })),
        Err(FromHexError::OutOfMemory) => Some(Read::NoMemory),
        Err(_) => None,
    }
}

fn deliver(rest: &[u8]) -> Option<Line>
    ensures { option_map read.Line result ≡ read_of name.Deliver (words rest.now) }
{
    let (first, more) = next_word(rest)?;
    Some(Line::Deliver {
        at: end_of(first)?,
        count: number_at(more, 0, 64),
    })
}

fn damage(rest: &[u8]) -> Option<Line>
    requires { CanBeRead name.Damage (words rest.now) }
    ensures { option_map read.Line result ≡ read_of name.Damage (words rest.now) }
{
    let (first, more) = next_word(rest)?;
    Some(Line::Damage {
        at: end_of(first)?,
        places: places_in(more)?,
    })
}

fn places_in(rest: &[u8]) -> Option<ArrayVec<u16, 16>>
    requires { length (words rest.now) ≤ 16 }
    ensures { option_map (λ places. places.items) result ≡ bit_places (words rest.now) }
{
    let mut places = ArrayVec::new();
    let mut left = rest;
    'words: while let Some((word, more)) = next_word(left) {
        places.push(number_of(word, 0, 399)?);
        left = more;
    }
    Some(places)
}

fn activate(rest: &[u8]) -> Option<Line>
    ensures { option_map read.Line result ≡ read_of name.Activate (words rest.now) }
{
    Some(Line::Activate {
        host: byte_at(rest, 0)?,
        sync: two_of(word_at(rest, 1)?)?,
        power: byte_at(rest, 2)?,
    })
}

fn arm(rest: &[u8]) -> Option<Line>
    requires { CanBeRead name.Arm (words rest.now) }
    ensures { option_map read.Line result ≡ read_of name.Arm (words rest.now) }
{
    Some(Line::Arm {
        node: byte_at(rest, 0)?,
        nth: count_at(rest, 1, 1000)?,
        fill: fill_of(word_at(rest, 2)?)?,
    })
}

fn init(rest: &[u8]) -> Option<Line>
    requires { CanBeRead name.Init (words rest.now) }
    ensures { option_map read.Line result ≡ read_of name.Init (words rest.now) }
{
    let (first, more) = next_word(rest)?;
    let (second, more) = next_word(more)?;
    Some(Line::Init {
        at: end_of(first)?,
        identity: eight_of(second)?,
        pipes: pipes_in(more)?,
    })
}

fn pipes_in(rest: &[u8]) -> Option<ArrayVec<[u8; 3], 8>>
    requires { length (words rest.now) ≤ 8 }
    ensures { option_map (λ pipes. pipes.items) result ≡ each_word (sized_value 3) (words rest.now) }
{
    let mut pipes = ArrayVec::new();
    let mut left = rest;
    'words: while let Some((word, more)) = next_word(left) {
        pipes.push(three_of(word)?);
        left = more;
    }
    Some(pipes)
}

fn settle(rest: &[u8]) -> Option<Line>
    ensures { option_map read.Line result ≡ read_of name.Settle (words rest.now) }
{
    Some(Line::Settle {
        rounds: count_at(rest, 0, 20000)?,
    })
}
