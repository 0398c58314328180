//! Worked examples of decisions, for a command of host 02. The pipes 01 of the hosts 01 and 02 are opened, and 01 and 02 are
//! configured.
use crate::shown::{same, same_bytes};
use arrayvec::ArrayVec;
use gate_admin::{Decision, LinkView, decide};
use hci_tables::{Command, Tables, read_command};
use std::process::Abort;
use std::str::Split;

/// A line has, in hexadecimal and split by bars: the body of a further command that made the tables; the masks of connected,
/// noticed and asked hosts; the pipes of waiting creations; the pipe; the message; the body of the command that is committed,
/// or kept until a host agrees; the answer; the mask of those that are told, or 80 and the host that is asked; the notice.
const ROWS: &str = "\
|06 00 00||01|10 41 01||82||
|06 00 00||01|10 41 05 41||81||
|06 00 00||01|10 41 02 41||83||
|06 00 00||01|10 41 00 41||83||
|06 00 00||01|10 41 01 41||8B||
05 01 00 03 02|06 00 00||01|10 41 01 41|01 02 02 41 01 41|80 02 41 01 41 02|81|12 02 41 01 41 02
05 01 00 03 02|06 04 04|02|01|10 41 01 41|01 03 02 41 01 41|80 02 41 01 41 03|81|12 02 41 01 41 03
05 01 00 03 02|06 06 04|02|01|10 41 01 41||88||
05 01 00 03 02|04 00 00||01|10 41 01 41||81||
|06 00 00||01|10 20 00 04|01 02 02 20 00 04|80 02 20 00 04 02|00|
|06 00 00||01|02 07||85||
|06 00 00||01|01 02 01||8A||
|06 00 00||01|01 03 02||82||
|06 00 00||01|13 02||87||
|06 00 00||01|01||82||
|06 00 00||01|01 05 00||85||
|06 00 00||01|01 01 01 02 03 04 05 06 07||82||
|06 00 00||01|01 01 01 02 03 04 05 06 07 08|05 02 00 01 01 02 03 04 05 06 07 08|80|00|
|06 04 00||01|01 03 01|05 02 00 03 01|80|00|
|06 04 04||01|01 03 01||88||
|06 00 00||01|02||82||
|06 00 00||01|02 01||80 FF FF FF FF FF FF FF FF||
|06 00 00||01|02 02||80 6E||
05 02 00 03 01|06 00 00||01|02 03||80 01||
|06 00 00||01|02 04||80 00 01 02||
|06 00 00||05|03||81||
|06 00 00||00|02 01||86||
|06 00 00||01|03 00||82||
|06 00 00||01|03||80 00||
|06 00 00||00|03|04 02 00 01|80 00|00|
01 02 02 41 01 41|06 00 00||02|03|04 02 02 01|80 00|00|
01 02 01 41 03 41|06 00 00||02|03||81||
01 02 02 41 01 41|06 00 00||02|04||86||
|06 00 00||01|04 00||82||
|06 00 00||01|04|04 02 01 00|80|00|
|06 00 00||01|11||82||
|06 00 00||01|11 02||81||
01 02 01 41 03 41|06 00 00||01|11 02||81||
01 02 02 41 01 41|06 02 00||01|11 02||88||
01 02 02 41 01 41|06 00 00||01|11 02|02 02|80|02|13 02
01 02 01 41 02 41|06 00 00||01|11 02|02 02|80|02|13 02
01 02 02 41 01 41|04 02 00||01|11 02|02 02|80|00|
01 02 02 20 00 04|06 00 00||01|11 02|02 02|80|00|
|06 00 00||01|14 01||82||
|06 04 04||01|14||88||
01 02 02 41 01 41|06 02 00||01|14||88||
|06 02 00||01|14|03 02|80|00|
01 02 02 41 01 41|06 00 00||01|14 01 02|03 02|80|02|15 02";

type Bytes = ArrayVec<u8, 32>;

/// The bytes that hexadecimal digits spell, two for each byte, split by spaces.
fn bytes_of(text: &str) -> Bytes {
    let mut bytes = ArrayVec::new();
    for digits in text.split(' ') {
        if let Ok(byte) = u8::from_str_radix(digits, 16) {
            let _ = bytes.try_push(byte);
        }
    }
    bytes
}

/// Whether the text spells these bytes.
fn spells(text: &str, bytes: &[u8]) -> bool {
    bytes_of(text).as_slice() == bytes
}

/// Whether the text spells the body of this command.
fn spells_command(text: &str, command: &Command) -> bool {
    match read_command(bytes_of(text).as_slice()) {
        Some(read) => read == *command,
        None => false,
    }
}

fn told(tables: &mut Tables, body: &[u8]) {
    if let Some(command) = read_command(body) {
        tables.apply(&command);
    }
}

/// The tables that a command made of those with the pipes 01 of the hosts 01 and 02 opened.
fn tables_of(body: &str) -> Tables {
    let mut tables = Tables::new();
    told(&mut tables, &[0x04, 0x01, 0x01, 0x01]);
    told(&mut tables, &[0x04, 0x02, 0x01, 0x01]);
    told(&mut tables, bytes_of(body).as_slice());
    tables
}

fn view_of(masks: &[u8], waiting: &[u8]) -> LinkView {
    let mut kept = ArrayVec::new();
    let _ = kept.try_extend_from_slice(waiting);
    LinkView {
        hosts: 0x06,
        connected: masks.first().copied().unwrap_or(0),
        noticed: masks.get(1).copied().unwrap_or(0),
        asked: masks.get(2).copied().unwrap_or(0),
        waiting: kept,
        errors: 0,
    }
}

fn decided(tables: &Tables, view: &LinkView, pipe: &[u8], message: &[u8]) -> Option<Decision> {
    let pipe = pipe.first().copied()?;
    if message.is_empty() || message[0] >= 0x40 || pipe >= 0x70 {
        return None;
    }
    Some(decide(tables, view, 0x02, pipe, message))
}

/// Whether these are a row's command, answer, mask and notice.
fn are_shown(row: &[&str; 4], command: &Command, answer: &[u8], tell: u8, notice: &[u8]) -> bool {
    spells_command(row[0], command)
        && spells(row[1], answer)
        && spells(row[2], &[tell])
        && spells(row[3], notice)
}

fn shows(row: &[&str; 4], decision: &Decision) -> bool {
    match decision {
        Decision::Answer(answer) => row[0].is_empty() && spells(row[1], answer.as_slice()),
        Decision::Commit {
            command,
            answer,
            tell,
            notice,
        } => are_shown(row, command, answer.as_slice(), *tell, notice.as_slice()),
        Decision::Ask {
            host,
            notice,
            command,
            answer,
        } => are_shown(
            row,
            command,
            answer.as_slice(),
            *host | 0x80,
            notice.as_slice(),
        ),
    }
}

/// The decision over tables, masks, waiting creations, a pipe and a message.
fn decision_of(given: &[&str; 5]) -> Option<Decision> {
    let tables = tables_of(given[0]);
    let view = view_of(bytes_of(given[1]).as_slice(), bytes_of(given[2]).as_slice());
    decided(
        &tables,
        &view,
        bytes_of(given[3]).as_slice(),
        bytes_of(given[4]).as_slice(),
    )
}

/// The next field of a row.
fn next_of<'a>(fields: &mut Split<'a, char>) -> &'a str {
    fields.next().unwrap_or("")
}

fn row_holds(line: &str) -> bool {
    let mut fields = line.split('|');
    let given = [
        next_of(&mut fields),
        next_of(&mut fields),
        next_of(&mut fields),
        next_of(&mut fields),
        next_of(&mut fields),
    ];
    let row = [
        next_of(&mut fields),
        next_of(&mut fields),
        next_of(&mut fields),
        next_of(&mut fields),
    ];
    match &decision_of(&given) {
        Some(decision) => shows(&row, decision),
        None => false,
    }
}

/// The row of this line holds.
fn holds(rt: &impl Abort, line: &str) {
    same(rt, &(line, row_holds(line)), &(line, true));
}

#[test]
fn commands_are_decided(rt: HostRuntime) {
    for line in ROWS.lines() {
        holds(&rt, line);
    }
}

/// The host creates a pipe: the number that it gets, or the answer that refuses it.
fn created(tables: &mut Tables, view: &LinkView) -> (Option<u8>, ArrayVec<u8, 24>) {
    let decision = decide(tables, view, 0x02, 0x01, &[0x10, 0x20, 0x00, 0x04]);
    match decision {
        Decision::Commit {
            command,
            answer,
            ..
        } => {
            tables.apply(&command);
            (answer.last().copied(), ArrayVec::new())
        }
        Decision::Answer(answer) => (None, answer),
        Decision::Ask { .. } => (None, ArrayVec::new()),
    }
}

/// A further pipe gets this number, and is in the tables then.
fn creates(rt: &impl Abort, tables: &mut Tables, view: &LinkView, pid: u8) {
    same(rt, &created(tables, view).0, &Some(pid));
}

/// A further pipe is refused.
fn refuses(rt: &impl Abort, tables: &mut Tables, view: &LinkView) {
    let (pid, answer) = created(tables, view);
    same(rt, &pid, &None);
    same_bytes(rt, answer.as_slice(), &[0x84]);
}

#[test]
fn the_111th_pipe_is_refused(rt: HostRuntime) {
    let mut tables = Tables::new();
    told(&mut tables, &[0x04, 0x02, 0x01, 0x01]);
    let view = view_of(&[0x04], &[]);
    for pid in 0x02..0x70u8 {
        creates(&rt, &mut tables, &view, pid);
    }
    refuses(&rt, &mut tables, &view);
}
