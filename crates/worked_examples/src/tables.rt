//! Worked examples of records and tables.
ghost use Rattle.hci_tables.specs.Commands.{IsCommand};

use crate::shown::{same, same_bytes};
use hci_tables::{Command, Tables, read_command, write_command};
use std::process::Abort;

/// The command of this body.
fn command_of(rt: &impl Abort, body: &[u8]) -> Command
    ensures { IsCommand result }
{
    match read_command(body) {
        Some(command) => command,
        None => panic!(rt; "no command"),
    }
}

/// The body is that of a command, and is written again.
fn is_command(rt: &impl Abort, body: &[u8]) {
    same_bytes(rt, write_command(&command_of(rt, body)).as_slice(), body);
}

#[test]
fn bodies_are_read_and_written_again(rt: HostRuntime) {
    is_command(&rt, &[0x01, 0x02, 0x02, 0x20, 0x00, 0x04]);
    is_command(&rt, &[0x01, 0x6F, 0x07, 0xFF, 0x01, 0x00]);
    is_command(&rt, &[0x02, 0x02]);
    is_command(&rt, &[0x02, 0x6F]);
    is_command(&rt, &[0x03, 0x00]);
    is_command(&rt, &[0x03, 0x07]);
    is_command(&rt, &[0x04, 0x02, 0x01, 0x01]);
    is_command(&rt, &[0x04, 0x00, 0x6F, 0x00]);
    is_command(&rt, &[0x05, 0x02, 0x00, 0x01, 1, 2, 3, 4, 5, 6, 7, 8]);
    is_command(&rt, &[0x05, 0x01, 0x00, 0x03]);
    is_command(
        &rt,
        &[
            0x05, 0x07, 0x00, 0x03, 0x00, 0x01, 0x02, 0x03, 0x04, 0x05, 0xFF,
        ],
    );
    is_command(&rt, &[0x06, 0x02, 0x1A, 0x2B]);
    is_command(&rt, &[0x06, 0x07, 0x00, 0x00]);
}

/// The body is that of no command.
fn is_none(rt: &impl Abort, body: &[u8]) {
    same(rt, &(body, read_command(body).is_none()), &(body, true));
}

#[test]
fn bodies_of_pipes_outside_the_grammar_are_none(rt: HostRuntime) {
    is_none(&rt, &[]);
    is_none(&rt, &[0x00]);
    is_none(&rt, &[0x07, 0x01]);
    is_none(&rt, &[0x01, 0x02, 0x02, 0x20, 0x00]);
    is_none(&rt, &[0x01, 0x02, 0x02, 0x20, 0x00, 0x04, 0x00]);
    is_none(&rt, &[0x01, 0x01, 0x02, 0x20, 0x00, 0x04]);
    is_none(&rt, &[0x01, 0x70, 0x02, 0x20, 0x00, 0x04]);
    is_none(&rt, &[0x01, 0x02, 0x08, 0x20, 0x00, 0x04]);
    is_none(&rt, &[0x01, 0x02, 0x02, 0x20, 0x08, 0x04]);
    is_none(&rt, &[0x01, 0x02, 0x02, 0x20, 0x02, 0x04]);
    is_none(&rt, &[0x02]);
    is_none(&rt, &[0x02, 0x01]);
    is_none(&rt, &[0x02, 0x70]);
    is_none(&rt, &[0x02, 0x02, 0x02]);
}

#[test]
fn bodies_of_values_outside_the_grammar_are_none(rt: HostRuntime) {
    is_none(&rt, &[0x03, 0x08]);
    is_none(&rt, &[0x04, 0x02, 0x01, 0x02]);
    is_none(&rt, &[0x04, 0x08, 0x01, 0x01]);
    is_none(&rt, &[0x04, 0x02, 0x70, 0x01]);
    is_none(&rt, &[0x05, 0x00, 0x00, 0x01, 1, 2, 3, 4, 5, 6, 7, 8]);
    is_none(&rt, &[0x05, 0x08, 0x00, 0x03]);
    is_none(&rt, &[0x05, 0x02, 0x01, 0x03]);
    is_none(&rt, &[0x05, 0x02, 0x00, 0x02]);
    is_none(&rt, &[0x05, 0x02, 0x00, 0x01, 1, 2, 3, 4, 5, 6, 7]);
    is_none(&rt, &[0x05, 0x02, 0x00, 0x03, 0x02]);
    is_none(&rt, &[0x05, 0x02, 0x00, 0x03, 0x01, 0x01]);
    is_none(&rt, &[0x05, 0x02, 0x00, 0x03, 0, 1, 3, 4, 5, 6, 7, 8]);
    is_none(&rt, &[0x06, 0x00, 0x1A, 0x2B]);
    is_none(&rt, &[0x06, 0x02, 0x1A]);
}

/// The tables have so many opened static pipes, pipes, values and identifiers, and on the administration gate of the controller
/// so many opened pipes but 03.
fn have(rt: &impl Abort, tables: &Tables, rows: [usize; 4], opened: u8) {
    let counts = [
        tables.statics().len(),
        tables.pipes().rows().len(),
        tables.registry().values().len(),
        tables.syncs().len(),
    ];
    same(
        rt,
        &(counts, tables.pipes().opened_on(0x00, 0x04, 0x03)),
        &(rows, opened),
    );
}

fn told(tables: &mut Tables, bodies: &[&[u8]]) {
    for body in bodies {
        if let Some(command) = read_command(body) {
            tables.apply(&command);
        }
    }
}

#[test]
fn commands_change_the_tables(rt: HostRuntime) {
    let mut tables = Tables::new();
    told(
        &mut tables,
        &[
            &[0x06, 0x02, 0x1A, 0x2B],
            &[0x04, 0x02, 0x01, 0x01],
            &[0x01, 0x02, 0x02, 0x20, 0x00, 0x04],
        ],
    );
    told(
        &mut tables,
        &[
            &[0x04, 0x02, 0x02, 0x01],
            &[0x05, 0x02, 0x00, 0x01, 1, 2, 3, 4, 5, 6, 7, 8],
        ],
    );
    same(&rt, &tables.statics(), &[(0x02, 0x01)].as_slice());
    same(&rt, &tables.syncs(), &[(0x02, 0x1A2B)].as_slice());
    have(&rt, &tables, [1, 1, 1, 1], 1);
    told(&mut tables, &[&[0x06, 0x02, 0x1A, 0x2B]]);
    have(&rt, &tables, [1, 1, 1, 1], 1);
    told(&mut tables, &[&[0x06, 0x02, 0x1A, 0x2C]]);
    have(&rt, &tables, [1, 1, 0, 1], 1);
    tables.close();
    have(&rt, &tables, [0, 1, 0, 1], 0);
    told(
        &mut tables,
        &[
            &[0x05, 0x02, 0x00, 0x03, 0x01],
            &[0x04, 0x02, 0x00, 0x01],
            &[0x03, 0x02],
        ],
    );
    have(&rt, &tables, [0, 0, 0, 1], 0);
}
