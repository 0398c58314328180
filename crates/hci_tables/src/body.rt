//! The bodies of the commands' records. This project's own.
ghost use Rattle.std.specs.Prelude.{◌≡◌, ◌≤◌, length, Some, IfSome};
ghost use Rattle.hci_tables.specs.Commands.{IsCommand};
ghost use Rattle.hci_tables.specs.Bodies.{body_of, command_of, if_command, create_of, delete_of, clear_of, opened_of, set_of, sync_in_body};

use crate::Command;
use crate::command::{is_creation, is_dynamic, is_host, is_opening, is_setting, is_sync_host};
use arrayvec::ArrayVec;
use pipe_table::PipeRow;

/// The most bytes of a record's body. A command's has at most 24. This project's own.
pub const MAX_BODY: usize = 61;

/// The body of a command's record: the kind and its bytes. It asks for a command that may be recorded. This project's own.
pub fn write_command(command: &Command) -> ArrayVec<u8, 61>
    requires { IsCommand command.now }
    ensures body { result.items ≡ body_of command.now }
    ensures read_again { command_of result.items ≡ Some command.now }
    ensures sized { length result.items ≤ 24 }
{
    match command {
        Command::Create(row) => bytes_of(&[
            0x01,
            row.pid,
            row.creator,
            row.creator_gate,
            row.dest,
            row.dest_gate,
        ]),
        Command::Delete { pid } => bytes_of(&[0x02, *pid]),
        Command::Clear { host } => bytes_of(&[0x03, *host]),
        Command::SetOpened { host, pid, opened } => bytes_of(&[
            0x04,
            *host,
            *pid,
            u8::from(*opened),
        ]),
        Command::Set {
            host,
            gate,
            param,
            value,
        } => {
            let mut body = bytes_of(&[0x05, *host, *gate, *param]);
            let _ = body.try_extend_from_slice(value.as_slice());
            body
        }
        Command::Sync { host, id } => {
            let [high, low] = id.to_be_bytes();
            bytes_of(&[0x06, *host, high, low])
        }
    }
}

fn bytes_of(bytes: &[u8]) -> ArrayVec<u8, 61>
    requires { length bytes.now ≤ 6 }
    ensures { result.items ≡ bytes.now }
{
    let mut body = ArrayVec::new();
    let _ = body.try_extend_from_slice(bytes);
    body
}

/// The command whose record has this body: none exactly outside the grammar. This project's own.
pub fn read_command(body: &[u8]) -> Option<Command>
    ensures command { result ≡ command_of body.now }
    ensures recordable { IfSome result IsCommand }
    ensures written_again { IfSome result (λ command. body_of command ≡ body.now) }
{
    command_of(body)
}

fn command_of(body: &[u8]) -> Option<Command>
    ensures { result ≡ command_of body.now }
{
    let (kind, fields) = body.split_first()?;
    match *kind {
        0x01 => create_of(fields),
        0x02 => delete_of(fields),
        0x03 => clear_of(fields),
        0x04 => opened_of(fields),
        0x05 => set_of(fields),
        0x06 => sync_of(fields),
        _ => None,
    }
}

fn create_of(fields: &[u8]) -> Option<Command>
    ensures { result ≡ if_command (create_of fields.now) }
{
    let [pid, creator, creator_gate, dest, dest_gate] = fields else {
        return None;
    };
    let row = PipeRow {
        pid: *pid,
        creator: *creator,
        creator_gate: *creator_gate,
        dest: *dest,
        dest_gate: *dest_gate,
        opened: false,
    };
    if is_creation(&row) {
        Some(Command::Create(row))
    } else {
        None
    }
}

fn delete_of(fields: &[u8]) -> Option<Command>
    ensures { result ≡ if_command (delete_of fields.now) }
{
    let [pid] = fields else {
        return None;
    };
    if is_dynamic(*pid) {
        Some(Command::Delete { pid: *pid })
    } else {
        None
    }
}

fn clear_of(fields: &[u8]) -> Option<Command>
    ensures { result ≡ if_command (clear_of fields.now) }
{
    let [host] = fields else {
        return None;
    };
    if is_host(*host) {
        Some(Command::Clear { host: *host })
    } else {
        None
    }
}

fn opened_of(fields: &[u8]) -> Option<Command>
    ensures { result ≡ if_command (opened_of fields.now) }
{
    let [host, pid, flag] = fields else {
        return None;
    };
    let opened = match flag {
        0 => false,
        1 => true,
        _ => return None,
    };
    if is_opening(*host, *pid) {
        Some(Command::SetOpened {
            host: *host,
            pid: *pid,
            opened,
        })
    } else {
        None
    }
}

fn set_of(fields: &[u8]) -> Option<Command>
    ensures { result ≡ if_command (set_of fields.now) }
{
    match fields {
        [host, gate, param, value @ ..] if value.len() <= 20 => {
            setting_of(*host, *gate, *param, value)
        }
        _ => None,
    }
}

fn setting_of(host: u8, gate: u8, param: u8, value: &[u8]) -> Option<Command>
    requires { length value.now ≤ 20 }
    ensures { result ≡ if_command (Some (Command.Set host gate param (record { items = value.now }))) }
{
    if !is_setting(host, gate, param, value) {
        return None;
    }
    let mut kept = ArrayVec::new();
    let _ = kept.try_extend_from_slice(value);
    Some(Command::Set {
        host,
        gate,
        param,
        value: kept,
    })
}

fn sync_of(fields: &[u8]) -> Option<Command>
    ensures { result ≡ if_command (sync_in_body fields.now) }
{
    let [host, high, low] = fields else {
        return None;
    };
    if is_sync_host(*host) {
        Some(Command::Sync {
            host: *host,
            id: u16::from_be_bytes([*high, *low]),
        })
    } else {
        None
    }
}
