//! The tables of a node as text, this project's own form.
//!
//! The first line is `tables NODE P S R Y`. P lines `pipe PID CREATOR GATE DEST GATE opened` (or `closed`) follow, S lines
//! `static HOST PID`, R lines `reg HOST GATE PARAM HEX` and Y lines `sync HOST HEX`, each part ascending. Pipes, hosts, gates,
//! parameters and bytes are hexadecimal in upper case, the four numbers decimal.
#![tactic(auto)]

ghost use Rattle.std.specs.Prelude.{◌≡◌, ◌/◌, ◌%◌, ◌<◌, ◌≤◌, ◌++◌, length, slice_index, OnOk};
ghost use Rattle.std.specs.List.{flat_map};
ghost use Rattle.hex.specs.Hex.{encode_upper, upper_digits};
ghost use Rattle.tables_text.specs.Tables.{state_as_word, head_line, pipe_line, static_line, value_line, sync_line, hex_or_dash, value_words, rows_text};
ghost use Rattle.tables_text.specs.Tables.{tables_text_of};

use arrayvec::ArrayVec;
use hci_tables::Tables;
use pipe_table::PipeRow;
use registry::RegValue;
use std::alloc::{AllocError, Global};

/// The hexadecimal digits.
const DIGITS: [u8; 16] = *b"0123456789ABCDEF";

/// Room for the lines of all rows that tables can have: 110 pipes, 16 static pipes, 14 values and 7 identifiers.
const ROWS_ROOM: usize = 4_096;

/// Appends the tables of a node as text, LF at the end of each line. The node is told by this word. Where there is no memory, `out`
/// has its old bytes and some whole lines behind them.
pub fn write_tables(
    alloc: Global,
    node: &str,
    tables: &Tables,
    out: &mut Vec<u8>,
) -> Result<(), AllocError>
    ensures { OnOk result (out.new.items ≡ out.old.items ++ tables_text_of node.now tables.now) }
{
    push_head(alloc, node, tables, out)?;
    write_rows(alloc, tables, out)
}

/// Appends the lines behind the first one: a line for each row of the tables. Where there is no memory, `out` has its old bytes and
/// some whole lines behind them.
pub fn write_rows(_alloc: Global, tables: &Tables, out: &mut Vec<u8>) -> Result<(), AllocError>
    ensures { OnOk result (out.new.items ≡ out.old.items ++ rows_text tables.now) }
{
    out.reserve(ROWS_ROOM)?;
    push_pipes(tables.pipes().rows(), out)?;
    push_statics(tables.statics(), out)?;
    push_values(tables.registry().values(), out)?;
    push_syncs(tables.syncs(), out)?;
    Ok(())
}

fn push_head(
    alloc: Global,
    node: &str,
    tables: &Tables,
    out: &mut Vec<u8>,
) -> Result<(), AllocError>
    ensures { OnOk result (out.new.items ≡ out.old.items ++ head_line node.now tables.now) }
{
    let pipes = tables.pipes().rows().len();
    let statics = tables.statics().len();
    let values = tables.registry().values().len();
    let syncs = tables.syncs().len();
    let line = format!(in alloc; "tables {node} {pipes} {statics} {values} {syncs}\n")?;
    out.extend_from_slice(line.as_bytes())
}

fn push_pipes(rows: &[PipeRow], out: &mut Vec<u8>) -> Result<(), AllocError>
    ensures { OnOk result (out.new.items ≡ out.old.items ++ flat_map pipe_line rows.now) }
{
    for row in rows {
        out.extend_from_slice(&pipe_text(row))?;
    }
    Ok(())
}

fn pipe_text(row: &PipeRow) -> [u8; 27]
    ensures { result ≡ pipe_line row.now }
{
    let state = state_word(row.opened);
    [
        b'p',
        b'i',
        b'p',
        b'e',
        b' ',
        high_digit(row.pid),
        low_digit(row.pid),
        b' ',
        high_digit(row.creator),
        low_digit(row.creator),
        b' ',
        high_digit(row.creator_gate),
        low_digit(row.creator_gate),
        b' ',
        high_digit(row.dest),
        low_digit(row.dest),
        b' ',
        high_digit(row.dest_gate),
        low_digit(row.dest_gate),
        b' ',
        state[0],
        state[1],
        state[2],
        state[3],
        state[4],
        state[5],
        b'\n',
    ]
}

/// The first of a byte's two hexadecimal digits.
#[inline(always)]
fn high_digit(byte: u8) -> u8
    ensures { result ≡ slice_index upper_digits (byte / 16) }
{
    DIGITS[(byte / 16) as usize]
}

/// The second of a byte's two hexadecimal digits.
#[inline(always)]
fn low_digit(byte: u8) -> u8
    ensures { result ≡ slice_index upper_digits (byte % 16) }
{
    DIGITS[(byte % 16) as usize]
}

fn state_word(opened: bool) -> &'static [u8; 6]
    ensures { result.now ≡ state_as_word opened }
{
    if opened { b"opened" } else { b"closed" }
}

fn push_statics(statics: &[(u8, u8)], out: &mut Vec<u8>) -> Result<(), AllocError>
    ensures { OnOk result (out.new.items ≡ out.old.items ++ flat_map static_line statics.now) }
{
    for static_pipe in statics {
        out.extend_from_slice(&static_text(static_pipe.0, static_pipe.1))?;
    }
    Ok(())
}

fn static_text(host: u8, pid: u8) -> [u8; 13]
    ensures { result ≡ static_line (host, pid) }
{
    [
        b's',
        b't',
        b'a',
        b't',
        b'i',
        b'c',
        b' ',
        high_digit(host),
        low_digit(host),
        b' ',
        high_digit(pid),
        low_digit(pid),
        b'\n',
    ]
}

fn push_values(values: &[RegValue], out: &mut Vec<u8>) -> Result<(), AllocError>
    ensures { OnOk result (out.new.items ≡ out.old.items ++ flat_map value_line values.now) }
{
    for value in values {
        out.extend_from_slice(value_text(value).as_slice())?;
    }
    Ok(())
}

#[tactic(auto, using(crate::proofs::TextLemmas::value_line_is))]
fn value_text(value: &RegValue) -> ArrayVec<u8, 54>
    ensures { result.items ≡ value_line value.now }
{
    let mut line = ArrayVec::new();
    let _ = line.try_extend_from_slice(&value_head(value.host, value.gate, value.param));
    push_bytes(&mut line, value.value.as_slice());
    line.push(b'\n');
    line
}

/// The words before the bytes of a value, a space behind each.
fn value_head(host: u8, gate: u8, param: u8) -> [u8; 13]
    ensures { result ≡ value_words host gate param }
{
    [
        b'r',
        b'e',
        b'g',
        b' ',
        high_digit(host),
        low_digit(host),
        b' ',
        high_digit(gate),
        low_digit(gate),
        b' ',
        high_digit(param),
        low_digit(param),
        b' ',
    ]
}

fn push_bytes(line: &mut ArrayVec<u8, 54>, bytes: &[u8])
    requires start { length line.old.items ≡ 13 }
    requires few { length bytes.now ≤ 20 }
    ensures bytes { line.new.items ≡ line.old.items ++ hex_or_dash bytes.now }
    ensures room { length line.new.items < 54 }
{
    if bytes.is_empty() {
        line.push(b'-');
    } else {
        push_digits(line, bytes);
    }
}

fn push_digits(line: &mut ArrayVec<u8, 54>, bytes: &[u8])
    requires start { length line.old.items ≡ 13 }
    requires few { length bytes.now ≤ 20 }
    ensures digits { line.new.items ≡ line.old.items ++ encode_upper bytes.now }
    ensures room { length line.new.items < 54 }
{
    for byte in bytes {
        line.push(high_digit(*byte));
        line.push(low_digit(*byte));
    }
}

fn push_syncs(syncs: &[(u8, u16)], out: &mut Vec<u8>) -> Result<(), AllocError>
    ensures { OnOk result (out.new.items ≡ out.old.items ++ flat_map sync_line syncs.now) }
{
    for sync in syncs {
        out.extend_from_slice(&sync_text(sync.0, sync.1))?;
    }
    Ok(())
}

fn sync_text(host: u8, id: u16) -> [u8; 13]
    ensures { result ≡ sync_line (host, id) }
{
    let high = (id / 256) as u8;
    let low = (id % 256) as u8;
    [
        b's',
        b'y',
        b'n',
        b'c',
        b' ',
        high_digit(host),
        low_digit(host),
        b' ',
        high_digit(high),
        low_digit(high),
        high_digit(low),
        low_digit(low),
        b'\n',
    ]
}
