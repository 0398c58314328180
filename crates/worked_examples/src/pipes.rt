//! Worked examples of pipes.
ghost use Rattle.std.specs.Prelude.{◌≡◌};

use crate::shown::same;
use pipe_table::{PipeRow, PipeTable};
use std::process::Abort;

fn pipe_of(pid: u8, creator: u8) -> PipeRow
    ensures { result.pid ≡ pid }
{
    PipeRow {
        pid,
        creator,
        creator_gate: 0x41,
        dest: 0x01,
        dest_gate: 0x05,
        opened: false,
    }
}

/// The table has so many rows.
fn has_rows(rt: &impl Abort, table: &PipeTable, many: usize) {
    same(rt, &table.rows().len(), &many);
}

/// The lowest free pipe but those that are kept is this one.
fn is_free(rt: &impl Abort, table: &PipeTable, kept: &[u8], pid: Option<u8>) {
    same(rt, &table.lowest_free(kept), &pid);
}

/// So many pipes of a gate of a host are opened, but for one pipe.
fn are_opened(rt: &impl Abort, table: &PipeTable, end: (u8, u8), except: u8, many: u8) {
    let (host, gate) = end;
    same(rt, &table.opened_on(host, gate, except), &many);
}

#[test]
fn pipes_are_02_to_6f(rt: HostRuntime) {
    let mut table = PipeTable::new();
    for pid in 0x02..0x70u8 {
        is_free(&rt, &table, &[], Some(pid));
        table.insert(pipe_of(pid, 0x02));
    }
    has_rows(&rt, &table, 110);
    is_free(&rt, &table, &[], None);
    let removed = [table.remove(0x33), table.remove(0x33)];
    same(&rt, &removed, &[true, false]);
    is_free(&rt, &table, &[], Some(0x33));
    is_free(&rt, &table, &[0x33], None);
}

#[test]
fn rows_are_found_by_pipe_and_host(rt: HostRuntime) {
    let mut table = PipeTable::new();
    for (pid, creator) in [(0x05, 0x02), (0x03, 0x03), (0x05, 0x03)] {
        table.insert(pipe_of(pid, creator));
    }
    has_rows(&rt, &table, 2);
    let found = [table.find(0x05), table.find(0x04)];
    same(&rt, &found, &[Some(pipe_of(0x05, 0x03)), None]);
    let set = [table.set_opened(0x03, true), table.set_opened(0x04, true)];
    same(&rt, &set, &[true, false]);
    are_opened(&rt, &table, (0x01, 0x05), 0x05, 1);
    are_opened(&rt, &table, (0x01, 0x05), 0x03, 0);
    are_opened(&rt, &table, (0x03, 0x41), 0x05, 1);
    table.close();
    are_opened(&rt, &table, (0x01, 0x05), 0x05, 0);
    table.clear_host(0x03);
    has_rows(&rt, &table, 0);
}
