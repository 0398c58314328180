//! The table of pipes.
ghost use Rattle.std.specs.Prelude.{◌≡◌, ◌↔◌, IsTrue, IsSome};
ghost use Rattle.sorted_rows.specs.Rows.{IsPlace};
ghost use Rattle.pipe_table.specs.PipeRows.{ArePipeRows, IsDynamic, pid_of, pipe_at, with_pipe, without_pipe, with_opened, all_closed};

use crate::{FIRST_DYNAMIC, FIRST_RESERVED, PipeRow};
use arrayvec::ArrayVec;
use std::alloc::AllocError;
use std::marker::Model;

/// The most dynamic pipes (ETSI TS 102 622, section 4.4): 02 to 6F.
pub const MOST_PIPES: usize = 110;

/// The dynamic pipes that a node keeps (ETSI TS 102 622, section 4.4). Contracts see the list of its rows, which is sorted by pipe.
#[derive(Debug, Drop, PartialEq, Eq)]
pub struct PipeTable {
    rows: ArrayVec<PipeRow, 110>,
}

impl Model for PipeTable {
    ghost use Rattle.std.specs.Prelude.{List};
    ghost use Rattle.pipe_table.specs.declared.row.PipeRow.{PipeRow};
    ghost use Rattle.pipe_table.specs.PipeRows.{ArePipeRows};

    ghost Value = { List PipeRow };

    ghost view = { λ t. t.rows.items };

    ghost invariant = { λ t. ArePipeRows t.rows.items };

    ghost inverse = { λ rows. record { rows = record { items = rows } } };
}

impl PipeTable {
    ghost use Rattle.std.specs.Prelude.{◌≡◌, ◌↔◌, [], IsTrue, IsSome, IsNone, IfSome};
    ghost use Rattle.pipe_table.specs.PipeRows.{ArePipeRows, IsDynamic, pipe_at, with_pipe, without_pipe, rows_without_host, with_opened, all_closed};
    ghost use Rattle.pipe_table.specs.PipeRows.{opened_on, is_free, lowest_free};

    /// No pipes.
    pub fn new() -> PipeTable
        ensures { result ≡ [] }
    {
        PipeTable {
            rows: ArrayVec::new(),
        }
    }

    /// The rows, sorted by pipe.
    pub fn rows(&self) -> &[PipeRow]
        ensures rows { result.now ≡ self.now }
        ensures sorted { ArePipeRows self.now }
    {
        self.rows.as_slice()
    }

    /// The row of a pipe: none exactly where there is no such row.
    pub fn find(&self, pid: u8) -> Option<PipeRow>
        ensures row { result ≡ pipe_at self.now pid }
        ensures dynamic { IsSome result → IsDynamic pid }
    {
        row_of(self.rows.as_slice(), pid)
    }

    /// Puts a row, in place of the one of the same pipe if there is one. It asks for a dynamic pipe.
    pub fn insert(&mut self, row: PipeRow)
        requires { IsDynamic row.pid }
        ensures { self.new ≡ with_pipe self.old row }
    {
        put(&mut self.rows, row);
    }

    /// Takes a pipe out, and says whether there was one.
    pub fn remove(&mut self, pid: u8) -> bool
        ensures removed { self.new ≡ without_pipe self.old pid }
        ensures found { IsTrue result ↔ IsSome (pipe_at self.old pid) }
    {
        take_out(&mut self.rows, pid)
    }

    /// Takes all pipes of a host out.
    pub fn clear_host(&mut self, host: u8)
        ensures { self.new ≡ rows_without_host self.old host }
    {
        self.rows.retain(|row| !row.joins_host(host));
    }

    /// Opens or closes a pipe, and says whether there was one.
    pub fn set_opened(&mut self, pid: u8, opened: bool) -> bool
        ensures set { self.new ≡ with_opened self.old pid opened }
        ensures found { IsTrue result ↔ IsSome (pipe_at self.old pid) }
    {
        set_row_opened(self.rows.as_mut_slice(), pid, opened)
    }

    /// Closes all pipes.
    pub fn close(&mut self)
        ensures { self.new ≡ all_closed self.old }
    {
        close_rows(self.rows.as_mut_slice());
    }

    /// How many opened pipes, but the pipe `except`, end at this gate of this host.
    pub fn opened_on(&self, host: u8, gate: u8, except: u8) -> u8
        ensures { result ≡ opened_on self.now host gate except }
    {
        let count = self
            .rows
            .iter()
            .filter(|row| row.opened && row.ends_at(host, gate) && row.pid != except)
            .count();
        count as u8
    }

    /// The least dynamic pipe that is neither in a row nor in `kept`: none exactly where there is none. That the least one is given is this
    /// project's own.
    #[tactic(auto, unfolding(crate::specs::PipeRows::lowest_free))]
    pub fn lowest_free(&self, kept: &[u8]) -> Option<u8>
        ensures lowest { result ≡ lowest_free self.now kept.now }
        ensures dynamic { IfSome result IsDynamic }
    {
        (FIRST_DYNAMIC..FIRST_RESERVED).find(|pid| self.is_free(*pid, kept))
    }

    fn is_free(&self, pid: u8, kept: &[u8]) -> bool
        ensures { result ≡ is_free self.now kept.now pid }
    {
        self.find(pid).is_none() && !kept.contains(&pid)
    }
}

impl Clone for PipeTable {
    ghost is_clone = { λ a b. b ≡ a };

    ghost is_infallible = { λ _. Unit {0} };

    ghost use Rattle.std.specs.Prelude.{◌≡◌};

    fn clone(&self) -> Result<Self, AllocError> {
        let mut rows = ArrayVec::new();
        let _ = rows.try_extend_from_slice(self.rows.as_slice());
        Ok(PipeTable { rows })
    }
}

// Where the row of a pipe stands, or where it would be put.
fn place_of(rows: &[PipeRow], pid: u8) -> Result<usize, usize>
    requires { ArePipeRows rows.now }
    ensures { IsPlace pid_of pid rows.now result }
{
    // Where no dynamic pipe below it is free, its row stands here.
    let guess = usize::from(pid).saturating_sub(usize::from(FIRST_DYNAMIC));
    match rows.get(guess) {
        Some(row) if row.pid == pid => Ok(guess),
        _ => rows.binary_search_by_key(&pid, |row| row.pid),
    }
}

fn row_of(rows: &[PipeRow], pid: u8) -> Option<PipeRow>
    requires { ArePipeRows rows.now }
    ensures { result ≡ pipe_at rows.now pid }
{
    match place_of(rows, pid) {
        Ok(at) => Some(rows[at]),
        Err(_) => None,
    }
}

fn put(rows: &mut ArrayVec<PipeRow, 110>, row: PipeRow)
    requires sorted { ArePipeRows rows.old.items }
    requires dynamic { IsDynamic row.pid }
    ensures { rows.new.items ≡ with_pipe rows.old.items row }
{
    match place_of(rows.as_slice(), row.pid) {
        Ok(at) => rows.as_mut_slice()[at] = row,
        Err(at) => rows.insert(at, row),
    }
}

// Takes the row of a pipe out, and says whether there was one.
fn take_out(rows: &mut ArrayVec<PipeRow, 110>, pid: u8) -> bool
    requires { ArePipeRows rows.old.items }
    ensures removed { rows.new.items ≡ without_pipe rows.old.items pid }
    ensures found { IsTrue result ↔ IsSome (pipe_at rows.old.items pid) }
{
    match place_of(rows.as_slice(), pid) {
        Ok(at) => {
            rows.remove(at);
            true
        }
        Err(_) => false,
    }
}

// Opens or closes the row of a pipe, and says whether there was one.
fn set_row_opened(rows: &mut [PipeRow], pid: u8, opened: bool) -> bool
    requires { ArePipeRows rows.old }
    ensures set { rows.new ≡ with_opened rows.old pid opened }
    ensures found { IsTrue result ↔ IsSome (pipe_at rows.old pid) }
{
    match place_of(rows, pid) {
        Ok(at) => {
            rows[at] = rows[at].as_opened(opened);
            true
        }
        Err(_) => false,
    }
}

fn close_rows(rows: &mut [PipeRow])
    ensures { rows.new ≡ all_closed rows.old }
{
    for row in rows.iter_mut() {
        *row = row.as_opened(false);
    }
}
