//! The command `tables`: what a memory keeps, as text.
ghost use Rattle.std.specs.Prelude.{◌≡◌, ◌≢◌, ◌≤◌, List, ℕ, None, IsTrue};
ghost use Rattle.swp_base.specs.Outside.{Rose};
ghost use Rattle.hci_tables.specs.Tables.{close};
ghost use Rattle.hci_store.specs.Image.{tables_of, image_fault};
ghost use Rattle.swp_words.specs.Images.{Told, tables_lines, IsOfTables, status_of_fault};

use crate::output::write_all;
use crate::status::{Ended, Status};
use hci_store::Store;
use hci_tables::Tables;
use nv_journal::{JournalFault, StartRefused};
use std::alloc::Global;
use swp_base::{Nv, Sink};
use tables_text::write_tables;

/// Writes the tables of a memory, all pipes closed. Nothing is written to the memory.
pub fn tables<K: Sink, N: Nv + Drop>(alloc: Global, sink: &mut K, nv: N) -> Ended<N>
    requires { N.capacity nv ≡ 65536 }
    ensures told { IsTrue N.tells → Told K.tells result.status (N.content nv) (K.written sink.old) (K.written sink.new) }
    ensures kept { IsTrue N.tells → N.content result.nv ≡ N.content nv }
    ensures kind { IsOfTables result.status }
    ensures nv_fault { result.status ≡ Status.NvFault → Rose (N.faults nv) (N.faults result.nv) }
    ensures write_fault { result.status ≡ Status.WriteFault → Rose (K.faults sink.old) (K.faults sink.new) }
    ensures faults { N.faults nv ≤ N.faults result.nv }
{
    let store = match Store::peek(nv) {
        Ok(store) => store,
        Err(StartRefused { nv, fault }) => {
            return Ended {
                status: refused(fault),
                nv,
            };
        }
    };
    let status = write_out(alloc, sink, store.tables());
    Ended {
        status,
        nv: store.into_nv(),
    }
}

/// How a run ends whose memory was refused.
pub fn refused(fault: JournalFault) -> Status
    ensures { result ≡ status_of_fault fault }
{
    match fault {
        JournalFault::NvFault => Status::NvFault,
        JournalFault::UnknownFormat { .. }
        | JournalFault::BadRecord { .. }
        | JournalFault::GenerationsSpent => Status::BadImage { fault },
    }
}

/// Writes tables.
fn write_out<K: Sink>(alloc: Global, sink: &mut K, tables: &Tables) -> Status
    ensures told { (content : List ℕ) → image_fault content ≡ None → tables.now ≡ close (tables_of content)
        → Told K.tells result content (K.written sink.old) (K.written sink.new) }
    ensures kind { IsOfTables result }
    ensures nv_fault { result ≢ Status.NvFault }
    ensures write_fault { result ≡ Status.WriteFault → Rose (K.faults sink.old) (K.faults sink.new) }
{
    let mut text = Vec::new(alloc);
    if write_tables(alloc, "nv", tables, &mut text).is_err() {
        return Status::NoMemory;
    }
    if write_all(sink, text.as_slice()).is_err() {
        return Status::WriteFault;
    }
    Status::Done
}
