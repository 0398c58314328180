//! Stores whose writes are cut, one after another.
ghost use Rattle.std.specs.Prelude.{◌≡◌, ◌+◌, ◌<◌, ◌≤◌, length, IsSome, IsTrue};

use crate::memories::{IMAGE, TABLES, memory, tells, whole};
use crate::shown::same;
use arrayvec::ArrayVec;
use hci_store::Store;
use hci_tables::{Command, Tables};
use nv_journal::StartRefused;
use pipe_table::PipeRow;
use registry::{SESSION_IDENTITY, WHITELIST};
use std::alloc::Global;
use std::process::Abort;
use swp_base::{MemNv, Nv};
use swp_tool::Status;

/// The memory that a store is started on.
#[derive(Drop)]
enum Before {
    /// All FF.
    New,
    /// A bank of version 01.
    OldVersion,
    /// The second bank is full, and the first one still open.
    Full,
}

/// A memory of which a second bank is in use, with 4,094 records of the identifiers 0000 to 0FFD of host 02.
fn full_memory(rt: &impl Abort, alloc: Global) -> MemNv
    ensures { length result.content ≡ 65536 }
{
    let mut nv = memory(rt, alloc, &IMAGE);
    let _ = nv.write(32_768, &[0x5A, 2, 0, 0, 0, 2, 0, 0, 0, 0, 0, 0]);
    for position in 0..4_094u16 {
        let [high, low] = position.to_be_bytes();
        let at = 32_780 + 8 * u32::from(position);
        let _ = nv.write(at, &[0x5A, 4, high, low, 6, 2, high, low]);
    }
    nv
}

/// The memory before.
fn memory_before(rt: &impl Abort, alloc: Global, before: &Before) -> MemNv
    ensures { length result.content ≡ 65536 }
{
    match before {
        Before::New => memory(rt, alloc, &[]),
        Before::OldVersion => memory(rt, alloc, &IMAGE),
        Before::Full => full_memory(rt, alloc),
    }
}

/// Starts a store, in which the identifier 1234 of host 02 is to be kept, over a memory of which one write leaves its fill.
fn cut(nv: MemNv, nth: u32, fill: u8) -> MemNv
    requires size { length nv.content ≡ 65536 }
    requires nth { 1 ≤ nth }
{
    let mut nv = nv;
    let mut bytes: ArrayVec<u8, 64> = ArrayVec::new();
    bytes.push(fill);
    nv.arm(nth, bytes);
    match Store::start(nv) {
        Ok(store) => {
            let mut store = store;
            let _ = store.commit(&Command::Sync {
                host: 2,
                id: 0x1234,
            });
            store.into_nv()
        }
        Err(StartRefused { nv, .. }) => nv,
    }
}

/// How many commands a memory says were kept, and the memory.
fn kept_in(nv: MemNv) -> (Option<u32>, MemNv)
    requires { length nv.content ≡ 65536 }
{
    match Store::peek(nv) {
        Ok(store) => (Some(store.kept()), store.into_nv()),
        Err(StartRefused { nv, .. }) => (None, nv),
    }
}

/// In this memory so many commands were kept, and they made these tables.
pub(crate) fn keeps(rt: &impl Abort, alloc: Global, nv: MemNv, kept: u32, tables: &str) {
    let (found, nv) = kept_in(whole(rt, nv));
    same(rt, &found, &Some(kept));
    let _nv = tells(rt, alloc, nv, Status::Done, tables);
}

/// What is kept once the identifier 1234 of host 02 is kept too, behind so many commands, and the tables then.
fn one_more(commands: u32) -> (u32, &'static str)
    requires { commands < 65536 }
{
    (commands + 1, "tables nv 0 0 0 1\nsync 02 1234\n")
}

/// The memory is cut at a write, which leaves this fill, and keeps so many commands and these tables then.
fn cut_leaves(
    rt: &impl Abort,
    alloc: Global,
    before: &Before,
    nth: u32,
    fill: u8,
    kept: (u32, &str),
)
    requires { 1 ≤ nth }
{
    let nv = cut(memory_before(rt, alloc, before), nth, fill);
    keeps(rt, alloc, nv, kept.0, kept.1);
}

/// The memory is cut at a write with each of three fills. What was kept before is kept then, or one command more once the write
/// `last` was made. It opens a gate, which is open too where the cut left 5A there.
fn cuts_leave(
    rt: &impl Abort,
    alloc: Global,
    before: &Before,
    nth: u32,
    last: u32,
    kept: (u32, &str),
)
    requires nth { 1 ≤ nth }
    requires few { kept.0 < 65536 }
{
    let more = one_more(kept.0);
    let closed = if nth > last { more } else { kept };
    let opened = if nth >= last { more } else { kept };
    cut_leaves(rt, alloc, before, nth, 0xFF, closed);
    cut_leaves(rt, alloc, before, nth, 0x5A, opened);
    cut_leaves(rt, alloc, before, nth, 0x13, closed);
}

/// The memory, of which so many commands made these tables, is cut at each of six writes in turn.
fn each_cut_leaves(rt: &impl Abort, alloc: Global, before: &Before, last: u32, kept: (u32, &str))
    requires { kept.0 < 65536 }
{
    for nth in 1..=6u32 {
        cuts_leave(rt, alloc, before, nth, last, kept);
    }
}

#[test]
fn a_cut_leaves_the_tables_from_before_or_from_after(rt: HostRuntime) {
    let alloc = rt.alloc();
    let none = (0, "tables nv 0 0 0 0\n");
    let full = (4_094, "tables nv 0 0 0 1\nsync 02 0FFD\n");
    each_cut_leaves(&rt, alloc, &Before::New, 4, none);
    each_cut_leaves(&rt, alloc, &Before::OldVersion, 4, (2, TABLES));
    each_cut_leaves(&rt, alloc, &Before::Full, 5, full);
}

/// So many different bytes.
fn value_of(first: u8, many: u8) -> ArrayVec<u8, 20> {
    let mut value = ArrayVec::new();
    for place in 0..many {
        if !value.is_full() {
            value.push(first ^ place);
        }
    }
    value
}

/// A command of each kind in turn, over all hosts, pipes and lengths of values.
fn command_of(turn: u16) -> Command {
    let [high, low] = turn.wrapping_mul(40_503).to_be_bytes();
    let host = 1 + high % 7;
    let pid = 2 + low % 110;
    match turn % 7 {
        0 | 1 => Command::Create(PipeRow {
            pid,
            creator: host,
            creator_gate: low,
            dest: 0,
            dest_gate: 4,
            opened: false,
        }),
        2 => Command::Delete { pid },
        3 => Command::SetOpened {
            host,
            pid: low % 112,
            opened: high % 2 == 0,
        },
        4 => Command::Set {
            host,
            gate: 0,
            param: SESSION_IDENTITY,
            value: value_of(low, 8),
        },
        5 => Command::Set {
            host,
            gate: 0,
            param: WHITELIST,
            value: value_of(8, low % 8),
        },
        _ => Command::Sync {
            host,
            id: u16::from(low),
        },
    }
}

/// Commits so many commands, and does the same to these tables; whether each was kept.
fn commit_all(store: &mut Store<MemNv>, tables: &mut Tables, many: u16) -> bool
    requires live { IsTrue store.old.journal.live }
    requires started { IsSome store.old.journal.state.in_use }
    requires version { store.old.journal.state.version ≡ 2 }
{
    for turn in 0..many {
        let command = command_of(turn);
        if !command.is_recordable() || store.commit(&command).is_err() {
            return false;
        }
        tables.apply(&command);
    }
    true
}

/// A store that is started on this memory.
fn started(rt: &impl Abort, nv: MemNv) -> Store<MemNv>
    requires { length nv.content ≡ 65536 }
    ensures live { IsTrue result.journal.live }
    ensures started { IsSome result.journal.state.in_use }
    ensures version { result.journal.state.version ≡ 2 }
{
    match Store::start(nv) {
        Ok(store) => store,
        Err(_refused) => panic!(rt; "the memory is refused"),
    }
}

/// The store has these tables, and says that so many commands were kept.
fn has(rt: &impl Abort, store: &Store<MemNv>, tables: &Tables, kept: u32) {
    same(rt, &store.kept(), &kept);
    same(rt, store.tables(), tables);
}

#[test]
fn thousands_of_commands_are_kept_over_compactions(rt: HostRuntime) {
    let mut store = started(&rt, full_memory(&rt, rt.alloc()));
    let mut tables = Tables::new();
    tables.apply(&Command::Sync {
        host: 2,
        id: 0x0FFD,
    });
    let committed = commit_all(&mut store, &mut tables, 6_000);
    same(&rt, &committed, &true);
    has(&rt, &store, &tables, 10_094);
    let nv = whole(&rt, store.into_nv());
    tables.close();
    has(&rt, &started(&rt, nv), &tables, 10_094);
}

/// The bytes of a memory from a place on.
fn bytes_at(nv: &mut MemNv, at: u32) -> [u8; 29]
    requires { at + 29 ≤ length nv.old.content }
{
    let mut bytes = [0; 29];
    let _ = nv.read(at, &mut bytes);
    bytes
}

/// The memory of the store has these bytes from a place on.
fn leaves(rt: &impl Abort, store: Store<MemNv>, at: u32, bytes: [u8; 29])
    requires { at ≤ 32768 }
{
    let mut nv = whole(rt, store.into_nv());
    same(rt, &bytes_at(&mut nv, at), &bytes);
}

/// The store keeps the command.
fn commits(rt: &impl Abort, store: &mut Store<MemNv>, command: &Command)
    requires live { IsTrue store.old.journal.live }
    requires started { IsSome store.old.journal.state.in_use }
    requires version { store.old.journal.state.version ≡ 2 }
    ensures live { IsTrue store.new.journal.live }
    ensures started { IsSome store.new.journal.state.in_use }
    ensures version { store.new.journal.state.version ≡ 2 }
{
    if !command.is_recordable() || store.commit(command).is_err() {
        panic!(rt; "the command isn't kept");
    }
}

#[test]
fn two_commands_have_these_bytes(rt: HostRuntime) {
    let alloc = rt.alloc();
    // From the gate of the bank on: version, generation, base, snapshot, and then two records and a closed gate.
    let new = [
        0x5A, 2, 0, 0, 0, 1, 0, 0, 0, 0, 0, 0, 0x5A, 4, 0, 0, 6, 2, 0x1A, 0x2B, 0x5A, 4, 0, 1, 4,
        2, 1, 1, 0xFF,
    ];
    // Written anew they are a snapshot of the tables with all pipes closed, and count as two.
    let written_anew = [
        0x5A, 2, 0, 0, 0, 2, 0, 0, 0, 2, 0, 1, 0x5A, 4, 0, 0, 6, 2, 0x1A, 0x2B, 0xFF, 0xFF, 0xFF,
        0xFF, 0xFF, 0xFF, 0xFF, 0xFF, 0xFF,
    ];
    let mut store = started(&rt, memory(&rt, alloc, &[]));
    let sync = Command::Sync {
        host: 2,
        id: 0x1A2B,
    };
    commits(&rt, &mut store, &sync);
    let opened = Command::SetOpened {
        host: 2,
        pid: 1,
        opened: true,
    };
    commits(&rt, &mut store, &opened);
    leaves(&rt, store, 0, new);
    // The same commands in a bank of version 01.
    leaves(
        &rt,
        started(&rt, memory(&rt, alloc, &IMAGE)),
        32_768,
        written_anew,
    );
}
