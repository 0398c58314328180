//! Stores over flash whose changes are torn, one after another.
ghost use Rattle.std.specs.Prelude.{◌≤◌, ◌+◌};

use crate::runs::one_word;
use crate::shown::{same, same_bytes};
use arrayvec::ArrayVec;
use flash_nv::{FlashNv, MemFlash};
use hci_store::Store;
use hci_tables::Command;
use nv_journal::StartRefused;
use std::alloc::Global;
use std::process::Abort;
use swp_base::{MemSink, MemSource, Nv};
use swp_tool::{Ended, Status, run};

/// A memory over a new flash.
fn new_memory(rt: &impl Abort, alloc: Global) -> FlashNv<MemFlash> {
    let flash = MemFlash::new(alloc).expect(rt, "there is memory");
    FlashNv::new(flash)
}

/// The memory that a store is started on.
#[derive(Drop)]
pub(crate) enum Before {
    /// All FF.
    New,
    /// The identifier 0002 of host 02 is kept.
    One,
    /// The second bank is full, with the identifiers 0000 to 0FFD of host 02, and the first one still open.
    Full,
}

/// The bytes of 32 records, of the identifiers from this one on of host 02.
fn records_from(first: u16) -> [u8; 256]
    requires { first + 32 ≤ 65536 }
{
    let mut bytes = [0; 256];
    for i in 0..32u16 {
        let [high, low] = (first + i).to_be_bytes();
        let at = 8 * i as usize;
        bytes[at..at + 8].copy_from_slice(&[0x5A, 4, high, low, 6, 2, high, low]);
    }
    bytes
}

/// A memory with a full second bank.
fn full_memory(rt: &impl Abort, alloc: Global) -> FlashNv<MemFlash> {
    let mut nv = new_memory(rt, alloc);
    let _ = nv.write(0, &[0x5A, 2, 0, 0, 0, 1, 0, 0, 0, 0, 0, 0]);
    let _ = nv.write(32_768, &[0x5A, 2, 0, 0, 0, 2, 0, 0, 0, 0, 0, 0]);
    for piece in 0..128u16 {
        let at = 32_780 + 256 * u32::from(piece);
        let len = if piece == 127 { 240 } else { 256 };
        let _ = nv.write(at, &records_from(32 * piece)[..len]);
    }
    nv
}

/// Starts a store over the memory, has this identifier of host 02 kept, and gives the memory back.
fn keep(nv: FlashNv<MemFlash>, id: u16) -> FlashNv<MemFlash> {
    match Store::start(nv) {
        Ok(store) => {
            let mut store = store;
            let _ = store.commit(&Command::Sync { host: 2, id });
            store.into_nv()
        }
        Err(StartRefused { nv, .. }) => nv,
    }
}

/// The memory before.
pub(crate) fn memory_before(rt: &impl Abort, alloc: Global, before: &Before) -> FlashNv<MemFlash> {
    match before {
        Before::New => new_memory(rt, alloc),
        Before::One => keep(new_memory(rt, alloc), 2),
        Before::Full => full_memory(rt, alloc),
    }
}

/// The memory, whose flash tears the change of this number from now by this mask.
pub(crate) fn torn(nv: FlashNv<MemFlash>, nth: u32, mask: u8) -> FlashNv<MemFlash>
    requires { 1 ≤ nth }
{
    let mut flash = nv.into_flash();
    let mut masks = ArrayVec::new();
    masks.push(mask);
    flash.arm(nth, masks);
    FlashNv::new(flash)
}

/// How many commands a look at the memory says were kept.
pub(crate) fn peeked(nv: FlashNv<MemFlash>) -> (Option<u32>, FlashNv<MemFlash>) {
    match Store::peek(nv) {
        Ok(store) => (Some(store.kept()), store.into_nv()),
        Err(StartRefused { nv, .. }) => (None, nv),
    }
}

/// How many commands a start over the memory says were kept.
fn started(nv: FlashNv<MemFlash>) -> (Option<u32>, FlashNv<MemFlash>) {
    match Store::start(nv) {
        Ok(store) => (Some(store.kept()), store.into_nv()),
        Err(StartRefused { nv, .. }) => (None, nv),
    }
}

/// How a run with the word `tables` over the memory ended, and what it wrote.
pub(crate) fn told(
    rt: &impl Abort,
    alloc: Global,
    nv: FlashNv<MemFlash>,
) -> (Status, MemSink, FlashNv<MemFlash>) {
    let words = one_word(alloc, "tables").expect(rt, "there is memory");
    let mut source = MemSource::new(Vec::new(alloc), Vec::new(alloc), 4096);
    let mut sink = MemSink::new(Vec::new(alloc), Vec::new(alloc), 4096);
    let Ended { status, nv } = run(alloc, words.as_slice(), &mut source, &mut sink, nv);
    (status, sink, nv)
}

/// In this memory so many commands were kept, and they made these tables.
fn keeps(
    rt: &impl Abort,
    alloc: Global,
    nv: FlashNv<MemFlash>,
    kept: (u32, &str),
) -> FlashNv<MemFlash> {
    let (seen, nv) = peeked(nv);
    let (found, nv) = started(nv);
    same(rt, &(seen, found), &(Some(kept.0), Some(kept.0)));
    let (status, sink, nv) = told(rt, alloc, nv);
    same(rt, &status, &Status::Done);
    same_bytes(rt, sink.bytes(), kept.1.as_bytes());
    nv
}

/// The power goes at a change while the identifier 0001 of host 02 is to be kept, and this is kept then.
fn tear_leaves(
    rt: &impl Abort,
    alloc: Global,
    before: &Before,
    nth: u32,
    mask: u8,
    kept: (u32, &str),
)
    requires { 1 ≤ nth }
{
    let nv = keep(torn(memory_before(rt, alloc, before), nth, mask), 1);
    let _nv = keeps(rt, alloc, nv, kept);
}

/// The power goes at each of so many changes in turn, of which none of the bits takes effect, or half of them, or all. What was kept
/// before is kept then; but where all bits of the last change take effect, which is a header's, the identifier 0001 is kept too.
fn each_tear_leaves(
    rt: &impl Abort,
    alloc: Global,
    before: &Before,
    changes: u32,
    kept: (u32, &str),
)
    requires { kept.0 + 1 ≤ 65536 }
{
    let more = (kept.0 + 1, "tables nv 0 0 0 1\nsync 02 0001\n");
    for change in 0..changes {
        let nth = change + 1;
        tear_leaves(rt, alloc, before, nth, 0x00, kept);
        tear_leaves(rt, alloc, before, nth, 0x0F, kept);
        let last = if nth == changes { more } else { kept };
        tear_leaves(rt, alloc, before, nth, 0xFF, last);
    }
}

#[test]
fn a_torn_change_leaves_the_tables_from_before_or_from_after(rt: HostRuntime) {
    let alloc = rt.alloc();
    // A format makes two writes, a compaction three and a record two, and each write changes one sector: it erases, programs the
    // data and programs the header.
    let one = (1, "tables nv 0 0 0 1\nsync 02 0002\n");
    let full = (4_094, "tables nv 0 0 0 1\nsync 02 0FFD\n");
    each_tear_leaves(&rt, alloc, &Before::New, 12, (0, "tables nv 0 0 0 0\n"));
    each_tear_leaves(&rt, alloc, &Before::One, 6, one);
    each_tear_leaves(&rt, alloc, &Before::Full, 15, full);
}

#[test]
fn an_identifier_that_was_kept_has_these_bytes_and_is_told(rt: HostRuntime) {
    let alloc = rt.alloc();
    let nv = keep(new_memory(&rt, alloc), 1);
    let kept = (1, "tables nv 0 0 0 1\nsync 02 0001\n");
    let mut nv = keeps(&rt, alloc, nv, kept);
    let mut bytes = [0; 21];
    same(&rt, &nv.read(0, &mut bytes), &Ok(()));
    same_bytes(
        &rt,
        &bytes,
        &[
            0x5A, 2, 0, 0, 0, 1, 0, 0, 0, 0, 0, 0, 0x5A, 4, 0, 0, 6, 2, 0, 1, 0xFF,
        ],
    );
}
