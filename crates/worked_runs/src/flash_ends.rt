//! Runs with the words `end clf bytes` over flash whose changes are torn, one after another, and with the word `tables` over what each
//! leaves.
ghost use Rattle.std.specs.Prelude.{◌≤◌, ◌+◌};

use crate::flash_stores::{Before, memory_before, peeked, told, torn};
use crate::runs::words_of;
use crate::shown::{same, same_bytes};
use flash_nv::{FlashNv, MemFlash};
use std::alloc::Global;
use std::process::Abort;
use swp_base::{MemSink, MemSource};
use swp_tool::{Ended, Status, run};

const END: [&str; 3] = ["end", "clf", "bytes"];

/// What host 02 sends: ACT_SYNC_ID with the identifier 0001, ACT_READY, and UA.
const FROM_HOST: [u8; 17] = [
    0x00, 0x03, 0x61, 0x00, 0x01, 0x8F, 0x19, 0x00, 0x01, 0x60, 0x72, 0xA9, 0x00, 0x01, 0xE6, 0x83,
    0xE7,
];

/// What the controller answers: ACT_POWER_MODE once it keeps the identifier, and RSET.
const FROM_CONTROLLER: [u8; 13] = [
    0x00, 0x02, 0x62, 0x01, 0x9F, 0x99, 0x00, 0x03, 0xF9, 0x04, 0x00, 0x82, 0x64,
];

/// The tables once the identifier 0001 of host 02 is kept.
const KEPT: &str = "tables nv 0 0 0 1\nsync 02 0001\n";

/// How a run of the controller's end over the memory ended while host 02 sent this, and what it wrote.
fn session(
    rt: &impl Abort,
    alloc: Global,
    nv: FlashNv<MemFlash>,
) -> (Status, MemSink, FlashNv<MemFlash>) {
    let words = words_of(rt, alloc, &END);
    let sent = Vec::from_slice(alloc, &FROM_HOST).expect(rt, "there is memory");
    let mut source = MemSource::new(sent, Vec::new(alloc), 4096);
    let mut sink = MemSink::new(Vec::new(alloc), Vec::new(alloc), 4096);
    let Ended { status, nv } = run(alloc, words.as_slice(), &mut source, &mut sink, nv);
    (status, sink, nv)
}

/// A session over the memory ends so and writes this, and leaves so many commands and these tables to a run with the word `tables`.
fn session_leaves(
    rt: &impl Abort,
    alloc: Global,
    nv: FlashNv<MemFlash>,
    ended: (Status, &[u8]),
    kept: (u32, &str),
) {
    let (status, sink, nv) = session(rt, alloc, nv);
    same(rt, &(status, sink.bytes()), &ended);
    let (count, nv) = peeked(nv);
    same(rt, &count, &Some(kept.0));
    let (status, sink, _nv) = told(rt, alloc, nv);
    same(rt, &status, &Status::Done);
    same_bytes(rt, sink.bytes(), kept.1.as_bytes());
}

/// The power goes at a change of a session, of which the bits of the mask take effect: nothing is answered, and this is kept then.
fn tear_leaves(
    rt: &impl Abort,
    alloc: Global,
    before: &Before,
    nth: u32,
    mask: u8,
    kept: (u32, &str),
)
    requires { 1 ≤ nth }
{
    let nv = torn(memory_before(rt, alloc, before), nth, mask);
    session_leaves(rt, alloc, nv, (Status::NvFault, &[]), kept);
}

/// The power goes at each of the changes of a session in turn, of which none of the bits takes effect, or half of them, or all. What was
/// kept before is kept then; but where all bits of the last change take effect, which is a header's, the identifier 0001 is kept too. So
/// it is in a session in which the power doesn't go.
fn each_tear_leaves(
    rt: &impl Abort,
    alloc: Global,
    before: &Before,
    changes: u32,
    kept: (u32, &str),
)
    requires { kept.0 + 1 ≤ 65536 }
{
    let more = (kept.0 + 1, KEPT);
    for change in 0..changes {
        let nth = change + 1;
        tear_leaves(rt, alloc, before, nth, 0x00, kept);
        tear_leaves(rt, alloc, before, nth, 0x0F, kept);
        let last = if nth == changes { more } else { kept };
        tear_leaves(rt, alloc, before, nth, 0xFF, last);
    }
    let nv = memory_before(rt, alloc, before);
    session_leaves(rt, alloc, nv, (Status::Done, &FROM_CONTROLLER), more);
}

#[test]
fn a_torn_change_of_an_end_leaves_the_tables_from_before_or_from_after(rt: HostRuntime) {
    let alloc = rt.alloc();
    // The boot formats a new memory by two writes, the identifier's record is two, with a compaction's three before it in a full bank; and
    // each write changes one sector: it erases, programs the data and programs the header.
    let one = (1, "tables nv 0 0 0 1\nsync 02 0002\n");
    let full = (4_094, "tables nv 0 0 0 1\nsync 02 0FFD\n");
    each_tear_leaves(&rt, alloc, &Before::New, 12, (0, "tables nv 0 0 0 0\n"));
    each_tear_leaves(&rt, alloc, &Before::One, 6, one);
    each_tear_leaves(&rt, alloc, &Before::Full, 15, full);
}
