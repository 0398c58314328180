//! The records of a memory, one by one.
ghost use Rattle.std.specs.Prelude.{◌≡◌, length, IsTrue};
ghost use Rattle.nv_journal.specs.Kept.{IsGate};

use crate::memories::{IMAGE, memory};
use crate::shown::same;
use nv_journal::{Journal, JournalFault};
use std::process::Abort;
use swp_base::MemNv;

/// The commands of `IMAGE` in a bank of version 02.
const NEW_IMAGE: [u8; 29] = [
    0x5A, 2, 0, 0, 0, 1, 0, 0, 0, 0, 0, 0, 0x5A, 4, 0, 0, 6, 2, 0x1A, 0x2B, 0x5A, 4, 0, 1, 4, 2, 1,
    1, 0xFF,
];

/// The journal of this memory.
fn peeked(rt: &impl Abort, nv: MemNv) -> Journal<MemNv>
    requires { length nv.content ≡ 65536 }
    ensures { IsTrue result.live }
{
    match Journal::peek(nv) {
        Ok(journal) => journal,
        Err(_refused) => panic!(rt; "the memory is refused"),
    }
}

/// A record with this body is read at a place. The place behind it is given.
fn reads(rt: &impl Abort, journal: &mut Journal<MemNv>, at: u32, wanted: &[u8]) -> u32
    requires live { IsTrue journal.old.live }
    requires gate { IsGate journal.old.nv.content at }
    ensures live { IsTrue journal.new.live }
    ensures gate { IsGate journal.new.nv.content result }
{
    let Ok(Some((body, next))) = journal.body(at) else {
        panic!(rt; "no record is there");
    };
    same(rt, &body.as_slice(), &wanted);
    next
}

/// The place behind the record at a place; none where there is no record.
fn behind(journal: &mut Journal<MemNv>, at: u32) -> Result<Option<u32>, JournalFault>
    requires live { IsTrue journal.old.live }
    requires gate { IsGate journal.old.nv.content at }
    ensures live { IsTrue journal.new.live }
    ensures kept { journal.new.nv.content ≡ journal.old.nv.content }
{
    match journal.body(at) {
        Ok(Some((_, next))) => Ok(Some(next)),
        Ok(None) => Ok(None),
        Err(fault) => Err(fault),
    }
}

/// The memory has these records, each with its place, and no further one.
fn has(rt: &impl Abort, nv: MemNv, records: &[(u32, [u8; 4])])
    requires { length nv.content ≡ 65536 }
{
    let mut journal = peeked(rt, nv);
    let mut at = journal.first();
    for (place, wanted) in records {
        same(rt, &at, place);
        at = reads(rt, &mut journal, at, wanted);
    }
    same(rt, &behind(&mut journal, at), &Ok(None));
}

#[test]
fn records_are_read_at_their_places(rt: HostRuntime) {
    let alloc = rt.alloc();
    let old = [(12, [6, 2, 0x1A, 0x2B]), (18, [4, 2, 1, 1])];
    let new = [(12, [6, 2, 0x1A, 0x2B]), (20, [4, 2, 1, 1])];
    has(&rt, memory(&rt, alloc, &[]), &[]);
    has(&rt, memory(&rt, alloc, &IMAGE), &old);
    has(&rt, memory(&rt, alloc, &NEW_IMAGE), &new);
}

#[test]
fn a_record_that_could_not_be_read_is_read_the_next_time(rt: HostRuntime) {
    let mut nv = memory(&rt, rt.alloc(), &NEW_IMAGE);
    // The heads of both banks and a piece of the first one are read, and then the record.
    nv.arm_read(4);
    let mut journal = peeked(&rt, nv);
    let at = journal.first();
    let places = [behind(&mut journal, at), behind(&mut journal, at)];
    same(&rt, &places, &[Err(JournalFault::NvFault), Ok(Some(20))]);
}
