//! Entries of a transcript that the table of cases, `examples/cases.txt`, doesn't show. What is read, and what is written of the others, is
//! shown there.
use crate::shown::same_bytes;
use schedule_text::write_entry;
use std::alloc::Global;
use std::process::Abort;
use swp_base::{Cause, Lpdu};
use trace_model::{End, Entry, LostCause, NoCause};

const HOST: End = End {
    link: 2,
    at_host: true,
};

const CONTROLLER: End = End {
    link: 2,
    at_host: false,
};

/// The entry is written as this line.
fn is_written(rt: &impl Abort, alloc: Global, entry: Entry, line: &str) {
    let mut out = Vec::new(alloc);
    let _ = write_entry(alloc, &entry, &mut out);
    same_bytes(rt, out.as_slice(), line.as_bytes());
}

#[test]
fn ends_of_sessions_and_large_numbers_are_written(rt: HostRuntime) {
    let alloc = rt.alloc();
    let (at, session, count) = (HOST, 0, 4_294_967_295);
    let (need, spare) = (129, 128);
    is_written(&rt, alloc, Entry::Active { at }, "active 02h\n");
    let acked = Entry::Acked { at, session, count };
    is_written(&rt, alloc, acked, "acked 02h 0 4294967295\n");
    refuses(
        &rt,
        alloc,
        NoCause::Full { need, spare },
        "no full 129 128\n",
    );
    let at = CONTROLLER;
    let cause = Cause::Act;
    is_written(&rt, alloc, Entry::Down { at, cause }, "down 02c act\n");
    let cause = Cause::Chain;
    is_written(&rt, alloc, Entry::Down { at, cause }, "down 02c chain\n");
}

/// The frame on its way to the host is lost so, and this is written.
fn is_lost(rt: &impl Abort, alloc: Global, lpdu: Lpdu, cause: LostCause, line: &str) {
    let lost = Entry::Lost {
        at: HOST,
        lpdu,
        cause,
    };
    is_written(rt, alloc, lost, line);
}

/// The frame `C1` is lost so, and this is written.
fn ready_is_lost(rt: &impl Abort, alloc: Global, cause: LostCause, line: &str) {
    is_lost(rt, alloc, Lpdu::new(&[0xC1]), cause, line);
}

#[test]
fn losses_are_written(rt: HostRuntime) {
    let alloc = rt.alloc();
    let reset = Lpdu::new(&[0xF9, 4, 0]);
    is_lost(
        &rt,
        alloc,
        reset,
        LostCause::Asked,
        "lost 02h F90400 asked\n",
    );
    ready_is_lost(&rt, alloc, LostCause::Nothing, "lost 02h C1 none\n");
    ready_is_lost(&rt, alloc, LostCause::Age, "lost 02h C1 age\n");
    ready_is_lost(&rt, alloc, LostCause::Full, "lost 02h C1 full\n");
    ready_is_lost(&rt, alloc, LostCause::Length, "lost 02h C1 length\n");
    ready_is_lost(&rt, alloc, LostCause::Alignment, "lost 02h C1 alignment\n");
    ready_is_lost(&rt, alloc, LostCause::Crc, "lost 02h C1 crc\n");
    ready_is_lost(&rt, alloc, LostCause::Broken, "lost 02h C1 broken\n");
}

/// A line is refused so, and this is written.
fn refuses(rt: &impl Abort, alloc: Global, cause: NoCause, line: &str) {
    is_written(rt, alloc, Entry::No { cause }, line);
}
