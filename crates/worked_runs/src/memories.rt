//! The word `tables` over memories that fail. What it says of a whole memory is shown by the table of cases, `examples/cases.txt`.
ghost use Rattle.std.specs.Prelude.{◌≡◌, ◌≤◌, length};

use crate::runs::one_word;
use crate::shown::same;
use std::alloc::Global;
use std::process::Abort;
use swp_base::{MemNv, MemSink, MemSource, Nv};
use swp_tool::{Ended, Status, run};

/// An image of version 01: the identifier 1A2B of host 02 is kept, and its pipe 01 was opened.
pub const IMAGE: [u8; 25] = [
    0x5A, 0x01, 0x00, 0x00, 0x00, 0x01, 0x00, 0x00, 0x00, 0x00, 0x00, 0x00, 0x5A, 0x04, 0x06, 0x02,
    0x1A, 0x2B, 0x5A, 0x04, 0x04, 0x02, 0x01, 0x01, 0xFF,
];

pub const TABLES: &str = "tables nv 0 0 0 1\nsync 02 1A2B\n";

/// A memory of 65,536 bytes that begins with these, all others FF.
pub(crate) fn memory(rt: &impl Abort, alloc: Global, image: &[u8]) -> MemNv
    requires { length image.now ≤ 64 }
    ensures { length result.content ≡ 65536 }
{
    let mut nv = MemNv::new(alloc, 65_536).expect(rt, "there is memory");
    let _ = nv.write(0, image);
    nv
}

/// How a run with the word `tables` over a memory ended, what it wrote, and the memory.
fn told(rt: &impl Abort, alloc: Global, nv: MemNv) -> (Status, MemSink, MemNv)
    requires { length nv.content ≡ 65536 }
{
    let words = one_word(alloc, "tables").expect(rt, "there is memory");
    let mut source = MemSource::new(Vec::new(alloc), Vec::new(alloc), 4096);
    let mut sink = MemSink::new(Vec::new(alloc), Vec::new(alloc), 4096);
    let Ended { status, nv } = run(alloc, words.as_slice(), &mut source, &mut sink, nv);
    (status, sink, nv)
}

/// A memory that has 65,536 bytes.
pub(crate) fn whole(rt: &impl Abort, nv: MemNv) -> MemNv
    ensures { length result.content ≡ 65536 }
{
    assert!(rt; nv.size() == 65_536);
    nv
}

/// A run with the word `tables` over this memory ends so and writes this text. It gives the memory back.
pub(crate) fn tells(rt: &impl Abort, alloc: Global, nv: MemNv, ended: Status, text: &str) -> MemNv {
    let (status, sink, nv) = told(rt, alloc, whole(rt, nv));
    same(rt, &(status, sink.bytes()), &(ended, text.as_bytes()));
    nv
}

/// A memory of which the read of this number fails is told the next time.
fn is_told_the_next_time(rt: &impl Abort, alloc: Global, nth: u32)
    requires { 1 ≤ nth }
{
    let mut nv = memory(rt, alloc, &IMAGE);
    nv.arm_read(nth);
    let nv = tells(rt, alloc, nv, Status::NvFault, "");
    let _nv = tells(rt, alloc, nv, Status::Done, TABLES);
}

#[test]
fn a_memory_that_fails_once_is_told_the_next_time(rt: HostRuntime) {
    is_told_the_next_time(&rt, rt.alloc(), 1);
    is_told_the_next_time(&rt, rt.alloc(), 2);
    is_told_the_next_time(&rt, rt.alloc(), 3);
}
