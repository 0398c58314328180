//! Callers that know the outside world by its traits alone, and what these make of objects in memory.
ghost use Rattle.std.specs.Prelude.{◌≡◌, ◌+◌, ◌<◌, ◌≤◌, ◌++◌, length, take, IsTrue, IfOk, OnOk, OnErr, ℕ};
ghost use Rattle.swp_base.specs.Outside.{Rose};

use crate::shown::{same, same_bytes};
use std::alloc::Global;
use std::process::Abort;
use swp_base::{
    Failed, Info, Lpdu, MemSink, MemSource, NoMemory, Nv, Sink, Source, SureNv, SureSink,
    SureSource,
};

/// Writes the whole piece, in as many calls as it takes.
fn write_all<K: Sink>(sink: &mut K, bytes: &[u8]) -> Result<(), Failed>
    ensures count { K.faults sink.old ≤ K.faults sink.new }
    ensures fault { OnErr result (Rose (K.faults sink.old) (K.faults sink.new)) }
    ensures wrote { IsTrue K.tells → OnOk result (K.written sink.new ≡ K.written sink.old ++ bytes.now) }
    ensures front { IsTrue K.tells →
        OnErr result ((n : ℕ) × (K.written sink.new ≡ K.written sink.old ++ take n bytes.now)) }
{
    let mut at = 0;
    while at < bytes.len() {
        at += sink.write(&bytes[at..])?;
    }
    Ok(())
}

/// Reads the source to its end into the bytes, `limit` calls at most. Whether it came to the end is the answer.
fn read_all<S: Source>(source: &mut S, bytes: &mut Vec<u8>, limit: u32) -> Result<bool, NoMemory>
    ensures count { S.faults source.old ≤ S.faults source.new }
    ensures whole { IsTrue S.tells →
        IfOk result (λ ended. IsTrue ended → bytes.new.items ≡ bytes.old.items ++ S.left source.old) }
{
    let mut buf = [0; 4];
    for _ in 0..limit {
        match source.read(&mut buf) {
            Ok(0) => return Ok(true),
            Ok(n) => bytes.extend_from_slice(&buf[..n])?,
            Err(Failed) => return Ok(false),
        }
    }
    Ok(false)
}

/// A copy of these bytes.
fn copy_of(rt: &impl Abort, alloc: Global, bytes: &[u8]) -> Vec<u8> {
    Vec::from_slice(alloc, bytes).expect(rt, "there is memory")
}

/// The call of this number alone is to fail.
fn plan_of(rt: &impl Abort, alloc: Global, call: u64) -> Vec<u64> {
    Vec::from_slice(alloc, &[call]).expect(rt, "there is memory")
}

/// A source is read, to its end where it says so, and these bytes come.
fn gives<S: Source>(rt: &impl Abort, alloc: Global, source: &mut S, ended: bool, wanted: &[u8]) {
    let mut bytes = Vec::new(alloc);
    let came = read_all(source, &mut bytes, 100).ok();
    same(rt, &(came, bytes.as_slice()), &(Some(ended), wanted));
}

#[test]
fn a_source_gives_its_bytes_in_pieces_and_fails_as_planned(rt: HostRuntime) {
    let alloc = rt.alloc();
    let bytes = copy_of(&rt, alloc, &[1, 2, 3, 4, 5]);
    let mut source = MemSource::new(bytes, plan_of(&rt, alloc, 2), 2);
    let mut sure = SureSource::new(copy_of(&rt, alloc, &[6, 7, 8, 9, 10, 11]));
    gives(&rt, alloc, &mut source, false, &[1, 2]);
    gives(&rt, alloc, &mut source, true, &[3, 4, 5]);
    gives(&rt, alloc, &mut sure, true, &[6, 7, 8, 9, 10, 11]);
}

/// The whole piece is written to a sink, or not, and these are the sink's bytes then.
fn takes(
    rt: &impl Abort,
    sink: &mut MemSink,
    piece: &[u8],
    answer: Result<(), Failed>,
    wanted: &[u8],
) {
    let told = write_all(sink, piece);
    same(rt, &(told, sink.bytes()), &(answer, wanted));
}

#[test]
fn a_sink_takes_pieces_and_fails_as_planned(rt: HostRuntime) {
    let alloc = rt.alloc();
    let mut sink = MemSink::new(copy_of(&rt, alloc, &[9]), plan_of(&rt, alloc, 3), 1);
    takes(&rt, &mut sink, &[1, 2], Ok(()), &[9, 1, 2]);
    takes(&rt, &mut sink, &[3, 4], Err(Failed), &[9, 1, 2]);
    takes(&rt, &mut sink, &[3, 4], Ok(()), &[9, 1, 2, 3, 4]);
    same(&rt, &write_all(&mut SureSink, &[1, 2, 3]), &Ok(()));
}

/// Writes these bytes at place 1 of a memory of at least 4 bytes, and gives its first four.
fn first_bytes<N: Nv>(nv: &mut N, bytes: &[u8]) -> (Result<(), Failed>, [u8; 4])
    requires long { 4 ≤ N.capacity nv.old }
    requires fits { length bytes.now ≤ 3 }
    ensures size { N.capacity nv.new ≡ N.capacity nv.old }
{
    let written = nv.write(1, bytes);
    let mut first = [0; 4];
    let _ = nv.read(0, &mut first);
    (written, first)
}

#[test]
fn a_sure_memory_never_fails(rt: HostRuntime) {
    let mut nv = SureNv::new(rt.alloc(), 4).expect(&rt, "there is memory");
    same(
        &rt,
        &first_bytes(&mut nv, &[1, 2]),
        &(Ok(()), [0xFF, 1, 2, 0xFF]),
    );
}

/// Bytes make an LPDU and an information field, or don't.
fn make_units(rt: &impl Abort, bytes: &[u8], lpdu: bool, info: bool) {
    let told = (
        bytes.len(),
        Lpdu::from_bytes(bytes).is_some(),
        Info::from_bytes(bytes).is_some(),
    );
    same(rt, &told, &(bytes.len(), lpdu, info));
}

#[test]
fn units_have_from_one_byte_to_their_longest(rt: HostRuntime) {
    make_units(&rt, &[], false, false);
    make_units(&rt, &[0xC1], true, true);
    make_units(&rt, &[0xC1; 29], true, true);
    make_units(&rt, &[0xC1; 30], true, false);
    make_units(&rt, &[0xC1; 31], false, false);
    same_bytes(&rt, Lpdu::default().bytes(), &[0]);
    same(&rt, &Info::default().copied(), &Info::default());
}
