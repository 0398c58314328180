//! The writes of a bank.
ghost use Rattle.std.specs.Prelude.{◌≡◌, ◌+◌, ◌<◌, ◌≤◌, ◌^◌, [], ◌∷◌, ◌++◌, length, is_ok, IsSome, IfOk, OnErr};
ghost use Rattle.std.specs.List.{AllByRecursion};
ghost use Rattle.swp_base.specs.Outside.{Rose};
ghost use Rattle.journal_laws.specs.Writes.{AreMade, write};
ghost use Rattle.journal_laws.specs.Records.{IsBody, used};
ghost use Rattle.journal_laws.specs.Operations.{bank_bytes, close_bank, format_writes, formatted, compact_writes, CanCompact, compacted};

use crate::Snapshot;
use arrayvec::ArrayVec;
use journal_laws::{Side, State};
use swp_base::{Failed, Nv};

/// The bytes of a bank of version 02 behind its gate, up to its first closed gate.
pub fn bank_bytes(generation: u32, base: u32, snapshot: &Snapshot) -> ArrayVec<u8, 2572>
    ensures bytes { result.items ≡ bank_bytes generation base snapshot.now }
    ensures len { length result.items ≤ 2572 }
    ensures bodies { AllByRecursion IsBody snapshot.now × (used snapshot.now ≤ 2560) }
{
    let [g0, g1, g2, g3] = generation.to_be_bytes();
    let [b0, b1, b2, b3] = base.to_be_bytes();
    let [s0, s1] = snapshot.many().to_be_bytes();
    let head = [2, g0, g1, g2, g3, b0, b1, b2, b3, s0, s1];
    let mut bytes = ArrayVec::<u8, 2572>::new();
    let _head = bytes.try_extend_from_slice(&head);
    let _records = bytes.try_extend_from_slice(snapshot.as_bytes());
    bytes.push(0xFF);
    bytes
}

/// Fills a bank behind its closed gate with these bytes, and then opens that gate.
pub fn open_bank<N: Nv>(nv: &mut N, at: u32, bytes: &[u8]) -> Result<(), Failed>
    requires low { at ≤ 32768 }
    requires room { at + 1 + length bytes.now ≤ N.capacity nv.old }
    ensures size { N.capacity nv.new ≡ N.capacity nv.old }
    ensures count { N.faults nv.old ≤ N.faults nv.new }
    ensures fault { OnErr result (Rose (N.faults nv.old) (N.faults nv.new)) }
    ensures made { AreMade N.writes (write (at + 1) bytes.now ∷ write at (90 ∷ []) ∷ []) nv.old (is_ok result) nv.new }
{
    nv.write(at + 1, bytes)?;
    nv.write(at, &[0x5A])
}

/// Formats a memory: its first bank is opened, without records. It gives what is known of the memory then.
pub fn format<N: Nv>(nv: &mut N) -> Result<State, Failed>
    requires size { N.capacity nv.old ≡ 65536 }
    ensures size { N.capacity nv.new ≡ N.capacity nv.old }
    ensures count { N.faults nv.old ≤ N.faults nv.new }
    ensures fault { OnErr result (Rose (N.faults nv.old) (N.faults nv.new)) }
    ensures made { AreMade N.writes format_writes nv.old (is_ok result) nv.new }
    ensures state { IfOk result (λ s. s ≡ formatted) }
{
    open_bank(nv, 0, &[2, 0, 0, 0, 1, 0, 0, 0, 0, 0, 0, 0xFF])?;
    Ok(State {
        in_use: Some(Side::First),
        version: 2,
        generation: 1,
        base: 0,
        snapshot: 0,
        many: 0,
        size: 0,
        beside: false,
    })
}

/// Closes a bank whose gate is open, fills it with these bytes, and opens its gate.
fn replace_bank<N: Nv>(nv: &mut N, at: u32, opened: bool, bytes: &[u8]) -> Result<(), Failed>
    requires low { at ≤ 32768 }
    requires room { at + 1 + length bytes.now ≤ N.capacity nv.old }
    ensures size { N.capacity nv.new ≡ N.capacity nv.old }
    ensures count { N.faults nv.old ≤ N.faults nv.new }
    ensures fault { OnErr result (Rose (N.faults nv.old) (N.faults nv.new)) }
    ensures made { AreMade N.writes
        (close_bank opened at ++ write (at + 1) bytes.now ∷ write at (90 ∷ []) ∷ [])
        nv.old (is_ok result) nv.new }
{
    if opened {
        nv.write(at, &[0xFF])?;
        return open_bank(nv, at, bytes);
    }
    open_bank(nv, at, bytes)
}

/// Writes a snapshot into the bank that is not in use, and opens that. It gives what is known of the memory then.
pub fn write_snapshot<N: Nv>(
    nv: &mut N,
    state: &State,
    snapshot: &Snapshot,
) -> Result<State, Failed>
    requires used { IsSome state.now.in_use }
    requires generation { state.now.generation + 1 < 2 ^ 32 }
    requires size { N.capacity nv.old ≡ 65536 }
    ensures size { N.capacity nv.new ≡ N.capacity nv.old }
    ensures count { N.faults nv.old ≤ N.faults nv.new }
    ensures fault { OnErr result (Rose (N.faults nv.old) (N.faults nv.new)) }
    ensures made { AreMade N.writes (compact_writes state.now snapshot.now) nv.old (is_ok result) nv.new }
    ensures state { IfOk result (λ s. s ≡ compacted state.now snapshot.now) }
    ensures can { CanCompact state.now snapshot.now }
{
    let Some(side) = state.in_use else {
        unreachable!()
    };
    let generation = state.generation + 1;
    let base = state.count();
    let bytes = bank_bytes(generation, base, snapshot);
    let bank = side.other();
    replace_bank(nv, bank.place(), state.beside, bytes.as_slice())?;
    let many = snapshot.many();
    Ok(State {
        in_use: Some(bank),
        version: 2,
        generation,
        base,
        snapshot: many,
        many,
        size: snapshot.used(),
        beside: true,
    })
}
