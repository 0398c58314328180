//! What stands at a gate.
ghost use Rattle.std.specs.Prelude.{◌≡◌, ◌+◌, ◌<◌, ◌≤◌, length, min, take, drop, None, is_ok, IsTrue, IfSome, IfOk, OnErr, MatchOption, slice_range};
ghost use Rattle.swp_base.specs.Outside.{Rose};
ghost use Rattle.journal_laws.specs.Records.{index_len, gap, body};
ghost use Rattle.nv_journal.specs.Gates.{gate_of, len_of, IfRecord};

use arrayvec::ArrayVec;
use swp_base::{Failed, Nv};

/// What stands at a gate.
#[derive(Clone, Copy, Debug, PartialEq, Eq)]
pub enum Gate {
    /// No record: the gate is closed.
    Closed,
    /// A record outside the record grammar.
    Bad,
    /// A record whose body has this many bytes, from 1 to 61.
    Record(u8),
}

/// How many bytes of a record tell its position.
pub fn index_len(version: u8) -> usize
    ensures { result ≡ index_len version }
{
    if version == 1 { 0 } else { 2 }
}

/// How many bytes the body of a record has, from 1 to 61, by the first bytes from its gate on, where `rest` bytes of the bank stand
/// from there on. None where it would be empty or longer, or the next gate would lie past the bank.
fn body_len(version: u8, rest: usize, bytes: &[u8]) -> Option<u8>
    requires enough { min 65 rest ≤ length bytes.now }
    ensures len { result ≡ len_of version rest bytes.now }
    ensures bounds { IfSome result (λ len. (1 ≤ len) × (len ≤ 61) × (2 + index_len version + len < rest)) }
{
    let len = bytes.get(1).copied().unwrap_or(0);
    let gap = 2 + index_len(version) + len as usize;
    if len < 1 || len > 61 || gap >= rest {
        return None;
    }
    Some(len)
}

/// What stands at a gate, by the first bytes from there on, where `rest` bytes of the bank stand from there on.
pub fn look(version: u8, position: u16, rest: usize, bytes: &[u8]) -> Gate
    requires some { 0 < rest }
    requires enough { min 65 rest ≤ length bytes.now }
    ensures gate { result ≡ gate_of version position rest bytes.now }
    ensures record { IfRecord result (λ len. (1 ≤ len) × (len ≤ 61) × (2 + index_len version + len < rest)) }
{
    if bytes[0] != 0x5A {
        return Gate::Closed;
    }
    let Some(len) = body_len(version, rest, bytes) else {
        return Gate::Bad;
    };
    if version == 1 || u16::from_be_bytes([bytes[2], bytes[3]]) == position {
        Gate::Record(len)
    } else {
        Gate::Bad
    }
}

/// These bytes of a record, as its body.
pub fn body_of(bytes: &[u8], from: usize, len: u8) -> ArrayVec<u8, 61>
    requires short { len ≤ 61 }
    requires inside { from + len ≤ length bytes.now }
    ensures { result.items ≡ take len (drop from bytes.now) }
{
    let mut body = ArrayVec::<u8, 61>::new();
    let _fits = body.try_extend_from_slice(&bytes[from..from + len as usize]);
    body
}

/// The body of a record, and how many bytes there are from its gate to the next one, by the first bytes from its gate on, where
/// `rest` bytes of the bank stand from there on. None where no record has room there.
fn record_of(version: u8, rest: usize, bytes: &[u8]) -> Option<(ArrayVec<u8, 61>, u32)>
    requires enough { min 65 rest ≤ length bytes.now }
    ensures record { MatchOption result (len_of version rest bytes.now ≡ None)
        (λ r. (r.0.items ≡ body version bytes.now) × (r.1 ≡ gap version bytes.now)) }
    ensures inside { IfSome result (λ r. r.1 < rest) }
{
    let len = body_len(version, rest, bytes)?;
    let from = 2 + index_len(version);
    let body = body_of(bytes, from, len);
    Some((body, (from + len as usize) as u32))
}

/// Reads the record whose gate stands at place `at`, where `rest` bytes of the bank stand from there on: its body, and how many bytes
/// there are to the next gate. None where no record has room there.
pub fn read_record<N: Nv>(
    nv: &mut N,
    at: u32,
    version: u8,
    rest: u32,
) -> Result<Option<(ArrayVec<u8, 61>, u32)>, Failed>
    requires room { at + min 65 rest ≤ N.capacity nv.old }
    ensures size { N.capacity nv.new ≡ N.capacity nv.old }
    ensures count { N.faults nv.old ≤ N.faults nv.new }
    ensures fault { OnErr result (Rose (N.faults nv.old) (N.faults nv.new)) }
    ensures step { N.reads nv.old (is_ok result) nv.new }
    ensures kept { IsTrue N.tells → N.content nv.new ≡ N.content nv.old }
    ensures record { IsTrue N.tells → IfOk result (λ o. MatchOption o
        (len_of version rest (slice_range (N.content nv.old) at (at + min 65 rest)) ≡ None)
        (λ r. (r.0.items ≡ body version (slice_range (N.content nv.old) at (at + min 65 rest)))
        × (r.1 ≡ gap version (slice_range (N.content nv.old) at (at + min 65 rest))))) }
    ensures inside { IfOk result (λ o. IfSome o (λ r. r.1 < rest)) }
{
    let mut bytes = [0; 65];
    let len = (rest as usize).min(65);
    nv.read(at, &mut bytes[..len])?;
    Ok(record_of(version, rest as usize, &bytes[..len]))
}
