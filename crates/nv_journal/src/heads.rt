//! The heads of the two banks.
ghost use Rattle.std.specs.Prelude.{◌≡◌, ◌+◌, ◌<◌, ◌≤◌, is_ok, IsTrue, IfOk, OnErr};
ghost use Rattle.swp_base.specs.Outside.{Rose};
ghost use Rattle.journal_laws.specs.Writes.{AreRead};
ghost use Rattle.journal_laws.specs.Banks.{head, newer};
ghost use Rattle.journal_laws.specs.declared.banks.Side.TheVariants.{First, Second};
ghost use Rattle.nv_journal.specs.Scanning.{begun_scan};

use journal_laws::{Head, Side, State};
use swp_base::{Failed, Nv};

/// Reads the head of a bank.
fn read_head<N: Nv>(nv: &mut N, side: Side) -> Result<Head, Failed>
    requires size { N.capacity nv.old ≡ 65536 }
    ensures size { N.capacity nv.new ≡ N.capacity nv.old }
    ensures count { N.faults nv.old ≤ N.faults nv.new }
    ensures fault { OnErr result (Rose (N.faults nv.old) (N.faults nv.new)) }
    ensures kept { IsTrue N.tells → N.content nv.new ≡ N.content nv.old }
    ensures step { N.reads nv.old (is_ok result) nv.new }
    ensures head { IsTrue N.tells → IfOk result (λ h. h ≡ head (N.content nv.old) side) }
{
    let mut bytes = [0; 12];
    nv.read(side.place(), &mut bytes)?;
    Ok(Head {
        gate: bytes[0],
        version: bytes[1],
        generation: u32::from_be_bytes([bytes[2], bytes[3], bytes[4], bytes[5]]),
        base: u32::from_be_bytes([bytes[6], bytes[7], bytes[8], bytes[9]]),
        snapshot: u16::from_be_bytes([bytes[10], bytes[11]]),
    })
}

/// Reads the heads of both banks.
pub fn read_heads<N: Nv>(nv: &mut N) -> Result<(Head, Head), Failed>
    requires size { N.capacity nv.old ≡ 65536 }
    ensures size { N.capacity nv.new ≡ N.capacity nv.old }
    ensures count { N.faults nv.old ≤ N.faults nv.new }
    ensures fault { OnErr result (Rose (N.faults nv.old) (N.faults nv.new)) }
    ensures kept { IsTrue N.tells → N.content nv.new ≡ N.content nv.old }
    ensures step { AreRead N.reads 2 nv.old (is_ok result) nv.new }
    ensures heads { IsTrue N.tells → IfOk result (λ h.
        (h.0 ≡ head (N.content nv.old) First) × (h.1 ≡ head (N.content nv.old) Second)) }
{
    let first = read_head(nv, Side::First)?;
    let second = read_head(nv, Side::Second)?;
    Ok((first, second))
}

/// The bank in use.
fn newer(first: &Head, second: &Head) -> Option<Side>
    ensures { result ≡ newer first.now second.now }
{
    let first_opened = first.gate == 0x5A;
    let second_opened = second.gate == 0x5A;
    if first_opened {
        if second_opened && first.generation < second.generation {
            Some(Side::Second)
        } else {
            Some(Side::First)
        }
    } else if second_opened {
        Some(Side::Second)
    } else {
        None
    }
}

/// What is known of a memory by its heads, in front of its first record.
pub fn begun(first: &Head, second: &Head) -> State
    ensures { result ≡ begun_scan first.now second.now }
{
    let Some(side) = newer(first, second) else {
        return State {
            in_use: None,
            version: 2,
            generation: 0,
            base: 0,
            snapshot: 0,
            many: 0,
            size: 0,
            beside: false,
        };
    };
    let (head, beside) = match side {
        Side::First => (first, second),
        Side::Second => (second, first),
    };
    State {
        in_use: Some(side),
        version: head.version,
        generation: head.generation,
        base: head.base,
        snapshot: head.snapshot,
        many: 0,
        size: 0,
        beside: beside.gate == 0x5A,
    }
}
