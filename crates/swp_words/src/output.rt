//! What is written goes out in as many calls as it takes.
ghost use Rattle.std.specs.Prelude.{◌≡◌, ◌≤◌, ◌++◌, ℕ, IsTrue, OnOk, OnErr, take};
ghost use Rattle.swp_base.specs.Outside.{Rose};

use swp_base::{Failed, Sink};

/// Writes the whole piece, in as many calls as it takes. Where a call fails, a front of the piece was written.
pub fn write_all<K: Sink>(sink: &mut K, bytes: &[u8]) -> Result<(), Failed>
    ensures count { K.faults sink.old ≤ K.faults sink.new }
    ensures fault { OnErr result (Rose (K.faults sink.old) (K.faults sink.new)) }
    ensures wrote { IsTrue K.tells → OnOk result (K.written sink.new ≡ K.written sink.old ++ bytes.now) }
    ensures front { OnErr result ((n : ℕ) × (IsTrue K.tells → K.written sink.new ≡ K.written sink.old ++ take n bytes.now)) }
{
    let mut at = 0;
    while at < bytes.len() {
        at += sink.write(&bytes[at..])?;
    }
    Ok(())
}
