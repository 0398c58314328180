//! A journal over a memory.
ghost use Rattle.std.specs.Prelude.{◌≡◌, ◌≢◌, ◌+◌, ◌-◌, ◌≤◌, ◌<◌, ◌++◌, ◌↔◌, ℕ, ◌⊎◌, [], ◌∷◌, length, Err, Some, true, false, IsTrue, IsSome, is_ok, OnOk};
ghost use Rattle.std.specs.Prelude.{OnErr, IfOk, IfErr, MatchResult, MatchOption, IfSome, slice_get};
ghost use Rattle.swp_base.specs.Outside.{Rose};
ghost use Rattle.journal_laws.specs.Writes.{AreMade, AreRead};
ghost use Rattle.journal_laws.specs.Journal.{records, count_of, count, left, next_place, gate_at};
ghost use Rattle.journal_laws.specs.Operations.{append_writes, compact_writes, HasRoomForBody, appended, compacted, LeftByCut};

use crate::gates::read_record;
use crate::records::record;
use crate::{JournalFault, Scan, Snapshot, StartRefused, banks};
use arrayvec::ArrayVec;
use journal_laws::State;
use std::marker::Model;
use swp_base::{MemNv, Nv};

/// A journal over a memory of 65,536 bytes. Contracts see the memory, what is known of it, and whether the journal may be
/// used: a live journal over a memory that tells its content knows what that says, and nothing is wrong with it.
#[derive(Drop)]
pub struct Journal<N: Nv + Drop> {
    nv: N,
    state: State,
    live: bool,
}

impl<N: Nv + Drop> Model for Journal<N> {
    ghost use Rattle.nv_journal.specs.Kept.{KeptMemory, IsKept};

    ghost Value = { KeptMemory N };

    ghost view = { λ j. record { nv = j.nv; state = j.state; live = j.live } };

    ghost invariant = { λ j. IsKept N.tells N.capacity N.content (record { nv = j.nv; state = j.state; live = j.live }) };
}

impl<N: Nv + Drop> Journal<N> {
    ghost use Rattle.nv_journal.specs.Kept.{Says, IsKept, IsGateOf, IsGate};
    ghost use Rattle.nv_journal.specs.Refusals.{IsOpened, IsRefused, IsUnformattable};

    /// A live journal over a memory of which this is known.
    pub(crate) fn of(nv: N, state: State) -> Self
        requires kept { IsKept N.tells N.capacity N.content (record { nv = nv; state = state; live = true }) }
        ensures { result ≡ record { nv = nv; state = state; live = true } }
    {
        Journal {
            nv,
            state,
            live: true,
        }
    }

    /// The journal of a memory of 65,536 bytes. One that has no bank with an open gate is formatted first. A memory whose bank in
    /// use has an unknown version or a bad record is refused, and handed back.
    pub fn start(nv: N) -> Result<Self, StartRefused<N>>
        requires { N.capacity nv ≡ 65536 }
        ensures opened { IfOk result (λ j. IsTrue j.live × IsOpened N.reads N.writes N.tells N.content nv j.nv j.state) }
        ensures says { IsTrue N.tells → IfOk result (λ j. Says (N.content j.nv) j.state) }
        ensures records { IsTrue N.tells → IfOk result (λ j. records (N.content j.nv) ≡ records (N.content nv)) }
        ensures refused { IfErr result (λ e. IsRefused N.reads N.faults N.tells N.content nv e.nv e.fault
            ⊎ IsUnformattable N.reads N.writes N.faults N.tells N.content nv e.nv e.fault) }
        ensures count { IfOk result (λ j. N.faults nv ≤ N.faults j.nv) }
    {
        let scan = Scan::whole(nv)?;
        match scan.start() {
            Ok(journal) => Ok(journal),
            Err(refused) => Err(refused),
        }
    }

    /// The journal of a memory of 65,536 bytes, without any write: one that has no bank with an open gate reads as no records. The
    /// same memories are refused.
    pub fn peek(nv: N) -> Result<Self, StartRefused<N>>
        requires { N.capacity nv ≡ 65536 }
        ensures read { IfOk result (λ j. IsTrue j.live × AreRead N.reads 37 nv true j.nv) }
        ensures says { IsTrue N.tells → IfOk result (λ j. Says (N.content j.nv) j.state) }
        ensures kept { IsTrue N.tells → IfOk result (λ j. N.content j.nv ≡ N.content nv) }
        ensures refused { IfErr result (λ e. IsRefused N.reads N.faults N.tells N.content nv e.nv e.fault) }
        ensures count { MatchResult result (λ j. N.faults nv ≤ N.faults j.nv) (λ e. N.faults nv ≤ N.faults e.nv) }
    {
        let scan = Scan::whole(nv)?;
        Ok(scan.peek())
    }

    /// Appends a record of 1 to 61 bytes. The body is written before its gate, in a write of its own. Where a write fails, the
    /// journal is not live any more: a start on its memory gives the records from before, or these and the new one.
    pub fn append(&mut self, body: &[u8]) -> Result<(), JournalFault>
        requires live { IsTrue self.old.live }
        requires room { HasRoomForBody self.old.state body.now }
        ensures made { AreMade N.writes (append_writes self.old.state body.now) self.old.nv (is_ok result) self.new.nv }
        ensures state { OnOk result (self.new.state ≡ appended self.old.state body.now) }
        ensures live { self.new.live ≡ is_ok result }

        // Only a failing write is a cause of a fault.
        ensures fault { IfErr result (λ f. f ≡ JournalFault.NvFault) }
        ensures count { N.faults self.old.nv ≤ N.faults self.new.nv }
        ensures rose { OnErr result (Rose (N.faults self.old.nv) (N.faults self.new.nv)) }

        // What a memory says that tells its content.
        ensures said { IsTrue N.tells → Says (N.content self.old.nv) self.old.state }
        ensures records { IsTrue N.tells
            → OnOk result (records (N.content self.new.nv) ≡ records (N.content self.old.nv) ++ body.now ∷ []) }
        ensures cut { IsTrue N.tells → OnErr result
            (LeftByCut (append_writes self.old.state body.now) (N.content self.old.nv) (N.content self.new.nv)) }
    {
        let at = self.state.next_place();
        let mut bytes = record(self.state.many, body);
        bytes.push(0xFF);
        self.live = false;
        self.nv.write(at + 1, bytes.as_slice())?;
        self.nv.write(at, &[0x5A])?;
        self.state.many += 1;
        self.state.size += 4 + body.len() as u32;
        self.live = true;
        Ok(())
    }

    /// Goes on in the other bank with these records in the place of all records so far, and with the same count. Where a write
    /// fails, the journal is not live any more: a start on its memory gives the records from before, or those of the snapshot.
    pub fn compact(&mut self, snapshot: &Snapshot) -> Result<(), JournalFault>
        requires live { IsTrue self.old.live }
        requires started { IsSome self.old.state.in_use }
        ensures spent { (result ≡ Err JournalFault.GenerationsSpent) ↔ (self.old.state.generation ≡ 4294967295) }
        ensures unchanged { result ≡ Err JournalFault.GenerationsSpent → self.new ≡ self.old }
        ensures made { result ≢ Err JournalFault.GenerationsSpent → AreMade N.writes
            (compact_writes self.old.state snapshot.now) self.old.nv (is_ok result) self.new.nv }
        ensures state { OnOk result (self.new.state ≡ compacted self.old.state snapshot.now) }
        ensures live { OnOk result (IsTrue self.new.live) }

        // Only a failing write is a cause of the other fault.
        ensures fault { IfErr result (λ f. (f ≡ JournalFault.NvFault) ⊎ (f ≡ JournalFault.GenerationsSpent)) }
        ensures dead { result ≡ Err JournalFault.NvFault → self.new.live ≡ false }
        ensures count { N.faults self.old.nv ≤ N.faults self.new.nv }
        ensures rose { result ≡ Err JournalFault.NvFault → Rose (N.faults self.old.nv) (N.faults self.new.nv) }

        // What a memory says that tells its content.
        ensures said { IsTrue N.tells → Says (N.content self.old.nv) self.old.state }
        ensures records { IsTrue N.tells → OnOk result (records (N.content self.new.nv) ≡ snapshot.now) }
        ensures cut { IsTrue N.tells → result ≡ Err JournalFault.NvFault → LeftByCut
            (compact_writes self.old.state snapshot.now) (N.content self.old.nv) (N.content self.new.nv) }
    {
        if self.state.generation == u32::MAX {
            return Err(JournalFault::GenerationsSpent);
        }
        self.live = false;
        self.state = banks::write_snapshot(&mut self.nv, &self.state, snapshot)?;
        self.live = true;
        Ok(())
    }

    /// The place in the memory of the gate of the first record, or of the one that comes next where there is none.
    pub fn first(&self) -> u32
        ensures place { result ≡ next_place self.now.state - self.now.state.size }
        ensures told { IsTrue self.now.live → IsTrue N.tells → result ≡ gate_at (N.content self.now.nv) 0 }
        ensures gate { IsTrue self.now.live → IsTrue N.tells → IsGate (N.content self.now.nv) result }
    {
        self.state.next_place() - self.state.size
    }

    /// The body of the record whose gate stands at this place of the memory, and the place of the next gate; None exactly behind
    /// the last record. It asks for the place that `first` gives or for that of a next gate. It makes one read, and at the end none.
    pub fn body(&mut self, at: u32) -> Result<Option<(ArrayVec<u8, 61>, u32)>, JournalFault>
        requires gate { IsTrue self.old.live → IsTrue N.tells → IsGate (N.content self.old.nv) at }
        ensures state { self.new.state ≡ self.old.state }
        ensures live { self.new.live ≡ self.old.live }

        // Only a failing read is a cause of a fault.
        ensures read { AreRead N.reads 1 self.old.nv (is_ok result) self.new.nv }
        ensures fault { IfErr result (λ f. f ≡ JournalFault.NvFault) }
        ensures count { N.faults self.old.nv ≤ N.faults self.new.nv }
        ensures rose { OnErr result (Rose (N.faults self.old.nv) (N.faults self.new.nv)) }

        // What a memory says that tells its content.
        ensures kept { IsTrue N.tells → N.content self.new.nv ≡ N.content self.old.nv }
        ensures body { IsTrue self.old.live → IsTrue N.tells → (k : ℕ) → IsGateOf (N.content self.old.nv) k at
            → IfOk result (λ o. MatchOption o (k ≡ length (records (N.content self.old.nv)))
            (λ b. (slice_get (records (N.content self.old.nv)) k ≡ Some b.0.items)
            × (b.1 ≡ gate_at (N.content self.old.nv) (k + 1)))) }
        ensures next { IsTrue self.old.live → IsTrue N.tells
            → IfOk result (λ o. IfSome o (λ b. IsGate (N.content self.new.nv) b.1)) }
    {
        let end = self.state.next_place();
        if at >= end {
            return Ok(None);
        }
        let rest = self.state.left() + (end - at);
        let version = self.state.version;
        let Some((body, gap)) = read_record(&mut self.nv, at, version, rest)? else {
            return Ok(None);
        };
        Ok(Some((body, at + gap)))
    }

    /// Whether the journal may be used: no write of it failed.
    pub fn live(&self) -> bool
        ensures { result ≡ self.now.live }
    {
        self.live
    }

    /// How many commands were kept, from 0 to 4,294,967,295.
    pub fn count(&self) -> u32
        ensures count { result ≡ count_of self.now.state }
        ensures told { IsTrue self.now.live → IsTrue N.tells → result ≡ count (N.content self.now.nv) }
    {
        self.state.count()
    }

    /// The generation of the bank in use; 0 for a peeked memory that has no bank with an open gate.
    pub fn generation(&self) -> u32
        ensures { result ≡ self.now.state.generation }
    {
        self.state.generation
    }

    /// The version of the bank in use, 01 or 02; 02 for a peeked memory that has no bank with an open gate.
    pub fn version(&self) -> u8
        ensures version { result ≡ self.now.state.version }
    {
        self.state.version
    }

    /// How many bytes are left in the bank in use, from the next gate on. A record takes its body's length and 4, and the gate
    /// behind it one more.
    pub fn left(&self) -> u32
        ensures { result ≡ left self.now.state }
    {
        self.state.left()
    }

    /// The memory. It has 65,536 bytes.
    pub fn into_nv(self) -> N
        ensures nv { result ≡ self.nv }
        ensures size { N.capacity result ≡ 65536 }
    {
        let Journal { nv, .. } = self;
        nv
    }
}

impl Journal<MemNv> {
    /// Plans that the `nth` write of the memory from now fails, where 1 is the next. Byte i of its range becomes byte i of `fill`,
    /// modulo its length. An earlier plan is given up. Nothing else changes.
    pub fn arm(&mut self, nth: u32, fill: ArrayVec<u8, 64>)
        requires nth { 0 < nth }
        requires fill { 0 < length fill.items }
        ensures { self.new ≡ record self.old {
          nv = record self.old.nv { plan = Some (record { nth = nth; fill = fill.items }) };
        } }
    {
        self.nv.arm(nth, fill);
    }
}
