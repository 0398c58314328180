//! A pass over the records of a memory.
ghost use Rattle.std.specs.Prelude.{◌≡◌, ◌≢◌, ◌⊎◌, ◌↔◌, ◌<◌, ◌≤◌, length, min, None, Some, Ok, Err, true, false, IsTrue, IfOk, IfErr, OnOk, OnErr, MatchResult};
ghost use Rattle.std.specs.Prelude.{MatchOption, slice_get};
ghost use Rattle.swp_base.specs.Outside.{Rose};
ghost use Rattle.journal_laws.specs.Writes.{AreRead, AreMade};
ghost use Rattle.journal_laws.specs.Operations.{format_writes, start_writes, started_state, LeftByCut};
ghost use Rattle.journal_laws.specs.Journal.{journal, records, left, next_place, gate_at};
ghost use Rattle.nv_journal.specs.Faults.{is_known, IsKnown, IsFaulty, fault};
ghost use Rattle.nv_journal.specs.Scanning.{IsReadSoFar, passed_on, read_to};
ghost use Rattle.nv_journal.specs.Kept.{Says};
ghost use Rattle.nv_journal.specs.Refusals.{IsImageFault, IsRefused};

use crate::ahead::{Ahead, fill};
use crate::banks::format;
use crate::gates::{Gate, body_of, index_len, look};
use crate::heads::{begun, read_heads};
use crate::{Journal, JournalFault};
use arrayvec::ArrayVec;
use journal_laws::State;
use std::marker::Model;
use swp_base::{Failed, Nv};

/// A start that was refused: the memory is handed back.
#[derive(Drop)]
pub struct StartRefused<N> {
    pub nv: N,
    pub fault: JournalFault,
}

/// A pass over the records of a memory, from the first to the last. Up to the first that fails it makes at most 37
/// reads: two for the heads of the banks, and 35 at most for the records, in pieces of at most 960 bytes.
/// Contracts see the memory, what is known of it so far, the bytes that were read and not passed, and whether the pass has ended.
#[derive(Drop)]
pub struct Scan<N: Nv + Drop> {
    nv: N,
    state: State,
    ahead: Ahead,
    ended: bool,
}

impl<N: Nv + Drop> Model for Scan<N> {
    ghost use Rattle.nv_journal.specs.Scanning.{Scanned, IsScanned};

    ghost Value = { Scanned N };

    ghost view = { λ s. record { nv = s.nv; state = s.state; ahead = s.ahead; ended = s.ended } };

    ghost invariant = { λ s. IsScanned N.tells N.capacity N.content
        (record { nv = s.nv; state = s.state; ahead = s.ahead; ended = s.ended }) };
}

impl<N: Nv + Drop> Scan<N> {
    /// Reads the heads of both banks, by two reads. A memory whose bank in use has an unknown version is refused.
    pub fn open(nv: N) -> Result<Self, StartRefused<N>>
        requires { N.capacity nv ≡ 65536 }
        ensures read { IfOk result (λ s. IsReadSoFar N.reads nv s) }
        ensures first { IfOk result (λ s. (s.state.many ≡ 0) × (s.state.size ≡ 0)) }
        ensures known { IsTrue N.tells → OnOk result (IsKnown (journal (N.content nv)).head.version) }
        ensures refused { IfErr result (λ e. IsRefused N.reads N.faults N.tells N.content nv e.nv e.fault) }
        ensures unknown { IsTrue N.tells → IfErr result (λ e. (e.fault ≡ JournalFault.NvFault)
            ⊎ (is_known (journal (N.content nv)).head.version ≡ false)) }
        ensures kept { IsTrue N.tells → IfOk result (λ s. N.content s.nv ≡ N.content nv) }
        ensures count { MatchResult result (λ s. N.faults nv ≤ N.faults s.nv) (λ e. N.faults nv ≤ N.faults e.nv) }
    {
        let mut nv = nv;
        let (first, second) = match read_heads(&mut nv) {
            Ok(heads) => heads,
            Err(_) => {
                return Err(StartRefused {
                    nv,
                    fault: JournalFault::NvFault,
                });
            }
        };
        let state = begun(&first, &second);
        if state.version != 1 && state.version != 2 {
            return Err(StartRefused {
                nv,
                fault: JournalFault::UnknownFormat {
                    version: state.version,
                },
            });
        }
        let ended = state.in_use.is_none();
        Ok(Scan {
            nv,
            state,
            ahead: Ahead::new(),
            ended,
        })
    }

    /// Passes all records of a memory, by at most 37 reads. One whose bank in use has an unknown version or a bad record is refused.
    pub fn whole(nv: N) -> Result<Self, StartRefused<N>>
        requires { N.capacity nv ≡ 65536 }
        ensures ended { IfOk result (λ s. IsTrue s.ended) }
        ensures read { IfOk result (λ s. IsReadSoFar N.reads nv s) }
        ensures refused { IfErr result (λ e. IsRefused N.reads N.faults N.tells N.content nv e.nv e.fault) }
        ensures kept { IsTrue N.tells → IfOk result (λ s. N.content s.nv ≡ N.content nv) }
        ensures count { MatchResult result (λ s. N.faults nv ≤ N.faults s.nv) (λ e. N.faults nv ≤ N.faults e.nv) }
    {
        let mut scan = Scan::open(nv)?;
        match scan.pass_all() {
            Ok(()) => Ok(scan),
            Err(fault) => Err(StartRefused {
                nv: scan.into_nv(),
                fault,
            }),
        }
    }

    /// The body of the next record, or None behind the last. A record outside the record grammar is refused.
    pub fn next(&mut self) -> Result<Option<ArrayVec<u8, 61>>, JournalFault>
        ensures end { (result ≡ Ok None) ↔ (self.new.ended ≡ true) }
        ensures state { MatchResult result
            (λ o. MatchOption o (self.new.state ≡ self.old.state) (λ b. self.new.state ≡ passed_on self.old.state b.items))
            (λ _. self.new.state ≡ self.old.state) }

        // At most 37 reads are made, and only one that fails is a cause of a fault of the memory.
        ensures read { (first : N) → IsReadSoFar N.reads first self.old → result ≢ Err JournalFault.NvFault
            → IsReadSoFar N.reads first self.new }
        ensures unread { (first : N) → IsReadSoFar N.reads first self.old → result ≡ Err JournalFault.NvFault
            → AreRead N.reads 37 first false self.new.nv }
        ensures count { N.faults self.old.nv ≤ N.faults self.new.nv }
        ensures rose { result ≡ Err JournalFault.NvFault → Rose (N.faults self.old.nv) (N.faults self.new.nv) }
        ensures size { N.capacity self.new.nv ≡ N.capacity self.old.nv }
        ensures inside { self.new.state.size < 32756 }

        // What a memory says that tells its content.
        ensures kept { IsTrue N.tells → N.content self.new.nv ≡ N.content self.old.nv }
        ensures body { IsTrue N.tells → IfOk result (λ o. MatchOption o
            (Says (N.content self.old.nv) self.old.state)
            (λ b. slice_get (records (N.content self.old.nv)) self.old.state.many ≡ Some b.items)) }
        ensures fault { IfErr result (λ f. (f ≡ JournalFault.NvFault) ⊎ (IsImageFault f × (IsTrue N.tells
            → IsFaulty (N.content self.old.nv) self.old.state.many f))) }
    {
        if self.ended {
            return Ok(None);
        }
        self.read_on()?;
        self.step()
    }

    /// The place in the memory of the gate that comes next.
    pub fn place(&self) -> u32
        ensures place { result ≡ next_place self.now.state }
        ensures gate { IsTrue N.tells → result ≡ gate_at (N.content self.now.nv) self.now.state.many }
    {
        self.state.next_place()
    }

    /// Reads the next piece of the bank, where fewer than 65 bytes are ahead.
    fn read_on(&mut self) -> Result<(), Failed>
        requires { self.old.ended ≡ false }
        ensures state { self.new.state ≡ self.old.state }
        ensures ended { self.new.ended ≡ false }
        ensures enough { OnOk result (min 65 (left self.new.state) ≤ length self.new.ahead) }
        ensures read { OnOk result ((first : N) → IsReadSoFar N.reads first self.old → IsReadSoFar N.reads first self.new) }
        ensures unread { OnErr result ((first : N) → IsReadSoFar N.reads first self.old
            → AreRead N.reads 37 first false self.new.nv) }
        ensures count { N.faults self.old.nv ≤ N.faults self.new.nv }
        ensures rose { OnErr result (Rose (N.faults self.old.nv) (N.faults self.new.nv)) }
        ensures size { N.capacity self.new.nv ≡ N.capacity self.old.nv }
        ensures kept { IsTrue N.tells → N.content self.new.nv ≡ N.content self.old.nv }
    {
        let unread = self.ahead.as_slice().len() as u32;
        let at = self.state.next_place() + unread;
        let left = self.state.left() - unread;
        fill(&mut self.nv, at, left, &mut self.ahead)?;
        Ok(())
    }

    /// Passes the record at the gate that comes next, by the bytes ahead.
    fn step(&mut self) -> Result<Option<ArrayVec<u8, 61>>, JournalFault>
        requires going { self.old.ended ≡ false }
        requires enough { min 65 (left self.old.state) ≤ length self.old.ahead }
        ensures end { (result ≡ Ok None) ↔ (self.new.ended ≡ true) }
        ensures state { MatchResult result
            (λ o. MatchOption o (self.new.state ≡ self.old.state) (λ b. self.new.state ≡ passed_on self.old.state b.items))
            (λ _. self.new.state ≡ self.old.state) }
        ensures nv { self.new.nv ≡ self.old.nv }
        ensures read_to { read_to self.new ≡ read_to self.old }
        ensures inside { self.new.state.size < 32756 }
        ensures body { IsTrue N.tells → IfOk result (λ o. MatchOption o
            (Says (N.content self.old.nv) self.old.state)
            (λ b. slice_get (records (N.content self.old.nv)) self.old.state.many ≡ Some b.items)) }
        ensures fault { IfErr result (λ f. IsImageFault f × (IsTrue N.tells
            → IsFaulty (N.content self.old.nv) self.old.state.many f)) }
    {
        let version = self.state.version;
        let rest = self.state.left() as usize;
        match look(version, self.state.many, rest, self.ahead.as_slice()) {
            Gate::Closed => {
                self.ended = true;
                Ok(None)
            }
            Gate::Bad => Err(JournalFault::BadRecord {
                at: self.state.next_place(),
            }),
            Gate::Record(len) => {
                let from = 2 + index_len(version);
                let body = body_of(self.ahead.as_slice(), from, len);
                let gap = from + len as usize;
                self.ahead.pass(gap);
                self.state.many += 1;
                self.state.size += gap as u32;
                Ok(Some(body))
            }
        }
    }

    /// Passes all records that come.
    pub fn pass_all(&mut self) -> Result<(), JournalFault>
        ensures ended { OnOk result (IsTrue self.new.ended) }
        ensures read { (first : N) → IsReadSoFar N.reads first self.old → result ≢ Err JournalFault.NvFault
            → IsReadSoFar N.reads first self.new }
        ensures unread { (first : N) → IsReadSoFar N.reads first self.old → result ≡ Err JournalFault.NvFault
            → AreRead N.reads 37 first false self.new.nv }
        ensures count { N.faults self.old.nv ≤ N.faults self.new.nv }
        ensures rose { result ≡ Err JournalFault.NvFault → Rose (N.faults self.old.nv) (N.faults self.new.nv) }
        ensures kept { IsTrue N.tells → N.content self.new.nv ≡ N.content self.old.nv }
        ensures fault { IfErr result (λ f. (f ≡ JournalFault.NvFault)
            ⊎ (IsImageFault f × (IsTrue N.tells → fault (N.content self.old.nv) ≡ Some f))) }
    {
        'records: while self.next()?.is_some() {}
        Ok(())
    }

    /// The memory.
    pub fn into_nv(self) -> N
        ensures { result ≡ self.nv }
    {
        let Scan { nv, .. } = self;
        nv
    }

    /// The journal of a memory whose records were all passed. Where no bank is in use, the memory is formatted first.
    pub fn start(self) -> Result<Journal<N>, StartRefused<N>>
        requires { IsTrue self.ended }
        ensures made { MatchResult result (λ j. AreMade N.writes (start_writes self.state) self.nv true j.nv)
            (λ e. AreMade N.writes (start_writes self.state) self.nv false e.nv) }
        ensures state { IfOk result (λ j. (j.state ≡ started_state self.state) × IsTrue j.live) }
        ensures none { IfErr result (λ e. (e.fault ≡ JournalFault.NvFault) × (self.state.in_use ≡ None)) }
        ensures count { MatchResult result (λ j. N.faults self.nv ≤ N.faults j.nv) (λ e. Rose (N.faults self.nv) (N.faults e.nv)) }
        ensures said { IsTrue N.tells → Says (N.content self.nv) self.state }
        ensures says { IsTrue N.tells → IfOk result (λ j. Says (N.content j.nv) j.state) }
        ensures records { IsTrue N.tells → IfOk result (λ j. records (N.content j.nv) ≡ records (N.content self.nv)) }
        ensures cut { IsTrue N.tells → IfErr result (λ e. LeftByCut format_writes (N.content self.nv) (N.content e.nv)) }
    {
        let Scan { nv, state, .. } = self;
        if state.in_use.is_some() {
            return Ok(Journal::of(nv, state));
        }
        let mut nv = nv;
        match format(&mut nv) {
            Ok(state) => Ok(Journal::of(nv, state)),
            Err(_) => Err(StartRefused {
                nv,
                fault: JournalFault::NvFault,
            }),
        }
    }

    /// The journal of a memory whose records were all passed. Nothing is written.
    pub fn peek(self) -> Journal<N>
        requires { IsTrue self.ended }
        ensures journal { result ≡ record { nv = self.nv; state = self.state; live = true } }
        ensures said { IsTrue N.tells → Says (N.content self.nv) self.state }
    {
        let Scan { nv, state, .. } = self;
        Journal::of(nv, state)
    }
}
