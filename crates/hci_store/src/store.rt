//! A store over a memory.
ghost use Rattle.std.specs.Prelude.{◌≡◌, ◌≢◌, ◌⊎◌, ◌↔◌, ◌+◌, ◌-◌, ◌^◌, ◌≤◌, ◌<◌, if◌then◌else◌, nat_lt, length, min, true, false, is_ok, None, Err};
ghost use Rattle.std.specs.Prelude.{Some, IsSome, IsTrue, IfOk, IfErr};
ghost use Rattle.std.specs.Prelude.{OnOk, OnErr, MatchResult};
ghost use Rattle.swp_base.specs.Outside.{Rose};
ghost use Rattle.journal_laws.specs.Writes.{AreRead, AreMade};
ghost use Rattle.journal_laws.specs.Operations.{compact_writes, compacted};
ghost use Rattle.journal_laws.specs.Journal.{journal, records, count_of, count, left};
ghost use Rattle.hci_tables.specs.Tables.{apply, close};
ghost use Rattle.hci_tables.specs.Commands.{IsCommand};
ghost use Rattle.hci_tables.specs.Bodies.{body_of};
ghost use Rattle.hci_store.specs.Committing.{record_fits, snapshot_bodies, room_writes, with_room, commit_writes, committed};
ghost use Rattle.hci_store.specs.Image.{tables_of, are_commands, image_fault};
ghost use Rattle.hci_store.specs.Starting.{migration_writes, migrated, ready_writes, ready_state, HasWritten};
ghost use Rattle.nv_journal.specs.Refusals.{IsImageFault};

use crate::records::apply_all;
use crate::snapshots::snapshot_of;
use arrayvec::ArrayVec;
use hci_tables::{Command, Tables, write_command};
use nv_journal::{Journal, JournalFault, Scan, StartRefused};
use std::marker::Model;
use swp_base::{MemNv, Nv};

/// The tables of a node over its journal.
#[derive(Drop)]
pub struct Store<N: Nv + Drop> {
    journal: Journal<N>,
    tables: Tables,
}

impl<N: Nv + Drop> Model for Store<N> {
    ghost use Rattle.hci_store.specs.Stored.{Stored, IsStored};

    ghost Value = { Stored N };

    ghost view = { λ s. record { journal = s.journal; tables = s.tables } };

    ghost invariant = { λ s. IsStored N.tells N.content (record { journal = s.journal; tables = s.tables }) };
}

impl<N: Nv + Drop> Store<N> {
    ghost use Rattle.hci_store.specs.Refusals.{AreRecordsRefused, IsSpent, IsOnlyRead};
    ghost use Rattle.hci_store.specs.Stored.{HoldsTables, Keeps, FindsSame};

    /// The tables of a memory of 65,536 bytes, all pipes closed, without any write: one that has no bank with an open gate reads as
    /// empty tables. A memory whose bank in use has an unknown version, a bad record or one that is no command is refused, and
    /// handed back.
    pub fn peek(nv: N) -> Result<Self, StartRefused<N>>
        requires { N.capacity nv ≡ 65536 }
        ensures read { IfOk result (λ s. IsTrue s.journal.live × AreRead N.reads 37 nv true s.journal.nv) }
        ensures tables { IsTrue N.tells → IfOk result (λ s. s.tables ≡ close (tables_of (N.content nv))) }
        ensures commands { IsTrue N.tells → IfOk result (λ s. are_commands (records (N.content nv)) ≡ true) }
        ensures sound { IsTrue N.tells → OnOk result (image_fault (N.content nv) ≡ None) }
        ensures count { IsTrue N.tells → IfOk result (λ s. count_of s.journal.state ≡ count (N.content nv)) }
        ensures kept { IsTrue N.tells → IfOk result (λ s. N.content s.journal.nv ≡ N.content nv) }
        ensures refused { IfErr result (λ e. AreRecordsRefused N.reads N.faults N.tells N.content nv e.nv e.fault) }
        ensures faults { MatchResult result (λ s. N.faults nv ≤ N.faults s.journal.nv) (λ e. N.faults nv ≤ N.faults e.nv) }
    {
        let mut scan = match Scan::open(nv) {
            Ok(scan) => scan,
            Err(refused) => return Err(refused),
        };
        let mut tables = Tables::new();
        match apply_all(&mut scan, &mut tables) {
            Ok(()) => {
                tables.close();
                Ok(Store {
                    journal: scan.peek(),
                    tables,
                })
            }
            Err(fault) => Err(StartRefused {
                nv: scan.into_nv(),
                fault,
            }),
        }
    }

    /// The tables of a memory of 65,536 bytes, all pipes closed, ready to keep commands. One that has no bank with an open gate is
    /// formatted first. One of version 01 is written anew as a snapshot of version 02 in the other bank. A memory that `peek`
    /// refuses is refused, and so is one where a write fails or no generation is left: the next start finds what this one found. Where
    /// no call of the memory failed, one that is refused was read alone, and says what it said.
    pub fn start(nv: N) -> Result<Self, StartRefused<N>>
        requires { N.capacity nv ≡ 65536 }
        ensures live { IfOk result (λ s. IsTrue s.journal.live) }
        ensures used { IfOk result (λ s. IsSome s.journal.state.in_use) }
        ensures version { IfOk result (λ s. s.journal.state.version ≡ 2) }
        ensures tables { IsTrue N.tells → IfOk result (λ s. s.tables ≡ close (tables_of (N.content nv))) }
        ensures commands { IsTrue N.tells → OnOk result (are_commands (records (N.content nv)) ≡ true) }
        ensures sound { IsTrue N.tells → OnOk result (image_fault (N.content nv) ≡ None) }
        ensures count { IsTrue N.tells → IfOk result (λ s. count_of s.journal.state ≡ count (N.content nv)) }
        ensures holds { IsTrue N.tells → IfOk result (λ s. HoldsTables (N.content s.journal.nv) s.tables) }
        ensures fault { IfErr result (λ e. (e.fault ≡ JournalFault.NvFault) ⊎ (e.fault ≡ JournalFault.GenerationsSpent)
            ⊎ IsImageFault e.fault) }
        ensures spent { IsTrue N.tells → IfErr result (λ e. e.fault ≡ JournalFault.GenerationsSpent
            → IsSpent (N.content nv) (N.content e.nv)) }
        ensures unspent { IsTrue N.tells → OnOk result ((journal (N.content nv)).head.version ≡ 1
            → (journal (N.content nv)).head.generation ≢ 4294967295) }
        ensures faults { IfOk result (λ s. N.faults nv ≤ N.faults s.journal.nv) }
        ensures rose { IfErr result (λ e. e.fault ≡ JournalFault.NvFault → Rose (N.faults nv) (N.faults e.nv)) }
        ensures image { IsTrue N.tells → IfErr result (λ e. IsImageFault e.fault → image_fault (N.content nv) ≡ Some e.fault) }
        ensures left { IsTrue N.tells → IfErr result (λ e. FindsSame (N.content nv) (N.content e.nv)) }
        ensures refused { IfErr result (λ e. e.fault ≢ JournalFault.NvFault → IsOnlyRead N.reads N.tells N.content nv e.nv) }
        ensures state { IsTrue N.tells → IfOk result (λ s. s.journal.state ≡ ready_state (N.content nv)) }
        ensures made { IsTrue N.tells
            → IfOk result (λ s. HasWritten N.reads N.writes N.content (ready_writes (N.content nv)) nv true s.journal.nv) }
        ensures torn { IsTrue N.tells → IfErr result (λ e. e.fault ≡ JournalFault.NvFault
            → (AreRead N.reads 37 nv false e.nv × (N.content e.nv ≡ N.content nv))
            ⊎ HasWritten N.reads N.writes N.content (ready_writes (N.content nv)) nv false e.nv) }
    {
        let mut scan = match Scan::open(nv) {
            Ok(scan) => scan,
            Err(refused) => return Err(refused),
        };
        let mut tables = Tables::new();
        match apply_all(&mut scan, &mut tables) {
            Ok(()) => {}
            Err(fault) => {
                return Err(StartRefused {
                    nv: scan.into_nv(),
                    fault,
                });
            }
        }
        tables.close();
        match scan.start() {
            Ok(journal) => match Store::ready(Store { journal, tables }) {
                Ok(store) => Ok(store),
                Err(refused) => Err(refused),
            },
            Err(refused) => Err(refused),
        }
    }

    // The store of a memory of version 02.
    fn ready(self) -> Result<Self, StartRefused<N>>
        requires live { IsTrue self.journal.live }
        requires started { IsSome self.journal.state.in_use }
        ensures live { IfOk result (λ s. IsTrue s.journal.live) }
        ensures used { IfOk result (λ s. IsSome s.journal.state.in_use) }
        ensures version { IfOk result (λ s. s.journal.state.version ≡ 2) }
        ensures tables { IfOk result (λ s. s.tables ≡ self.tables) }
        ensures state { IfOk result (λ s. s.journal.state ≡ migrated self.journal.state self.tables) }
        ensures made { MatchResult result
            (λ s. AreMade N.writes (migration_writes self.journal.state self.tables) self.journal.nv true s.journal.nv)
            (λ e. e.fault ≡ JournalFault.NvFault
            → AreMade N.writes (migration_writes self.journal.state self.tables) self.journal.nv false e.nv) }
        ensures kept { IfOk result (λ s. count_of s.journal.state ≡ count_of self.journal.state) }
        ensures holds { IsTrue N.tells → IfOk result (λ s. HoldsTables (N.content s.journal.nv) s.tables) }
        ensures spent { IfErr result (λ e. e.fault ≡ JournalFault.GenerationsSpent
            → (self.journal.state.version ≢ 2) × (self.journal.state.generation ≡ 4294967295) × (e.nv ≡ self.journal.nv)) }
        ensures unspent { OnOk result (self.journal.state.version ≢ 2 → self.journal.state.generation ≢ 4294967295) }
        ensures count { IfOk result (λ s. N.faults self.journal.nv ≤ N.faults s.journal.nv) }
        ensures fault { IfErr result (λ e. (e.fault ≡ JournalFault.NvFault) ⊎ (e.fault ≡ JournalFault.GenerationsSpent)) }
        ensures rose { IfErr result (λ e. e.fault ≡ JournalFault.NvFault
            → Rose (N.faults self.journal.nv) (N.faults e.nv)) }
        ensures cut { IsTrue N.tells → IfErr result (λ e. e.fault ≡ JournalFault.NvFault
            → Keeps (N.content e.nv) self.tables (count_of self.journal.state)) }
    {
        let mut store = self;
        match store.migrate() {
            Ok(()) => Ok(store),
            Err(fault) => Err(StartRefused {
                nv: store.into_nv(),
                fault,
            }),
        }
    }

    // Writes the tables as a snapshot of version 02 into the other bank where the one in use is of version 01.
    fn migrate(&mut self) -> Result<(), JournalFault>
        requires live { IsTrue self.old.journal.live }
        requires started { IsSome self.old.journal.state.in_use }
        ensures used { OnOk result (IsSome self.new.journal.state.in_use) }
        ensures version { OnOk result (self.new.journal.state.version ≡ 2) }
        ensures tables { self.new.tables ≡ self.old.tables }
        ensures state { OnOk result (self.new.journal.state ≡ migrated self.old.journal.state self.old.tables) }
        ensures made { result ≢ Err JournalFault.GenerationsSpent → AreMade N.writes
            (migration_writes self.old.journal.state self.old.tables) self.old.journal.nv (is_ok result) self.new.journal.nv }
        ensures kept { OnOk result (count_of self.new.journal.state ≡ count_of self.old.journal.state) }
        ensures holds { IsTrue N.tells → OnOk result (HoldsTables (N.content self.new.journal.nv) self.new.tables) }
        ensures spent { (result ≡ Err JournalFault.GenerationsSpent)
            ↔ ((self.old.journal.state.version ≢ 2) × (self.old.journal.state.generation ≡ 4294967295)) }
        ensures unchanged { result ≡ Err JournalFault.GenerationsSpent → self.new ≡ self.old }
        ensures live { OnOk result (IsTrue self.new.journal.live) }
        ensures fault { IfErr result (λ f. (f ≡ JournalFault.NvFault) ⊎ (f ≡ JournalFault.GenerationsSpent)) }
        ensures count { N.faults self.old.journal.nv ≤ N.faults self.new.journal.nv }
        ensures rose { result ≡ Err JournalFault.NvFault
            → Rose (N.faults self.old.journal.nv) (N.faults self.new.journal.nv) }
        ensures cut { IsTrue N.tells → result ≡ Err JournalFault.NvFault
            → Keeps (N.content self.new.journal.nv) self.old.tables (count_of self.old.journal.state) }
    {
        if self.journal.version() == 2 {
            return Ok(());
        }
        self.compact()
    }

    /// Keeps a command, and does what it says. Where its record doesn't fit into the bank in use, the tables are first written as
    /// a snapshot into the other bank. The count is one more, at most 4,294,967,295; only under a head that names more records of a
    /// snapshot than its base and its records make it may stay 0. Where a write fails, a start on the memory finds the tables, all
    /// pipes closed, and the count from before, or those from after. It asks for a store that `start` made.
    pub fn commit(&mut self, command: &Command) -> Result<(), JournalFault>
        requires live { IsTrue self.old.journal.live }
        requires started { IsSome self.old.journal.state.in_use }
        requires version { self.old.journal.state.version ≡ 2 }
        requires command { IsCommand command.now }
        ensures spent { (result ≡ Err JournalFault.GenerationsSpent)
            ↔ ((record_fits self.old.journal.state (body_of command.now) ≡ false) × (self.old.journal.state.generation ≡ 4294967295)) }
        ensures unchanged { result ≡ Err JournalFault.GenerationsSpent → self.new ≡ self.old }
        ensures made { result ≢ Err JournalFault.GenerationsSpent → AreMade N.writes
            (commit_writes self.old.journal.state self.old.tables (body_of command.now))
            self.old.journal.nv (is_ok result) self.new.journal.nv }
        ensures state { OnOk result (self.new.journal.state
            ≡ committed self.old.journal.state self.old.tables (body_of command.now)) }
        ensures tables { OnOk result (self.new.tables ≡ apply self.old.tables command.now) }
        ensures counted { self.old.journal.state.snapshot ≤ self.old.journal.state.base + self.old.journal.state.many
            → OnOk result (count_of self.new.journal.state ≡ min (count_of self.old.journal.state + 1) (2 ^ 32 - 1)) }
        ensures untouched { OnErr result (self.new.tables ≡ self.old.tables) }
        ensures live { OnOk result (IsTrue self.new.journal.live) }
        ensures again { OnOk result (IsSome self.new.journal.state.in_use × (self.new.journal.state.version ≡ 2)) }
        ensures fault { IfErr result (λ f. (f ≡ JournalFault.NvFault) ⊎ (f ≡ JournalFault.GenerationsSpent)) }
        ensures dead { result ≡ Err JournalFault.NvFault → self.new.journal.live ≡ false }
        ensures count { N.faults self.old.journal.nv ≤ N.faults self.new.journal.nv }
        ensures rose { result ≡ Err JournalFault.NvFault
            → Rose (N.faults self.old.journal.nv) (N.faults self.new.journal.nv) }
        ensures cut { IsTrue N.tells → result ≡ Err JournalFault.NvFault
            → Keeps (N.content self.new.journal.nv) self.old.tables (count_of self.old.journal.state)
            ⊎ Keeps (N.content self.new.journal.nv) (apply self.old.tables command.now)
            (count_of (committed self.old.journal.state self.old.tables (body_of command.now))) }
        ensures holds { IsTrue N.tells → OnOk result (HoldsTables (N.content self.new.journal.nv) self.new.tables) }
    {
        let body = write_command(command);
        match self.make_room(body.as_slice()) {
            Ok(()) => match self.journal.append(body.as_slice()) {
                Ok(()) => {
                    self.tables.apply(command);
                    Ok(())
                }
                Err(fault) => Err(fault),
            },
            Err(fault) => Err(fault),
        }
    }

    /// Whether there is room for a command: false exactly where its record doesn't fit into the bank in use and no generation is
    /// left for a snapshot. It asks for a store that `start` made.
    pub fn room(&mut self, command: &Command) -> bool
        requires live { IsTrue self.old.journal.live }
        requires started { IsSome self.old.journal.state.in_use }
        requires version { self.old.journal.state.version ≡ 2 }
        requires command { IsCommand command.now }
        ensures answer { (result ≡ false)
            ↔ ((record_fits self.old.journal.state (body_of command.now) ≡ false) × (self.old.journal.state.generation ≡ 4294967295)) }
        ensures room { result ≡ (if record_fits self.old.journal.state (body_of command.now) then true
            else nat_lt self.old.journal.state.generation 4294967295) }
        ensures unchanged { self.new ≡ self.old }
    {
        let body = write_command(command);
        body.len() as u32 + 5 <= self.journal.left() || self.journal.generation() < u32::MAX
    }

    /// Writes the tables as a snapshot into the other bank where a record with this body doesn't fit into the bank in use.
    fn make_room(&mut self, body: &[u8]) -> Result<(), JournalFault>
        requires live { IsTrue self.old.journal.live }
        requires started { IsSome self.old.journal.state.in_use }
        requires version { self.old.journal.state.version ≡ 2 }
        requires short { length body.now ≤ 61 }
        ensures spent { (result ≡ Err JournalFault.GenerationsSpent)
            ↔ ((record_fits self.old.journal.state body.now ≡ false) × (self.old.journal.state.generation ≡ 4294967295)) }
        ensures unchanged { result ≡ Err JournalFault.GenerationsSpent → self.new ≡ self.old }
        ensures made { result ≢ Err JournalFault.GenerationsSpent → AreMade N.writes
            (room_writes self.old.journal.state self.old.tables body.now) self.old.journal.nv (is_ok result) self.new.journal.nv }
        ensures state { OnOk result (self.new.journal.state ≡ with_room self.old.journal.state self.old.tables body.now) }
        ensures used { OnOk result (IsSome self.new.journal.state.in_use) }
        ensures room { OnOk result (length body.now + 5 ≤ left self.new.journal.state) }
        ensures two { OnOk result (self.new.journal.state.version ≡ 2) }
        ensures tables { self.new.tables ≡ self.old.tables }
        ensures live { OnOk result (IsTrue self.new.journal.live) }
        ensures fault { IfErr result (λ f. (f ≡ JournalFault.NvFault) ⊎ (f ≡ JournalFault.GenerationsSpent)) }
        ensures dead { result ≡ Err JournalFault.NvFault → self.new.journal.live ≡ false }
        ensures count { N.faults self.old.journal.nv ≤ N.faults self.new.journal.nv }
        ensures rose { result ≡ Err JournalFault.NvFault
            → Rose (N.faults self.old.journal.nv) (N.faults self.new.journal.nv) }
        ensures cut { IsTrue N.tells → result ≡ Err JournalFault.NvFault
            → Keeps (N.content self.new.journal.nv) self.old.tables (count_of self.old.journal.state) }
    {
        if body.len() as u32 + 5 <= self.journal.left() {
            return Ok(());
        }
        self.compact()
    }

    /// Writes the tables as a snapshot into the other bank. Where no generation is left, nothing changes.
    fn compact(&mut self) -> Result<(), JournalFault>
        requires live { IsTrue self.old.journal.live }
        requires started { IsSome self.old.journal.state.in_use }
        ensures spent { (result ≡ Err JournalFault.GenerationsSpent) ↔ (self.old.journal.state.generation ≡ 4294967295) }
        ensures unchanged { result ≡ Err JournalFault.GenerationsSpent → self.new ≡ self.old }
        ensures made { result ≢ Err JournalFault.GenerationsSpent → AreMade N.writes
            (compact_writes self.old.journal.state (snapshot_bodies self.old.tables))
            self.old.journal.nv (is_ok result) self.new.journal.nv }
        ensures state { OnOk result (self.new.journal.state
            ≡ compacted self.old.journal.state (snapshot_bodies self.old.tables)) }
        ensures small { OnOk result (self.new.journal.state.size ≤ 2560) }
        ensures tables { self.new.tables ≡ self.old.tables }
        ensures live { OnOk result (IsTrue self.new.journal.live) }
        ensures fault { IfErr result (λ f. (f ≡ JournalFault.NvFault) ⊎ (f ≡ JournalFault.GenerationsSpent)) }
        ensures dead { result ≡ Err JournalFault.NvFault → self.new.journal.live ≡ false }
        ensures count { N.faults self.old.journal.nv ≤ N.faults self.new.journal.nv }
        ensures rose { result ≡ Err JournalFault.NvFault
            → Rose (N.faults self.old.journal.nv) (N.faults self.new.journal.nv) }
        ensures holds { IsTrue N.tells → OnOk result (HoldsTables (N.content self.new.journal.nv) self.new.tables) }
        ensures cut { IsTrue N.tells → result ≡ Err JournalFault.NvFault
            → Keeps (N.content self.new.journal.nv) self.old.tables (count_of self.old.journal.state) }
    {
        if self.journal.generation() == u32::MAX {
            return Err(JournalFault::GenerationsSpent);
        }
        let snapshot = snapshot_of(&self.tables);
        self.journal.compact(&snapshot)
    }

    /// The tables.
    pub fn tables(&self) -> &Tables
        ensures { result.now ≡ self.now.tables }
    {
        &self.tables
    }

    /// How many commands were kept, from 0 to 4,294,967,295.
    pub fn kept(&self) -> u32
        ensures { result ≡ count_of self.now.journal.state }
    {
        self.journal.count()
    }

    /// Whether the store may be used: no write of it failed.
    pub fn live(&self) -> bool
        ensures { result ≡ self.now.journal.live }
    {
        self.journal.live()
    }

    /// The memory. It has 65,536 bytes.
    pub fn into_nv(self) -> N
        ensures nv { result ≡ self.journal.nv }
        ensures size { N.capacity result ≡ 65536 }
    {
        let Store { journal, tables: _ } = self;
        journal.into_nv()
    }
}

impl Store<MemNv> {
    /// Plans that the `nth` write of the memory from now fails, where 1 is the next. Byte i of its range becomes byte i of `fill`,
    /// modulo its length. An earlier plan is given up. Nothing else changes.
    pub fn arm(&mut self, nth: u32, fill: ArrayVec<u8, 64>)
        requires nth { 0 < nth }
        requires fill { 0 < length fill.items }
        ensures tables { self.new.tables ≡ self.old.tables }
        ensures journal { self.new.journal ≡ record self.old.journal {
          nv = record self.old.journal.nv { plan = Some (record { nth = nth; fill = fill.items }) };
        } }
    {
        self.journal.arm(nth, fill);
    }
}
