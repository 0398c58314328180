//! The records that a compaction writes into the other bank.
ghost use Rattle.std.specs.Prelude.{◌≡◌, ◌+◌, ◌≤◌, List, ℕ, [], ◌∷◌, ◌++◌, length};

use crate::records::record;
use arrayvec::ArrayVec;
use std::marker::Model;

/// Bodies of records that stand for all records so far. Contracts see the list of these bodies. They take at most 2,560 bytes
/// in their bank, each its length and 4.
#[derive(Drop)]
pub struct Snapshot {
    /// The records as they stand in a bank of version 02.
    bytes: ArrayVec<u8, 2560>,
    many: u16,
}

impl Model for Snapshot {
    ghost use Rattle.std.specs.Prelude.{List, ℕ};
    ghost use Rattle.nv_journal.specs.Snapshots.{bodies_of, AreRecords};

    ghost Value = { List (List ℕ) };

    ghost view = { λ s. bodies_of s.bytes.items };

    ghost invariant = { λ s. AreRecords s.bytes.items s.many (bodies_of s.bytes.items) };
}

impl Snapshot {
    ghost use Rattle.std.specs.List.{AllByRecursion};
    ghost use Rattle.journal_laws.specs.Records.{IsBody, records_bytes, used};

    /// No bodies.
    pub fn new() -> Self
        ensures { result ≡ [] }
    {
        Self {
            bytes: ArrayVec::new(),
            many: 0,
        }
    }

    /// Appends a body of 1 to 61 bytes.
    pub fn push(&mut self, body: &[u8])
        requires short { IsBody body.now }
        requires room { used self.old + length body.now + 4 ≤ 2560 }
        ensures { self.new ≡ self.old ++ body.now ∷ [] }
    {
        self.bytes.push(0x5A);
        let record = record(self.many, body);
        let _fits = self.bytes.try_extend_from_slice(record.as_slice());
        self.many += 1;
    }

    /// How many bytes the records take, from 0 to 2,560.
    pub fn used(&self) -> u32
        ensures used { result ≡ used self.now }
        ensures room { used self.now ≤ 2560 }
    {
        self.bytes.len() as u32
    }

    /// How many bodies there are.
    pub fn many(&self) -> u16
        ensures many { result ≡ length self.now }
    {
        self.many
    }

    /// The records as they stand in a bank of version 02, from the first gate on.
    pub fn as_bytes(&self) -> &[u8]
        ensures bytes { result.now ≡ records_bytes 0 self.now }
        ensures len { length result.now ≡ used self.now }
        ensures short { AllByRecursion IsBody self.now }
        ensures room { used self.now ≤ 2560 }
    {
        self.bytes.as_slice()
    }
}
