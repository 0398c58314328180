//! The head of a bank, and what the operations know of a memory.
ghost use Rattle.std.specs.Prelude.{◌≡◌, ◌+◌, ◌*◌, ◌^◌, ◌<◌, ◌≤◌};

use crate::Side;

/// The first 12 bytes of a bank.
#[derive(Clone, Copy, Debug, PartialEq, Eq)]
pub struct Head {
    /// 5A where the bank is open; any other byte is closed.
    pub gate: u8,
    /// 01, or 02 where each record carries its position.
    pub version: u8,
    /// Of two open banks the one with the greater generation is in use.
    pub generation: u32,
    /// How many commands were counted when the bank was begun.
    pub base: u32,
    /// How many records of the bank are a snapshot of these commands, and count no more.
    pub snapshot: u16,
}

/// What the operations know of a memory: the bank in use, what its head says, and where its records end.
#[derive(Clone, Copy, Debug, PartialEq, Eq)]
pub struct State {
    /// None where no gate stands open.
    pub in_use: Option<Side>,
    pub version: u8,
    pub generation: u32,
    pub base: u32,
    pub snapshot: u16,
    /// How many records stand in the bank.
    pub many: u16,
    /// How many bytes they take, from place 12 of the bank on.
    pub size: u32,
    /// The gate of the other bank stands open.
    pub beside: bool,
}

impl State {
    ghost use Rattle.journal_laws.specs.Journal.{count_of, next_gate, next_place, left};

    /// How many commands were kept, from 0 to 4,294,967,295: the base and the records without those of the snapshot.
    pub fn count(&self) -> u32
        ensures { result ≡ count_of self.now }
    {
        let kept = u64::from(self.base) + u64::from(self.many);
        let counted = kept.saturating_sub(u64::from(self.snapshot));
        u32::try_from(counted).unwrap_or(u32::MAX)
    }

    /// The place in the bank of the first gate behind the records.
    pub fn next_gate(&self) -> u32
        requires { self.now.size < 2 ^ 16 }
        ensures { result ≡ next_gate self.now }
    {
        12 + self.size
    }

    /// The place in the memory of that gate.
    pub fn next_place(&self) -> u32
        requires { self.now.size < 2 ^ 16 }
        ensures place { result ≡ next_place self.now }
        ensures low { result ≤ 32780 + self.now.size }
    {
        let bank = match self.in_use {
            Some(side) => side.place(),
            None => 0,
        };
        bank + self.next_gate()
    }

    /// How many bytes of the bank stand from that gate on.
    pub fn left(&self) -> u32
        requires { self.now.size < 2 ^ 16 }
        ensures { result ≡ left self.now }
    {
        32_768_u32.saturating_sub(self.next_gate())
    }
}
