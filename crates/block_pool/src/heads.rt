//! What a pool keeps of each chain, at its first block.
ghost use Rattle.std.specs.Prelude.{◌≡◌, ℕ, ◌^◌, ◌<◌, ◌≤◌, length, None, Some, IsSome, slice_index_or};
ghost use Rattle.block_pool.specs.Slots.{blocks_for};
ghost use Rattle.block_pool.specs.declared.heads.Head.{Head as Kept};

use crate::blocks::BLOCK_BYTES;
use std::marker::Model;

/// A chain of blocks, kept at its first block.
#[derive(Clone, Copy)]
pub(crate) struct Head {
    pub(crate) owner: u8,
    /// Its last block.
    pub(crate) last: u16,
    /// Its length in bytes, at least 1.
    pub(crate) len: u32,
    /// The block at which reading goes on.
    pub(crate) read_on: u16,
    /// How many of its blocks lie before that one.
    pub(crate) passed: u16,
}

/// The chain that begins at a block where one does, in 10 bytes.
#[derive(Drop)]
pub(crate) struct StoredHead {
    owner: u8,
    /// How many bytes of its last block it has, from 1 to 32.
    used: u8,
    /// How many blocks it has: 0 where no chain begins.
    blocks: u16,
    last: u16,
    read_on: u16,
    passed: u16,
}

impl Model for StoredHead {
    ghost use Rattle.std.specs.Prelude.{Option};
    ghost use Rattle.block_pool.specs.declared.heads.Head.{Head};

    ghost Value = { Option Head };

    ghost use Rattle.std.specs.Prelude.{◌+◌, ◌-◌, ◌*◌, ◌==◌, if◌then◌else◌, None, Some};

    ghost view = { λ s. if s.blocks == 0 then None else Some (record {
      owner = s.owner;
      last = s.last;
      len = 32 * (s.blocks - 1) + s.used;
      read_on = s.read_on;
      passed = s.passed;
    }) };
}

impl StoredHead {
    /// No chain.
    pub(crate) fn none() -> StoredHead
        ensures { result ≡ None }
    {
        StoredHead {
            owner: 0,
            used: 0,
            blocks: 0,
            last: 0,
            read_on: 0,
            passed: 0,
        }
    }

    /// A chain that has bytes, in fewer than 65,536 blocks.
    pub(crate) fn of(head: Head) -> StoredHead
        requires some { 0 < head.len }
        requires few { blocks_for head.len < 2 ^ 16 }
        ensures { result ≡ Some head }
    {
        let before = head.len - 1;
        StoredHead {
            owner: head.owner,
            used: (before % BLOCK_BYTES as u32 + 1) as u8,
            blocks: (before / BLOCK_BYTES as u32 + 1) as u16,
            last: head.last,
            read_on: head.read_on,
            passed: head.passed,
        }
    }

    /// Reading goes on at another block.
    pub(crate) fn go_on_at(&mut self, read_on: u16, passed: u16)
        ensures { (head : Kept) → self.old ≡ Some head → self.new ≡ Some (record head { read_on = read_on; passed = passed }) }
    {
        self.read_on = read_on;
        self.passed = passed;
    }

    /// The chain.
    fn head(&self) -> Option<Head>
        ensures { result ≡ self.now }
    {
        if self.blocks == 0 {
            return None;
        }
        Some(Head {
            owner: self.owner,
            last: self.last,
            len: BLOCK_BYTES as u32 * (self.blocks as u32 - 1) + self.used as u32,
            read_on: self.read_on,
            passed: self.passed,
        })
    }
}

/// The chain that begins at a block where one does.
pub(crate) fn head_at(heads: &[StoredHead], block: u16) -> Head
    requires { IsSome (slice_index_or heads.now block None) }
    ensures low { block < length heads.now }
    ensures head { slice_index_or heads.now block None ≡ Some result }
{
    match heads.get(block as usize) {
        Some(stored) => match stored.head() {
            Some(head) => head,
            None => unreachable!(),
        },
        None => unreachable!(),
    }
}
