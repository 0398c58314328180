//! The pool: chains with a quota for each owner.
ghost use Rattle.std.specs.Prelude.{◌≡◌, ◌+◌, ◌^◌, ◌<◌, ◌≤◌, ◌++◌, length, sum, IfOk};
ghost use Rattle.block_pool.specs.Slots.{blocks_for};
ghost use Rattle.block_pool.specs.Names.{named_bytes, IsLiveAt, put_at, removed_at, IsNamedAfter};
ghost use Rattle.block_pool.specs.Owners.{new_owners};

use crate::blocks::{BLOCK_BYTES, Blocks};
use crate::chain::Chain;
use crate::owners::Owner;
use std::alloc::{AllocError, Global};
use std::marker::Model;

/// Why a chain or a set-aside block finds no room.
#[derive(Clone, Copy, Debug, PartialEq, Eq)]
pub struct NoRoom {
    /// How many blocks are needed. 65,535 stands for any greater number.
    pub need: u16,
    /// How many blocks the owner has left.
    pub spare: u16,
}

/// Blocks of 32 bytes, each used by a chain, set aside, or free. `make` asks for room for all of them and fills none: the lists of
/// blocks lengthen as blocks are first used. After that no call takes memory: nothing here pushes onto a vector that has no room for
/// it. No clause forces that.
#[derive(Drop)]
pub struct Pool {
    blocks: Blocks,
    owners: Vec<Owner>,
}

impl Model for Pool {
    ghost use Rattle.block_pool.specs.Pool.{PoolState};

    ghost Value = { PoolState };

    ghost use Rattle.block_pool.specs.Counts.{AreCounted, AreFree};

    ghost view = { λ p. record { slots = p.blocks.slots; owners = p.owners.items; places = p.blocks.places } };

    ghost invariant = { λ p. AreCounted p.blocks.slots p.owners.items × AreFree p.owners.items p.blocks.free };
}

impl Pool {
    ghost use Rattle.std.specs.Prelude.{◌≡◌, ◌+◌, ◌-◌, ◌≤◌, ◌<◌, ◌↔◌, ◌++◌, length, sum, take, drop, min, IfOk, IfErr, IsOk, OnOk, OnErr};
    ghost use Rattle.block_pool.specs.Slots.{ShareNoBlock, blocks_for};
    ghost use Rattle.block_pool.specs.Pool.{HasQuota, IsLive, IsEmptyChain, IsNew, Appends, Passes, Gives, KeepsOthers, chain_bytes, chain_spare, spare_of};
    ghost use Rattle.block_pool.specs.Pool.{quota_of, used_of, aside_of, more_blocks};
    ghost use Rattle.block_pool.specs.declared.chain.Chain.{Chain};
    ghost use Rattle.block_pool.specs.Owners.{with_aside};
    ghost use Rattle.block_pool.specs.Counts.{IsCounted};

    /// A pool without chains, with a quota of blocks for each owner: at most 256 quotas, together at most 16,384. Owners are
    /// numbered from 0.
    pub fn make(alloc: Global, quotas: &[u16]) -> Result<Pool, AllocError>
        requires few_owners { length quotas.now ≤ 256 }
        requires few_blocks { sum quotas.now ≤ 16384 }
        ensures { IfOk result (λ pool. IsNew pool quotas.now) }
    {
        let blocks = Blocks::make(alloc, total_of(quotas))?;
        let owners = new_owners(alloc, quotas)?;
        Ok(Pool { blocks, owners })
    }

    /// An empty chain of an owner that has a quota. It uses no block.
    pub fn chain(&mut self, owner: u8) -> Chain
        requires { HasQuota self.old owner }
        ensures chain { IsEmptyChain owner result }
        ensures unchanged { self.new ≡ self.old }
    {
        Chain { owner, first: None }
    }

    /// How many more blocks an owner may use.
    pub fn spare(&self, owner: u8) -> u16
        requires { HasQuota self.now owner }
        ensures spare { result ≡ spare_of self.now owner }
        ensures whole { result + used_of self.now owner ≡ quota_of self.now owner }
        ensures counted { IsCounted self.now }
    {
        let owner = self.owners[owner as usize];
        owner.quota - owner.used
    }

    /// The length of a chain in bytes.
    pub fn len(&self, chain: &Chain) -> u32
        requires { IsLive self.now chain.now }
        ensures { result ≡ length (chain_bytes self.now chain.now) }
    {
        match chain.first {
            Some(first) => self.blocks.len(first),
            None => 0,
        }
    }

    /// Each block of a pool lies in one chain, once, or is free. Nothing here runs.
    pub fn chains_share_no_block(&self)
        ensures { ShareNoBlock self.now.slots self.now.places }
    {
        self.blocks.chains_share_no_block();
    }

    /// Copies the bytes of a chain from a place on into the front of `out`, as many as are there and fit, and says how
    /// many. It asks for a place up to the chain's end.
    pub fn copy_out(&self, chain: &Chain, from: u32, out: &mut [u8]) -> usize
        requires live { IsLive self.now chain.now }
        requires in_chain { from ≤ length (chain_bytes self.now chain.now) }
        ensures count { result ≡ min (length (chain_bytes self.now chain.now) - from) (length out.old) }
        ensures copied { out.new ≡ take result (drop from (chain_bytes self.now chain.now)) ++ drop result out.old }
    {
        match chain.first {
            Some(first) => self.blocks.copy_out(first, from, out),
            None => 0,
        }
    }

    /// Copies as `copy_out` does, and keeps the place behind what it copied: a call that goes on there costs the same wherever that
    /// lies in the chain. One for an earlier place walks along the chain from its first block.
    pub fn copy_on(&mut self, chain: &Chain, from: u32, out: &mut [u8]) -> usize
        requires live { IsLive self.old chain.now }
        requires in_chain { from ≤ length (chain_bytes self.old chain.now) }
        ensures count { result ≡ min (length (chain_bytes self.old chain.now) - from) (length out.old) }
        ensures copied { out.new ≡ take result (drop from (chain_bytes self.old chain.now)) ++ drop result out.old }
        ensures unchanged { self.new ≡ self.old }
    {
        match chain.first {
            Some(first) => self.blocks.copy_on(first, from, out),
            None => 0,
        }
    }

    /// Sets one block aside for an owner: it counts as used.
    pub fn set_aside(&mut self, owner: u8) -> Result<(), NoRoom>
        requires { HasQuota self.old owner }
        ensures room { IsOk result ↔ (0 < spare_of self.old owner) }
        ensures ok { OnOk result ((self.new.slots ≡ self.old.slots)
            × (self.new.owners ≡ with_aside self.old.owners owner (used_of self.old owner + 1) (aside_of self.old owner + 1))) }
        ensures chains { OnOk result ((chain : Chain) → IsLive self.old chain → IsLive self.new chain
            × (chain_bytes self.new chain ≡ chain_bytes self.old chain)) }
        ensures no_room { IfErr result (λ e. (e.need ≡ 1) × (e.spare ≡ 0)) }
        ensures err { OnErr result (self.new ≡ self.old) }
    {
        let old = self.owners[owner as usize];
        if old.used == old.quota {
            return Err(NoRoom { need: 1, spare: 0 });
        }
        self.owners[owner as usize] = Owner {
            quota: old.quota,
            used: old.used + 1,
            aside: old.aside + 1,
        };
        Ok(())
    }

    /// Gives a block that was set aside back to its owner's quota.
    pub fn release(&mut self, owner: u8)
        requires quota { HasQuota self.old owner }
        requires aside { 0 < aside_of self.old owner }
        ensures slots { self.new.slots ≡ self.old.slots }
        ensures owners { self.new.owners ≡ with_aside self.old.owners owner (used_of self.old owner - 1) (aside_of self.old owner - 1) }
        ensures chains { (chain : Chain) → IsLive self.old chain → IsLive self.new chain
            × (chain_bytes self.new chain ≡ chain_bytes self.old chain) }
    {
        let old = self.owners[owner as usize];
        self.owners[owner as usize] = Owner {
            quota: old.quota,
            used: old.used - 1,
            aside: old.aside - 1,
        };
    }

    /// Appends bytes to a chain. `Err` comes where the further blocks exceed what its owner has left, and changes nothing.
    pub fn take(&mut self, chain: &mut Chain, bytes: &[u8]) -> Result<(), NoRoom>
        requires { IsLive self.old chain.old }
        ensures room { IsOk result
            ↔ (more_blocks (length (chain_bytes self.old chain.old)) (length bytes.now) ≤ chain_spare self.old chain.old) }
        ensures ok { OnOk result (Appends self.old self.new chain.old chain.new bytes.now) }
        ensures appended { OnOk result (chain_bytes self.new chain.new ≡ chain_bytes self.old chain.old ++ bytes.now) }
        ensures live { OnOk result (IsLive self.new chain.new) }
        ensures others { OnOk result (KeepsOthers self.old self.new chain.old chain.new) }
        ensures no_room { IfErr result (λ e.
            (e.need ≡ min (more_blocks (length (chain_bytes self.old chain.old)) (length bytes.now)) 65535)
            × (e.spare ≡ chain_spare self.old chain.old)) }
        ensures err { OnErr result ((self.new ≡ self.old) × (chain.new ≡ chain.old)) }
    {
        let len = self.len(chain) as usize;
        let need = (len + bytes.len()).div_ceil(BLOCK_BYTES) - len.div_ceil(BLOCK_BYTES);
        let spare = self.spare(chain.owner);
        if need > spare as usize {
            return Err(NoRoom {
                need: need.min(u16::MAX as usize) as u16,
                spare,
            });
        }
        let at = chain.owner as usize;
        let old = self.owners[at];
        append(&mut self.blocks, chain, bytes);
        self.owners[at] = Owner {
            quota: old.quota,
            used: old.used + need as u16,
            aside: old.aside,
        };
        Ok(())
    }

    /// Gives a chain to another owner with its bytes, which stay where they are. `Err` comes where its blocks exceed what
    /// that owner has left, and changes nothing.
    pub fn pass(&mut self, chain: &mut Chain, owner: u8) -> Result<(), NoRoom>
        requires live { IsLive self.old chain.old }
        requires quota { HasQuota self.old owner }
        ensures room { IsOk result ↔ (blocks_for (length (chain_bytes self.old chain.old)) ≤ spare_of self.old owner) }
        ensures ok { OnOk result (Passes self.old self.new chain.old chain.new owner) }
        ensures same_bytes { OnOk result (chain_bytes self.new chain.new ≡ chain_bytes self.old chain.old) }
        ensures live { OnOk result (IsLive self.new chain.new) }
        ensures others { OnOk result (KeepsOthers self.old self.new chain.old chain.new) }
        ensures no_room { IfErr result (λ e.
            (e.need ≡ blocks_for (length (chain_bytes self.old chain.old))) × (e.spare ≡ spare_of self.old owner)) }
        ensures err { OnErr result ((self.new ≡ self.old) × (chain.new ≡ chain.old)) }
    {
        let need = (self.len(chain) as usize).div_ceil(BLOCK_BYTES) as u16;
        let spare = self.spare(owner);
        if need > spare {
            return Err(NoRoom { need, spare });
        }
        let before = self.owners[chain.owner as usize];
        self.owners[chain.owner as usize] = Owner {
            quota: before.quota,
            used: before.used - need,
            aside: before.aside,
        };
        let after = self.owners[owner as usize];
        self.owners[owner as usize] = Owner {
            quota: after.quota,
            used: after.used + need,
            aside: after.aside,
        };
        hand_over(&mut self.blocks, chain, owner);
        Ok(())
    }

    /// Gives a chain's blocks back.
    pub fn give(&mut self, chain: Chain)
        requires { IsLive self.old chain }
        ensures given { Gives self.old self.new chain }
        ensures others { KeepsOthers self.old self.new chain chain }
    {
        let need = (self.len(&chain) as usize).div_ceil(BLOCK_BYTES) as u16;
        let at = chain.owner as usize;
        let old = self.owners[at];
        self.owners[at] = Owner {
            quota: old.quota,
            used: old.used - need,
            aside: old.aside,
        };
        free_all(&mut self.blocks, &chain);
    }
}

/// All quotas together.
fn total_of(quotas: &[u16]) -> u16
    requires { sum quotas.now ≤ 16384 }
    ensures { result ≡ sum quotas.now }
{
    quotas.iter().sum()
}

/// An owner for each quota, with nothing used.
fn new_owners(alloc: Global, quotas: &[u16]) -> Result<Vec<Owner>, AllocError>
    ensures { IfOk result (λ v. v.items ≡ new_owners quotas.now) }
{
    quotas
        .iter()
        .map(|quota| Owner {
            quota: *quota,
            used: 0,
            aside: 0,
        })
        .collect(alloc)
}

/// Frees the blocks of a chain.
fn free_all(blocks: &mut Blocks, chain: &Chain)
    requires live { IsLiveAt blocks.old.slots chain.now.owner chain.now.first }
    requires fits { blocks.old.free + blocks_for (length (named_bytes blocks.old.slots chain.now.first)) < 2 ^ 16 }
    ensures slots { blocks.new.slots ≡ removed_at blocks.old.slots chain.now.first }
    ensures free { blocks.new.free ≡ blocks.old.free + blocks_for (length (named_bytes blocks.old.slots chain.now.first)) }
{
    if let Some(first) = chain.first {
        blocks.free_chain(first);
    }
}

/// Appends bytes to a chain, with as many free blocks as it needs.
fn append(blocks: &mut Blocks, chain: &mut Chain, bytes: &[u8])
    requires live { IsLiveAt blocks.old.slots chain.old.owner chain.old.first }
    requires short { length (named_bytes blocks.old.slots chain.old.first) + length bytes.now < 2 ^ 24 }
    requires room { blocks_for (length (named_bytes blocks.old.slots chain.old.first) + length bytes.now)
        ≤ blocks_for (length (named_bytes blocks.old.slots chain.old.first)) + blocks.old.free }
    ensures owner { chain.new.owner ≡ chain.old.owner }
    ensures name { IsNamedAfter blocks.old.slots chain.old.first bytes.now chain.new.first }
    ensures slots { blocks.new.slots ≡ put_at blocks.old.slots chain.new.first chain.old.owner
        (named_bytes blocks.old.slots chain.old.first ++ bytes.now) }
    ensures free { blocks.new.free + blocks_for (length (named_bytes blocks.old.slots chain.old.first) + length bytes.now)
        ≡ blocks.old.free + blocks_for (length (named_bytes blocks.old.slots chain.old.first)) }
{
    if let Some(first) = chain.first {
        blocks.extend(first, bytes);
        return;
    }
    if bytes.is_empty() {
        return;
    }
    let (front, rest) = bytes.split_at(bytes.len().min(BLOCK_BYTES));
    let first = blocks.begin(chain.owner, front);
    blocks.extend(first, rest);
    chain.first = Some(first);
}

/// Gives a chain to another owner.
fn hand_over(blocks: &mut Blocks, chain: &mut Chain, owner: u8)
    requires { IsLiveAt blocks.old.slots chain.old.owner chain.old.first }
    ensures chain { chain.new ≡ record { owner = owner; first = chain.old.first } }
    ensures slots { blocks.new.slots ≡ put_at blocks.old.slots chain.old.first owner (named_bytes blocks.old.slots chain.old.first) }
    ensures free { blocks.new.free ≡ blocks.old.free }
{
    if let Some(first) = chain.first {
        blocks.set_owner(first, owner);
    }
    chain.owner = owner;
}
