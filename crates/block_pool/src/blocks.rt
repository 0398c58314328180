//! Blocks of memory in one region, linked into chains and a list of free blocks.
ghost use Rattle.std.specs.Prelude.{◌≡◌, ℕ, ◌+◌, ◌*◌, ◌/◌, ◌^◌, ◌<◌, ◌≤◌, ◌++◌, length, map, replicate};
ghost use Rattle.std.specs.List.{range_with_len};
ghost use Rattle.std.specs.Vec.{vec_len, vec_capacity};
ghost use Rattle.block_pool.specs.Links.{block_at, linked_byte, region_behind};

use crate::heads::{Head, StoredHead, head_at};
use std::alloc::{AllocError, Global};
use std::marker::Model;

/// The bytes that a block holds.
pub const BLOCK_BYTES: usize = 32;

/// The block `steps` links behind the first one of a chain: on from the block at which reading goes on, where that doesn't lie
/// behind it.
fn seek(next: &[u16], first: u16, head: &Head, steps: usize) -> u16
    requires reached { (k : ℕ) → k < steps → block_at next.now first k < length next.now }
    requires marked { block_at next.now first head.now.passed ≡ head.now.read_on }
    ensures { result ≡ block_at next.now first steps }
{
    let passed = head.passed as usize;
    let mut block = first;
    let mut left = steps;
    if passed <= steps {
        block = head.read_on;
        left = steps - passed;
    }
    for _step in 0..left {
        block = next[block as usize];
    }
    block
}

/// Fills `out` with bytes of the chain that begins at `first`, from place `from` on. The block of the place behind them.
fn copy_from(
    region: &[u8],
    next: &[u16],
    first: u16,
    head: &Head,
    from: usize,
    out: &mut [u8],
) -> u16
    requires whole { length region.now ≡ 32 * length next.now }
    requires reached { (k : ℕ) → k * 32 < from + length out.old → block_at next.now first k < length next.now }
    requires marked { block_at next.now first head.now.passed ≡ head.now.read_on }
    requires short { from + length out.old < 2 ^ 32 }
    ensures copied { out.new ≡ map (linked_byte region.now next.now first) (range_with_len from (length out.old)) }
    ensures behind { result ≡ block_at next.now first ((from + length out.old) / 32) }
{
    let mut block = seek(next, first, head, from / BLOCK_BYTES);
    let mut done = 0;
    'pieces: while done < out.len() {
        let offset = (from + done) % BLOCK_BYTES;
        let count = (out.len() - done).min(BLOCK_BYTES - offset);
        let place = BLOCK_BYTES * block as usize + offset;
        overwrite(out, done, &region[place..place + count]);
        done += count;
        if offset + count == BLOCK_BYTES {
            block = next[block as usize];
        }
    }
    block
}

/// Writes bytes over a slice from a place on. Often it is one byte, which needs no copy.
#[inline(always)]
fn overwrite(region: &mut [u8], place: usize, bytes: &[u8])
    requires { place + length bytes.now ≤ length region.old }
    ensures { region.new ≡ region_behind region.old place bytes.now }
{
    match bytes {
        [byte] => region[place] = *byte,
        _ => region[place..place + bytes.len()].copy_from_slice(bytes),
    }
}

/// Lengthens a region by one block of zeros, for which it has room.
fn add_block(region: &mut Vec<u8>)
    requires { vec_len region.old + 32 ≤ vec_capacity region.old }
    ensures items { region.new.items ≡ region.old.items ++ replicate 32 0 }
    ensures capacity { vec_capacity region.old ≤ vec_capacity region.new }
{
    match region.extend_from_slice(&[0; BLOCK_BYTES]) {
        Ok(()) => (),
        Err(_) => unreachable!(),
    }
}

/// Blocks of 32 bytes, each in a chain or free. The lists reach up to the last block that was used, and have room for the fresh
/// ones behind it, which were not used yet.
#[derive(Drop)]
pub struct Blocks {
    /// The bytes of the blocks, one block after another.
    region: Vec<u8>,
    /// For each block the next one of its chain, or of the free list.
    next: Vec<u16>,
    /// For each block the chain that begins there.
    heads: Vec<StoredHead>,
    /// The first block of the free list.
    free: u16,
    /// How many blocks are in the free list.
    free_len: u16,
    /// How many blocks are fresh.
    fresh: u16,
}

impl Model for Blocks {
    ghost use Rattle.block_pool.specs.Slots.{BlocksState};

    ghost Value = { BlocksState };

    ghost use Rattle.std.specs.Prelude.{◌+◌, ◌++◌, replicate, None};
    ghost use Rattle.std.specs.Vec.{vec_len, vec_capacity};
    ghost use Rattle.block_pool.specs.Layout.{slots_of, places_of, AreSoundBlocks, HasRoom};

    ghost view = { λ b. record {
      slots = slots_of b.region.items b.next.items b.heads.items ++ replicate b.fresh None;
      places = places_of b.region.items b.next.items b.heads.items b.free b.free_len b.fresh;
      free = b.free_len + b.fresh;
      listed = b.free_len;
    } };

    ghost invariant = { λ b. AreSoundBlocks b.region.items b.next.items b.heads.items b.free b.free_len
        × HasRoom (vec_len b.next) b.fresh (vec_capacity b.region) (vec_capacity b.next) (vec_capacity b.heads) };
}

impl Blocks {
    ghost use Rattle.std.specs.Prelude.{◌≡◌, ◌+◌, ◌-◌, ◌%◌, ◌^◌, ◌<◌, ◌≤◌, [], ◌∷◌, ◌++◌, length, replicate, take, drop, min, None, IfOk, slice_set};
    ghost use Rattle.block_pool.specs.Slots.{ShareNoBlock, slot, with_chain, held_bytes, owner_of, blocks_for};

    /// So many free blocks, at most 16,384.
    pub fn make(alloc: Global, count: u16) -> Result<Blocks, AllocError>
        requires { count ≤ 16384 }
        ensures { IfOk result (λ blocks. (blocks.slots ≡ replicate count None) × (blocks.free ≡ count)) }
    {
        let region = Vec::with_capacity(alloc, BLOCK_BYTES * count as usize)?;
        let next = Vec::with_capacity(alloc, count as usize)?;
        let heads = Vec::with_capacity(alloc, count as usize)?;
        Ok(Blocks {
            region,
            next,
            heads,
            free: 0,
            free_len: 0,
            fresh: count,
        })
    }

    /// Lengthens the lists by the first fresh block, which alone is in the free list then. There is room, so this takes no memory.
    fn lengthen(&mut self)
        requires used { self.old.listed ≡ 0 }
        requires free { 0 < self.old.free }
        ensures listed { self.new.listed ≡ 1 }
        ensures slots { self.new.slots ≡ self.old.slots }
        ensures free { self.new.free ≡ self.old.free }
    {
        let block = self.next.len() as u16;
        add_block(&mut self.region);
        self.next.push_reserved(0);
        self.heads.push_reserved(StoredHead::none());
        self.free = block;
        self.free_len = 1;
        self.fresh -= 1;
    }

    /// Sees to it that the first free block is one that the lists reach.
    fn reach(&mut self)
        requires { 0 < self.old.free }
        ensures listed { 0 < self.new.listed }
        ensures slots { self.new.slots ≡ self.old.slots }
        ensures free { self.new.free ≡ self.old.free }
    {
        if self.free_len == 0 {
            self.lengthen();
        }
    }

    /// Each block lies in one chain, once, or is free. Nothing here runs.
    pub fn chains_share_no_block(&self)
        ensures { ShareNoBlock self.now.slots self.now.places }
    {
        let _free = self.free_len;
    }

    /// The length of a chain in bytes.
    pub fn len(&self, first: u16) -> u32
        requires { 0 < length (held_bytes self.now.slots first) }
        ensures { result ≡ length (held_bytes self.now.slots first) }
    {
        head_at(&self.heads, first).len
    }

    /// Begins a chain with 1 to 32 bytes, in the first free block.
    pub fn begin(&mut self, owner: u8, bytes: &[u8]) -> u16
        requires free { 0 < self.old.free }
        requires some { 0 < length bytes.now }
        requires block { length bytes.now ≤ 32 }
        ensures fits { result < length self.old.slots }
        ensures fresh { slot self.old.slots result ≡ None }
        ensures slots { self.new.slots ≡ with_chain self.old.slots result owner bytes.now }
        ensures free { self.new.free + 1 ≡ self.old.free }
    {
        self.reach();
        let block = self.free;
        self.free = self.next[block as usize];
        self.free_len -= 1;
        overwrite(&mut self.region, BLOCK_BYTES * block as usize, bytes);
        self.heads[block as usize] = StoredHead::of(Head {
            owner,
            last: block,
            len: bytes.len() as u32,
            read_on: block,
            passed: 0,
        });
        block
    }

    /// Appends bytes to a chain whose last block has room for them.
    fn fill_block(&mut self, first: u16, bytes: &[u8])
        requires more { 0 < length bytes.now }
        requires begun { 0 < length (held_bytes self.old.slots first) % 32 }
        requires room { length (held_bytes self.old.slots first) % 32 + length bytes.now ≤ 32 }
        requires short { length (held_bytes self.old.slots first) < 2 ^ 24 }
        ensures slots { self.new.slots
            ≡ with_chain self.old.slots first (owner_of self.old.slots first) (held_bytes self.old.slots first ++ bytes.now) }
        ensures free { self.new.free ≡ self.old.free }
    {
        let head = head_at(&self.heads, first);
        let place = BLOCK_BYTES * head.last as usize + head.len as usize % BLOCK_BYTES;
        overwrite(&mut self.region, place, bytes);
        self.heads[first as usize] = StoredHead::of(Head {
            owner: head.owner,
            last: head.last,
            len: head.len + bytes.len() as u32,
            read_on: head.read_on,
            passed: head.passed,
        });
    }

    /// Appends a byte to a chain whose blocks are full: the first free block becomes its last one.
    fn push_in_new_block(&mut self, first: u16, byte: u8)
        requires some { 0 < length (held_bytes self.old.slots first) }
        requires full { length (held_bytes self.old.slots first) % 32 ≡ 0 }
        requires short { length (held_bytes self.old.slots first) < 2 ^ 24 }
        requires free { 0 < self.old.free }
        ensures slots { self.new.slots
            ≡ with_chain self.old.slots first (owner_of self.old.slots first) (held_bytes self.old.slots first ++ byte ∷ []) }
        ensures free { self.new.free + 1 ≡ self.old.free }
    {
        self.reach();
        let head = head_at(&self.heads, first);
        let block = self.free;
        self.free = self.next[block as usize];
        self.free_len -= 1;
        self.next[head.last as usize] = block;
        self.region[BLOCK_BYTES * block as usize] = byte;
        self.heads[first as usize] = StoredHead::of(Head {
            owner: head.owner,
            last: block,
            len: head.len + 1,
            read_on: head.read_on,
            passed: head.passed,
        });
    }

    /// Frees the blocks of a chain: its last one leads to what was free.
    pub fn free_chain(&mut self, first: u16)
        requires some { 0 < length (held_bytes self.old.slots first) }
        requires fits { self.old.free + blocks_for (length (held_bytes self.old.slots first)) < 2 ^ 16 }
        ensures slots { self.new.slots ≡ slice_set self.old.slots first None }
        ensures free { self.new.free ≡ self.old.free + blocks_for (length (held_bytes self.old.slots first)) }
    {
        let head = head_at(&self.heads, first);
        self.next[head.last as usize] = self.free;
        self.free = first;
        self.free_len += head.len.div_ceil(BLOCK_BYTES as u32) as u16;
        self.heads[first as usize] = StoredHead::none();
    }

    /// Appends as many bytes to a chain as its last block has room for, or the first one in a new block, and says how many.
    #[inline(always)]
    fn push_some(&mut self, first: u16, bytes: &[u8]) -> usize
        requires some { 0 < length (held_bytes self.old.slots first) }
        requires more { 0 < length bytes.now }
        requires short { length (held_bytes self.old.slots first) + length bytes.now < 2 ^ 24 }
        requires room { blocks_for (length (held_bytes self.old.slots first) + length bytes.now)
            ≤ blocks_for (length (held_bytes self.old.slots first)) + self.old.free }
        ensures one { 0 < result }
        ensures count { result ≤ length bytes.now }
        ensures slots { self.new.slots
            ≡ with_chain self.old.slots first (owner_of self.old.slots first) (held_bytes self.old.slots first ++ take result bytes.now) }
        ensures free { self.new.free + blocks_for (length (held_bytes self.old.slots first) + result)
            ≡ self.old.free + blocks_for (length (held_bytes self.old.slots first)) }
    {
        let used = self.len(first) as usize % BLOCK_BYTES;
        if used == 0 {
            self.push_in_new_block(first, bytes[0]);
            return 1;
        }
        let count = bytes.len().min(BLOCK_BYTES - used);
        self.fill_block(first, &bytes[..count]);
        count
    }

    /// Appends bytes to a chain.
    #[inline(always)]
    pub fn extend(&mut self, first: u16, bytes: &[u8])
        requires some { 0 < length (held_bytes self.old.slots first) }
        requires short { length (held_bytes self.old.slots first) + length bytes.now < 2 ^ 24 }
        requires room { blocks_for (length (held_bytes self.old.slots first) + length bytes.now)
            ≤ blocks_for (length (held_bytes self.old.slots first)) + self.old.free }
        ensures slots { self.new.slots
            ≡ with_chain self.old.slots first (owner_of self.old.slots first) (held_bytes self.old.slots first ++ bytes.now) }
        ensures free { self.new.free + blocks_for (length (held_bytes self.old.slots first) + length bytes.now)
            ≡ self.old.free + blocks_for (length (held_bytes self.old.slots first)) }
    {
        let mut done = 0;
        'pieces: while done < bytes.len() {
            done += self.push_some(first, &bytes[done..]);
        }
    }

    /// Gives a chain to another owner. No byte moves.
    pub fn set_owner(&mut self, first: u16, owner: u8)
        requires { 0 < length (held_bytes self.old.slots first) }
        ensures slots { self.new.slots ≡ with_chain self.old.slots first owner (held_bytes self.old.slots first) }
        ensures free { self.new.free ≡ self.old.free }
    {
        let head = head_at(&self.heads, first);
        self.heads[first as usize] = StoredHead::of(Head {
            owner,
            last: head.last,
            len: head.len,
            read_on: head.read_on,
            passed: head.passed,
        });
    }

    /// Copies the bytes of a chain from a place on into the front of `out`, as many as are there and fit, and says how
    /// many.
    pub fn copy_out(&self, first: u16, from: u32, out: &mut [u8]) -> usize
        requires some { 0 < length (held_bytes self.now.slots first) }
        requires in_chain { from ≤ length (held_bytes self.now.slots first) }
        ensures count { result ≡ min (length (held_bytes self.now.slots first) - from) (length out.old) }
        ensures copied { out.new ≡ take result (drop from (held_bytes self.now.slots first)) ++ drop result out.old }
    {
        let left = (self.len(first) - from) as usize;
        let count = left.min(out.len());
        let head = head_at(&self.heads, first);
        let _block = copy_from(
            &self.region,
            &self.next,
            first,
            &head,
            from as usize,
            &mut out[..count],
        );
        count
    }

    /// Copies as `copy_out` does, and keeps the block behind what it copied, so that the next call goes on there without walking
    /// along the chain.
    pub fn copy_on(&mut self, first: u16, from: u32, out: &mut [u8]) -> usize
        requires some { 0 < length (held_bytes self.old.slots first) }
        requires in_chain { from ≤ length (held_bytes self.old.slots first) }
        ensures count { result ≡ min (length (held_bytes self.old.slots first) - from) (length out.old) }
        ensures copied { out.new ≡ take result (drop from (held_bytes self.old.slots first)) ++ drop result out.old }
        ensures unchanged { self.new ≡ self.old }
    {
        let head = head_at(&self.heads, first);
        let left = (head.len - from) as usize;
        let count = out.len().min(left);
        let read_on = copy_from(
            &self.region,
            &self.next,
            first,
            &head,
            from as usize,
            &mut out[..count],
        );
        if count < left {
            let passed = ((from + count as u32) / BLOCK_BYTES as u32) as u16;
            self.heads[first as usize].go_on_at(read_on, passed);
        }
        count
    }
}
