//! The messages that wait until they are acknowledged whole.
ghost use Rattle.std.specs.Prelude.{◌≡◌, ◌+◌, ◌^◌, ◌<◌, ◌≤◌, ◌∷◌, length};
ghost use Rattle.block_pool.specs.Pool.{IsLive, chain_bytes};
ghost use Rattle.hcp_packet.specs.Packets.{packet_count, packet_at, packet_bytes};

use block_pool::{Chain, NoRoom, Pool};
use circular_buffer::HeapCircularBuffer;
use std::alloc::{AllocError, Global};
use swp_base::Info;

/// A message in its chain, with its pipe.
#[derive(Default, Drop)]
pub struct Queued {
    pipe: u8,
    chain: Chain,
}

/// The messages of one end that aren't acknowledged whole, oldest first, in the blocks of one owner.
#[derive(Drop)]
pub struct Outbox {
    owner: u8,
    queue: HeapCircularBuffer<Queued>,
    // How many fragments of the first message are acknowledged.
    acked: u32,
    // How many fragments were cut, counted from the first one of the first message.
    cut: u32,
    // How many fragments of all messages weren't cut yet.
    left: u32,
}

impl Outbox {
    ghost use Rattle.std.specs.Prelude.{◌≡◌, ◌≢◌, ◌+◌, ◌-◌, ◌^◌, ◌<◌, ◌≤◌, ◌↔◌, ◌++◌, [], ◌∷◌, length, IfOk, IfErr, IsOk, OnOk, OnErr};
    ghost use Rattle.std.specs.Prelude.{IsTrue, IsNone, OnSome, IfNone};
    ghost use Rattle.std.specs.Option.{option_to_list};
    ghost use Rattle.std.specs.Bool.{OnTrue, OnFalse};
    ghost use Rattle.circular_buffer.specs.Buffer.{buffer};
    ghost use Rattle.block_pool.specs.Slots.{blocks_for};
    ghost use Rattle.block_pool.specs.Pool.{PoolState, IsLive, chain_bytes, spare_of};
    ghost use Rattle.hcp_packet.specs.Packets.{packet_count, IsSendable};
    ghost use Rattle.link_laws.specs.machine.Machine.{whole_among};
    ghost use Rattle.link_messages.specs.declared.outbox.Queued.{Queued};
    ghost use Rattle.link_messages.specs.Outgoing.{queued_messages, waiting_in, rest_among, AreKept, OutboxLiesIn, OutboxLeavesOthers, LeavesOthersBut};
    ghost use Rattle.link_messages.specs.Outgoing.{Accepts, GivesFront, GivesBack, acked_more};

    /// The most messages that wait: each uses at least one of the owner's 128 blocks.
    pub const MOST: usize = 128;

    /// Nothing waits.
    pub fn make(alloc: Global, owner: u8) -> Result<Outbox, AllocError>
        ensures { IfOk result (λ box. (box.owner ≡ owner) × (box.queue ≡ buffer [] 128) × (box.acked ≡ 0) × (box.cut ≡ 0) × (box.left ≡ 0)) }
    {
        let queue = HeapCircularBuffer::with_capacity(alloc, Self::MOST)?;
        Ok(Outbox {
            owner,
            queue,
            acked: 0,
            cut: 0,
            left: 0,
        })
    }

    /// Whether no message waits.
    pub fn is_empty(&self) -> bool
        ensures { IsTrue result ↔ (self.now.queue.items ≡ []) }
    {
        self.queue.is_empty()
    }

    /// Takes a message of at most 4,096 bytes, which is copied into a chain of its own. `Err` comes where its blocks exceed what the
    /// owner has left, and changes nothing.
    pub fn accept(&mut self, pool: &mut Pool, pipe: u8, message: &[u8]) -> Result<(), NoRoom>
        requires lies { OutboxLiesIn pool.old self.old }
        requires sendable { IsSendable (pipe, message.now) }
        requires short { length message.now ≤ 4096 }
        ensures room { IsOk result ↔ (blocks_for (length message.now) ≤ spare_of pool.old self.old.owner) }
        ensures ok { OnOk result (Accepts pool.old pool.new self.old self.new (pipe, message.now)) }
        ensures elsewhere { OnOk result (OutboxLeavesOthers pool.old pool.new self.old.owner self.old.queue.items self.new.queue.items) }
        ensures no_room { IfErr result (λ e. (e.need ≡ blocks_for (length message.now)) × (e.spare ≡ spare_of pool.old self.old.owner)) }
        ensures err { OnErr result ((pool.new ≡ pool.old) × (self.new ≡ self.old)) }
    {
        let mut chain = pool.chain(self.owner);
        pool.take(&mut chain, message)?;
        self.push(pool, pipe, chain);
        Ok(())
    }

    // A message stands behind the others.
    fn push(&mut self, pool: &Pool, pipe: u8, chain: Chain)
        requires live { IsLive pool.now chain }
        requires room { length self.old.queue.items < self.old.queue.capacity }
        requires fits { self.old.left + packet_count (length (chain_bytes pool.now chain)) < 2 ^ 32 }
        ensures { self.new ≡ record self.old {
          queue = buffer (self.old.queue.items ++ record { pipe = pipe; chain = chain } ∷ []) self.old.queue.capacity;
          left = self.old.left + packet_count (length (chain_bytes pool.now chain));
        } }
    {
        self.left += pool.len(&chain).div_ceil(hcp_packet::MAX_DATA as u32);
        let _fits = self.queue.try_push_back(Queued { pipe, chain });
    }

    // Gives the first message's blocks back. False where there is none.
    fn give_front(&mut self, pool: &mut Pool) -> bool
        requires { AreKept pool.old self.old.owner self.old.queue }
        ensures given { OnTrue result (GivesFront pool.old pool.new self.old self.new) }
        ensures none { OnFalse result ((self.old.queue.items ≡ []) × (self.new ≡ self.old) × (pool.new ≡ pool.old)) }
    {
        match self.queue.pop_front() {
            Some(first) => {
                pool.give(first.chain);
                true
            }
            None => false,
        }
    }

    /// Forgets all messages, and gives their blocks back.
    pub fn clear(&mut self, pool: &mut Pool)
        requires { AreKept pool.old self.old.owner self.old.queue }
        ensures lies { OutboxLiesIn pool.new self.new }
        ensures empty { self.new.queue.items ≡ [] }
        ensures places { (self.new.acked ≡ 0) × (self.new.cut ≡ 0) }
        ensures owner { self.new.owner ≡ self.old.owner }
        ensures elsewhere { OutboxLeavesOthers pool.old pool.new self.old.owner self.old.queue.items [] }
    {
        while self.give_front(pool) {}
        self.acked = 0;
        self.cut = 0;
        self.left = 0;
    }

    /// Whether all fragments of the messages that wait were cut: known at once, however many wait. This project's own.
    pub fn has_all_cut(&self) -> bool
        ensures { (pool : PoolState) → OutboxLiesIn pool self.now → IsTrue result ↔ (waiting_in pool self.now ≡ []) }
    {
        self.left == 0
    }

    /// The first fragment that wasn't cut yet, which is cut now. None where all were.
    pub fn next_fragment(&mut self, pool: &mut Pool) -> Option<Info>
        requires { OutboxLiesIn pool.old self.old }
        ensures fragment { waiting_in pool.old self.old ≡ option_to_list result ++ waiting_in pool.old self.new }
        ensures none { IsNone result ↔ (waiting_in pool.old self.old ≡ []) }
        ensures kept { OnSome result (self.new ≡ record self.old { cut = self.old.cut + 1; left = self.old.left - 1 }) }
        ensures same { IfNone result (self.new ≡ self.old) }
        ensures lies { OutboxLiesIn pool.old self.new }
        ensures unchanged { pool.new ≡ pool.old }
    {
        if self.left == 0 {
            return None;
        }
        let mut place = self.cut;
        self.cut += 1;
        self.left -= 1;
        let mut at = 0;
        while let Some(queued) = self.queue.get(at) {
            let from = place * hcp_packet::MAX_DATA as u32;
            let len = pool.len(&queued.chain);
            if from < len {
                return Some(fragment_of(pool, queued, from, len));
            }
            place -= len.div_ceil(hcp_packet::MAX_DATA as u32);
            at += 1;
        }
        None
    }

    /// So many more fragments are acknowledged, all of which were cut. The blocks of each message that is acknowledged whole now are
    /// given back. How many these are.
    pub fn acknowledge(&mut self, pool: &mut Pool, count: u8) -> u16
        requires lies { OutboxLiesIn pool.old self.old }
        requires cut { self.old.acked + count ≤ self.old.cut }
        ensures gives { GivesBack pool.old pool.new (acked_more self.old count) self.new result }
        ensures all { whole_among (queued_messages pool.new self.new) self.new.acked ≡ 0 }
        ensures rest { rest_among (queued_messages pool.new self.new) self.new.acked ≡ self.new.acked }
    {
        self.acked += u32::from(count);
        let mut whole = 0;
        while let Some(first) = self.queue.front() {
            let len = pool.len(&first.chain);
            let fragments = len.div_ceil(hcp_packet::MAX_DATA as u32);
            if fragments > self.acked {
                return whole;
            }
            let _given = self.give_front(pool);
            self.acked -= fragments;
            self.cut -= fragments;
            whole += 1;
        }
        whole
    }

    /// Takes a message that lies in a chain of another owner, which is passed on as it is. `Err` comes where its blocks exceed what
    /// the owner has left, changes nothing, and gives the chain back.
    pub fn accept_chain(
        &mut self,
        pool: &mut Pool,
        pipe: u8,
        chain: Chain,
    ) -> Result<(), (Chain, NoRoom)>
        requires lies { OutboxLiesIn pool.old self.old }
        requires live { IsLive pool.old chain }
        requires other { chain.owner ≢ self.old.owner }
        requires sendable { IsSendable (pipe, chain_bytes pool.old chain) }
        ensures room { IsOk result ↔ (blocks_for (length (chain_bytes pool.old chain)) ≤ spare_of pool.old self.old.owner) }
        ensures ok { OnOk result (Accepts pool.old pool.new self.old self.new (pipe, chain_bytes pool.old chain)) }
        ensures elsewhere { OnOk result (LeavesOthersBut pool.old pool.new self.old.owner chain self.old.queue.items self.new.queue.items) }
        ensures no_room { IfErr result (λ e. (e.0 ≡ chain) × (e.1.need ≡ blocks_for (length (chain_bytes pool.old chain)))
            × (e.1.spare ≡ spare_of pool.old self.old.owner)) }
        ensures err { OnErr result ((pool.new ≡ pool.old) × (self.new ≡ self.old)) }
    {
        let mut chain = chain;
        match pool.pass(&mut chain, self.owner) {
            Ok(()) => {
                self.push(pool, pipe, chain);
                Ok(())
            }
            Err(full) => Err((chain, full)),
        }
    }
}

/// The fragment of a message of `len` bytes that begins at one of these.
fn fragment_of(pool: &mut Pool, queued: &Queued, from: u32, len: u32) -> Info
    requires live { IsLive pool.old queued.now.chain }
    requires pipe { queued.now.pipe < 112 }
    requires len { len ≡ length (chain_bytes pool.old queued.now.chain) }
    requires within { from < len }
    ensures fragment { result ≡ packet_bytes (packet_at queued.now.pipe (chain_bytes pool.old queued.now.chain) from) }
    ensures unchanged { pool.new ≡ pool.old }
{
    let last = len - from <= hcp_packet::MAX_DATA as u32;
    let first = if last {
        0x80 + queued.pipe
    } else {
        queued.pipe
    };
    let mut data = [0; hcp_packet::MAX_DATA];
    let count = pool.copy_on(&queued.chain, from, &mut data);
    let Info { mut bytes } = Info::new(&[first]);
    let _fits = bytes.try_extend_from_slice(&data[..count]);
    Info { bytes }
}
