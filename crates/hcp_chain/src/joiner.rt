//! Joining packets of any pipes mixed into messages.
ghost use Rattle.std.specs.Prelude.{◌≡◌, ◌==◌};
ghost use Rattle.std.specs.List.{position};

use arrayvec::ArrayVec;
use block_pool::{Chain, Pool};
use hcp_packet::{Packet, PacketView};

/// The most bytes that a message has, with its header. This project's own.
pub const MAX_MESSAGE: u32 = 4096;

/// Why a packet can't be joined. This project's own.
#[derive(Clone, Copy, Debug, PartialEq, Eq)]
pub enum ChainFault {
    /// It begins a message on a fifth pipe while four are partly received.
    TooManyChains { pipe: u8 },
    /// Its message would have this many bytes, more than 4,096.
    MessageTooLong { len: u32 },
}

/// What a packet gives (ETSI TS 102 622, section 5.3).
#[derive(Drop)]
pub enum Joined {
    /// Its message isn't whole yet.
    More,
    /// It is the last packet of a message, which has come whole.
    Whole { pipe: u8, chain: Chain },
    /// It can't be joined. Nothing is kept.
    Fault(ChainFault),
}

/// What has come of the message on a pipe (ETSI TS 102 622, section 5.3).
#[derive(Default, Drop)]
pub struct Open {
    pipe: u8,
    chain: Chain,
}

/// The messages that are partly received, at most four, each on a pipe of its own (ETSI TS 102 622, section 5.3; four are this project's own).
#[derive(Drop)]
pub struct Joiner {
    owner: u8,
    open: ArrayVec<Open, 4>,
}

impl Joiner {
    ghost use Rattle.std.specs.Prelude.{◌≡◌, ◌-◌, ◌↔◌, [], ◌++◌, IsTrue, IsNone, IfSome, IfNone};
    ghost use Rattle.block_pool.specs.declared.chain.Chain.{Chain};
    ghost use Rattle.block_pool.specs.Owners.{with_used};
    ghost use Rattle.block_pool.specs.Pool.{HasQuota, used_of, chain_bytes};
    ghost use Rattle.hcp_packet.specs.Packets.{packet_seen};
    ghost use Rattle.hcp_chain.specs.Joining.{join_step, is_fifth};
    ghost use Rattle.hcp_chain.specs.Holding.{HoldsChains, IsJoinerReady, KeepsOtherChains, AnswersOutcome, open_messages, held_blocks, whole_in};
    ghost use Rattle.hcp_chain.specs.TakingOut.{TakesOut};

    /// A joiner that keeps its chains for an owner. Nothing is received yet.
    pub fn new(owner: u8) -> Joiner
        ensures owner { result.owner ≡ owner }
        ensures open { result.open.items ≡ [] }
    {
        Joiner {
            owner,
            open: ArrayVec::new(),
        }
    }

    /// Forgets what is partly received, and gives its blocks back.
    pub fn clear(&mut self, pool: &mut Pool)
        requires holds { HoldsChains pool.old self.old.owner self.old.open.items }
        requires quota { HasQuota pool.old self.old.owner }
        ensures owner { self.new.owner ≡ self.old.owner }
        ensures open { self.new.open.items ≡ [] }
        ensures used { pool.new.owners ≡ with_used pool.old.owners self.old.owner
            (used_of pool.old self.old.owner - held_blocks pool.old self.old.open.items) }
        ensures others { KeepsOtherChains pool.old pool.new self.old.open.items [] }
    {
        while let Some(open) = self.open.pop() {
            pool.give(open.chain);
        }
    }

    /// Takes out what has come of the message on a pipe: an empty chain where none is under way. `None` comes where four
    /// others are.
    fn take_out(&mut self, pool: &mut Pool, pipe: u8) -> Option<Chain>
        requires holds { HoldsChains pool.old self.old.owner self.old.open.items }
        requires quota { HasQuota pool.old self.old.owner }
        ensures pool { pool.new ≡ pool.old }
        ensures owner { self.new.owner ≡ self.old.owner }
        ensures some { IfSome result (TakesOut pool.old self.old self.new pipe) }
        ensures none { IfNone result (self.new ≡ self.old) }
        ensures fifth { IsNone result ↔ IsTrue (is_fifth (open_messages pool.old self.old) pipe) }
    {
        match place_of(self.open.as_slice(), pipe) {
            Some(at) => Some(self.open.remove(at).chain),
            None if self.open.is_full() => None,
            None => Some(pool.chain(self.owner)),
        }
    }

    /// Forgets everything at a fault.
    fn refuse(&mut self, pool: &mut Pool, fault: ChainFault) -> Joined
        requires holds { HoldsChains pool.old self.old.owner self.old.open.items }
        requires quota { HasQuota pool.old self.old.owner }
        ensures fault { result ≡ Joined.Fault fault }
        ensures owner { self.new.owner ≡ self.old.owner }
        ensures open { self.new.open.items ≡ [] }
        ensures used { pool.new.owners ≡ with_used pool.old.owners self.old.owner
            (used_of pool.old self.old.owner - held_blocks pool.old self.old.open.items) }
        ensures others { KeepsOtherChains pool.old pool.new self.old.open.items [] }
    {
        self.clear(pool);
        Joined::Fault(fault)
    }

    /// Takes a packet: what has come of its message is kept until its last packet (ETSI TS 102 622, section 5.3). After a fault nothing is
    /// kept. It asks that the joiner's owner has 512 blocks and uses none but those of the joiner's own chains.
    pub fn take(&mut self, pool: &mut Pool, packet: &Packet) -> Joined
        requires { IsJoinerReady pool.old self.old }
        ensures owner { self.new.owner ≡ self.old.owner }
        ensures says { AnswersOutcome pool.new result (join_step (open_messages pool.old self.old) packet.now).0 }
        ensures open { open_messages pool.new self.new ≡ (join_step (open_messages pool.old self.old) packet.now).1 }
        ensures holds { HoldsChains pool.new self.old.owner (self.new.open.items ++ whole_in result) }
        ensures used { pool.new.owners ≡ with_used pool.old.owners self.old.owner
            (held_blocks pool.new (self.new.open.items ++ whole_in result)) }
        ensures others { KeepsOtherChains pool.old pool.new self.old.open.items (self.new.open.items ++ whole_in result) }
        ensures ready { whole_in result ≡ [] → IsJoinerReady pool.new self.new }
    {
        self.take_view(pool, &packet.view())
    }

    /// Takes a packet where it lies, as `take` does.
    pub fn take_view(&mut self, pool: &mut Pool, packet: &PacketView<'_>) -> Joined
        requires { IsJoinerReady pool.old self.old }
        ensures owner { self.new.owner ≡ self.old.owner }
        ensures says { AnswersOutcome pool.new result (join_step (open_messages pool.old self.old) (packet_seen packet.now)).0 }
        ensures open { open_messages pool.new self.new ≡ (join_step (open_messages pool.old self.old) (packet_seen packet.now)).1 }
        ensures holds { HoldsChains pool.new self.old.owner (self.new.open.items ++ whole_in result) }
        ensures used { pool.new.owners ≡ with_used pool.old.owners self.old.owner
            (held_blocks pool.new (self.new.open.items ++ whole_in result)) }
        ensures others { KeepsOtherChains pool.old pool.new self.old.open.items (self.new.open.items ++ whole_in result) }
        ensures ready { whole_in result ≡ [] → IsJoinerReady pool.new self.new }
    {
        let pipe = packet.pipe;
        let Some(mut chain) = self.take_out(pool, pipe) else {
            return self.refuse(pool, ChainFault::TooManyChains { pipe });
        };
        let len = pool.len(&chain) + packet.bytes.len() as u32;
        if len > MAX_MESSAGE {
            pool.give(chain);
            return self.refuse(pool, ChainFault::MessageTooLong { len });
        }
        let _ = pool.take(&mut chain, packet.bytes);
        if packet.last {
            return Joined::Whole { pipe, chain };
        }
        self.open.push(Open { pipe, chain });
        Joined::More
    }
}

/// The place of the chain of a pipe.
fn place_of(open: &[Open], pipe: u8) -> Option<usize>
    ensures { result ≡ position (λ x. x.pipe == pipe) open.now }
{
    open.iter().position(|open| open.pipe == pipe)
}
