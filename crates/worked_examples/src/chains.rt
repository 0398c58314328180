//! Worked examples of cutting and joining.
ghost use Rattle.std.specs.Prelude.{◌≡◌, ◌<◌, ◌≤◌, length};
ghost use Rattle.block_pool.specs.Pool.{IsLive, chain_bytes};
ghost use Rattle.hcp_chain.specs.Holding.{IsJoinerReady};

use crate::shown::same;
use arrayvec::ArrayVec;
use block_pool::{Chain, Pool};
use hcp_chain::{ChainFault, Joined, Joiner, cut};
use hcp_packet::Packet;
use std::alloc::Global;
use std::process::Abort;

/// A pool, and a joiner of its only owner.
fn joiner(rt: &impl Abort, alloc: Global) -> (Pool, Joiner)
    ensures { IsJoinerReady result.0 result.1 }
{
    let pool = Pool::make(alloc, &[512]).expect(rt, "there is memory");
    (pool, Joiner::new(0))
}

fn packet(last: bool, pipe: u8, data: &[u8]) -> Packet
    requires { length data.now ≤ 28 }
{
    let mut bytes = ArrayVec::new();
    let _ = bytes.try_extend_from_slice(data);
    Packet { last, pipe, bytes }
}

/// A packet that isn't the last one of its message comes, and more is to come.
fn take_more(rt: &impl Abort, pool: &mut Pool, joiner: &mut Joiner, pipe: u8, data: &[u8])
    requires ready { IsJoinerReady pool.old joiner.old }
    requires few { length data.now ≤ 28 }
    ensures { IsJoinerReady pool.new joiner.new }
{
    match joiner.take(pool, &packet(false, pipe, data)) {
        Joined::More => {}
        _ => panic!(rt; "more was to come"),
    }
}

/// The packet is refused, and this is told.
fn refuses(
    rt: &impl Abort,
    pool: &mut Pool,
    joiner: &mut Joiner,
    packet: &Packet,
    fault: ChainFault,
)
    requires { IsJoinerReady pool.old joiner.old }
{
    match joiner.take(pool, packet) {
        Joined::Fault(told) => same(rt, &told, &fault),
        _ => panic!(rt; "the packet was to be refused"),
    }
}

#[test]
fn a_fifth_pipe_is_refused(rt: HostRuntime) {
    let (mut pool, mut joiner) = joiner(&rt, rt.alloc());
    take_more(&rt, &mut pool, &mut joiner, 2, &[1]);
    take_more(&rt, &mut pool, &mut joiner, 3, &[1]);
    take_more(&rt, &mut pool, &mut joiner, 4, &[1]);
    take_more(&rt, &mut pool, &mut joiner, 5, &[]);
    take_more(&rt, &mut pool, &mut joiner, 3, &[2]);
    let fault = ChainFault::TooManyChains { pipe: 6 };
    refuses(&rt, &mut pool, &mut joiner, &packet(true, 6, &[1]), fault);
}

#[test]
fn a_message_too_long_is_refused(rt: HostRuntime) {
    let (mut pool, mut joiner) = joiner(&rt, rt.alloc());
    for _packet in 0..146u8 {
        take_more(&rt, &mut pool, &mut joiner, 1, &[7; 28]);
    }
    let fault = ChainFault::MessageTooLong { len: 4097 };
    refuses(
        &rt,
        &mut pool,
        &mut joiner,
        &packet(false, 1, &[7; 9]),
        fault,
    );
}

/// The message that ends with this packet: its pipe, its length, and its last three bytes.
fn whole(
    rt: &impl Abort,
    pool: &mut Pool,
    joiner: &mut Joiner,
    packet: &Packet,
) -> (u8, u32, [u8; 3])
    requires { IsJoinerReady pool.old joiner.old }
{
    match joiner.take(pool, packet) {
        Joined::Whole { pipe, chain } => {
            let len = pool.len(&chain);
            let mut last = [0; 3];
            let _count = pool.copy_out(&chain, len.saturating_sub(3), &mut last);
            (pipe, len, last)
        }
        _ => panic!(rt; "the message is whole"),
    }
}

#[test]
fn pipes_are_joined_apart(rt: HostRuntime) {
    let (mut pool, mut joiner) = joiner(&rt, rt.alloc());
    take_more(&rt, &mut pool, &mut joiner, 2, &[1; 28]);
    take_more(&rt, &mut pool, &mut joiner, 3, &[9; 28]);
    take_more(&rt, &mut pool, &mut joiner, 2, &[2; 28]);
    let message = whole(&rt, &mut pool, &mut joiner, &packet(true, 2, &[3]));
    same(&rt, &message, &(2, 57, [2, 2, 3]));
}

/// A message of 4,096 bytes in a pool.
fn message_of_4096(rt: &impl Abort, alloc: Global) -> (Pool, Chain)
    ensures live { IsLive result.0 result.1 }
    ensures bytes { length (chain_bytes result.0 result.1) ≡ 4096 }
{
    let mut pool = Pool::make(alloc, &[128]).expect(rt, "there is memory");
    let mut chain = pool.chain(0);
    pool.take(&mut chain, &[7; 4096])
        .expect(rt, "there is room");
    (pool, chain)
}

/// Of a packet of the message, counted from 0, this is shown: whether it is the last one, and how many bytes it carries.
fn is_cut(rt: &impl Abort, pool: &Pool, chain: &Chain, at: u32, shown: (bool, usize))
    requires live { IsLive pool.now chain.now }
    requires bytes { length (chain_bytes pool.now chain.now) ≡ 4096 }
    requires within { at < 147 }
{
    let packet = cut(pool, chain, 2, 28 * at);
    same(rt, &(packet.last, packet.bytes.len()), &shown);
}

#[test]
fn a_long_message_is_cut(rt: HostRuntime) {
    let (pool, chain) = message_of_4096(&rt, rt.alloc());
    for at in 0..146u32 {
        is_cut(&rt, &pool, &chain, at, (false, 28));
    }
    is_cut(&rt, &pool, &chain, 146, (true, 8));
}
