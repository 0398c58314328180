//! Cutting a message into packets.
ghost use Rattle.std.specs.Prelude.{◌≡◌, ◌<◌, ◌≤◌, ◌/◌, ◌%◌, length, take, drop, Some, slice_get};
ghost use Rattle.block_pool.specs.Pool.{IsLive, chain_bytes};
ghost use Rattle.hcp_packet.specs.Packets.{packet_at, packets_of};

use arrayvec::ArrayVec;
use block_pool::{Chain, Pool};
use hcp_packet::{MAX_DATA, Packet};

/// The packet of a message on a pipe that begins at place `from`: a multiple of 28 below the message's length (ETSI TS 102 622, section
/// 5.3). All but the last packet carry 28 bytes. It asks for a pipe that isn't reserved. The chain is gone through from its first
/// block on, so a packet costs the more the further back it lies.
pub fn cut(pool: &Pool, chain: &Chain, pipe: u8, from: u32) -> Packet
    requires live { IsLive pool.now chain.now }
    requires pipe { pipe < 112 }
    requires place { from % 28 ≡ 0 }
    requires in_chain { from < length (chain_bytes pool.now chain.now) }
    ensures packet { result ≡ packet_at pipe (chain_bytes pool.now chain.now) from }
    ensures of_message { slice_get (packets_of pipe (chain_bytes pool.now chain.now)) (from / 28) ≡ Some result }
{
    let last = pool.len(chain) - from <= MAX_DATA as u32;
    let bytes = data_at(pool, chain, from);
    Packet { last, pipe, bytes }
}

/// At most 28 bytes of a chain, from a place on.
fn data_at(pool: &Pool, chain: &Chain, from: u32) -> ArrayVec<u8, 28>
    requires live { IsLive pool.now chain.now }
    requires in_chain { from ≤ length (chain_bytes pool.now chain.now) }
    ensures { result.items ≡ take 28 (drop from (chain_bytes pool.now chain.now)) }
{
    let mut buffer = [0; MAX_DATA];
    let count = pool.copy_out(chain, from, &mut buffer);
    let mut bytes = ArrayVec::new();
    let _ = bytes.try_extend_from_slice(&buffer[..count]);
    bytes
}
