//! The bytes of one message.
ghost use Rattle.std.specs.Prelude.{◌≡◌, ◌≤◌, ◌&&◌, [], length, if◌then◌else◌};
ghost use Rattle.hcp_packet.specs.Packets.{is_good};
ghost use Rattle.block_pool.specs.Pool.{IsLive, chain_bytes};

use block_pool::{Chain, Pool};
use hcp_packet::read_header;
use std::marker::Model;

/// Room for the bytes of one message.
#[derive(Drop)]
pub struct Body {
    bytes: [u8; 4096],
    len: usize,
}

impl Model for Body {
    ghost use Rattle.std.specs.Prelude.{List, ℕ, ◌≤◌, take};

    ghost Value = { List ℕ };

    ghost view = { λ b. take b.len b.bytes };

    ghost invariant = { λ b. b.len ≤ 4096 };
}

impl Body {
    /// It has no bytes yet.
    pub fn new() -> Body
        ensures { result ≡ [] }
    {
        Body {
            bytes: [0; 4096],
            len: 0,
        }
    }

    /// Its bytes.
    pub fn as_slice(&self) -> &[u8]
        ensures value { result.now ≡ self.now }
        ensures short { length result.now ≤ 4096 }
    {
        &self.bytes[..self.len]
    }

    /// Copies the bytes of a message that came whole, once, where it is wanted and good, and says whether it did. Else nothing is touched.
    pub fn fill(&mut self, pool: &Pool, chain: &Chain, is_wanted: bool) -> bool
        requires live { IsLive pool.now chain.now }
        requires short { length (chain_bytes pool.now chain.now) ≤ 4096 }
        ensures told { result ≡ (is_wanted && is_good (chain_bytes pool.now chain.now)) }
        ensures bytes { self.new ≡ (if result then chain_bytes pool.now chain.now else self.old) }
    {
        let is_told = is_wanted && begins_well(pool, chain);
        if is_told {
            self.len = pool.copy_out(chain, 0, &mut self.bytes);
        }
        is_told
    }
}

// Whether a message that came whole is good, as its first byte says.
fn begins_well(pool: &Pool, chain: &Chain) -> bool
    requires { IsLive pool.now chain.now }
    ensures { result ≡ is_good (chain_bytes pool.now chain.now) }
{
    let mut first = [0; 1];
    let count = pool.copy_out(chain, 0, &mut first);
    read_header(&first[..count]).is_ok()
}
