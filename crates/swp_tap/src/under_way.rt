//! The messages that are under way to one side, in blocks of its own.
ghost use Rattle.std.specs.Prelude.{◌≡◌, if◌then◌else◌};

use crate::body::Body;
use block_pool::Pool;
use hcp_chain::{Joined, Joiner};
use hcp_packet::Packet;
use std::alloc::{AllocError, Global};
use std::marker::Model;

/// What a packet gives.
#[derive(Clone, Copy)]
pub enum Came {
    /// No message is told: its message isn't whole yet, isn't wanted or isn't good.
    Nothing,
    /// A message that is wanted and good has come whole on this pipe. The body has its bytes.
    Told(u8),
    /// It can't be joined. Nothing is kept.
    Fault,
}

/// The messages that are partly received, at most four.
#[derive(Drop)]
pub struct UnderWay {
    pool: Pool,
    joiner: Joiner,
}

impl Model for UnderWay {
    ghost use Rattle.std.specs.Prelude.{List, ℕ};
    ghost use Rattle.hcp_chain.specs.Holding.{IsJoinerReady, open_messages};

    ghost Value = { List (ℕ × List ℕ) };

    ghost view = { λ u. open_messages u.pool u.joiner };

    ghost invariant = { λ u. IsJoinerReady u.pool u.joiner };
}

impl UnderWay {
    ghost use Rattle.std.specs.Prelude.{◌≡◌, [], IfOk};
    ghost use Rattle.hcp_chain.specs.Joining.{join_step};
    ghost use Rattle.swp_tap.specs.Coming.{SaysOutcome};

    /// Nothing is received yet. There are blocks for four messages of 4,096 bytes.
    pub fn make(alloc: Global) -> Result<UnderWay, AllocError>
        ensures { IfOk result (λ u. u ≡ []) }
    {
        let pool = Pool::make(alloc, &[512])?;
        Ok(UnderWay {
            pool,
            joiner: Joiner::new(0),
        })
    }

    /// Forgets what is partly received.
    pub fn clear(&mut self)
        ensures { self.new ≡ [] }
    {
        self.joiner.clear(&mut self.pool);
    }

    /// Takes a packet. After a fault nothing is kept. The body changes only where a message is told.
    pub fn take(&mut self, packet: &Packet, is_wanted: bool, body: &mut Body) -> Came
        ensures open { self.new ≡ (join_step self.old packet.now).1 }
        ensures says { SaysOutcome result is_wanted body.old body.new (join_step self.old packet.now).0 }
    {
        match self.joiner.take(&mut self.pool, packet) {
            Joined::More => Came::Nothing,
            Joined::Whole { pipe, chain } => {
                let is_told = body.fill(&self.pool, &chain, is_wanted);
                self.pool.give(chain);
                told(pipe, is_told)
            }
            Joined::Fault(_) => Came::Fault,
        }
    }
}

// What a message that came whole gives.
fn told(pipe: u8, is_told: bool) -> Came
    ensures { result ≡ (if is_told then Came.Told pipe else Came.Nothing) }
{
    if is_told {
        Came::Told(pipe)
    } else {
        Came::Nothing
    }
}
