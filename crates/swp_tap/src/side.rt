//! What is kept of one side.
use crate::body::Body;
use crate::under_way::{Came, UnderWay};
use arrayvec::ArrayVec;
use hcp_packet::{Packet, read_packet};
use std::alloc::{AllocError, Global};
use std::marker::Model;
use swp_base::Info;

/// What is kept of one side: numbers, the fragments that the other side hasn't acknowledged, and the messages under way to it.
#[derive(Drop)]
pub struct Side {
    number: u32,
    asked: u32,
    listed: u32,
    sent: u8,
    waiting: ArrayVec<Info, 4>,
    count: u8,
    joins: bool,
    under_way: UnderWay,
}

impl Model for Side {
    ghost use Rattle.std.specs.Prelude.{◌<◌};
    ghost use Rattle.tap_reading.specs.keeping.Keeping.{KeptSide};

    ghost Value = { KeptSide };

    ghost view = { λ s. record {
      number = s.number;
      asked = s.asked;
      listed = s.listed;
      sent = s.sent;
      waiting = s.waiting.items;
      count = s.count;
      joins = s.joins;
      under_way = s.under_way;
    } };

    ghost invariant = { λ s. (s.sent < 8) × (s.count < 8) };
}

impl Side {
    ghost use Rattle.std.specs.Prelude.{◌≡◌, ◌==◌, ◌+◌, ◌%◌, ◌<◌, ◌≤◌, ◌∷◌, drop, length, nat_lt, IfOk, IfNone, Some};
    ghost use Rattle.swp_base.specs.DataUnits.{IsInfo};
    ghost use Rattle.hcp_packet.specs.Packets.{packet_of};
    ghost use Rattle.tap_reading.specs.keeping.Keeping.{new_kept_side, kept_renumbered, kept_listed, kept_added, kept_tells_more, kept_joined, kept_news};
    ghost use Rattle.swp_tap.specs.Coming.{news_in};

    /// Nothing was heard of it yet.
    pub fn make(alloc: Global) -> Result<Side, AllocError>
        ensures { IfOk result (λ s. s ≡ new_kept_side) }
    {
        let under_way = UnderWay::make(alloc)?;
        Ok(Side {
            number: 0,
            asked: 0,
            listed: 0,
            sent: 0,
            waiting: ArrayVec::new(),
            count: 0,
            joins: true,
            under_way,
        })
    }

    /// Its number.
    pub fn number(&self) -> u32
        ensures { result ≡ self.now.number }
    {
        self.number
    }

    /// The number of its last RSET, and 0 where it sent none.
    pub fn asked(&self) -> u32
        ensures { result ≡ self.now.asked }
    {
        self.asked
    }

    /// It has this number from now on, where it is above its own.
    pub fn renumber(&mut self, number: u32)
        ensures { self.new ≡ kept_renumbered self.old number }
    {
        if self.number < number {
            self.number = number;
            self.count = 0;
            self.joins = true;
            self.under_way.clear();
        }
    }

    /// It sent the RSET with this number.
    pub fn asks(&mut self, number: u32)
        ensures { self.new ≡ record (kept_renumbered self.old number) { asked = number } }
    {
        self.renumber(number);
        self.asked = number;
    }

    /// It sends an I frame: its list is the one at its number.
    pub fn list(&mut self)
        ensures { self.new ≡ kept_listed self.old }
    {
        if self.listed != self.number {
            self.listed = self.number;
            self.sent = 0;
            self.waiting.clear();
        }
    }

    /// The fragment of that frame, of 1 to 29 bytes, waits where it is the next one, and fewer than four wait.
    pub fn add(&mut self, ns: u8, info: &[u8])
        requires { IsInfo info.now }
        ensures { self.new ≡ kept_added self.old ns info.now }
    {
        if ns == self.sent && self.waiting.len() < 4 {
            self.sent = (self.sent + 1) % 8;
            self.waiting.push(Info::new(info));
        }
    }

    /// Whether an N(R) of it acknowledges the first fragment of the other side that waits.
    pub fn tells_more(&self, other: &Side, nr: u8) -> bool
        ensures { result ≡ kept_tells_more self.now other.now nr }
    {
        nr == (self.count + 1) % 8 && other.listed == self.number && !other.waiting.is_empty()
    }

    /// The first fragment that waits. It waits no more.
    pub fn first(&mut self) -> Info
        requires { 0 < length self.old.waiting }
        ensures rest { self.new ≡ record self.old { waiting = drop 1 self.old.waiting } }
        ensures first { self.old.waiting ≡ result ∷ drop 1 self.old.waiting }
    {
        self.waiting.remove(0)
    }

    /// It has acknowledged this fragment. The pipe of the good message that the fragment completes comes, where all could be joined so far,
    /// and the body has its bytes. Else the body stays.
    pub fn acknowledge(&mut self, info: &Info, body: &mut Body) -> Option<u8>
        ensures kept { self.new ≡ record (kept_joined self.old (packet_of info.now)) { count = (self.old.count + 1) % 8 } }
        ensures news { news_in result body.new ≡ kept_news self.old (packet_of info.now) }
        ensures stays { IfNone result (body.new ≡ body.old) }
    {
        self.count = (self.count + 1) % 8;
        let Ok(packet) = read_packet(info.bytes()) else {
            return None;
        };
        self.join(&packet, body)
    }

    // It takes this packet.
    fn join(&mut self, packet: &Packet, body: &mut Body) -> Option<u8>
        ensures kept { self.new ≡ kept_joined self.old (Some packet.now) }
        ensures news { news_in result body.new ≡ kept_news self.old (Some packet.now) }
        ensures stays { IfNone result (body.new ≡ body.old) }
    {
        match self.under_way.take(packet, self.joins, body) {
            Came::Nothing => None,
            Came::Told(pipe) => Some(pipe),
            Came::Fault => {
                self.joins = false;
                None
            }
        }
    }
}
