//! A node that has one end of a link and its messages in a pool of its own, for worked examples.
ghost use Rattle.std.specs.Prelude.{◌≡◌, ◌≤◌};
ghost use Rattle.link_laws.specs.machine.Machine.{LinkEnd as Machine};
ghost use Rattle.link_end.specs.Ends.{EndStandsFor, Accounts, Rests, controls_in};

use block_pool::Pool;
use byte_link::write_unit;
use link_end::{LinkEnd, LinkReport, ResetRefused, SendRefused};
use shdlc_core::LinkState;
use std::alloc::Global;
use std::marker::Model;
use std::process::Abort;
use swp_base::{Lpdu, Role};
use swp_frame::write_frame;
use swp_line::{Period, byte_of};

/// A message that came: its pipe, its length, and its first two bytes.
#[derive(Clone, Copy, Debug, PartialEq, Eq)]
pub struct Message {
    pub pipe: u8,
    pub len: u32,
    pub front: [u8; 2],
}

/// What an input did, and the message that came with it.
#[derive(Clone, Copy)]
pub struct Told {
    pub report: LinkReport,
    pub message: Option<Message>,
}

/// Nothing of all that a report tells.
pub const NOTHING: LinkReport = LinkReport {
    ended: None,
    began: false,
    acked: 0,
    got: false,
    became_active: false,
    sync: None,
    gave_up: None,
    refused: None,
};

/// In which form a frame comes to an end.
#[derive(Clone, Copy)]
pub enum Form {
    Lpdus,
    Periods,
    Bytes,
}

/// A node with one end, which is at rest between two calls.
#[derive(Drop)]
pub struct Node {
    end: LinkEnd,
    pool: Pool,
}

impl Model for Node {
    ghost use Rattle.std.specs.Prelude.{ℕ, List};
    ghost use Rattle.swp_frame.specs.Signal.{Symbol};
    ghost use Rattle.swp_frame.specs.Kept.{DeframerStandsFor};
    ghost use Rattle.byte_link.specs.Kept.{ByteLinkStandsFor};
    ghost use Rattle.link_end.specs.Ends.{Rests};

    ghost Value = { Unit {0} };

    ghost view = { λ n. tt };

    ghost invariant = { λ n. Rests n.end.link n.pool × ((seen : List Symbol) × DeframerStandsFor n.end.deframer seen)
        × ((bytes : List ℕ) × ByteLinkStandsFor n.end.byte_link bytes) };
}

impl Node {
    ghost use Rattle.std.specs.Prelude.{◌<◌, ◌≤◌, length, IfSome};

    /// A node whose end has this role.
    pub(crate) fn make(rt: &impl Abort, alloc: Global, role: Role) -> Node {
        let pool = Pool::make(alloc, &[128, 512]).expect(rt, "there is memory");
        let end = LinkEnd::make(alloc, role, 0, 1).expect(rt, "there is memory");
        Node { end, pool }
    }

    /// Takes a frame in one of the three forms.
    pub(crate) fn take(&mut self, rt: &impl Abort, form: Form, lpdu: &Lpdu) -> Told {
        let mut told = Told {
            report: NOTHING,
            message: None,
        };
        match form {
            Form::Lpdus => told = self.take_lpdu(rt, lpdu),
            Form::Periods => {
                for bit in write_frame(lpdu).bits.as_slice() {
                    let bits = Period::Bits { s1: *bit, s2: *bit };
                    told = self.take_period(rt, byte_of(&bits));
                }
            }
            Form::Bytes => {
                for byte in write_unit(lpdu).as_slice() {
                    told = self.take_byte(rt, *byte);
                }
            }
        }
        told
    }

    /// Takes an LPDU.
    pub(crate) fn take_lpdu(&mut self, rt: &impl Abort, lpdu: &Lpdu) -> Told {
        has_room(rt, &self.end);
        let report = self.end.take_lpdu(&mut self.pool, lpdu);
        let message = fetch(&mut self.end, &mut self.pool);
        Told { report, message }
    }

    /// Takes a period of a line record.
    pub(crate) fn take_period(&mut self, rt: &impl Abort, byte: u8) -> Told {
        has_room(rt, &self.end);
        let report = self.end.take_period(&mut self.pool, byte);
        let message = fetch(&mut self.end, &mut self.pool);
        Told { report, message }
    }

    /// Takes a byte of a byte link.
    pub(crate) fn take_byte(&mut self, rt: &impl Abort, byte: u8) -> Told {
        has_room(rt, &self.end);
        let report = self.end.take_byte(&mut self.pool, byte);
        let message = fetch(&mut self.end, &mut self.pool);
        Told { report, message }
    }

    /// Gives a message to send.
    pub(crate) fn send(&mut self, pipe: u8, message: &[u8]) -> Result<(), SendRefused>
        requires pipe { pipe < 112 }
        requires some { 0 < length message.now }
    {
        let sent = self.end.send(&mut self.pool, pipe, message);
        let _none = fetch(&mut self.end, &mut self.pool);
        sent
    }

    /// One tick of time.
    pub(crate) fn tick(&mut self, rt: &impl Abort) -> LinkReport {
        has_room(rt, &self.end);
        let report = self.end.tick(&mut self.pool);
        let _none = fetch(&mut self.end, &mut self.pool);
        report
    }

    /// Asks for a reset.
    pub(crate) fn reset(
        &mut self,
        rt: &impl Abort,
        window: Option<u8>,
    ) -> Result<LinkReport, ResetRefused>
        requires { IfSome window (λ w. (1 ≤ w) × (w ≤ 4)) }
    {
        has_room(rt, &self.end);
        let report = self.end.reset(&mut self.pool, window);
        let _none = fetch(&mut self.end, &mut self.pool);
        report
    }

    /// Begins activation, with a value that any role takes.
    pub(crate) fn activate(&mut self, rt: &impl Abort, value: u16) -> LinkReport
        requires { value ≤ 1 }
    {
        has_room(rt, &self.end);
        let report = self.end.activate(&mut self.pool, value);
        let _none = fetch(&mut self.end, &mut self.pool);
        report
    }

    /// Ends activation.
    pub(crate) fn deactivate(&mut self, rt: &impl Abort) -> LinkReport {
        has_room(rt, &self.end);
        let report = self.end.deactivate(&mut self.pool);
        let _none = fetch(&mut self.end, &mut self.pool);
        report
    }

    /// The next frame to be sent.
    pub(crate) fn next_out(&mut self) -> Option<Lpdu> {
        let frame = self.end.next_out(&self.pool);
        let _none = fetch(&mut self.end, &mut self.pool);
        frame
    }

    /// The state of the link.
    pub(crate) fn state(&self) -> LinkState {
        self.end.state()
    }
}

/// At most six control frames wait to be fetched.
pub(crate) fn has_room(rt: &impl Abort, end: &LinkEnd)
    ensures { controls_in end.now.link ≤ 6 }
{
    if end.controls_due() > 6 {
        panic!(rt; "more than six control frames wait");
    }
}

/// Fetches the message that came, where one did, and gives its blocks back.
fn fetch(end: &mut LinkEnd, pool: &mut Pool) -> Option<Message>
    requires stands { (m : Machine) × EndStandsFor end.old.link pool.old m }
    requires accounts { Accounts end.old.link pool.old None }
    ensures rests { Rests end.new.link pool.new }
    ensures inputs { (end.new.deframer ≡ end.old.deframer) × (end.new.byte_link ≡ end.old.byte_link) }
{
    match end.next_message() {
        Some((pipe, chain)) => {
            let len = pool.len(&chain);
            let mut front = [0; 2];
            let _count = pool.copy_out(&chain, 0, &mut front);
            pool.give(chain);
            Some(Message { pipe, len, front })
        }
        None => None,
    }
}
