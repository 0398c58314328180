//! The ends of all links of a node in one pool.
ghost use Rattle.std.specs.Prelude.{◌<◌, List};
ghost use Rattle.node_machine.specs.Parts.{Port};
ghost use Rattle.node_ends.specs.Ends.{KeptEnds, AreEnds};

use crate::inputs::LinkInput;
use crate::new_seats::add_seats;
use crate::places::place_of;
use crate::seat::{Seat, Waiting};
use block_pool::Pool;
use link_end::{LinkReport, ResetRefused, SendRefused};
use node_deeds::Unanswered;
use std::alloc::Global;
use std::marker::Model;
use swp_base::{Lpdu, NoMemory, Role};

/// The blocks of each end: for what it sends, and for what comes there. This project's own.
const QUOTAS: [u16; 14] = [
    128, 512, 128, 512, 128, 512, 128, 512, 128, 512, 128, 512, 128, 512,
];

/// The ends of all links of a node in one pool. They stand for the ports of some node.
#[derive(Drop)]
pub struct Ends {
    pub(crate) pool: Pool,
    pub(crate) seats: Vec<Seat>,
}

impl Model for Ends {
    ghost Value = { KeptEnds };

    ghost view = { λ e. record { pool = e.pool; seats = e.seats.items } };

    ghost invariant = { λ e. (ports : List Port) × AreEnds e.pool e.seats.items ports };
}

impl Ends {
    ghost use Rattle.node_ends.specs.Making.{AreAllDifferent, new_port};
    ghost use Rattle.std.specs.Prelude.{◌≡◌, ◌≤◌, ◌+◌, IfErr, IfOk, OnErr, OnOk, MatchResult, None, map, min, [], List, Some, IfSome, IsTrue, Ok, false};
    ghost use Rattle.std.specs.Prelude.{length, option_map, slice_get};
    ghost use Rattle.link_laws.specs.machine.Machine.{whole_acked, next_frame, report};
    ghost use Rattle.node_machine.specs.Node.{with_older, without_notice, reset_late, is_over_at, forgets, has_come};
    ghost use Rattle.node_ends.specs.Holding.{kept_number};
    ghost use Rattle.node_ends.specs.Desks.{IsYoung};
    ghost use Rattle.swp_lpdu.specs.Controls.{lpdu_of, control_of};
    ghost use Rattle.link_laws.specs.machine.Machine.LinkInput.{Tick};
    ghost use Rattle.link_end.specs.Reports.{report_told};
    ghost use Rattle.hcp_packet.specs.Packets.{IsSendable};
    ghost use Rattle.link_laws.specs.machine.Machine.Turn.{Give, Hold, SetAside, Release, FetchMessage};
    ghost use Rattle.node_deeds.specs.Shown.{notice_shown, row_noticed};
    ghost use Rattle.node_deeds.specs.Cores.{IsSoundRow};
    ghost use Rattle.node_machine.specs.Parts.{Port};
    ghost use Rattle.std.specs.Option.{option_map_or};
    ghost use Rattle.node_machine.specs.Controller.{has_link};
    ghost use Rattle.node_machine.specs.Carrying.{port_at, with_port, after_turn};
    ghost use Rattle.node_ends.specs.Ends.{EndsStandFor, FewAreDue, IsHeldWhileOneWaits, held_at, given_at, TellsLengthOf, at_place, late_told, has_sent};
    ghost use Rattle.node_ends.specs.Ends.{frame_at, HasNoneDue};
    ghost use Rattle.node_ends.specs.Inputs.{input_of_end, refusal_at, MayComeAt};

    /// New ends of the links with these hosts, at most seven, in a pool with 128 blocks of each end for what it sends, and 512 for what
    /// comes there.
    pub fn make(alloc: Global, role: Role, hosts: &[u8]) -> Result<Ends, NoMemory>
        requires few { length hosts.now ≤ 7 }
        requires different { AreAllDifferent hosts.now }
        ensures { IfOk result (λ e. EndsStandFor e (map (new_port role) hosts.now)) }
    {
        let pool = Pool::make(alloc, &QUOTAS[..2 * hosts.len()])?;
        let mut seats = Vec::with_capacity(alloc, hosts.len())?;
        add_seats(alloc, role, hosts, &mut seats)?;
        Ok(Ends { pool, seats })
    }

    /// A message, which isn't empty, is given to the end of the link with this host, to be sent on a pipe that isn't reserved.
    ///
    /// # Errors
    ///
    /// `NotUp` where there is no such end or it isn't up; `TooLong` where the message has more than 4,096 bytes, with 4,294,967,295 for any
    /// greater number; `Full` where its blocks exceed what is spare; tested in this order. Nothing changes then.
    pub fn send(&mut self, host: u8, pipe: u8, message: &[u8]) -> Result<(), SendRefused>
        requires sendable { IsSendable (pipe, message.now) }
        ensures stands { (ports : List Port) → EndsStandFor self.old ports
            → EndsStandFor self.new (with_port host (after_turn (Give (pipe, message.now))) ports) }
        ensures answer { (ports : List Port) → EndsStandFor self.old ports
            → result ≡ given_at (pipe, message.now) (port_at ports host) }
        ensures long { IfErr result (TellsLengthOf (length message.now)) }
        ensures unchanged { OnErr result (self.new ≡ self.old) }
    {
        let Some(i) = place_of(self.seats.as_slice(), host) else {
            return Err(SendRefused::NotUp);
        };
        let seat = &mut self.seats[i];
        seat.side.send(&mut self.pool, pipe, message)
    }

    /// A block is set aside at the end of the link with this host, where one is spare.
    pub fn set_aside(&mut self, host: u8)
        ensures { (ports : List Port) → EndsStandFor self.old ports → EndsStandFor self.new (with_port host (after_turn SetAside) ports) }
    {
        if let Some(i) = place_of(self.seats.as_slice(), host) {
            let seat = &mut self.seats[i];
            seat.set_aside(&mut self.pool, 2 * i as u8);
        }
    }

    /// One that was set aside there, where one was, is free again.
    pub fn release(&mut self, host: u8)
        ensures { (ports : List Port) → EndsStandFor self.old ports → EndsStandFor self.new (with_port host (after_turn Release) ports) }
    {
        if let Some(i) = place_of(self.seats.as_slice(), host) {
            let seat = &mut self.seats[i];
            seat.release(&mut self.pool, 2 * i as u8);
        }
    }

    /// What is known of the notice to this host; a pipe that it is asked for may be made.
    pub fn set_notice(&mut self, host: u8, notice: Option<Unanswered>)
        requires sound { IsSoundRow (row_noticed notice) }
        ensures { (ports : List Port) → EndsStandFor self.old ports
            → EndsStandFor self.new (with_port host (λ p. record p { desk = record p.desk { notice = option_map notice_shown notice } }) ports) }
    {
        if let Some(i) = place_of(self.seats.as_slice(), host) {
            let seat = &mut self.seats[i];
            seat.desk.notice = notice;
        }
    }

    /// The message that waits at the end of the link with this host has its turn: its blocks are given back.
    pub fn give_back(&mut self, host: u8)
        ensures { (ports : List Port) → EndsStandFor self.old ports → EndsStandFor self.new (with_port host (after_turn FetchMessage) ports) }
    {
        if let Some(i) = place_of(self.seats.as_slice(), host) {
            let seat = &mut self.seats[i];
            if let Some(Waiting { chain, pipe: _ }) = seat.waiting.take() {
                self.pool.give(chain);
            }
        }
    }

    /// That end is held, so that it takes no fragments, or let go. At most six control frames wait there to be sent.
    pub fn hold(&mut self, host: u8, held: bool)
        requires { (ports : List Port) × EndsStandFor self.old ports × FewAreDue (port_at ports host) }
        ensures { (ports : List Port) → EndsStandFor self.old ports → EndsStandFor self.new (with_port host (after_turn (Hold held)) ports) }
    {
        if let Some(i) = place_of(self.seats.as_slice(), host) {
            let seat = &mut self.seats[i];
            seat.side.hold(held);
        }
    }

    /// Whether the first message that waits there was noted as held.
    pub fn set_holds(&mut self, host: u8, holds: bool)
        ensures { (ports : List Port) → EndsStandFor self.old ports
            → EndsStandFor self.new (with_port host (λ p. record p { desk = record p.desk { holds = holds } }) ports) }
    {
        if let Some(i) = place_of(self.seats.as_slice(), host) {
            let seat = &mut self.seats[i];
            seat.desk.holds = holds;
        }
    }

    /// What comes to the end of the link with this host. While a message waits there it is held, and at most six control frames wait there to
    /// be sent. What is told of it is put into `told`, since a report is long to hand on: `None` where there is no such end.
    ///
    /// # Errors
    ///
    /// A reset is refused: `Inactive` where activation isn't done, and `Waiting` where the end waits already.
    #[inline(always)]
    pub fn comes(
        &mut self,
        host: u8,
        what: LinkInput<'_>,
        told: &mut Option<LinkReport>,
    ) -> Result<(), ResetRefused>
        requires stands { (ports : List Port) × EndsStandFor self.old ports × FewAreDue (port_at ports host) × IsHeldWhileOneWaits (port_at ports host)
            × MayComeAt what (port_at ports host) }
        ensures stands { (ports : List Port) → EndsStandFor self.old ports
            → EndsStandFor self.new (with_port host (λ p. has_come p (Some (input_of_end what.entry))) ports) }
        ensures refusal { (ports : List Port) → EndsStandFor self.old ports
            → MatchResult result (λ done. refusal_at what.entry (port_at ports host) ≡ None) (λ why. refusal_at what.entry (port_at ports host) ≡ Some why) }
        ensures told { OnOk result ((ports : List Port) → EndsStandFor self.old ports
            → told.new ≡ option_map (λ (p : Port). report_told (report p.side (input_of_end what.entry))) (port_at ports host)) }
    {
        let Some(i) = place_of(self.seats.as_slice(), host) else {
            *told = None;
            return Ok(());
        };
        let seat = &mut self.seats[i];
        seat.comes(&mut self.pool, what, told)
    }

    /// One tick at the end at this place. At most six control frames wait there to be sent. What is told of it is put into `told`: `None`
    /// behind the last end.
    #[inline(always)]
    pub fn tick(&mut self, i: usize, told: &mut Option<LinkReport>)
        requires { (ports : List Port) × EndsStandFor self.old ports × FewAreDue (slice_get ports i) }
        ensures stands { (ports : List Port) → EndsStandFor self.old ports → EndsStandFor self.new (at_place i (λ p. has_come p (Some Tick)) ports) }
        ensures answer { (ports : List Port) → EndsStandFor self.old ports
            → told.new ≡ option_map (λ (p : Port). report_told (report p.side Tick)) (slice_get ports i) }
    {
        if i >= self.seats.len() {
            *told = None;
            return;
        }
        let seat = &mut self.seats[i];
        seat.tick(&mut self.pool, told);
    }

    /// How many ends there are.
    pub fn count(&self) -> usize
        ensures { (ports : List Port) → EndsStandFor self.now ports → result ≡ length ports }
    {
        self.seats.len()
    }

    /// The host of the link whose end is at this place; `None` behind the last end.
    pub fn host(&self, i: usize) -> Option<u8>
        ensures { (ports : List Port) → EndsStandFor self.now ports → result ≡ option_map (λ (p : Port). p.desk.host) (slice_get ports i) }
    {
        if i >= self.seats.len() {
            return None;
        }
        let seat = &self.seats[i];
        Some(seat.desk.host)
    }

    /// The notice of the end at this place, which has fewer than 255 ticks, is a tick older.
    pub fn grow_older(&mut self, i: usize)
        requires { (ports : List Port) × EndsStandFor self.old ports × IsYoung (slice_get ports i) }
        ensures { (ports : List Port) → EndsStandFor self.old ports → EndsStandFor self.new (at_place i with_older ports) }
    {
        if i < self.seats.len() {
            let seat = &mut self.seats[i];
            seat.grow_older();
        }
    }

    /// Where the session of the end at this place has ended in this step, its notice is answered no more.
    pub fn drop_notice(&mut self, i: usize)
        ensures { (ports : List Port) → EndsStandFor self.old ports → EndsStandFor self.new (at_place i without_notice ports) }
    {
        if i < self.seats.len() {
            let seat = &mut self.seats[i];
            seat.drop_notice();
        }
    }

    /// A new step begins at all ends.
    pub fn begin_step(&mut self)
        ensures { (ports : List Port) → EndsStandFor self.old ports
            → EndsStandFor self.new (map (λ (p : Port). record p { late = false; ended = false; turns = [] }) ports) }
    {
        for i in 0..self.seats.len() {
            let seat = &mut self.seats[i];
            seat.late = false;
            seat.ended = false;
        }
    }

    /// Whether the session of the end of the link with this host has ended in this step.
    pub fn is_over(&self, host: u8) -> bool
        ensures { (ports : List Port) → EndsStandFor self.now ports → result ≡ is_over_at ports host }
    {
        let Some(i) = place_of(self.seats.as_slice(), host) else {
            return false;
        };
        let seat = &self.seats[i];
        seat.is_over()
    }

    /// How many messages of the session of the end of the link with this host are acknowledged; 4,294,967,295 stands for any greater
    /// number, and 0 where there is no such end.
    pub fn acked(&self, host: u8) -> u32
        ensures { (ports : List Port) → EndsStandFor self.now ports
            → result ≡ option_map_or (λ (p : Port). kept_number (whole_acked p.side)) (port_at ports host) 0 }
    {
        let Some(i) = place_of(self.seats.as_slice(), host) else {
            return 0;
        };
        let seat = &self.seats[i];
        seat.acked
    }

    /// A frame on its way to that end was refused: one more for REC_ERROR, which stops at FFFF.
    pub fn count_error(&mut self, host: u8)
        ensures { (ports : List Port) → EndsStandFor self.old ports
            → EndsStandFor self.new (with_port host (λ p. record p { desk = record p.desk { errors = min 65535 (p.desk.errors + 1) } }) ports) }
    {
        if let Some(i) = place_of(self.seats.as_slice(), host) {
            let seat = &mut self.seats[i];
            seat.desk.errors = seat.desk.errors.saturating_add(1);
        }
    }

    /// The link of the end at this place is reset, where its notice is late. At most six control frames wait there to be sent. What is
    /// told of it; `None` where it isn't late, where the reset is refused, and behind the last end.
    #[inline(always)]
    pub fn reset_late(&mut self, i: usize) -> Option<LinkReport>
        requires { (ports : List Port) × EndsStandFor self.old ports × FewAreDue (slice_get ports i) }
        ensures stands { (ports : List Port) → EndsStandFor self.old ports → EndsStandFor self.new (at_place i reset_late ports) }
        ensures answer { (ports : List Port) → EndsStandFor self.old ports → result ≡ late_told (slice_get ports i) }
    {
        if i >= self.seats.len() {
            return None;
        }
        let seat = &mut self.seats[i];
        seat.reset_late(&mut self.pool)
    }

    /// Fetches the frame that the end of the link with this host is to send now; `None` where it has none to send, and where there is no
    /// such end.
    #[inline(always)]
    pub fn next_out(&mut self, host: u8) -> Option<Lpdu>
        ensures stands { (ports : List Port) → EndsStandFor self.old ports → EndsStandFor self.new (with_port host has_sent ports) }
        ensures answer { (ports : List Port) → EndsStandFor self.old ports → result ≡ frame_at (port_at ports host) }
        ensures read { (ports : List Port) (p : Port) → EndsStandFor self.old ports → port_at ports host ≡ Some p
            → IfSome (next_frame p.side) (λ c. control_of (lpdu_of c) ≡ Ok c) }
    {
        let Some(i) = place_of(self.seats.as_slice(), host) else {
            return None;
        };
        let seat = &mut self.seats[i];
        seat.side.next_out(&self.pool)
    }

    /// Whether nothing is under way at the end at this place, so that no frame is due there. False says nothing.
    #[inline(always)]
    pub fn is_idle(&self, i: usize) -> bool
        ensures { (ports : List Port) (p : Port) → EndsStandFor self.now ports → slice_get ports i ≡ Some p → IsTrue result → HasNoneDue p.side }
    {
        if i >= self.seats.len() {
            return false;
        }
        let seat = &self.seats[i];
        seat.side.is_idle()
    }

    /// The notice at the end at this place is one of a creation that was forgotten, where the session of the creation's asker has ended in
    /// this step. Nothing changes behind the last end.
    pub fn forget(&mut self, i: usize)
        ensures { (ports : List Port) → EndsStandFor self.old ports → EndsStandFor self.new (at_place i (forgets ports) ports) }
    {
        if i >= self.seats.len() {
            return;
        }
        let seat = &self.seats[i];
        let Some(row) = seat.desk.awaited() else {
            return;
        };
        if self.is_over(row.creator) {
            let seat = &mut self.seats[i];
            seat.forget();
        }
    }

    /// Whether the link with this host is up.
    pub fn has_link(&self, host: u8) -> bool
        ensures { (ports : List Port) → EndsStandFor self.now ports → result ≡ has_link ports host }
    {
        let Some(i) = place_of(self.seats.as_slice(), host) else {
            return false;
        };
        let seat = &self.seats[i];
        seat.is_up()
    }

    /// Whether the end of the link with this host is held.
    pub fn is_held(&self, host: u8) -> bool
        ensures { (ports : List Port) → EndsStandFor self.now ports → result ≡ held_at ports host }
    {
        let Some(i) = place_of(self.seats.as_slice(), host) else {
            return false;
        };
        let seat = &self.seats[i];
        seat.side.is_held()
    }

    /// Whether the first message that waits at the end of the link with this host was noted as held.
    pub fn holds(&self, host: u8) -> bool
        ensures { (ports : List Port) → EndsStandFor self.now ports
            → result ≡ option_map_or (λ (p : Port). p.desk.holds) (port_at ports host) false }
    {
        let Some(i) = place_of(self.seats.as_slice(), host) else {
            return false;
        };
        let seat = &self.seats[i];
        seat.desk.holds
    }
}
