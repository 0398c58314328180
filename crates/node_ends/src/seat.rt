//! One end of a link of a node, and what the node keeps of it.
ghost use Rattle.std.specs.Prelude.{◌≡◌};
ghost use Rattle.node_ends.specs.Holding.{where_done};

use crate::inputs::LinkInput;
use block_pool::{Chain, Pool};
use link_end::{End, LinkReport, ResetRefused};
use node_deeds::{About, Desk, Unanswered};
use shdlc_core::LinkState;

/// A message that came to an end and had no turn yet.
#[derive(Drop)]
pub(crate) struct Waiting {
    pub(crate) pipe: u8,
    pub(crate) chain: Chain,
}

/// One end of a link of a node, and what the node keeps of it.
#[derive(Drop)]
pub struct Seat {
    pub(crate) side: End,
    pub(crate) waiting: Option<Waiting>,
    pub(crate) desk: Desk,
    /// Its session ended in this step, as the hundredth tick of a notice came or otherwise.
    pub(crate) late: bool,
    pub(crate) ended: bool,
    /// How many messages of the session are acknowledged; 4,294,967,295 stands for any greater number.
    pub(crate) acked: u32,
    /// How many blocks for what goes out are set aside, at most 128.
    pub(crate) aside: u8,
}

impl Seat {
    ghost use Rattle.std.specs.Prelude.{◌≡◌, ◌||◌, ◌&&◌, ◌≤◌, ◌<◌, ◌==◌, not, true, false, None, is_some, length, IfSome};
    ghost use Rattle.std.specs.Prelude.{Some, Ok, MatchResult, OnOk};
    ghost use Rattle.block_pool.specs.Pool.{PoolState};
    ghost use Rattle.link_laws.specs.machine.Machine.{LinkEnd as Machine, is_held, after_input, report};
    ghost use Rattle.link_end.specs.Reports.{report_told, reset_told};
    ghost use Rattle.link_laws.specs.sessions.Sessions.{is_up};
    ghost use Rattle.link_laws.specs.machine.Machine.Turn.{SetAside, Release};
    ghost use Rattle.link_laws.specs.machine.Machine.LinkInput.{Tick, Reset, Start, Stop};
    ghost use Rattle.link_end.specs.Ends.{controls_in};
    ghost use Rattle.node_ends.specs.Desks.{grown_older, kept_notice, has_hundred_ticks, as_forgotten};
    ghost use Rattle.node_machine.specs.Parts.{Port};
    ghost use Rattle.node_machine.specs.Carrying.{after_turn};
    ghost use Rattle.node_machine.specs.Node.{has_come, reset_late};
    ghost use Rattle.node_ends.specs.Ends.{SeatStandsFor, SeatBecomes, FewAreDue, IsHeldWhileOneWaits, late_told};
    ghost use Rattle.node_ends.specs.Inputs.{input_of_end, refusal_at, MayComeAt};
    ghost use Rattle.node_ends.specs.Holding.{HoldsSeat, Moves, acked_since, acked_by_reset, where_done};

    /// A block of the end's owner for what goes out, which has this number, is set aside, where one is spare.
    pub(crate) fn set_aside(&mut self, pool: &mut Pool, owner: u8)
        requires stands { (m : Machine) × HoldsSeat pool.old self.old m × (self.old.aside ≡ m.aside) }
        requires owner { self.old.side.outbox.owner ≡ owner }
        ensures { SeatBecomes pool.old pool.new self.old self.new (after_turn SetAside) }
    {
        match pool.set_aside(owner) {
            Ok(()) => self.aside += 1,
            Err(_full) => {}
        }
    }

    /// One that was set aside, where one was, is free again.
    pub(crate) fn release(&mut self, pool: &mut Pool, owner: u8)
        requires stands { (m : Machine) × HoldsSeat pool.old self.old m × (self.old.aside ≡ m.aside) }
        requires owner { self.old.side.outbox.owner ≡ owner }
        ensures { SeatBecomes pool.old pool.new self.old self.new (after_turn Release) }
    {
        if self.aside == 0 {
            return;
        }
        pool.release(owner);
        self.aside -= 1;
    }

    /// What comes to the end, and what it did to the session is kept. While a message waits here the end is held, and at most six control
    /// frames wait to be sent. What is told of it is put into `told`, since a report is long to hand on.
    ///
    /// # Errors
    ///
    /// A reset is refused: `Inactive` where activation isn't done, and `Waiting` where the end waits already.
    #[inline(always)]
    pub(crate) fn comes(
        &mut self,
        pool: &mut Pool,
        what: LinkInput<'_>,
        told: &mut Option<LinkReport>,
    ) -> Result<(), ResetRefused>
        requires may { (p : Port) × SeatStandsFor pool.old self.old p × FewAreDue (Some p) × IsHeldWhileOneWaits (Some p) × MayComeAt what (Some p) }
        ensures becomes { SeatBecomes pool.old pool.new self.old self.new (λ p. has_come p (Some (input_of_end what.entry))) }
        ensures refusal { (p : Port) → SeatStandsFor pool.old self.old p
            → MatchResult result (λ done. refusal_at what.entry (Some p) ≡ None) (λ why. refusal_at what.entry (Some p) ≡ Some why) }
        ensures told { OnOk result ((p : Port) → SeatStandsFor pool.old self.old p
            → told.new ≡ Some (report_told (report p.side (input_of_end what.entry)))) }
    {
        match what {
            LinkInput::Frame(read) => {
                let report = self.side.take_read(pool, read);
                // The message that it brings waits. While one waits the end is held, so that none comes.
                if report.got {
                    self.waiting = match self.side.next_message() {
                        Some((pipe, chain)) => Some(Waiting { pipe, chain }),
                        None => None,
                    };
                }
                let report = told.insert(report);
                self.count(report);
            }
            LinkInput::Reset(window) => match self.side.reset(pool, window) {
                Ok(report) => {
                    let report = told.insert(report);
                    self.count(report);
                }
                Err(why) => {
                    self.ended = false;
                    return Err(why);
                }
            },
            LinkInput::Start(value) => {
                let report = told.insert(self.side.activate(pool, value));
                self.count(report);
            }
            LinkInput::Stop => {
                let report = told.insert(self.side.deactivate(pool));
                self.count(report);
            }
        }
        Ok(())
    }

    /// One tick of time, and what it did to the session is kept. At most six control frames wait to be sent. What is told of it is put into
    /// `told`.
    #[inline(always)]
    pub(crate) fn tick(&mut self, pool: &mut Pool, told: &mut Option<LinkReport>)
        requires may { (p : Port) × SeatStandsFor pool.old self.old p × FewAreDue (Some p) }
        ensures becomes { SeatBecomes pool.old pool.new self.old self.new (λ p. has_come p (Some Tick)) }
        ensures told { (p : Port) → SeatStandsFor pool.old self.old p → told.new ≡ Some (report_told (report p.side Tick)) }
    {
        if self.side.is_idle() {
            self.ended = false;
            *told = Some(LinkReport::nothing());
            return;
        }
        let report = told.insert(self.side.tick(pool));
        self.count(report);
    }

    /// What an input did to the session is kept.
    pub(crate) fn count(&mut self, report: &LinkReport)
        ensures { self.new ≡ record self.old { ended = is_some report.now.ended; acked = acked_since self.old.acked report.now } }
    {
        self.ended = report.ended.is_some();
        if self.ended {
            self.acked = 0;
        }
        self.acked = self.acked.saturating_add(u32::from(report.acked));
    }

    /// The notice that isn't answered is a tick older.
    pub(crate) fn grow_older(&mut self)
        requires { IfSome self.old.desk.notice (λ n. n.age < 255) }
        ensures { self.new ≡ record self.old { desk = record self.old.desk { notice = grown_older self.old.desk.notice } } }
    {
        if let Some(Unanswered { about, age }) = self.desk.notice {
            self.desk.notice = Some(Unanswered {
                about,
                age: age + 1,
            });
        }
    }

    /// Its session has ended in this step.
    pub(crate) fn is_over(&self) -> bool
        ensures { result ≡ self.now.ended || self.now.late }
    {
        self.ended || self.late
    }

    /// With its session the notice is answered no more.
    pub(crate) fn drop_notice(&mut self)
        ensures { self.new ≡ record self.old { desk = record self.old.desk { notice = kept_notice (self.old.ended || self.old.late) self.old.desk.notice } } }
    {
        if self.is_over() {
            self.desk.notice = None;
        }
    }

    // The hundredth tick of the notice comes, and the session hasn't ended.
    fn is_late(&self) -> bool
        ensures { result ≡ (has_hundred_ticks self.now.desk.notice && not self.now.ended) }
    {
        match self.desk.notice {
            Some(Unanswered { about: _, age }) => age >= 100 && !self.ended,
            None => false,
        }
    }

    /// The link is reset, where its notice is late. At most six control frames wait to be sent. What is told of it; `None` where it isn't
    /// late, and where the reset is refused.
    #[inline(always)]
    pub(crate) fn reset_late(&mut self, pool: &mut Pool) -> Option<LinkReport>
        requires may { (p : Port) × SeatStandsFor pool.old self.old p × FewAreDue (Some p) }
        ensures becomes { SeatBecomes pool.old pool.new self.old self.new reset_late }
        ensures answer { (p : Port) → SeatStandsFor pool.old self.old p → result ≡ late_told (Some p) }
    {
        if !self.is_late() {
            return None;
        }
        self.reset_unanswered(pool)
    }

    // The link is reset, since its notice is late. At most six control frames wait to be sent. What is told of it; `None` where it is
    // refused.
    #[cold]
    #[inline(never)]
    fn reset_unanswered(&mut self, pool: &mut Pool) -> Option<LinkReport>
        requires stands { (m : Machine) × HoldsSeat pool.old self.old m }
        requires room { controls_in self.old.side ≤ 6 }
        ensures stands { (m : Machine) → HoldsSeat pool.old self.old m → HoldsSeat pool.new self.new (after_input m (Reset None)) }
        ensures answer { (m : Machine) → HoldsSeat pool.old self.old m → result ≡ where_done (reset_told m None) }
        ensures acked { (m : Machine) → HoldsSeat pool.old self.old m → self.new.acked ≡ acked_by_reset self.old.acked (reset_told m None) }
        ensures moves { Moves pool.old pool.new self.old.side self.new.side }
        ensures rest { self.new ≡ record self.old { side = self.new.side; late = true; acked = self.new.acked } }
    {
        self.late = true;
        match self.side.reset(pool, None) {
            Ok(report) => {
                let ended = self.ended;
                self.count(&report);
                self.ended = ended;
                Some(report)
            }
            Err(_why) => None,
        }
    }

    /// The notice is one of a creation that was forgotten.
    pub(crate) fn forget(&mut self)
        ensures { self.new ≡ record self.old { desk = record self.old.desk { notice = as_forgotten self.old.desk.notice } } }
    {
        if let Some(Unanswered { about: _, age }) = self.desk.notice {
            self.desk.notice = Some(Unanswered {
                about: About::Forgotten,
                age,
            });
        }
    }

    /// Whether nothing is left to do at the end: no message waits there, and it isn't held.
    pub(crate) fn rests(&self) -> bool
        ensures { (pool : PoolState) (m : Machine) → HoldsSeat pool self.now m → result ≡ ((length m.got == 0) && not (is_held m)) }
    {
        self.waiting.is_none() && !self.side.is_held()
    }

    /// Whether nothing is left to do at the end behind what came in a step: its session hasn't ended, and it rests.
    pub(crate) fn is_idle(&self) -> bool
        ensures { (pool : PoolState) (m : Machine) → HoldsSeat pool self.now m
            → result ≡ (not (self.now.ended || self.now.late) && ((length m.got == 0) && not (is_held m))) }
    {
        !self.is_over() && self.rests()
    }

    /// Whether the link is up.
    pub(crate) fn is_up(&self) -> bool
        ensures { (pool : PoolState) (m : Machine) → HoldsSeat pool self.now m → result ≡ is_up m.shdlc.phase }
    {
        match self.side.state() {
            LinkState::Up => true,
            LinkState::Waiting => false,
            LinkState::Down => false,
        }
    }
}
