//! One end of a link.
ghost use Rattle.std.specs.Prelude.{◌≡◌, ◌≢◌, ◌⊎◌, ◌+◌, ◌<◌, ◌≤◌, ◌↔◌, [], length, IsTrue, OnSome, option_map, min, ℕ, ◌++◌, ◌∷◌, OnErr, IfNone, IfSome};
ghost use Rattle.std.specs.Prelude.{MatchResult, None, false, true};
ghost use Rattle.std.specs.Bool.{OnFalse};
ghost use Rattle.shdlc_core.specs.Kept.{ShdlcStandsFor, frames_left, IsFragmentDue, frame_shown};
ghost use Rattle.shdlc_core.specs.Machine.{EndState, new_end, begun, up_with, offered, offer_refusal, frame_due, fetched, acknowledged, received};
ghost use Rattle.shdlc_core.specs.Machine.{fragment_accepted, place_of, due_left, taken, take_answer, ticked, tick_answer, sent_again};
ghost use Rattle.shdlc_core.specs.Machine.{asked_again, waiting_from, no_session, reset_with, stopped, with_ready, nothing_ticked, all_frames, all_fetched};

use crate::answers::{Due, FragmentDue, LinkState, OfferRefused, Taken, Ticked};
use crate::receiver::Receiver;
use crate::sender::Sender;
use arrayvec::ArrayVec;
use std::marker::Model;
use swp_base::{Cause, Control, Info, Kind};

/// One end of an SHDLC link (ETSI TS 102 613, section 10).
#[derive(Drop)]
pub struct Shdlc {
    phase: LinkState,
    own_window: u8,
    ready: bool,
    due: ArrayVec<Due, 8>,
    timer: u8,
    tries: u8,
    peer_window: u8,
    sender: Sender,
    receiver: Receiver,
}

impl Model for Shdlc {
    ghost use Rattle.std.specs.Prelude.{◌<◌, ◌≤◌};
    ghost use Rattle.shdlc_core.specs.Kept.{KeptEnd};

    ghost Value = { KeptEnd };

    ghost view = { λ a. record {
      phase = a.phase;
      own_window = a.own_window;
      ready = a.ready;
      due = a.due.items;
      timer = a.timer;
      tries = a.tries;
      peer_window = a.peer_window;
      sender = a.sender;
      receiver = a.receiver;
    } };

    ghost invariant = { λ a. (a.timer < 10) × (a.tries ≤ 5) };
}

impl Shdlc {
    /// The most fragments that are offered and not acknowledged.
    pub const QUEUE_LEN: u8 = 4;

    // The ticks of T2 and those between two RSETs, and how often each is tried.
    const TICKS: u8 = 10;

    const TRIES: u8 = 5;

    /// An end that is Down and ready, and asks for this window, which is 1 to 4.
    pub fn new(window: u8) -> Self
        requires low { 1 ≤ window }
        requires high { window ≤ 4 }
        ensures { ShdlcStandsFor result (new_end window) }
    {
        Self {
            phase: LinkState::Down,
            own_window: window,
            ready: true,
            due: ArrayVec::new(),
            timer: 0,
            tries: 0,
            peer_window: 4,
            sender: Sender::new(0),
            receiver: Receiver::new(),
        }
    }

    /// The end is Up in a given session, with its own window: both ends of a bare link begin so.
    pub fn begin(&mut self)
        ensures { (e : EndState) → ShdlcStandsFor self.old e → ShdlcStandsFor self.new (begun e) }
    {
        let window = self.own_window;
        self.due.clear();
        self.start(window);
    }

    // A session begins with this window.
    fn start(&mut self, window: u8)
        ensures stands { (e : EndState) → ShdlcStandsFor self.old e → ShdlcStandsFor self.new (up_with e window) }
        ensures due { self.new.due ≡ self.old.due }
    {
        self.phase = LinkState::Up;
        self.timer = 0;
        self.tries = 0;
        self.sender.restart(window);
        self.receiver = Receiver::new();
    }

    /// The state of the end.
    pub fn state(&self) -> LinkState
        ensures value { result ≡ self.now.phase }
        ensures stands { (e : EndState) → ShdlcStandsFor self.now e → result ≡ e.phase }
    {
        self.phase
    }

    /// Whether the end takes fragments.
    pub fn is_ready(&self) -> bool
        ensures { (e : EndState) → ShdlcStandsFor self.now e → result ≡ e.ready }
    {
        self.ready
    }

    /// How many control frames were made and not yet fetched: 0 to 8. `next_out` gives these before any fragment.
    pub fn controls_due(&self) -> u8
        ensures value { result ≡ length self.now.due }
        ensures stands { (e : EndState) → ShdlcStandsFor self.now e → result ≡ length e.due }
    {
        self.due.len() as u8
    }

    /// Whether the end takes a fragment for sending: it is Up, and fewer than four that were offered aren't acknowledged.
    pub fn takes_fragment(&self) -> bool
        ensures value { IsTrue result ↔ ((self.now.phase ≡ LinkState.Up) × (length self.now.sender.queue < 4)) }
        ensures full { OnFalse result ((self.now.phase ≢ LinkState.Up) ⊎ (length self.now.sender.queue ≡ 4)) }
    {
        self.phase == LinkState::Up && !self.sender.is_full()
    }

    /// Whether nothing is under way: the end is Up, no control frame waits to be fetched, and all fragments that were offered are
    /// acknowledged. A tick changes nothing then and tells nothing, and no frame is to be sent.
    #[inline(always)]
    pub fn is_idle(&self) -> bool
        ensures value { IsTrue result ↔ ((self.now.phase ≡ LinkState.Up) × (self.now.due ≡ []) × (self.now.sender.queue ≡ [])) }
        ensures tick { (e : EndState) → ShdlcStandsFor self.now e → IsTrue result → (ticked e ≡ e) × (tick_answer e ≡ nothing_ticked) }
        ensures frames { (e : EndState) → ShdlcStandsFor self.now e → IsTrue result → (all_frames e ≡ []) × (all_fetched e ≡ e) }
    {
        match self.phase {
            LinkState::Up => self.has_sent_all(),
            LinkState::Down | LinkState::Waiting => false,
        }
    }

    // Whether no control frame waits to be fetched, and all fragments that were offered are acknowledged.
    #[inline(always)]
    fn has_sent_all(&self) -> bool
        ensures value { IsTrue result ↔ ((self.now.due ≡ []) × (self.now.sender.queue ≡ [])) }
        ensures sent { IsTrue result → self.now.sender.sent ≡ 0 }
    {
        self.due.is_empty() && self.sender.is_empty()
    }

    /// Takes a fragment for sending.
    ///
    /// # Errors
    ///
    /// `NotUp` where the end isn't Up, and `QueueFull` where four fragments that were offered aren't acknowledged yet. Nothing
    /// changes then.
    pub fn offer(&mut self, info: &Info) -> Result<(), OfferRefused>
        ensures stands { (e : EndState) → ShdlcStandsFor self.old e → ShdlcStandsFor self.new (offered e info.now) }
        ensures answer { (e : EndState) → ShdlcStandsFor self.old e →
            MatchResult result (λ _. offer_refusal e ≡ None) (λ why. offer_refusal e ≡ Some why) }
        ensures not_up { (result ≡ Err OfferRefused.NotUp) ↔ (self.old.phase ≢ LinkState.Up) }
        ensures queue_full { (result ≡ Err (OfferRefused.QueueFull 4))
            ↔ ((self.old.phase ≡ LinkState.Up) × (length self.old.sender.queue ≡ 4)) }
        ensures refused { OnErr result (self.new ≡ self.old) }
        ensures due { self.new.due ≡ self.old.due }
    {
        self.offer_owned(info.copied())
    }

    /// Takes a fragment for sending, as `offer` does, without a copy of it.
    ///
    /// # Errors
    ///
    /// As `offer`.
    pub fn offer_owned(&mut self, info: Info) -> Result<(), OfferRefused>
        ensures stands { (e : EndState) → ShdlcStandsFor self.old e → ShdlcStandsFor self.new (offered e info) }
        ensures answer { (e : EndState) → ShdlcStandsFor self.old e →
            MatchResult result (λ _. offer_refusal e ≡ None) (λ why. offer_refusal e ≡ Some why) }
        ensures not_up { (result ≡ Err OfferRefused.NotUp) ↔ (self.old.phase ≢ LinkState.Up) }
        ensures queue_full { (result ≡ Err (OfferRefused.QueueFull 4))
            ↔ ((self.old.phase ≡ LinkState.Up) × (length self.old.sender.queue ≡ 4)) }
        ensures refused { OnErr result (self.new ≡ self.old) }
        ensures due { self.new.due ≡ self.old.due }
    {
        if self.phase != LinkState::Up {
            return Err(OfferRefused::NotUp);
        }
        if self.sender.is_full() {
            return Err(OfferRefused::QueueFull {
                len: Self::QUEUE_LEN,
            });
        }
        self.sender.push(info);
        Ok(())
    }

    /// Whether no control frame waits to be fetched, and all fragments that were offered were sent: no frame is to be sent then. False says
    /// nothing.
    #[inline(always)]
    pub fn has_none_due(&self) -> bool
        ensures { (e : EndState) → ShdlcStandsFor self.now e → IsTrue result → (frame_due e ≡ None) × (fetched e ≡ e) }
    {
        self.due.is_empty() && self.sender.has_none_due()
    }

    /// Fetches the frame that is to be sent now: first the control frames in the order in which they were made, then the
    /// fragments. None where nothing is to be sent.
    pub fn next_out(&mut self) -> Option<Control>
        ensures frame { (e : EndState) → ShdlcStandsFor self.old e → result ≡ frame_due e }
        ensures stands { (e : EndState) → ShdlcStandsFor self.old e → ShdlcStandsFor self.new (fetched e) }
        ensures fewer { OnSome result (frames_left self.new < frames_left self.old) }
        ensures none { IfNone result (self.new ≡ self.old) }
        ensures drained { IfNone result (self.new.due ≡ []) }
        ensures shorter { length self.new.due ≤ length self.old.due }
    {
        let Some(due) = self.due.pop_at(0) else {
            let FragmentDue { ns, nr, info } = self.fragment_due()?;
            let info = info.copied();
            self.count_fragment();
            return Some(Control::I { ns, nr, info });
        };
        let nr = self.receiver.expected();
        Some(match due {
            Due::Rr => Control::S { kind: Kind::Rr, nr },
            Due::Rej => Control::S {
                kind: Kind::Rej,
                nr,
            },
            Due::Rnr => Control::S {
                kind: Kind::Rnr,
                nr,
            },
            Due::Rset => Control::Rset {
                window: self.own_window,
                caps: 0,
            },
            Due::Ua => Control::Ua,
        })
    }

    /// The fragment that is to be sent next, with the numbers of its I frame, where no control frame waits to be fetched before it.
    /// `count_fragment` counts it as sent: both together are what `next_out` does then, without a copy of the fragment. None where a control
    /// frame waits, or where no fragment is to be sent.
    pub fn fragment_due(&self) -> Option<FragmentDue<'_>>
        ensures frame { (e : EndState) → ShdlcStandsFor self.now e → self.now.due ≡ [] → option_map frame_shown result ≡ frame_due e }
        ensures waits { (self.now.due ≢ []) → result ≡ None }
        ensures due { OnSome result (IsFragmentDue self.now) }
    {
        if !self.due.is_empty() {
            return None;
        }
        self.sender.fragment_due(self.receiver.expected())
    }

    /// The fragment that is to be sent next counts as sent. No control frame waits to be fetched.
    pub fn count_fragment(&mut self)
        requires { IsFragmentDue self.old }
        ensures stands { (e : EndState) → ShdlcStandsFor self.old e → ShdlcStandsFor self.new (fetched e) }
        ensures fewer { frames_left self.new < frames_left self.old }
        ensures due { self.new.due ≡ self.old.due }
    {
        self.sender.count_next();
    }

    /// Takes a frame from the other end. At most seven control frames wait to be fetched before.
    pub fn take(&mut self, control: &Control) -> Taken
        requires { length self.old.due < 8 }
        ensures stands { (e : EndState) → ShdlcStandsFor self.old e → ShdlcStandsFor self.new (taken e control.now) }
        ensures answer { (e : EndState) → ShdlcStandsFor self.old e → result ≡ take_answer e control.now }
        ensures added { length self.new.due ≤ length self.old.due + 1 }
    {
        match control {
            Control::I { ns, nr, info } => {
                let Some(count) = self.acknowledge(*nr) else {
                    return Taken::nothing();
                };
                let accepted = self.receive(*ns, info);
                Taken {
                    acked: count,
                    accepted,
                    ..Taken::nothing()
                }
            }
            Control::S { kind, nr } => self.take_supervisory(*kind, *nr),
            Control::Rset { window, .. } => self.take_reset(*window),
            Control::Ua => self.take_acceptance(),
            Control::Act { .. } | Control::Clt => Taken::nothing(),
        }
    }

    // How many fragments a number newly acknowledges. Where there are any, T2 starts again and the tries are 0. None where it isn't
    // valid, and where the end isn't Up; nothing changes then.
    #[inline(always)]
    fn acknowledge(&mut self, nr: u8) -> Option<u8>
        ensures up { (e : EndState) → ShdlcStandsFor self.old e → e.phase ≡ LinkState.Up →
            option_map (λ n. e.session.acked + n) result ≡ place_of e.session nr }
        ensures other { OnSome result (self.old.phase ≡ LinkState.Up) }
        ensures stands { (e : EndState) → ShdlcStandsFor self.old e →
            IfSome result (λ n. ShdlcStandsFor self.new (acknowledged e (e.session.acked + n))) }
        ensures none { IfNone result (self.new ≡ self.old) }
        ensures due { self.new.due ≡ self.old.due }
    {
        let count = match self.phase {
            LinkState::Up => self.sender.acknowledge(nr)?,
            LinkState::Down | LinkState::Waiting => return None,
        };
        if count > 0 {
            self.timer = 0;
            self.tries = 0;
        }
        Some(count)
    }

    // What the end does with the fragment of an I frame, and the fragment where it accepts it.
    fn receive(&mut self, ns: u8, info: &Info) -> Option<Info>
        requires { length self.old.due < 8 }
        ensures stands { (e : EndState) → ShdlcStandsFor self.old e → ShdlcStandsFor self.new (received e ns info.now) }
        ensures accepted { (e : EndState) → ShdlcStandsFor self.old e → result ≡ fragment_accepted e ns info.now }
        ensures added { length self.new.due ≤ length self.old.due + 1 }
    {
        if !self.ready {
            self.due.push(Due::Rnr);
            self.receiver.set_answered_rnr(true);
            return None;
        }
        match self.receiver.ahead(ns) {
            0 => {
                self.due.push(Due::Rr);
                self.receiver.accept();
                Some(info.copied())
            }
            // A gap is answered by REJ, once while it is open.
            1..4 => {
                if !self.receiver.gap_is_open() {
                    self.due.push(Due::Rej);
                    self.receiver.open_gap();
                }
                None
            }
            _ => {
                self.due.push(Due::Rr);
                None
            }
        }
    }

    // Takes an S frame.
    fn take_supervisory(&mut self, kind: Kind, nr: u8) -> Taken
        ensures stands { (e : EndState) → ShdlcStandsFor self.old e → ShdlcStandsFor self.new (taken e (Control.S kind nr)) }
        ensures answer { (e : EndState) → ShdlcStandsFor self.old e → result ≡ take_answer e (Control.S kind nr) }
        ensures due { self.new.due ≡ self.old.due }
    {
        if kind == Kind::Srej {
            return Taken::nothing();
        }
        let Some(count) = self.acknowledge(nr) else {
            return Taken::nothing();
        };
        match kind {
            // Where T2 doesn't run it stands at 0.
            Kind::Rr => {
                if !self.sender.end_busy() {
                    self.timer = 0;
                }
            }
            Kind::Rej => self.send_again(),
            Kind::Rnr => self.hold_back(),
            Kind::Srej => {}
        }
        Taken {
            acked: count,
            ..Taken::nothing()
        }
    }

    // All fragments are to be sent again, and T2 starts again.
    fn send_again(&mut self)
        ensures stands { (e : EndState) → ShdlcStandsFor self.old e → ShdlcStandsFor self.new (
            record e { timer = 0; session = record e.session { next = e.session.acked; peer_busy = false; probe = false } }) }
        ensures due { self.new.due ≡ self.old.due }
    {
        self.timer = 0;
        self.sender.start_over(false, false);
    }

    // The other end is busy, all fragments count as not sent, T2 starts again and the tries are 0.
    fn hold_back(&mut self)
        ensures stands { (e : EndState) → ShdlcStandsFor self.old e → ShdlcStandsFor self.new (
            record e { timer = 0; tries = 0; session = record e.session { next = e.session.acked; peer_busy = true; probe = false } }) }
        ensures due { self.new.due ≡ self.old.due }
    {
        self.timer = 0;
        self.tries = 0;
        self.sender.start_over(true, false);
    }

    // Takes an RSET.
    fn take_reset(&mut self, window: u8) -> Taken
        requires { length self.old.due < 8 }
        ensures stands { (e : EndState) (caps : ℕ) → ShdlcStandsFor self.old e → ShdlcStandsFor self.new (taken e (Control.Rset window caps)) }
        ensures answer { (e : EndState) (caps : ℕ) → ShdlcStandsFor self.old e → result ≡ take_answer e (Control.Rset window caps) }
        ensures added { length self.new.due ≤ length self.old.due + 1 }
    {
        if window == 0 {
            return Taken::nothing();
        }
        let peer_window = window.min(4);
        match self.phase {
            LinkState::Waiting => {
                self.due.push(Due::Ua);
                self.peer_window = peer_window;
                Taken::nothing()
            }
            LinkState::Up => {
                self.restart(peer_window);
                Taken {
                    ended: Some(Cause::Peer),
                    began: true,
                    ..Taken::nothing()
                }
            }
            LinkState::Down => {
                self.restart(peer_window);
                Taken {
                    began: true,
                    ..Taken::nothing()
                }
            }
        }
    }

    // A new session begins, with the lesser of both windows, and UA is answered.
    fn restart(&mut self, peer_window: u8)
        requires { length self.old.due < 8 }
        ensures stands { (e : EndState) → ShdlcStandsFor self.old e → ShdlcStandsFor self.new (
            up_with (record e { due = due_left e.phase e.due ++ Due.Ua ∷ [] }) (min e.own_window peer_window)) }
        ensures added { length self.new.due ≤ length self.old.due + 1 }
    {
        let window = self.own_window.min(peer_window);
        self.drop_frames();
        self.make(Due::Ua);
        self.start(window);
    }

    // A control frame is to be sent.
    fn make(&mut self, due: Due)
        requires { length self.old.due < 8 }
        ensures stands { (e : EndState) → ShdlcStandsFor self.old e → ShdlcStandsFor self.new (record e { due = e.due ++ due ∷ [] }) }
        ensures added { length self.new.due ≤ length self.old.due + 1 }
    {
        self.due.push(due);
    }

    // A session ends here, where there is one: its frames that wait to be fetched are dropped.
    fn drop_frames(&mut self)
        ensures stands { (e : EndState) → ShdlcStandsFor self.old e →
            ShdlcStandsFor self.new (record e { due = due_left e.phase e.due }) }
        ensures room { length self.new.due ≤ length self.old.due }
    {
        if self.phase == LinkState::Up {
            self.due.clear();
        }
    }

    // Takes a UA.
    fn take_acceptance(&mut self) -> Taken
        ensures stands { (e : EndState) → ShdlcStandsFor self.old e → ShdlcStandsFor self.new (taken e Control.Ua) }
        ensures answer { (e : EndState) → ShdlcStandsFor self.old e → result ≡ take_answer e Control.Ua }
        ensures due { self.new.due ≡ self.old.due }
    {
        if self.phase != LinkState::Waiting {
            return Taken::nothing();
        }
        let window = self.own_window.min(self.peer_window);
        self.start(window);
        Taken {
            began: true,
            ..Taken::nothing()
        }
    }

    /// One tick of time. At most seven control frames wait to be fetched before.
    pub fn tick(&mut self) -> Ticked
        requires { length self.old.due < 8 }
        ensures stands { (e : EndState) → ShdlcStandsFor self.old e → ShdlcStandsFor self.new (ticked e) }
        ensures answer { (e : EndState) → ShdlcStandsFor self.old e → result ≡ tick_answer e }
        ensures added { length self.new.due ≤ length self.old.due + 1 }
    {
        match self.phase {
            LinkState::Down => Ticked::nothing(),
            LinkState::Waiting => self.tick_waiting(),
            LinkState::Up => self.tick_up(),
        }
    }

    // One tick in Up: what isn't acknowledged is sent again where T2 is over, five times.
    fn tick_up(&mut self) -> Ticked
        requires up { self.old.phase ≡ LinkState.Up }
        requires room { length self.old.due < 8 }
        ensures stands { (e : EndState) → ShdlcStandsFor self.old e → ShdlcStandsFor self.new (ticked e) }
        ensures answer { (e : EndState) → ShdlcStandsFor self.old e → result ≡ tick_answer e }
        ensures added { length self.new.due ≤ length self.old.due + 1 }
    {
        if !self.sender.runs_timer() {
            return Ticked::nothing();
        }
        if self.timer + 1 < Self::TICKS {
            self.timer += 1;
            return Ticked::nothing();
        }
        if self.tries < Self::TRIES {
            self.repeat_fragments();
            return Ticked::nothing();
        }
        self.wait();
        Ticked {
            ended: Some(Cause::NoAnswer),
            gave_up: None,
        }
    }

    // One tick in Waiting: RSET is sent again after each ten ticks, five times in all.
    fn tick_waiting(&mut self) -> Ticked
        requires waits { self.old.phase ≡ LinkState.Waiting }
        requires room { length self.old.due < 8 }
        ensures stands { (e : EndState) → ShdlcStandsFor self.old e → ShdlcStandsFor self.new (ticked e) }
        ensures answer { (e : EndState) → ShdlcStandsFor self.old e → result ≡ tick_answer e }
        ensures added { length self.new.due ≤ length self.old.due + 1 }
    {
        if self.timer + 1 < Self::TICKS {
            self.timer += 1;
            return Ticked::nothing();
        }
        if self.tries < Self::TRIES {
            self.repeat_reset();
            return Ticked::nothing();
        }
        let gave_up = Some(self.tries);
        self.phase = LinkState::Down;
        self.timer = 0;
        self.tries = 0;
        Ticked {
            ended: None,
            gave_up,
        }
    }

    // All unacknowledged fragments are to be sent again, and where the other end is busy the first of them alone.
    fn repeat_fragments(&mut self)
        requires { self.old.tries < 5 }
        ensures stands { (e : EndState) → ShdlcStandsFor self.old e → ShdlcStandsFor self.new (sent_again e) }
        ensures due { self.new.due ≡ self.old.due }
    {
        let busy = self.sender.peer_is_busy();
        self.sender.start_over(busy, busy);
        self.timer = 0;
        self.tries += 1;
    }

    // RSET is sent again.
    fn repeat_reset(&mut self)
        requires tried { self.old.tries < 5 }
        requires room { length self.old.due < 8 }
        ensures stands { (e : EndState) → ShdlcStandsFor self.old e → ShdlcStandsFor self.new (asked_again e) }
        ensures added { length self.new.due ≤ length self.old.due + 1 }
    {
        self.due.push(Due::Rset);
        self.timer = 0;
        self.tries += 1;
    }

    // A session ends here, where there is one, RSET is sent for the first time, and the end waits.
    fn wait(&mut self)
        requires { length self.old.due < 8 }
        ensures stands { (e : EndState) → ShdlcStandsFor self.old e → ShdlcStandsFor self.new (waiting_from e) }
        ensures added { length self.new.due ≤ length self.old.due + 1 }
    {
        self.drop_frames();
        self.make(Due::Rset);
        self.enter(LinkState::Waiting);
        self.tries = 1;
        self.peer_window = 4;
    }

    // The end is Down or Waiting: nothing of a session is kept.
    fn enter(&mut self, phase: LinkState)
        ensures stands { (e : EndState) → ShdlcStandsFor self.old e → ShdlcStandsFor self.new (
            record e { phase = phase; timer = 0; tries = 0; session = no_session }) }
        ensures due { self.new.due ≡ self.old.due }
    {
        self.phase = phase;
        self.timer = 0;
        self.tries = 0;
        self.sender.restart(0);
        self.receiver = Receiver::new();
    }

    /// A reset of the link is asked for, with this window from now on, which is 1 to 4: a session ends, where there is one,
    /// RSET is sent, and the end waits for UA. False where the end waits already; nothing changes then. At most seven control
    /// frames wait to be fetched before.
    pub fn reset(&mut self, window: u8) -> bool
        requires low { 1 ≤ window }
        requires high { window ≤ 4 }
        requires room { length self.old.due < 8 }
        ensures stands { (e : EndState) → ShdlcStandsFor self.old e → ShdlcStandsFor self.new (reset_with e window) }
        ensures answer { IsTrue result ↔ (self.old.phase ≢ LinkState.Waiting) }
        ensures refused { OnFalse result (self.new ≡ self.old) }
        ensures added { length self.new.due ≤ length self.old.due + 1 }
    {
        if self.phase == LinkState::Waiting {
            return false;
        }
        self.own_window = window;
        self.wait();
        true
    }

    /// A reset of the link is asked for with the end's own window: as `reset` with this window.
    pub fn reset_again(&mut self) -> bool
        requires { length self.old.due < 8 }
        ensures stands { (e : EndState) → ShdlcStandsFor self.old e → ShdlcStandsFor self.new (reset_with e e.own_window) }
        ensures answer { IsTrue result ↔ (self.old.phase ≢ LinkState.Waiting) }
        ensures refused { OnFalse result (self.new ≡ self.old) }
        ensures added { length self.new.due ≤ length self.old.due + 1 }
    {
        if self.phase == LinkState::Waiting {
            return false;
        }
        self.wait();
        true
    }

    /// The end is Down, and nothing of a session is kept. Its own window and its readiness stay.
    pub fn stop(&mut self)
        ensures stands { (e : EndState) → ShdlcStandsFor self.old e → ShdlcStandsFor self.new (stopped e) }
        ensures due { self.new.due ≡ [] }
    {
        self.due.clear();
        self.enter(LinkState::Down);
    }

    /// The control frames that were made and not yet fetched are dropped. Nothing else changes.
    pub fn drop_controls(&mut self)
        ensures stands { (e : EndState) → ShdlcStandsFor self.old e → ShdlcStandsFor self.new (record e { due = [] }) }
        ensures due { self.new.due ≡ [] }
    {
        self.due.clear();
    }

    /// The end takes fragments from now on, or takes none. An end that becomes ready and has answered RNR in this session
    /// since it became not ready sends RR. At most seven control frames wait to be fetched before.
    pub fn set_ready(&mut self, ready: bool)
        requires { length self.old.due < 8 }
        ensures stands { (e : EndState) → ShdlcStandsFor self.old e → ShdlcStandsFor self.new (with_ready e ready) }
        ensures added { length self.new.due ≤ length self.old.due + 1 }
    {
        if self.ready == ready {
            return;
        }
        if ready && self.receiver.has_answered_rnr() {
            self.due.push(Due::Rr);
        }
        self.ready = ready;
        self.receiver.set_answered_rnr(false);
    }
}
