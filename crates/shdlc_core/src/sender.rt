//! The half of a session that sends: the fragments that aren't acknowledged, and where sending stands (ETSI TS 102 613,
//! section 10).
ghost use Rattle.std.specs.Prelude.{◌≡◌, ◌+◌, ◌<◌, ◌≤◌, ◌==◌, ◌++◌, ◌∷◌, [], length, drop, max, false, None, option_map, IfSome, OnSome, IfNone, ◌%◌};
ghost use Rattle.std.specs.Prelude.{IsTrue, ◌↔◌};
ghost use Rattle.shdlc_core.specs.Kept.{SendsFor, frame_shown};
ghost use Rattle.shdlc_core.specs.Machine.{EndState, Session, place_of, expected, fragment_due, frame_due, sent_next, runs_timer, new_session};

use crate::answers::FragmentDue;
use arrayvec::ArrayVec;
use std::marker::Model;
use swp_base::Info;

#[derive(Drop)]
pub struct Sender {
    window: u8,
    queue: ArrayVec<Info, 4>,
    first: u8,
    sent: u8,
    reach: u8,
    peer_busy: bool,
    probe: bool,
}

impl Model for Sender {
    ghost use Rattle.shdlc_core.specs.Kept.{KeptSender, IsSender};

    ghost Value = { KeptSender };

    ghost view = { λ a. record {
      window = a.window;
      queue = a.queue.items;
      first = a.first;
      sent = a.sent;
      reach = a.reach;
      peer_busy = a.peer_busy;
      probe = a.probe;
    } };

    ghost invariant = { λ a. IsSender (record {
      window = a.window;
      queue = a.queue.items;
      first = a.first;
      sent = a.sent;
      reach = a.reach;
      peer_busy = a.peer_busy;
      probe = a.probe;
    }) };
}

impl Sender {
    /// Nothing is offered, and the numbers begin at 0.
    pub fn new(window: u8) -> Self
        ensures { SendsFor result (new_session window) }
    {
        Self {
            window,
            queue: ArrayVec::new(),
            first: 0,
            sent: 0,
            reach: 0,
            peer_busy: false,
            probe: false,
        }
    }

    /// Another session begins: nothing is offered, and the numbers begin at 0 again.
    pub fn restart(&mut self, window: u8)
        ensures { SendsFor self.new (new_session window) }
    {
        self.window = window;
        self.queue.clear();
        self.first = 0;
        self.sent = 0;
        self.reach = 0;
        self.peer_busy = false;
        self.probe = false;
    }

    /// Whether four fragments aren't acknowledged.
    pub fn is_full(&self) -> bool
        ensures value { result ≡ (length self.now.queue == 4) }
        ensures fits { length self.now.queue ≤ 4 }
    {
        self.queue.is_full()
    }

    /// Whether all that was offered is acknowledged.
    pub fn is_empty(&self) -> bool
        ensures value { IsTrue result ↔ (self.now.queue ≡ []) }
        ensures sent { IsTrue result → self.now.sent ≡ 0 }
    {
        self.queue.is_empty()
    }

    /// A fragment stands behind those that are kept.
    pub fn push(&mut self, info: Info)
        requires { length self.old.queue < 4 }
        ensures { (s : Session) → SendsFor self.old s → SendsFor self.new (record s { out = s.out ++ info ∷ [] }) }
    {
        self.queue.push(info);
    }

    /// Whether a fragment is sent and not acknowledged, or waits while the other end is busy.
    pub fn runs_timer(&self) -> bool
        ensures { (s : Session) → SendsFor self.now s → result ≡ runs_timer s }
    {
        self.sent > 0 || self.peer_busy && usize::from(self.sent) < self.queue.len()
    }

    /// Whether all kept fragments were sent. None is to be sent then; false says nothing.
    #[inline(always)]
    pub fn has_none_due(&self) -> bool
        ensures { (s : Session) → SendsFor self.now s → IsTrue result → fragment_due s ≡ None }
    {
        usize::from(self.sent) >= self.queue.len()
    }

    /// The fragment to be sent next with its number and this N(R), where there is one.
    pub fn fragment_due(&self, nr: u8) -> Option<FragmentDue<'_>>
        ensures frame { (e : EndState) → SendsFor self.now e.session → nr ≡ expected e.session → e.due ≡ [] →
            option_map frame_shown result ≡ frame_due e }
        ensures within { OnSome result (self.now.sent < length self.now.queue) }
    {
        if self.peer_busy && !self.probe || self.sent >= self.window {
            return None;
        }
        let info = self.queue.get(usize::from(self.sent))?;
        let ns = (self.first + self.sent) % 8;
        Some(FragmentDue { ns, nr, info })
    }

    /// The fragment to be sent next counts as sent.
    pub fn count_next(&mut self)
        requires { self.old.sent < length self.old.queue }
        ensures stands { (s : Session) → SendsFor self.old s → SendsFor self.new (sent_next s) }
        ensures fewer { (self.new.queue ≡ self.old.queue) × (self.new.sent ≡ self.old.sent + 1) }
    {
        self.sent += 1;
        self.reach = self.reach.max(self.sent);
        self.probe = false;
    }

    /// Forgets the fragments that a number acknowledges which the other end expects next: how many. What was sent behind them stays
    /// sent. None where the number isn't valid; nothing changes then.
    #[inline(always)]
    pub fn acknowledge(&mut self, nr: u8) -> Option<u8>
        ensures place { (s : Session) → SendsFor self.old s → option_map (λ n. s.acked + n) result ≡ place_of s nr }
        ensures stands { (s : Session) → SendsFor self.old s →
            IfSome result (λ n. SendsFor self.new (record s { acked = s.acked + n; next = max s.next (s.acked + n) })) }
        ensures none { IfNone result (self.new ≡ self.old) }
    {
        if nr >= 8 {
            return None;
        }
        let count = (nr + (8 - self.first)) % 8;
        if count > self.reach {
            return None;
        }
        drop_first(&mut self.queue, usize::from(count));
        self.first = (self.first + count) % 8;
        self.sent = self.sent.saturating_sub(count);
        self.reach -= count;
        Some(count)
    }

    /// The other end takes fragments, and none is a probe. Whether a fragment is sent and not acknowledged.
    pub fn end_busy(&mut self) -> bool
        ensures stands { (s : Session) → SendsFor self.old s → SendsFor self.new (record s { peer_busy = false; probe = false }) }
        ensures runs { (s : Session) → SendsFor self.old s → result ≡ runs_timer (record s { peer_busy = false; probe = false }) }
    {
        self.peer_busy = false;
        self.probe = false;
        self.sent > 0
    }

    /// All fragments count as not sent. The other end is busy or not, and the first of them may be sent as a probe or not.
    pub fn start_over(&mut self, busy: bool, probe: bool)
        ensures { (s : Session) → SendsFor self.old s →
            SendsFor self.new (record s { next = s.acked; peer_busy = busy; probe = probe }) }
    {
        self.sent = 0;
        self.peer_busy = busy;
        self.probe = probe;
    }

    pub fn peer_is_busy(&self) -> bool
        ensures { (s : Session) → SendsFor self.now s → result ≡ s.peer_busy }
    {
        self.peer_busy
    }
}

// Removes the first `count` fragments.
fn drop_first(queue: &mut ArrayVec<Info, 4>, count: usize)
    requires { count ≤ length queue.old.items }
    ensures { queue.new.items ≡ drop count queue.old.items }
{
    if count >= queue.len() {
        queue.clear();
        return;
    }
    for _ in 0..count {
        queue.remove(0);
    }
}
