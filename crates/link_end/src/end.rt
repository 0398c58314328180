//! One end of a link, from control frames to messages and back.
ghost use Rattle.std.specs.Prelude.{◌≡◌, ◌≤◌, ◌<◌, length, IfSome, unwrap_or};
ghost use Rattle.shdlc_core.specs.Kept.{ShdlcStandsFor};
ghost use Rattle.shdlc_core.specs.Machine.{EndState, reset_with};

use crate::activation::Activation;
use crate::acts::{ActDue, bring_to_front, next_act};
use crate::parts::receive;
use crate::report::{LinkReport, ResetRefused, SendRefused};
use arrayvec::ArrayVec;
use block_pool::{Chain, NoRoom, Pool};
use hcp_chain::MAX_MESSAGE;
use link_messages::{Inbox, Outbox};
use shdlc_core::{FragmentDue, LinkState, Shdlc};
use std::alloc::Global;
use swp_act::ActEvent;
use swp_base::{Act, Cause, Control, Lpdu, NoMemory, Role};
use swp_lpdu::{LpduFault, write_fragment, write_lpdu};

/// One end of a link (ETSI TS 102 613), from what an LPDU says to messages and back: its activation, its SHDLC end, and the messages
/// that it cuts and joins, which lie in the blocks of its node's pool. `LinkEnd` reads LPDUs, a line and a byte link for it. After it is
/// made no call takes memory; no clause forces that.
#[derive(Drop)]
pub struct End {
    activation: Activation,
    shdlc: Shdlc,
    outbox: Outbox,
    inbox: Inbox,
    acts: ArrayVec<ActDue, 8>,
    // Frames that were taken and mean nothing here; 4,294,967,295 stands for any greater number.
    passed_over: u32,
}

impl End {
    ghost use Rattle.std.specs.Prelude.{◌≡◌, ◌≢◌, ℕ, ◌+◌, ◌-◌, ◌<◌, ◌≤◌, List, length, true, false, None, Some, Ok, IfOk, IfErr, IfSome, OnOk, OnErr};
    ghost use Rattle.std.specs.Prelude.{is_some, option_map, if◌then◌else◌, IsTrue, OnSome};
    ghost use Rattle.std.specs.Bool.{OnTrue, OnFalse};
    ghost use Rattle.shdlc_core.specs.Kept.{frame_shown};
    ghost use Rattle.shdlc_core.specs.Machine.{stopped, ticked, tick_answer};
    ghost use Rattle.block_pool.specs.Pool.{PoolState, used_of, chain_bytes};
    ghost use Rattle.hcp_packet.specs.Packets.{IsSendable};
    ghost use Rattle.swp_lpdu.specs.Controls.{lpdu_of, control_of};
    ghost use Rattle.link_laws.specs.machine.Machine.{LinkEnd as Machine, moved, put_down, if_up, with_act, activated, heard, report, after_input, next_frame};
    ghost use Rattle.link_laws.specs.machine.Machine.{lpdu_input, is_held, oldest, new_link_end};
    ghost use Rattle.link_laws.specs.machine.Machine.LinkInput.{Tick, Reset, Start, Stop, FromNode, Fetch};
    ghost use Rattle.link_laws.specs.machine.Machine.Turn.{Give, Hold, FetchMessage};
    ghost use Rattle.link_laws.specs.machine.AtRest.{end_rests};
    ghost use Rattle.link_end.specs.Roles.{role_of, new_role, MayStart};
    ghost use Rattle.link_end.specs.Reports.{report_told, nothing_told, act_told, heard_told, give_told, pass_told, reset_told, IsShdlc};
    ghost use Rattle.link_messages.specs.Outgoing.{OutboxLiesIn, LeavesOthersBut};
    ghost use Rattle.link_messages.specs.Incoming.{InboxLiesIn};
    ghost use Rattle.link_end.specs.Ends.{IsFree, MayPass, Halfway, EndStandsFor, EndLeavesOthers, MayTake, Accounts, controls_in, IsFragmentNext};
    ghost use Rattle.link_end.specs.Inputs.{heard_bit};
    ghost use Rattle.link_end.specs.Idle.{IsIdle};
    ghost use Rattle.link_end.specs.Steps.{ForgetsMessages};

    // The window that an end asks for, until a reset names another.
    const WINDOW: u8 = 4;

    /// An end of this role, with an owner of 128 blocks for what it sends and one of 512 for what comes. Its window is 4, and it is Up
    /// where it is bare.
    pub fn make(alloc: Global, role: Role, out_owner: u8, in_owner: u8) -> Result<End, NoMemory>
        ensures stands { IfOk result (λ k. (pool : PoolState) → IsFree pool out_owner in_owner → EndStandsFor k pool (new_link_end (new_role role))) }
        ensures owners { IfOk result (λ k. (k.outbox.owner ≡ out_owner) × (k.inbox.joiner.owner ≡ in_owner)) }
        ensures accounts { IfOk result (λ k. (pool : PoolState) → used_of pool in_owner ≡ 0 → Accounts k pool None) }
    {
        let outbox = Outbox::make(alloc, out_owner)?;
        Ok(End {
            activation: Activation::new(role),
            shdlc: Self::new_shdlc(role),
            outbox,
            inbox: Inbox::new(in_owner),
            acts: ArrayVec::new(),
            passed_over: 0,
        })
    }

    // The SHDLC end of a new end.
    fn new_shdlc(role: Role) -> Shdlc
        ensures { ShdlcStandsFor result (new_link_end (new_role role)).shdlc }
    {
        let mut shdlc = Shdlc::new(Self::WINDOW);
        match role {
            Role::Bare => {
                shdlc.begin();
                shdlc
            }
            Role::Clf => shdlc,
            Role::Uicc => shdlc,
        }
    }

    // Offers the fragments that wait, while there is room for them.
    #[inline(never)]
    fn offer_more(&mut self, pool: &mut Pool)
        requires { OutboxLiesIn pool.old self.old.outbox }
        ensures stands { (m : Machine) → Halfway self.old pool.old m → EndStandsFor self.new pool.new m }
        ensures boxes { (self.new.outbox.queue ≡ self.old.outbox.queue) × (self.new.outbox.owner ≡ self.old.outbox.owner)
            × (self.new.inbox ≡ self.old.inbox) }
        ensures acts { self.new.acts ≡ self.old.acts }
        ensures pool { pool.new ≡ pool.old }
    {
        while self.shdlc.takes_fragment() {
            let Some(info) = self.outbox.next_fragment(pool) else {
                return;
            };
            let _taken = self.shdlc.offer_owned(info);
        }
    }

    // Forgets the messages of the session, to be sent and partly received, and what stands before ACT frames.
    #[inline(never)]
    fn forget(&mut self, pool: &mut Pool)
        requires outbox { OutboxLiesIn pool.old self.old.outbox }
        requires inbox { InboxLiesIn pool.old self.old.inbox }
        requires differ { self.old.outbox.owner ≢ self.old.inbox.joiner.owner }
        ensures { ForgetsMessages pool.old pool.new self.old self.new }
    {
        self.outbox.clear(pool);
        self.inbox.clear(pool);
        bring_to_front(&mut self.acts);
    }

    // The same where the session is over.
    fn forget_if(&mut self, pool: &mut Pool, over: bool)
        requires outbox { OutboxLiesIn pool.old self.old.outbox }
        requires inbox { InboxLiesIn pool.old self.old.inbox }
        requires differ { self.old.outbox.owner ≢ self.old.inbox.joiner.owner }
        ensures over { OnTrue over (ForgetsMessages pool.old pool.new self.old self.new) }
        ensures going { OnFalse over ((self.new ≡ self.old) × (pool.new ≡ pool.old)) }
        ensures elsewhere { EndLeavesOthers pool.old pool.new self.old self.new }
    {
        if over {
            self.forget(pool);
        }
    }

    // The session is over, and the link is Down.
    fn drop_session(&mut self, pool: &mut Pool)
        requires { (m : Machine) × EndStandsFor self.old pool.old m }
        ensures stands { (m : Machine) → EndStandsFor self.old pool.old m → EndStandsFor self.new pool.new (moved m true (stopped m.shdlc)) }
        ensures activation { self.new.activation ≡ self.old.activation }
        ensures few { length self.new.acts.items ≡ length self.old.acts.items }
        ensures elsewhere { EndLeavesOthers pool.old pool.new self.old self.new }
    {
        self.forget(pool);
        self.shdlc.stop();
    }

    // The link goes down, where it does. An end that is Down already only drops the control frames that it still has to send. Why a session
    // ended, where one did.
    fn put_down(&mut self, pool: &mut Pool, down: bool) -> Option<Cause>
        requires { (m : Machine) × EndStandsFor self.old pool.old m }
        ensures stands { (m : Machine) → EndStandsFor self.old pool.old m → EndStandsFor self.new pool.new (put_down down m) }
        ensures cause { (m : Machine) → EndStandsFor self.old pool.old m → result ≡ (if down then if_up m.shdlc Cause.Act else None) }
        ensures few { length self.new.acts.items ≡ length self.old.acts.items }
        ensures elsewhere { EndLeavesOthers pool.old pool.new self.old self.new }
    {
        if !down {
            return None;
        }
        match self.shdlc.state() {
            LinkState::Up => {
                self.drop_session(pool);
                Some(Cause::Act)
            }
            LinkState::Waiting => {
                self.drop_session(pool);
                None
            }
            LinkState::Down => {
                self.shdlc.drop_controls();
                bring_to_front(&mut self.acts);
                None
            }
        }
    }

    // What an event of activation does to an end.
    fn event(&mut self, pool: &mut Pool, event: &ActEvent) -> LinkReport
        requires stands { (m : Machine) × EndStandsFor self.old pool.old m }
        requires start { MayStart (role_of self.old.activation) event.now }
        requires room { length self.old.acts.items < 8 }
        ensures stands { (m : Machine) → EndStandsFor self.old pool.old m → EndStandsFor self.new pool.new (activated m event.now) }
        ensures answer { (m : Machine) → EndStandsFor self.old pool.old m → result ≡ act_told m event.now }
        ensures elsewhere { EndLeavesOthers pool.old pool.new self.old self.new }
    {
        let out = self.activation.step(event);
        let ended = self.put_down(pool, out.ended_link);
        if let Some(frame) = out.send {
            let behind = self.shdlc.controls_due();
            self.acts.push(ActDue { frame, behind });
        }
        LinkReport {
            ended,
            became_active: out.became_active,
            sync: out.sync,
            gave_up: out.gave_up,
            ..LinkReport::nothing()
        }
    }

    // What a frame of SHDLC does to an end that is open.
    fn hear(&mut self, pool: &mut Pool, control: &Control) -> LinkReport
        requires stands { (m : Machine) × EndStandsFor self.old pool.old m }
        requires ready { MayTake self.old pool.old }
        requires room { length self.old.shdlc.due < 8 }
        ensures stands { (m : Machine) → EndStandsFor self.old pool.old m → EndStandsFor self.new pool.new (heard m control.now) }
        ensures answer { (m : Machine) → EndStandsFor self.old pool.old m → result ≡ heard_told m control.now }
        ensures elsewhere { EndLeavesOthers pool.old pool.new self.old self.new }
    {
        let taken = self.shdlc.take(control);
        if taken.ended.is_some() {
            self.forget(pool);
            return LinkReport {
                ended: taken.ended,
                began: taken.began,
                ..LinkReport::nothing()
            };
        }
        match receive(&mut self.inbox, pool, control, &taken) {
            Ok(()) => {
                let acked = self.outbox.acknowledge(pool, taken.acked);
                if !self.outbox.has_all_cut() {
                    self.offer_more(pool);
                }
                LinkReport {
                    began: taken.began,
                    acked,
                    got: self.inbox.has_message(),
                    ..LinkReport::nothing()
                }
            }
            Err(_fault) => {
                self.forget(pool);
                self.shdlc.stop();
                LinkReport {
                    ended: Some(Cause::Chain),
                    ..LinkReport::nothing()
                }
            }
        }
    }

    // A frame that means nothing here was taken.
    fn pass_over(&mut self) -> LinkReport
        ensures stands { (pool : PoolState) (m : Machine) → EndStandsFor self.old pool m
            → EndStandsFor self.new pool (record m { passed_over = m.passed_over + 1 }) }
        ensures answer { result ≡ nothing_told }
        ensures boxes { (self.new.outbox ≡ self.old.outbox) × (self.new.inbox ≡ self.old.inbox) }
    {
        self.passed_over = self.passed_over.saturating_add(1);
        LinkReport::nothing()
    }

    /// Takes what an LPDU says: a frame, or one outside the grammar, which is counted and changes nothing else. It asks that the last
    /// message was fetched, and that no fetched one is still in the blocks for what comes, or that the end is held. At most six control
    /// frames wait to be fetched before.
    pub fn take_read(&mut self, pool: &mut Pool, read: &Result<Control, LpduFault>) -> LinkReport
        requires stands { (m : Machine) × EndStandsFor self.old pool.old m }
        requires ready { MayTake self.old pool.old }
        requires room { controls_in self.old ≤ 6 }
        ensures stands { (m : Machine) (lpdu : List ℕ) → EndStandsFor self.old pool.old m → read.now ≡ control_of lpdu
            → EndStandsFor self.new pool.new (after_input m (lpdu_input lpdu)) }
        ensures answer { (m : Machine) (lpdu : List ℕ) → EndStandsFor self.old pool.old m → read.now ≡ control_of lpdu
            → result ≡ report_told (report m (lpdu_input lpdu)) }
        ensures elsewhere { EndLeavesOthers pool.old pool.new self.old self.new }
    {
        let Ok(control) = read else {
            return self.pass_over();
        };
        match control {
            Control::Act { act, again } => {
                let event = ActEvent::Take {
                    act: *act,
                    again: *again,
                };
                // A place of its own for this rare report: the common ones are then written only where they are read.
                let report = self.event(pool, &event);
                report
            }
            Control::Clt => self.pass_over(),
            Control::I { .. } | Control::S { .. } | Control::Rset { .. } | Control::Ua => {
                if !self.activation.is_open() {
                    return LinkReport::nothing();
                }
                self.hear(pool, control)
            }
        }
    }

    /// Whether nothing is under way: the end is open and Up, no control frame waits, and all fragments that were offered are acknowledged. A
    /// tick changes nothing then and tells nothing, and no frame is to be sent. False says nothing.
    #[inline(always)]
    pub fn is_idle(&self) -> bool
        ensures { (pool : PoolState) (m : Machine) → EndStandsFor self.now pool m → IsTrue result → IsIdle m }
    {
        if !self.activation.is_open() {
            return false;
        }
        if !self.acts.is_empty() {
            return false;
        }
        self.shdlc.is_idle()
    }

    /// One tick of time. At most six control frames wait to be fetched before.
    #[inline(always)]
    pub fn tick(&mut self, pool: &mut Pool) -> LinkReport
        requires stands { (m : Machine) × EndStandsFor self.old pool.old m }
        requires room { controls_in self.old ≤ 6 }
        ensures stands { (m : Machine) → EndStandsFor self.old pool.old m → EndStandsFor self.new pool.new (after_input m Tick) }
        ensures answer { (m : Machine) → EndStandsFor self.old pool.old m → result ≡ report_told (report m Tick) }
        ensures elsewhere { EndLeavesOthers pool.old pool.new self.old self.new }
    {
        if !self.activation.is_open() {
            // A place of its own for this rare report: the common one is then written only where it is read.
            let report = self.tick_activation(pool);
            return report;
        }
        self.tick_link(pool)
    }

    // One tick of an end that isn't open. At most six control frames wait to be fetched before.
    #[cold]
    #[inline(never)]
    fn tick_activation(&mut self, pool: &mut Pool) -> LinkReport
        requires stands { (m : Machine) × EndStandsFor self.old pool.old m }
        requires room { controls_in self.old ≤ 6 }
        ensures stands { (m : Machine) → EndStandsFor self.old pool.old m → EndStandsFor self.new pool.new (activated m ActEvent.Tick) }
        ensures answer { (m : Machine) → EndStandsFor self.old pool.old m → result ≡ act_told m ActEvent.Tick }
        ensures elsewhere { EndLeavesOthers pool.old pool.new self.old self.new }
    {
        self.event(pool, &ActEvent::Tick)
    }

    // One tick of an end that is open.
    fn tick_link(&mut self, pool: &mut Pool) -> LinkReport
        requires stands { (m : Machine) × EndStandsFor self.old pool.old m }
        requires room { length self.old.shdlc.due < 8 }
        ensures stands { (m : Machine) → EndStandsFor self.old pool.old m
            → EndStandsFor self.new pool.new (moved m (is_some (tick_answer m.shdlc).ended) (ticked m.shdlc)) }
        ensures answer { (m : Machine) → EndStandsFor self.old pool.old m
            → result ≡ record nothing_told { ended = (tick_answer m.shdlc).ended; gave_up = (tick_answer m.shdlc).gave_up } }
        ensures elsewhere { EndLeavesOthers pool.old pool.new self.old self.new }
    {
        let ticked = self.shdlc.tick();
        self.forget_if(pool, ticked.ended.is_some());
        LinkReport {
            ended: ticked.ended,
            gave_up: ticked.gave_up,
            ..LinkReport::nothing()
        }
    }

    /// Activation begins, with the sync identifier of a UICC or the power code of a CLF, which is 00 or 01. The link goes Down. It asks
    /// for an end that isn't bare. At most six control frames wait to be fetched before.
    pub fn activate(&mut self, pool: &mut Pool, value: u16) -> LinkReport
        requires stands { (m : Machine) × EndStandsFor self.old pool.old m }
        requires start { MayStart (role_of self.old.activation) (ActEvent.Start value) }
        requires room { controls_in self.old ≤ 6 }
        ensures stands { (m : Machine) → EndStandsFor self.old pool.old m → EndStandsFor self.new pool.new (after_input m (Start value)) }
        ensures answer { (m : Machine) → EndStandsFor self.old pool.old m → result ≡ report_told (report m (Start value)) }
        ensures elsewhere { EndLeavesOthers pool.old pool.new self.old self.new }
    {
        let ended = self.loses_session();
        self.drop_session(pool);
        let report = self.event(pool, &ActEvent::Start { value });
        LinkReport { ended, ..report }
    }

    /// Activation ends, and the link with it. It asks for an end that isn't bare. At most six control frames wait to be fetched
    /// before.
    pub fn deactivate(&mut self, pool: &mut Pool) -> LinkReport
        requires stands { (m : Machine) × EndStandsFor self.old pool.old m }
        requires room { controls_in self.old ≤ 6 }
        ensures stands { (m : Machine) → EndStandsFor self.old pool.old m → EndStandsFor self.new pool.new (after_input m Stop) }
        ensures answer { (m : Machine) → EndStandsFor self.old pool.old m → result ≡ report_told (report m Stop) }
        ensures elsewhere { EndLeavesOthers pool.old pool.new self.old self.new }
    {
        let ended = self.loses_session();
        self.drop_session(pool);
        let report = self.event(pool, &ActEvent::Stop);
        LinkReport { ended, ..report }
    }

    // Why a session ends where activation begins or ends now.
    fn loses_session(&self) -> Option<Cause>
        ensures { (pool : PoolState) (m : Machine) → EndStandsFor self.now pool m → result ≡ if_up m.shdlc Cause.Act }
    {
        match self.shdlc.state() {
            LinkState::Up => Some(Cause::Act),
            LinkState::Waiting => None,
            LinkState::Down => None,
        }
    }

    /// Its node holds the end, so that it takes no fragments, or lets it go. At most six control frames wait to be fetched before.
    pub fn hold(&mut self, held: bool)
        requires room { controls_in self.old ≤ 6 }
        ensures stands { (pool : PoolState) (m : Machine) → EndStandsFor self.old pool m → EndStandsFor self.new pool (after_input m (FromNode (Hold held))) }
        ensures boxes { (self.new.outbox ≡ self.old.outbox) × (self.new.inbox ≡ self.old.inbox) }
    {
        self.shdlc.set_ready(!held);
    }

    /// Whether its node holds the end, so that it takes no fragments.
    pub fn is_held(&self) -> bool
        ensures { (pool : PoolState) (m : Machine) → EndStandsFor self.now pool m → result ≡ is_held m }
    {
        !self.shdlc.is_ready()
    }

    /// How many control frames wait to be fetched, ACT frames among them.
    pub fn controls_due(&self) -> u16
        ensures { result ≡ controls_in self.now }
    {
        self.acts.len() as u16 + u16::from(self.shdlc.controls_due())
    }

    /// The bit that the end hears in a period: S2 at a CLF, S1 at a UICC.
    pub fn heard_bit(&self, s1: bool, s2: bool) -> bool
        ensures { (pool : PoolState) (m : Machine) → EndStandsFor self.now pool m → result ≡ heard_bit m.role s1 s2 }
    {
        self.activation.heard_bit(s1, s2)
    }

    /// The state of the link.
    pub fn state(&self) -> LinkState
        ensures { (pool : PoolState) (m : Machine) → EndStandsFor self.now pool m → result ≡ m.shdlc.phase }
    {
        self.shdlc.state()
    }

    /// Whether the end is at rest: it doesn't wait for the acceptance of a reset, and where it is Up all messages that were sent in its
    /// session are acknowledged.
    pub fn is_at_rest(&self) -> bool
        ensures { (pool : PoolState) (m : Machine) → EndStandsFor self.now pool m → result ≡ end_rests m }
    {
        match self.shdlc.state() {
            LinkState::Up => self.outbox.is_empty(),
            LinkState::Waiting => false,
            LinkState::Down => true,
        }
    }

    /// A reset of the link is asked for, with this window, which is 1 to 4, or with the end's own one. At most six control frames wait
    /// to be fetched before.
    ///
    /// # Errors
    ///
    /// `Inactive` where activation isn't done, and `Waiting` where the end waits already. Nothing changes then.
    pub fn reset(&mut self, pool: &mut Pool, window: Option<u8>) -> Result<LinkReport, ResetRefused>
        requires stands { (m : Machine) × EndStandsFor self.old pool.old m }
        requires window { IfSome window (λ w. (1 ≤ w) × (w ≤ 4)) }
        requires room { controls_in self.old ≤ 6 }
        ensures stands { (m : Machine) → EndStandsFor self.old pool.old m → EndStandsFor self.new pool.new (after_input m (Reset window)) }
        ensures answer { (m : Machine) → EndStandsFor self.old pool.old m → result ≡ reset_told m window }
        ensures elsewhere { EndLeavesOthers pool.old pool.new self.old self.new }
    {
        if !self.activation.is_open() {
            return Err(ResetRefused::Inactive);
        }
        match self.shdlc.state() {
            LinkState::Waiting => Err(ResetRefused::Waiting),
            LinkState::Up => {
                ask(&mut self.shdlc, window);
                self.forget(pool);
                Ok(LinkReport {
                    ended: Some(Cause::Asked),
                    ..LinkReport::nothing()
                })
            }
            LinkState::Down => {
                ask(&mut self.shdlc, window);
                self.offer_more(pool);
                Ok(LinkReport::nothing())
            }
        }
    }

    /// The oldest message that came and wasn't fetched, with its pipe, in a chain that is the caller's from now on.
    pub fn next_message(&mut self) -> Option<(u8, Chain)>
        ensures stands { (pool : PoolState) (m : Machine) → EndStandsFor self.old pool m → EndStandsFor self.new pool (after_input m (FromNode FetchMessage)) }
        ensures answer { (pool : PoolState) (m : Machine) → EndStandsFor self.old pool m
            → option_map (λ x. (x.0, chain_bytes pool x.1)) result ≡ oldest m.got }
        ensures fetched { self.new.inbox.got ≡ None }
        ensures rest { self.new ≡ record self.old { inbox = record self.old.inbox { got = None } } }
        ensures accounts { (pool : PoolState) (m : Machine) → EndStandsFor self.old pool m → Accounts self.old pool None
            → Accounts self.new pool (option_map (λ x. x.1) result) }
    {
        self.inbox.fetch()
    }

    /// Fetches the LPDU that is to be sent now: the control frames in the order in which they were made, ACT frames among them, and
    /// then the fragments. None where nothing is to be sent.
    #[inline(always)]
    pub fn next_out(&mut self, pool: &Pool) -> Option<Lpdu>
        requires { (m : Machine) × EndStandsFor self.old pool.now m }
        ensures stands { (m : Machine) → EndStandsFor self.old pool.now m → EndStandsFor self.new pool.now (after_input m Fetch) }
        ensures answer { (m : Machine) → EndStandsFor self.old pool.now m → result ≡ option_map lpdu_of (next_frame m) }
        ensures read { (m : Machine) → EndStandsFor self.old pool.now m → IfSome (next_frame m) (λ c. control_of (lpdu_of c) ≡ Ok c) }
        ensures boxes { (self.new.outbox ≡ self.old.outbox) × (self.new.inbox ≡ self.old.inbox) }
    {
        // Most calls find nothing, since an end is asked until it has nothing more.
        if self.acts.is_empty() && self.shdlc.has_none_due() {
            return None;
        }
        self.next_due(pool)
    }

    // The same where something may be due.
    fn next_due(&mut self, pool: &Pool) -> Option<Lpdu>
        requires { (m : Machine) × EndStandsFor self.old pool.now m }
        ensures stands { (m : Machine) → EndStandsFor self.old pool.now m → EndStandsFor self.new pool.now (after_input m Fetch) }
        ensures answer { (m : Machine) → EndStandsFor self.old pool.now m → result ≡ option_map lpdu_of (next_frame m) }
        ensures read { (m : Machine) → EndStandsFor self.old pool.now m → IfSome (next_frame m) (λ c. control_of (lpdu_of c) ≡ Ok c) }
        ensures boxes { (self.new.outbox ≡ self.old.outbox) × (self.new.inbox ≡ self.old.inbox) }
    {
        if self.acts.is_empty() {
            if let Some(FragmentDue { ns, nr, info }) = self.shdlc.fragment_due() {
                let lpdu = write_fragment(ns, nr, info);
                self.shdlc.count_fragment();
                return Some(lpdu);
            }
        }
        let control = match next_act(&mut self.acts) {
            Some(act) => Control::Act { act, again: false },
            None => self.shdlc.next_out()?,
        };
        Some(write_lpdu(&control))
    }

    /// Takes a message for sending on a pipe that isn't reserved. It isn't empty.
    ///
    /// # Errors
    ///
    /// `NotUp` where the end isn't Up; `TooLong` where the message has more than 4,096 bytes; `Full` where its blocks exceed what the
    /// owner for what goes out has left; tested in this order. Nothing changes then.
    pub fn send(&mut self, pool: &mut Pool, pipe: u8, message: &[u8]) -> Result<(), SendRefused>
        requires stands { (m : Machine) × EndStandsFor self.old pool.old m }
        requires sendable { IsSendable (pipe, message.now) }
        ensures stands { (m : Machine) → EndStandsFor self.old pool.old m
            → EndStandsFor self.new pool.new (after_input m (FromNode (Give (pipe, message.now)))) }
        ensures answer { (m : Machine) → EndStandsFor self.old pool.old m → result ≡ give_told m (pipe, message.now) }
        ensures refused { OnErr result ((pool.new ≡ pool.old) × (self.new ≡ self.old)) }
        ensures elsewhere { EndLeavesOthers pool.old pool.new self.old self.new }
    {
        match self.shdlc.state() {
            LinkState::Up => {
                if message.len() > MAX_MESSAGE as usize {
                    let len = message.len().min(u32::MAX as usize) as u32;
                    return Err(SendRefused::TooLong { len });
                }
                match self.outbox.accept(pool, pipe, message) {
                    Ok(()) => {
                        self.offer_more(pool);
                        Ok(())
                    }
                    Err(NoRoom { need, spare }) => Err(SendRefused::Full { need, spare }),
                }
            }
            LinkState::Waiting => Err(SendRefused::NotUp),
            LinkState::Down => Err(SendRefused::NotUp),
        }
    }

    /// Takes a message that lies in a chain of another owner, which is passed on as it is, for sending on a pipe that isn't reserved. It
    /// isn't empty, and lies apart from what comes to the end. Where it is a message that came to the end, its blocks count beside
    /// those of what comes.
    ///
    /// # Errors
    ///
    /// The chain, and why, as `send`. Nothing changes then.
    pub fn send_chain(
        &mut self,
        pool: &mut Pool,
        pipe: u8,
        chain: Chain,
    ) -> Result<(), (Chain, SendRefused)>
        requires stands { (m : Machine) × EndStandsFor self.old pool.old m }
        requires chain { MayPass pool.old self.old chain }
        requires sendable { IsSendable (pipe, chain_bytes pool.old chain) }
        ensures stands { (m : Machine) → EndStandsFor self.old pool.old m
            → EndStandsFor self.new pool.new (after_input m (FromNode (Give (pipe, chain_bytes pool.old chain)))) }
        ensures answer { (m : Machine) → EndStandsFor self.old pool.old m → result ≡ pass_told m (pipe, chain_bytes pool.old chain) chain }
        ensures refused { OnErr result ((pool.new ≡ pool.old) × (self.new ≡ self.old)) }
        ensures back { IfErr result (λ e. e.0 ≡ chain) }
        ensures elsewhere { OnOk result
            (LeavesOthersBut pool.old pool.new self.old.outbox.owner chain self.old.outbox.queue.items self.new.outbox.queue.items) }
        ensures inbox { self.new.inbox ≡ self.old.inbox }
        ensures owner { self.new.outbox.owner ≡ self.old.outbox.owner }
    {
        match self.shdlc.state() {
            LinkState::Up => {
                let len = pool.len(&chain);
                if len > MAX_MESSAGE {
                    return Err((chain, SendRefused::TooLong { len }));
                }
                match self.outbox.accept_chain(pool, pipe, chain) {
                    Ok(()) => {
                        self.offer_more(pool);
                        Ok(())
                    }
                    Err((chain, NoRoom { need, spare })) => {
                        Err((chain, SendRefused::Full { need, spare }))
                    }
                }
            }
            LinkState::Waiting => Err((chain, SendRefused::NotUp)),
            LinkState::Down => Err((chain, SendRefused::NotUp)),
        }
    }
}

// Asks for a reset with this window, or with the end's own one.
fn ask(shdlc: &mut Shdlc, window: Option<u8>)
    requires window { IfSome window (λ w. (1 ≤ w) × (w ≤ 4)) }
    requires room { length shdlc.old.due < 8 }
    ensures { (e : EndState) → ShdlcStandsFor shdlc.old e → ShdlcStandsFor shdlc.new (reset_with e (unwrap_or window e.own_window)) }
{
    let _asked = match window {
        Some(window) => shdlc.reset(window),
        None => shdlc.reset_again(),
    };
}
