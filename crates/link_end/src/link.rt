//! One end of a link, in each of its three input forms.
ghost use Rattle.std.specs.Prelude.{◌≡◌};
ghost use Rattle.link_end.specs.Inputs.{fault_in};

use crate::end::End;
use crate::report::{LinkReport, ResetRefused, SendRefused};
use block_pool::{Chain, Pool};
use byte_link::{ByteLink, Unit};
use shdlc_core::LinkState;
use std::alloc::Global;
use swp_base::{FrameFault, Lpdu, NoMemory, Role};
use swp_frame::{Deframer, Fed};
use swp_line::{Period, period_of};
use swp_lpdu::read_lpdu;

/// One end of a link (ETSI TS 102 613): its activation, its SHDLC end, and the messages that it cuts and joins, which lie in the
/// blocks of its node's pool. After it is made no call takes memory; no clause forces that.
#[derive(Drop)]
pub struct LinkEnd {
    link: End,
    deframer: Deframer,
    byte_link: ByteLink,
}

impl LinkEnd {
    ghost use Rattle.std.specs.Prelude.{◌≡◌, ℕ, ◌≤◌, ◌∷◌, [], List, None, Ok, IfOk, IfErr, IfSome, OnOk, OnErr, option_map, IsTrue};
    ghost use Rattle.swp_frame.specs.Signal.{Symbol};
    ghost use Rattle.swp_frame.specs.Kept.{DeframerStandsFor};
    ghost use Rattle.byte_link.specs.Kept.{ByteLinkStandsFor};
    ghost use Rattle.byte_link.specs.Reading.{unit_given};
    ghost use Rattle.swp_line.specs.Periods.{period_at};
    ghost use Rattle.block_pool.specs.Pool.{PoolState, used_of, chain_bytes};
    ghost use Rattle.hcp_packet.specs.Packets.{IsSendable};
    ghost use Rattle.link_messages.specs.Outgoing.{LeavesOthersBut};
    ghost use Rattle.swp_act.specs.declared.ActEvent.TheVariants.{Start as ActStart};
    ghost use Rattle.swp_lpdu.specs.Controls.{lpdu_of, control_of};
    ghost use Rattle.link_laws.specs.machine.Machine.{LinkEnd as Machine, new_link_end, after_input, is_held, report, lpdu_input, next_frame, oldest};
    ghost use Rattle.link_laws.specs.machine.Machine.LinkInput.{TakeBroken, Tick, Reset, Start, Stop, FromNode, Fetch};
    ghost use Rattle.link_laws.specs.machine.Machine.Turn.{Give, Hold, FetchMessage};
    ghost use Rattle.link_laws.specs.machine.AtRest.{end_rests};
    ghost use Rattle.link_end.specs.Roles.{role_of, new_role, MayStart};
    ghost use Rattle.link_end.specs.Reports.{report_told, give_told, pass_told, reset_told};
    ghost use Rattle.link_end.specs.Inputs.{fed_input, unit_input, after_some, told_some, after_period, told_period, heard_after};
    ghost use Rattle.link_end.specs.Ends.{IsFree, MayPass, EndStandsFor, EndLeavesOthers, MayTake, Accounts, controls_in};
    ghost use Rattle.link_end.specs.Idle.{IsIdle};

    /// An end of this role, with an owner of 128 blocks for what it sends and one of 512 for what comes. Its window is 4, and it is Up
    /// where it is bare.
    pub fn make(alloc: Global, role: Role, out_owner: u8, in_owner: u8) -> Result<LinkEnd, NoMemory>
        ensures stands { IfOk result (λ k. (pool : PoolState) → IsFree pool out_owner in_owner → EndStandsFor k.link pool (new_link_end (new_role role))) }
        ensures signal { IfOk result (λ k. DeframerStandsFor k.deframer []) }
        ensures units { IfOk result (λ k. ByteLinkStandsFor k.byte_link []) }
        ensures owners { IfOk result (λ k. (k.link.outbox.owner ≡ out_owner) × (k.link.inbox.joiner.owner ≡ in_owner)) }
        ensures accounts { IfOk result (λ k. (pool : PoolState) → used_of pool in_owner ≡ 0 → Accounts k.link pool None) }
    {
        let link = End::make(alloc, role, out_owner, in_owner)?;
        Ok(LinkEnd {
            link,
            deframer: Deframer::new(),
            byte_link: ByteLink::new(),
        })
    }

    /// Takes a message for sending on a pipe that isn't reserved. It isn't empty.
    ///
    /// # Errors
    ///
    /// `NotUp` where the end isn't Up; `TooLong` where the message has more than 4,096 bytes; `Full` where its blocks exceed what the
    /// owner for what goes out has left; tested in this order. Nothing changes then.
    pub fn send(&mut self, pool: &mut Pool, pipe: u8, message: &[u8]) -> Result<(), SendRefused>
        requires stands { (m : Machine) × EndStandsFor self.old.link pool.old m }
        requires sendable { IsSendable (pipe, message.now) }
        ensures stands { (m : Machine) → EndStandsFor self.old.link pool.old m
            → EndStandsFor self.new.link pool.new (after_input m (FromNode (Give (pipe, message.now)))) }
        ensures answer { (m : Machine) → EndStandsFor self.old.link pool.old m → result ≡ give_told m (pipe, message.now) }
        ensures refused { OnErr result ((pool.new ≡ pool.old) × (self.new.link ≡ self.old.link)) }
        ensures elsewhere { EndLeavesOthers pool.old pool.new self.old.link self.new.link }
        ensures inputs { (self.new.deframer ≡ self.old.deframer) × (self.new.byte_link ≡ self.old.byte_link) }
    {
        self.link.send(pool, pipe, message)
    }

    /// Takes a message that lies in a chain of another owner, which is passed on as it is, for sending on a pipe that isn't reserved. It
    /// isn't empty, and lies apart from what comes to the end.
    ///
    /// # Errors
    ///
    /// The chain, whole, and why, as `send`. Nothing changes then.
    pub fn send_chain(
        &mut self,
        pool: &mut Pool,
        pipe: u8,
        chain: Chain,
    ) -> Result<(), (Chain, SendRefused)>
        requires stands { (m : Machine) × EndStandsFor self.old.link pool.old m }
        requires chain { MayPass pool.old self.old.link chain }
        requires sendable { IsSendable (pipe, chain_bytes pool.old chain) }
        ensures stands { (m : Machine) → EndStandsFor self.old.link pool.old m
            → EndStandsFor self.new.link pool.new (after_input m (FromNode (Give (pipe, chain_bytes pool.old chain)))) }
        ensures answer { (m : Machine) → EndStandsFor self.old.link pool.old m → result ≡ pass_told m (pipe, chain_bytes pool.old chain) chain }
        ensures refused { OnErr result ((pool.new ≡ pool.old) × (self.new.link ≡ self.old.link)) }
        ensures back { IfErr result (λ e. e.0 ≡ chain) }
        ensures elsewhere { OnOk result (LeavesOthersBut pool.old pool.new self.old.link.outbox.owner chain
            self.old.link.outbox.queue.items self.new.link.outbox.queue.items) }
        ensures inbox { self.new.link.inbox ≡ self.old.link.inbox }
        ensures owner { self.new.link.outbox.owner ≡ self.old.link.outbox.owner }
        ensures inputs { (self.new.deframer ≡ self.old.deframer) × (self.new.byte_link ≡ self.old.byte_link) }
    {
        self.link.send_chain(pool, pipe, chain)
    }

    /// Takes an LPDU. One outside the grammar is counted and changes nothing else. It asks that the last message was fetched, and that
    /// no fetched one is still in the blocks for what comes, or that the end is held. At most six control frames wait to be fetched
    /// before.
    pub fn take_lpdu(&mut self, pool: &mut Pool, lpdu: &Lpdu) -> LinkReport
        requires stands { (m : Machine) × EndStandsFor self.old.link pool.old m }
        requires ready { MayTake self.old.link pool.old }
        requires room { controls_in self.old.link ≤ 6 }
        ensures stands { (m : Machine) → EndStandsFor self.old.link pool.old m
            → EndStandsFor self.new.link pool.new (after_input m (lpdu_input lpdu.now)) }
        ensures answer { (m : Machine) → EndStandsFor self.old.link pool.old m → result ≡ report_told (report m (lpdu_input lpdu.now)) }
        ensures elsewhere { EndLeavesOthers pool.old pool.new self.old.link self.new.link }
        ensures inputs { (self.new.deframer ≡ self.old.deframer) × (self.new.byte_link ≡ self.old.byte_link) }
    {
        self.link.take_read(pool, &read_lpdu(lpdu))
    }

    // Tells of a frame that was refused on its way.
    fn take_broken(fault: FrameFault) -> LinkReport
        ensures { (m : Machine) → result ≡ report_told (report m (TakeBroken fault)) }
    {
        LinkReport {
            refused: Some(fault),
            ..LinkReport::nothing()
        }
    }

    // Takes the frame that ended, where one did.
    fn take_fed(&mut self, pool: &mut Pool, fed: &Fed) -> LinkReport
        requires stands { (m : Machine) × EndStandsFor self.old.link pool.old m }
        requires ready { MayTake self.old.link pool.old }
        requires room { controls_in self.old.link ≤ 6 }
        ensures stands { (m : Machine) → EndStandsFor self.old.link pool.old m → EndStandsFor self.new.link pool.new (after_some m (fed_input fed.now)) }
        ensures answer { (m : Machine) → EndStandsFor self.old.link pool.old m → result ≡ told_some m (fed_input fed.now) }
        ensures elsewhere { EndLeavesOthers pool.old pool.new self.old.link self.new.link }
        ensures inputs { (self.new.deframer ≡ self.old.deframer) × (self.new.byte_link ≡ self.old.byte_link) }
    {
        match fed {
            Fed::Nothing => LinkReport::nothing(),
            Fed::Frame(lpdu) => self.take_lpdu(pool, lpdu),
            Fed::Refused(fault) => Self::take_broken(*fault),
        }
    }

    /// Takes one period of a line record, in which a CLF hears S2 and a UICC S1: the frame that ends there, if one does, comes to the
    /// end or is refused. A deactivated line breaks an open frame and ends activation; a byte that is no period breaks an open frame. It
    /// asks for what `take_lpdu` asks for.
    pub fn take_period(&mut self, pool: &mut Pool, byte: u8) -> LinkReport
        requires stands { (m : Machine) × EndStandsFor self.old.link pool.old m }
        requires ready { MayTake self.old.link pool.old }
        requires room { controls_in self.old.link ≤ 6 }
        ensures stands { (m : Machine) (seen : List Symbol) → EndStandsFor self.old.link pool.old m → DeframerStandsFor self.old.deframer seen
            → EndStandsFor self.new.link pool.new (after_period m seen (period_at byte)) }
        ensures answer { (m : Machine) (seen : List Symbol) → EndStandsFor self.old.link pool.old m → DeframerStandsFor self.old.deframer seen
            → result ≡ told_period m seen (period_at byte) }
        ensures seen { (m : Machine) (seen : List Symbol) → EndStandsFor self.old.link pool.old m → DeframerStandsFor self.old.deframer seen
            → DeframerStandsFor self.new.deframer (heard_after m.role seen (period_at byte)) }
        ensures elsewhere { EndLeavesOthers pool.old pool.new self.old.link self.new.link }
        ensures inputs { self.new.byte_link ≡ self.old.byte_link }
    {
        match period_of(byte) {
            Some(Period::Bits { s1, s2 }) => {
                let fed = self.deframer.feed(self.link.heard_bit(s1, s2));
                self.take_fed(pool, &fed)
            }
            Some(Period::Suspended) => LinkReport::nothing(),
            Some(Period::ResumeAsked) => LinkReport::nothing(),
            Some(Period::Deactivated) => {
                let refused = fault_in(&self.deframer.break_off());
                let report = self.link.deactivate(pool);
                LinkReport { refused, ..report }
            }
            None => {
                let fed = self.deframer.break_off();
                self.take_fed(pool, &fed)
            }
        }
    }

    /// Takes a byte of a byte link: the unit that ends there, if one does, is an LPDU, a tick or a refused frame. It asks for what
    /// `take_lpdu` asks for.
    pub fn take_byte(&mut self, pool: &mut Pool, byte: u8) -> LinkReport
        requires stands { (m : Machine) × EndStandsFor self.old.link pool.old m }
        requires ready { MayTake self.old.link pool.old }
        requires room { controls_in self.old.link ≤ 6 }
        ensures stands { (m : Machine) (seen : List ℕ) → EndStandsFor self.old.link pool.old m → ByteLinkStandsFor self.old.byte_link seen
            → EndStandsFor self.new.link pool.new (after_some m (unit_input (unit_given (byte ∷ seen)))) }
        ensures answer { (m : Machine) (seen : List ℕ) → EndStandsFor self.old.link pool.old m → ByteLinkStandsFor self.old.byte_link seen
            → result ≡ told_some m (unit_input (unit_given (byte ∷ seen))) }
        ensures seen { (seen : List ℕ) → ByteLinkStandsFor self.old.byte_link seen → ByteLinkStandsFor self.new.byte_link (byte ∷ seen) }
        ensures elsewhere { EndLeavesOthers pool.old pool.new self.old.link self.new.link }
        ensures inputs { self.new.deframer ≡ self.old.deframer }
    {
        match self.byte_link.feed(byte) {
            Unit::Nothing => LinkReport::nothing(),
            Unit::Tick => self.tick(pool),
            Unit::Frame(lpdu) => self.take_lpdu(pool, &lpdu),
            Unit::Refused(fault) => Self::take_broken(fault),
        }
    }

    /// Whether nothing is under way: the end is open and Up, no control frame waits, and all fragments that were offered are acknowledged. A
    /// tick changes nothing then and tells nothing, and no frame is to be sent. False says nothing.
    #[inline(always)]
    pub fn is_idle(&self) -> bool
        ensures { (pool : PoolState) (m : Machine) → EndStandsFor self.now.link pool m → IsTrue result → IsIdle m }
    {
        self.link.is_idle()
    }

    /// One tick of time. At most six control frames wait to be fetched before.
    #[inline(always)]
    pub fn tick(&mut self, pool: &mut Pool) -> LinkReport
        requires stands { (m : Machine) × EndStandsFor self.old.link pool.old m }
        requires room { controls_in self.old.link ≤ 6 }
        ensures stands { (m : Machine) → EndStandsFor self.old.link pool.old m → EndStandsFor self.new.link pool.new (after_input m Tick) }
        ensures answer { (m : Machine) → EndStandsFor self.old.link pool.old m → result ≡ report_told (report m Tick) }
        ensures elsewhere { EndLeavesOthers pool.old pool.new self.old.link self.new.link }
        ensures inputs { (self.new.deframer ≡ self.old.deframer) × (self.new.byte_link ≡ self.old.byte_link) }
    {
        self.link.tick(pool)
    }

    /// A reset of the link is asked for, with this window, which is 1 to 4, or with the end's own one. At most six control frames wait
    /// to be fetched before.
    ///
    /// # Errors
    ///
    /// `Inactive` where activation isn't done, and `Waiting` where the end waits already. Nothing changes then.
    pub fn reset(&mut self, pool: &mut Pool, window: Option<u8>) -> Result<LinkReport, ResetRefused>
        requires stands { (m : Machine) × EndStandsFor self.old.link pool.old m }
        requires window { IfSome window (λ w. (1 ≤ w) × (w ≤ 4)) }
        requires room { controls_in self.old.link ≤ 6 }
        ensures stands { (m : Machine) → EndStandsFor self.old.link pool.old m → EndStandsFor self.new.link pool.new (after_input m (Reset window)) }
        ensures answer { (m : Machine) → EndStandsFor self.old.link pool.old m → result ≡ reset_told m window }
        ensures elsewhere { EndLeavesOthers pool.old pool.new self.old.link self.new.link }
        ensures inputs { (self.new.deframer ≡ self.old.deframer) × (self.new.byte_link ≡ self.old.byte_link) }
    {
        self.link.reset(pool, window)
    }

    /// Activation begins, with the sync identifier of a UICC or the power code of a CLF, which is 00 or 01. The link goes Down. At most
    /// six control frames wait to be fetched before. A bare end only goes Down.
    pub fn activate(&mut self, pool: &mut Pool, value: u16) -> LinkReport
        requires stands { (m : Machine) × EndStandsFor self.old.link pool.old m }
        requires start { MayStart (role_of self.old.link.activation) (ActStart value) }
        requires room { controls_in self.old.link ≤ 6 }
        ensures stands { (m : Machine) → EndStandsFor self.old.link pool.old m → EndStandsFor self.new.link pool.new (after_input m (Start value)) }
        ensures answer { (m : Machine) → EndStandsFor self.old.link pool.old m → result ≡ report_told (report m (Start value)) }
        ensures elsewhere { EndLeavesOthers pool.old pool.new self.old.link self.new.link }
        ensures inputs { (self.new.deframer ≡ self.old.deframer) × (self.new.byte_link ≡ self.old.byte_link) }
    {
        self.link.activate(pool, value)
    }

    /// Activation ends, and the link with it. At most six control frames wait to be fetched before.
    pub fn deactivate(&mut self, pool: &mut Pool) -> LinkReport
        requires stands { (m : Machine) × EndStandsFor self.old.link pool.old m }
        requires room { controls_in self.old.link ≤ 6 }
        ensures stands { (m : Machine) → EndStandsFor self.old.link pool.old m → EndStandsFor self.new.link pool.new (after_input m Stop) }
        ensures answer { (m : Machine) → EndStandsFor self.old.link pool.old m → result ≡ report_told (report m Stop) }
        ensures elsewhere { EndLeavesOthers pool.old pool.new self.old.link self.new.link }
        ensures inputs { (self.new.deframer ≡ self.old.deframer) × (self.new.byte_link ≡ self.old.byte_link) }
    {
        self.link.deactivate(pool)
    }

    /// Fetches the LPDU that is to be sent now: the control frames in the order in which they were made, ACT frames among them, and
    /// then the fragments. None where nothing is to be sent.
    #[inline(always)]
    pub fn next_out(&mut self, pool: &Pool) -> Option<Lpdu>
        requires { (m : Machine) × EndStandsFor self.old.link pool.now m }
        ensures stands { (m : Machine) → EndStandsFor self.old.link pool.now m → EndStandsFor self.new.link pool.now (after_input m Fetch) }
        ensures answer { (m : Machine) → EndStandsFor self.old.link pool.now m → result ≡ option_map lpdu_of (next_frame m) }
        ensures read { (m : Machine) → EndStandsFor self.old.link pool.now m → IfSome (next_frame m) (λ c. control_of (lpdu_of c) ≡ Ok c) }
        ensures boxes { (self.new.link.outbox ≡ self.old.link.outbox) × (self.new.link.inbox ≡ self.old.link.inbox) }
        ensures inputs { (self.new.deframer ≡ self.old.deframer) × (self.new.byte_link ≡ self.old.byte_link) }
    {
        self.link.next_out(pool)
    }

    /// The oldest message that came and wasn't fetched, with its pipe, in a chain that is the caller's from now on.
    pub fn next_message(&mut self) -> Option<(u8, Chain)>
        ensures stands { (pool : PoolState) (m : Machine) → EndStandsFor self.old.link pool m
            → EndStandsFor self.new.link pool (after_input m (FromNode FetchMessage)) }
        ensures answer { (pool : PoolState) (m : Machine) → EndStandsFor self.old.link pool m
            → option_map (λ x. (x.0, chain_bytes pool x.1)) result ≡ oldest m.got }
        ensures fetched { self.new.link.inbox.got ≡ None }
        ensures rest { self.new.link ≡ record self.old.link { inbox = record self.old.link.inbox { got = None } } }
        ensures inputs { (self.new.deframer ≡ self.old.deframer) × (self.new.byte_link ≡ self.old.byte_link) }
        ensures accounts { (pool : PoolState) (m : Machine) → EndStandsFor self.old.link pool m → Accounts self.old.link pool None
            → Accounts self.new.link pool (option_map (λ x. x.1) result) }
    {
        self.link.next_message()
    }

    /// Its node holds the end, so that it takes no fragments, or lets it go. At most six control frames wait to be fetched before.
    pub fn hold(&mut self, held: bool)
        requires room { controls_in self.old.link ≤ 6 }
        ensures stands { (pool : PoolState) (m : Machine) → EndStandsFor self.old.link pool m
            → EndStandsFor self.new.link pool (after_input m (FromNode (Hold held))) }
        ensures boxes { (self.new.link.outbox ≡ self.old.link.outbox) × (self.new.link.inbox ≡ self.old.link.inbox) }
        ensures inputs { (self.new.deframer ≡ self.old.deframer) × (self.new.byte_link ≡ self.old.byte_link) }
    {
        self.link.hold(held);
    }

    /// Whether its node holds the end, so that it takes no fragments.
    pub fn is_held(&self) -> bool
        ensures { (pool : PoolState) (m : Machine) → EndStandsFor self.now.link pool m → result ≡ is_held m }
    {
        self.link.is_held()
    }

    /// How many control frames wait to be fetched, ACT frames among them. Where `next_out` is called until nothing is to be sent,
    /// none does.
    pub fn controls_due(&self) -> u16
        ensures { result ≡ controls_in self.now.link }
    {
        self.link.controls_due()
    }

    /// The state of the link.
    pub fn state(&self) -> LinkState
        ensures { (pool : PoolState) (m : Machine) → EndStandsFor self.now.link pool m → result ≡ m.shdlc.phase }
    {
        self.link.state()
    }

    /// Whether the end is at rest: it doesn't wait for the acceptance of a reset, and where it is Up all messages that were sent in its
    /// session are acknowledged. This project's own.
    pub fn is_at_rest(&self) -> bool
        ensures { (pool : PoolState) (m : Machine) → EndStandsFor self.now.link pool m → result ≡ end_rests m }
    {
        self.link.is_at_rest()
    }
}

// What is wrong with a frame that ended so.
fn fault_in(fed: &Fed) -> Option<FrameFault>
    ensures { result ≡ fault_in fed.now }
{
    match fed {
        Fed::Nothing => None,
        Fed::Frame(_lpdu) => None,
        Fed::Refused(fault) => Some(*fault),
    }
}
