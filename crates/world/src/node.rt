//! The node of a bare end: the end, the blocks of memory of its messages, and what is noted of the end.
ghost use Rattle.std.specs.Prelude.{◌≡◌, IfOk};
ghost use Rattle.block_pool.specs.Pool.{IsLive, chain_bytes};

use block_pool::{Chain, Pool};
use link_end::{LinkReport, ResetRefused, SendRefused};
use std::alloc::{AllocError, Global};
use std::mem::replace;
use swp_base::{Control, NoMemory, Role};
use swp_lpdu::LpduFault;
use trace_model::{End, Entry, NoCause, Octets};

/// The owners of blocks in the pool of a bare end: one for what it sends, and one for what comes.
const SENDER: u8 = 0;

const RECEIVER: u8 = 1;

/// The blocks of both owners. This project's own.
const QUOTAS: [u16; 2] = [128, 512];

/// Where something is noted: at which end, and in the session with which number.
#[derive(Clone, Copy)]
pub(crate) struct Place {
    pub(crate) at: End,
    pub(crate) session: u32,
}

/// The node of a bare end.
#[derive(Drop)]
pub(crate) struct Node {
    pub(crate) end: link_end::End,
    pub(crate) pool: Pool,
    // How many messages of the session are acknowledged; 4,294,967,295 stands for any greater number.
    acked: u32,
}

impl Node {
    ghost use Rattle.std.specs.Prelude.{◌≡◌, ℕ, ◌<◌, ◌≤◌, ◌^◌, [], ◌∷◌, ◌++◌, OnOk, OnErr, IfOk, IfErr, IfSome, IsOk, ◌↔◌, List, None, Some, Ok, length, map};
    ghost use Rattle.swp_base.specs.declared.control_frames.Control.{Control as Frame};
    ghost use Rattle.swp_lpdu.specs.Controls.{control_of};
    ghost use Rattle.hcp_packet.specs.Packets.{IsSendable};
    ghost use Rattle.link_laws.specs.machine.Machine.{LinkEnd as Machine, Bare, Message, report, new_link_end, after_input, turn, give_refusal};
    ghost use Rattle.link_laws.specs.machine.Machine.{reset_refusal, whole_acked};
    ghost use Rattle.link_laws.specs.machine.AtRest.{end_rests};
    ghost use Rattle.link_laws.specs.machine.Machine.LinkInput.{Take, Tick, Reset};
    ghost use Rattle.link_laws.specs.machine.Machine.Turn.{Give, Hold, FetchMessage};
    ghost use Rattle.link_laws.specs.entries.Entries.{told};
    ghost use Rattle.link_laws.specs.entries.Entries.Entry.{Got};
    ghost use Rattle.history.specs.Follows.{as_noted};
    ghost use Rattle.world.specs.Noting.{acked_on, reported};
    ghost use Rattle.link_wires.specs.Notes.{side_of};
    ghost use Rattle.world.specs.Nodes.{NodeStandsFor, HasInput, CanFetch, HasFewDue};
    ghost use Rattle.link_wires.specs.Notes.{AreNoted};
    ghost use Rattle.link_end.specs.Idle.{IsIdle};
    ghost use Rattle.std.specs.Prelude.{IsTrue};

    /// A new end, which is Up.
    pub(crate) fn make(alloc: Global) -> Result<Node, NoMemory>
        ensures { IfOk result (λ n. NodeStandsFor n (new_link_end Bare)) }
    {
        let pool = Pool::make(alloc, &QUOTAS)?;
        let end = link_end::End::make(alloc, Role::Bare, SENDER, RECEIVER)?;
        Ok(Node {
            end,
            pool,
            acked: 0,
        })
    }

    // What an input did is noted, but for the message that came.
    #[inline(always)]
    fn note(
        &mut self,
        place: Place,
        report: &LinkReport,
        entries: &mut Vec<Entry>,
    ) -> Result<(), AllocError>
        ensures counted { self.new ≡ record self.old { acked = acked_on self.old.acked report.now } }
        ensures noted { OnOk result (entries.new.items ≡ entries.old.items ++ reported place.at place.session report.now self.new.acked) }
    {
        if report.ended.is_some() {
            self.acked = 0;
        }
        self.acked = self.acked.saturating_add(u32::from(report.acked));
        let Place { at, session } = place;
        if let Some(cause) = report.ended {
            entries.push(Entry::Down { at, cause })?;
        }
        if report.began {
            entries.push(Entry::Up { at, session })?;
        }
        if report.became_active {
            entries.push(Entry::Active { at })?;
        }
        if let Some(tries) = report.gave_up {
            entries.push(Entry::GaveUp { at, tries })?;
        }
        if report.acked > 0 {
            let count = self.acked;
            entries.push(Entry::Acked { at, session, count })?;
        }
        Ok(())
    }

    // The message that came, where one did, is noted, and its blocks are given back.
    fn note_message(
        &mut self,
        spare: &mut Vec<u8>,
        place: Place,
        entries: &mut Vec<Entry>,
    ) -> Result<(), AllocError>
        requires { (m : Machine) × CanFetch self.old m }
        ensures { (m : Machine) → HasInput self.old m → OnOk result (NodeStandsFor self.new (turn m FetchMessage)
            × AreNoted place.at entries.old.items entries.new.items (map (Got (side_of place.at) place.session) m.got)) }
    {
        let Some((pid, chain)) = self.end.next_message() else {
            return Ok(());
        };
        let message = copied(spare, &self.pool, &chain)?;
        let Place { at, session } = place;
        entries.push(Entry::Got {
            at,
            session,
            pid,
            message,
        })?;
        self.pool.give(chain);
        Ok(())
    }

    /// Takes what a frame says, and notes what it did and the message that it brought.
    pub(crate) fn take(
        &mut self,
        spare: &mut Vec<u8>,
        place: Place,
        read: &Result<Control, LpduFault>,
        entries: &mut Vec<Entry>,
    ) -> Result<(), AllocError>
        requires stands { (m : Machine) × NodeStandsFor self.old m × HasFewDue m }
        requires read { (lpdu : List ℕ) × (read.now ≡ control_of lpdu) }
        ensures { (m : Machine) (c : Frame) → NodeStandsFor self.old m → HasFewDue m → read.now ≡ Ok c → length m.sent < 2 ^ 32
            → OnOk result (NodeStandsFor self.new (turn (after_input m (Take c)) FetchMessage)
            × AreNoted place.at entries.old.items entries.new.items
            (told (side_of place.at) place.session (report m (Take c)) (whole_acked (after_input m (Take c))))) }
    {
        let report = self.end.take_read(&mut self.pool, read);
        self.note(place, &report, entries)?;
        self.note_message(spare, place, entries)
    }

    /// Whether nothing is under way at the end: a tick changes nothing there and tells nothing, and no frame is to be sent. False says nothing.
    #[inline(always)]
    pub(crate) fn is_idle(&self) -> bool
        ensures { (m : Machine) → NodeStandsFor self.now m → IsTrue result → IsIdle m }
    {
        self.end.is_idle()
    }

    /// One tick, and what it did is noted.
    pub(crate) fn tick(&mut self, place: Place, entries: &mut Vec<Entry>) -> Result<(), AllocError>
        requires { (m : Machine) × NodeStandsFor self.old m × HasFewDue m }
        ensures { (m : Machine) → NodeStandsFor self.old m → HasFewDue m → length m.sent < 2 ^ 32
            → OnOk result (NodeStandsFor self.new (after_input m Tick)
            × AreNoted place.at entries.old.items entries.new.items
            (told (side_of place.at) place.session (report m Tick) (whole_acked (after_input m Tick)))) }
    {
        let report = self.end.tick(&mut self.pool);
        self.note(place, &report, entries)
    }

    /// A reset is asked for, and what it did is noted. Why it is refused, where it is; nothing changes then.
    pub(crate) fn reset(
        &mut self,
        place: Place,
        window: Option<u8>,
        entries: &mut Vec<Entry>,
    ) -> Result<Option<NoCause>, AllocError>
        requires stands { (m : Machine) × NodeStandsFor self.old m × HasFewDue m }
        requires window { IfSome window (λ w. (1 ≤ w) × (w ≤ 4)) }
        ensures refused { (m : Machine) → NodeStandsFor self.old m → HasFewDue m → IfOk result (λ cause. cause ≡ as_noted (reset_refusal m)) }
        ensures unchanged { (m : Machine) → NodeStandsFor self.old m → HasFewDue m
            → IfOk result (λ cause. IfSome cause (λ why. NodeStandsFor self.new m × (entries.new.items ≡ entries.old.items))) }
        ensures stands { (m : Machine) → NodeStandsFor self.old m → HasFewDue m → length m.sent < 2 ^ 32
            → IfOk result (λ cause. cause ≡ None → NodeStandsFor self.new (after_input m (Reset window))
            × AreNoted place.at entries.old.items entries.new.items
            (told (side_of place.at) place.session (report m (Reset window)) (whole_acked (after_input m (Reset window))))) }
    {
        match self.end.reset(&mut self.pool, window) {
            Ok(report) => {
                self.note(place, &report, entries)?;
                Ok(None)
            }
            Err(ResetRefused::Inactive) => Ok(Some(NoCause::Inactive)),
            Err(ResetRefused::Waiting) => Ok(Some(NoCause::Waiting)),
        }
    }

    /// A message is given to send. Why it is refused, where it is; nothing changes then.
    pub(crate) fn give(&mut self, pid: u8, message: &[u8]) -> Option<NoCause>
        requires stands { (m : Machine) × NodeStandsFor self.old m }
        requires sendable { IsSendable (pid, message.now) }
        ensures refused { (m : Machine) → NodeStandsFor self.old m → result ≡ as_noted (give_refusal m (pid, message.now)) }
        ensures stands { (m : Machine) → NodeStandsFor self.old m → NodeStandsFor self.new (turn m (Give (pid, message.now))) }
    {
        match self.end.send(&mut self.pool, pid, message) {
            Ok(()) => None,
            Err(SendRefused::NotUp) => Some(NoCause::NotUp),
            Err(SendRefused::TooLong { .. }) => Some(NoCause::TooLong),
            Err(SendRefused::Full { need, spare }) => Some(NoCause::Full { need, spare }),
        }
    }

    /// The end is held, so that it takes no fragments, or let go.
    pub(crate) fn hold(&mut self, held: bool)
        requires { (m : Machine) × NodeStandsFor self.old m × HasFewDue m }
        ensures { (m : Machine) → NodeStandsFor self.old m → HasFewDue m → NodeStandsFor self.new (turn m (Hold held)) }
    {
        self.end.hold(held);
    }

    /// Whether the end doesn't wait for the acceptance of a reset, and where it is up all messages sent in its session are acknowledged.
    pub(crate) fn is_at_rest(&self) -> bool
        ensures { (m : Machine) → NodeStandsFor self.now m → result ≡ end_rests m }
    {
        self.end.is_at_rest()
    }
}

// The bytes of a chain, in memory that is left over.
fn copied(spare: &mut Vec<u8>, pool: &Pool, chain: &Chain) -> Result<Octets, AllocError>
    requires { IsLive pool.now chain.now }
    ensures { IfOk result (λ octets. octets ≡ chain_bytes pool.now chain.now) }
{
    let alloc = *spare.allocator();
    let mut bytes = replace(spare, Vec::new(alloc));
    bytes.resize(pool.len(chain) as usize, 0)?;
    let _count = pool.copy_out(chain, 0, &mut bytes);
    Ok(Octets { bytes })
}
