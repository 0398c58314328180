//! How a message has its turn.
ghost use Rattle.std.specs.Prelude.{◌≡◌, ◌∷◌, [], IfSome};
ghost use Rattle.node_deeds.specs.declared.deeds.Deed.TheVariants.{PassesOn};

use crate::node::{InBuffer, MESSAGE, Node};
use crate::reporting::note;
use crate::running::Ran;
use node_deeds::{Deed, Deeds, Shortfall, lack, put_controller_deeds, put_host_deeds};
use swp_base::Nv;
use trace_model::{Entry, Octets, Watch};

// The host to which a message is relayed, with its blocks, where these deeds are all that is done with it.
fn relayed_to(deeds: &[Deed]) -> Option<u8>
    ensures { IfSome result (λ to. deeds.now ≡ PassesOn to ∷ []) }
{
    match deeds {
        [Deed::PassesOn { host }] => Some(*host),
        _ => None,
    }
}

impl<N: Nv + Drop> Node<N> {
    ghost use Rattle.node_core.specs.Running.{ran_so};
    ghost use Rattle.std.specs.Prelude.{◌≡◌, ◌≢◌, ◌≤◌, ◌∷◌, Bool, List, [], IsTrue, IfSome};
    ghost use Rattle.trace_model.specs.declared.entry.Entry.{Entry as Noted};
    ghost use Rattle.node_machine.specs.Parts.{Port, Work};
    ghost use Rattle.node_machine.specs.Parts.Deed.{Sends};
    ghost use Rattle.node_machine.specs.Carrying.{done, port_at};
    ghost use Rattle.node_machine.specs.Turns.{deeds_of, lets_go, have_turns, passes};
    ghost use Rattle.hcp_packet.specs.Packets.{IsSendable};
    ghost use Rattle.node_deeds.specs.Shown.{deeds_shown};
    ghost use Rattle.node_deeds.specs.Cores.{AreDoable};
    ghost use Rattle.node_core.specs.Deeds.{handling};
    ghost use Rattle.node_core.specs.Handling.{has_turn};
    ghost use Rattle.node_ends.specs.Ends.{EndsStandFor, FewAreDue, held_at, got_at};
    ghost use Rattle.node_core.specs.Nodes.{IsInStep, IsUsable, LiesInBuffer, IsInSomeStep, CarriesWhere, CarriesOutWhere};
    ghost use Rattle.node_core.specs.Bringing.{Brings};
    ghost use Rattle.node_core.specs.Faults.{CountsFaults};
    ghost use Rattle.node_core.specs.Turning.{IsDecided, IsNodeInOrder, AreFewDue};

    // No message is held at an end: it takes fragments again, if it was held.
    fn let_go(&mut self, host: u8, held: bool)
        requires few { (ports : List Port) × EndsStandFor self.old.ends ports × FewAreDue (port_at ports host) }
        ensures carried { (noted : List Noted) (short : Bool) (start : List Noted) (w : Work) → IsInStep self.old noted short start w
            → held ≡ held_at w.ports host → IsInStep self.new noted short start (lets_go host w) }
        ensures store { self.new.store ≡ self.old.store }
        ensures number { self.new.number ≡ self.old.number }
    {
        if held {
            self.ends.hold(host, false);
        }
    }

    // The message that waits at the end of the link with this host has its turn: it goes on to another host, with its blocks.
    fn relay<W: Watch>(&mut self, host: u8, to: u8, pipe: u8, message: &[u8], watch: &mut W)
        requires waits { IsInSomeStep W.noted W.is_short (self.old, watch.old) (λ w. got_at w.ports host ≡ (pipe, message.now) ∷ []) }
        ensures carried { CarriesWhere (λ w. got_at w.ports host ≡ (pipe, message.now) ∷ []) W.noted W.is_short (self.old, watch.old) (self.new, watch.new)
            (λ w. done host (Sends to (pipe, message.now)) (has_turn host (pipe, message.now) w)) }
        ensures store { self.new.store ≡ self.old.store }
        ensures number { self.new.number ≡ self.old.number }
        ensures tasks { self.new.tasks ≡ self.old.tasks }
    {
        let turn = Entry::Turn {
            at: self.end_at(host),
            pid: pipe,
            message: Octets::new(self.alloc),
        };
        note(watch, turn, message);
        self.ends.set_holds(host, false);
        if self.ends.pass_on(host, to) {
            let sent = Entry::Sent {
                at: self.end_at(to),
                session: 0,
                pid: pipe,
                message: Octets::new(self.alloc),
            };
            note(watch, sent, message);
        }
    }

    // The message that waits at the end of the link with this host has its turn, as it was decided: it is held back where these deeds
    // lack room, goes on with its blocks where it is only relayed, and is handled otherwise.
    #[tactic(auto, using(crate::proofs::Faults::faults_stay, crate::proofs::Faults::faults_then))]
    fn turn_decided<W: Watch>(
        &mut self,
        host: u8,
        deeds: &[Deed],
        short: Option<Shortfall>,
        held: bool,
        pipe: u8,
        message: &[u8],
        watch: &mut W,
    ) -> Ran
        requires usable { IsUsable self.old.store }
        requires live { IsTrue self.old.store.journal.live }
        requires decided { IsInSomeStep W.noted W.is_short (self.old, watch.old)
            (λ w. IsDecided host (handling self.old (pipe, message.now)) deeds.now short held w × (got_at w.ports host ≡ (pipe, message.now) ∷ [])) }
        ensures carried { CarriesOutWhere N.writes (λ w. IsDecided host (handling self.old (pipe, message.now)) deeds.now short held w
            × (got_at w.ports host ≡ (pipe, message.now) ∷ [])) W.noted W.is_short (self.old, watch.old) (self.new, watch.new)
            (have_turns host ((pipe, message.now) ∷ [])) }
        ensures ran { result ≡ ran_so self.new.store.journal.live }
        ensures faults { CountsFaults N.faults self.old.store self.new.store }
        ensures number { self.new.number ≡ self.old.number }
        ensures usable { IsUsable self.new.store }
    {
        if let Some(Shortfall { need, spare }) = short {
            self.hold_back(host, need, spare, watch);
            return Ran::Done;
        }
        if let Some(to) = relayed_to(deeds) {
            self.relay(host, to, pipe, message, watch);
            self.let_go(host, held);
            return Ran::Done;
        }
        let turn = Entry::Turn {
            at: self.end_at(host),
            pid: pipe,
            message: Octets::new(self.alloc),
        };
        note(watch, turn, message);
        self.ends.give_back(host);
        self.ends.set_holds(host, false);
        if !self.carry_all(host, deeds, pipe, message, watch).is_done() {
            return Ran::Stopped;
        }
        self.let_go(host, held);
        Ran::Done
    }

    // What a node does with this message, which waits at its end with this host, is put into a list, which is empty. The link of a host
    // is the one with its own number.
    #[inline(always)]
    fn deeds_for(&mut self, host: u8, pipe: u8, message: &[u8], deeds: &mut Deeds)
        requires usable { IsUsable self.old.store }
        requires live { IsTrue self.old.store.journal.live }
        requires own { self.old.number ≢ 0 → host ≡ self.old.number }
        requires some { 1 ≤ host }
        requires host { host ≤ 7 }
        requires sendable { IsSendable (pipe, message.now) }
        requires may { (noted : List Noted) × (full : Bool) × (start : List Noted) × (w : Work) × IsInStep self.old noted full start w
            × IsNodeInOrder w.core w.ports }
        requires none { deeds.old.items ≡ [] }
        ensures deeds { (noted : List Noted) (full : Bool) (start : List Noted) (w : Work) → IsInStep self.old noted full start w
            → IsNodeInOrder w.core w.ports
            → deeds_of w.core w.ports host (pipe, message.now) ≡ deeds_shown (handling self.old (pipe, message.now)) deeds.new.items }
        ensures doable { AreDoable deeds.new.items }
        ensures same { self.new ≡ self.old }
    {
        if self.number == 0 {
            let seen = self.ends.seen();
            put_controller_deeds(
                deeds,
                &mut self.store,
                seen.desks.as_slice(),
                seen.up,
                host,
                pipe,
                message,
            );
            return;
        }
        let Some(desk) = self.ends.desk(0) else {
            return;
        };
        let is_up = self.ends.has_link(desk.host);
        put_host_deeds(
            deeds,
            &mut self.store,
            &desk,
            is_up,
            &self.tasks,
            pipe,
            message,
        );
    }

    /// The message that waits at the end of the link with this host has its turn, where one does; then the end takes fragments again, unless
    /// the message is held back. The node is in order, and at most six control frames wait at this end to be sent. A
    /// message that waits lies in the buffer already, or none does.
    #[inline(never)]
    #[tactic(auto, using(crate::proofs::Faults::faults_stay, crate::proofs::Faults::faults_then))]
    pub(crate) fn have_turns<W: Watch>(
        &mut self,
        host: u8,
        lies: Option<InBuffer>,
        buffer: &mut [u8; MESSAGE],
        watch: &mut W,
    ) -> Ran
        requires usable { IsUsable self.old.store }
        requires live { IsTrue self.old.store.journal.live }
        requires some { 1 ≤ host }
        requires host { host ≤ 7 }
        requires lies { LiesInBuffer self.old.ends buffer.old lies }
        requires may { IsInSomeStep W.noted W.is_short (self.old, watch.old) (λ w. IsNodeInOrder w.core w.ports × FewAreDue (port_at w.ports host)) }
        ensures carried { (start : List Noted) (w : Work) → IsInStep self.old (W.noted watch.old) (W.is_short watch.old) start w
            → IsNodeInOrder w.core w.ports → FewAreDue (port_at w.ports host) → Brings N.writes self.old.store.journal.nv self.new.store.journal.nv
            (IsInStep self.new (W.noted watch.new) (W.is_short watch.new) start) (have_turns host (got_at w.ports host)) w }
        ensures ran { result ≡ ran_so self.new.store.journal.live }
        ensures faults { CountsFaults N.faults self.old.store self.new.store }
        ensures number { self.new.number ≡ self.old.number }
        ensures usable { IsUsable self.new.store }
    {
        // The list comes first: it is long, and cleared twice where anything stands before it.
        let mut deeds = Deeds::new();
        let held = self.ends.is_held(host);
        // The message is read, unless it is the one that lies in the buffer.
        let waits = match lies {
            Some(there) if there.host == host => Some((there.pipe, usize::from(there.len))),
            _ => self.ends.read(host, buffer),
        };
        let Some((pipe, len)) = waits else {
            self.let_go(host, held);
            return Ran::Done;
        };
        let message = &buffer[..len];
        let spares = self.ends.spares();
        self.deeds_for(host, pipe, message, &mut deeds);
        let short = lack(deeds.as_slice(), host, message.len(), &spares);
        self.turn_decided(host, deeds.as_slice(), short, held, pipe, message, watch)
    }

    /// A node goes once through its ends, ascending, and the messages that wait there have their turns. It is in order, and at most six
    /// control frames wait at each end to be sent. A message that waits lies in the buffer already, or none does.
    #[inline(never)]
    #[tactic(auto, using(crate::proofs::Faults::faults_stay, crate::proofs::Faults::faults_then))]
    pub(crate) fn passes<W: Watch>(
        &mut self,
        mut lies: Option<InBuffer>,
        buffer: &mut [u8; MESSAGE],
        watch: &mut W,
    ) -> Ran
        requires usable { IsUsable self.old.store }
        requires live { IsTrue self.old.store.journal.live }
        requires lies { LiesInBuffer self.old.ends buffer.old lies }
        requires may { IsInSomeStep W.noted W.is_short (self.old, watch.old) (λ w. IsNodeInOrder w.core w.ports × AreFewDue w.ports) }
        ensures carried { CarriesOutWhere N.writes (λ w. IsNodeInOrder w.core w.ports × AreFewDue w.ports) W.noted W.is_short (self.old, watch.old)
            (self.new, watch.new) passes }
        ensures ran { result ≡ ran_so self.new.store.journal.live }
        ensures faults { CountsFaults N.faults self.old.store self.new.store }
        ensures number { self.new.number ≡ self.old.number }
        ensures usable { IsUsable self.new.store }
    {
        for i in 0..7 {
            if self.ends.rests(i) {
                continue;
            }
            let Some(host) = self.ends.host(i) else {
                return Ran::Done;
            };
            if !self.have_turns(host, lies, buffer, watch).is_done() {
                return Ran::Stopped;
            }
            lies = None;
        }
        Ran::Done
    }
}
