//! How a node carries out one deed.

use crate::node::Node;
use crate::reporting::note;
use crate::running::Ran;
use hci_tables::Command;
use link_end::SendRefused;
use node_deeds::{About, Deed, InitEnd, Unanswered, ordered_by};
use pipe_table::PipeRow;
use swp_base::Nv;
use trace_model::{End, Entry, Octets, Watch};

impl<N: Nv + Drop> Node<N> {
    ghost use Rattle.node_core.specs.Running.{ran_so};
    ghost use Rattle.std.specs.Prelude.{◌≡◌, ◌<◌, ◌∷◌, ℕ, true, List, [], map, length, IsTrue, IfErr, OnErr};
    ghost use Rattle.hcp_packet.specs.Packets.{IsSendable};
    ghost use Rattle.hci_tables.specs.Commands.{IsCommand};
    ghost use Rattle.gate_admin.specs.Decide.{ends_of};
    ghost use Rattle.link_laws.specs.machine.Machine.Turn.{Give};
    ghost use Rattle.node_machine.specs.Parts.{Core, Port};
    ghost use Rattle.node_machine.specs.Parts.Deed.{Asks, SaysOk, Drops, Orders, Hears, Ends};
    ghost use Rattle.node_deeds.specs.Shown.{about_shown, creation_of_row, goes_on_with, end_shown};
    ghost use Rattle.node_deeds.specs.Replies.{IsSoundAbout};
    ghost use Rattle.hci_tables.specs.declared.command.Command.TheVariants.{Create};
    ghost use Rattle.node_ends.specs.Ends.{EndsStandFor, FewAreDue, TellsLengthOf, given_at};
    ghost use Rattle.node_machine.specs.Carrying.{turn_at, commit, notified, done, all_done, port_at, has_room_for, end_of_node};
    ghost use Rattle.node_core.specs.Nodes.{IsUsable, Carries, CarriesOut, CarriesUnseen, IsInSomeStep};
    ghost use Rattle.node_core.specs.Faults.{CountsFaults};
    ghost use Rattle.node_machine.specs.Turns.{holds_back};
    ghost use Rattle.node_core.specs.Handling.{is_noted_held};
    ghost use Rattle.history.specs.Steps.{end_of};
    ghost use Rattle.link_laws.specs.entries.Entries.End.{Host};
    ghost use Rattle.node_deeds.specs.Hosts.{init_running};
    ghost use Rattle.node_core.specs.Deeds.{handling, deed_of, IsDoableNow, AreDoableInTurn};

    // The node's end of the link with this host.
    pub(crate) fn end_at(&self, host: u8) -> End
        ensures { (c : Core) → c.node ≡ self.now.number → result ≡ end_of_node c host }
    {
        End {
            link: host,
            at_host: self.number != 0,
        }
    }

    // A message, which isn't empty, goes to the host of this link, or from a host to the controller, on a pipe that isn't reserved.
    //
    // # Errors
    //
    // Why the end of the link refuses it. Nothing changes then.
    pub(crate) fn send<W: Watch>(
        &mut self,
        host: u8,
        pipe: u8,
        message: &[u8],
        watch: &mut W,
    ) -> Result<(), SendRefused>
        requires sendable { IsSendable (pipe, message.now) }
        ensures carried { Carries W.noted W.is_short (self.old, watch.old) (self.new, watch.new) (turn_at host (Give (pipe, message.now))) }
        ensures answer { (ports : List Port) → EndsStandFor self.old.ends ports → result ≡ given_at (pipe, message.now) (port_at ports host) }
        ensures long { IfErr result (TellsLengthOf (length message.now)) }
        ensures unchanged { OnErr result ((self.new ≡ self.old) × (watch.new ≡ watch.old)) }
        ensures store { self.new.store ≡ self.old.store }
        ensures number { self.new.number ≡ self.old.number }
        ensures tasks { self.new.tasks ≡ self.old.tasks }
    {
        match self.ends.send(host, pipe, message) {
            Ok(()) => {
                let entry = Entry::Sent {
                    at: self.end_at(host),
                    session: 0,
                    pid: pipe,
                    message: Octets::new(self.alloc),
                };
                note(watch, entry, message);
                Ok(())
            }
            Err(why) => Err(why),
        }
    }

    // A command for which there is room is committed: it is noted, and then written.
    #[tactic(auto, using(crate::proofs::Faults::faults_stay, crate::proofs::Faults::faults_then))]
    pub(crate) fn commit<W: Watch>(&mut self, command: &Command, watch: &mut W) -> Ran
        requires usable { IsUsable self.old.store }
        requires live { IsTrue self.old.store.journal.live }
        requires command { IsCommand command.now }
        requires room { has_room_for self.old.store.journal.state command.now ≡ true }
        ensures carried { CarriesOut N.writes W.noted W.is_short (self.old, watch.old) (self.new, watch.new) (commit command.now) }
        ensures ran { result ≡ ran_so self.new.store.journal.live }
        ensures faults { CountsFaults N.faults self.old.store self.new.store }
        ensures number { self.new.number ≡ self.old.number }
        ensures tasks { self.new.tasks ≡ self.old.tasks }
        ensures usable { IsUsable self.new.store }
    {
        let node = self.number;
        let begun = Entry::Command {
            node,
            command: command.copied(),
        };
        note(watch, begun, &[]);
        match self.store.commit(command) {
            Ok(()) => return Ran::Done,
            Err(_fault) => {}
        }
        note(watch, Entry::Cut { node }, &[]);
        Ran::Stopped
    }

    // A notice goes to a host, and isn't answered yet. A pipe that the host is asked for may be made.
    fn notify<W: Watch>(&mut self, host: u8, about: About, message: &[u8], watch: &mut W)
        requires sound { IsSoundAbout about }
        requires some { 0 < length message.now }
        ensures carried { Carries W.noted W.is_short (self.old, watch.old) (self.new, watch.new) (notified host (about_shown about) message.now) }
        ensures store { self.new.store ≡ self.old.store }
        ensures number { self.new.number ≡ self.old.number }
        ensures tasks { self.new.tasks ≡ self.old.tasks }
    {
        let _ = self.send(host, 1, message, watch);
        self.ends
            .set_notice(host, Some(Unanswered { about, age: 0 }));
    }

    // A host is asked for the creation of a pipe, which may be made.
    fn ask<W: Watch>(&mut self, row: PipeRow, watch: &mut W)
        requires row { IsCommand (Create row) }
        ensures carried { Carries W.noted W.is_short (self.old, watch.old) (self.new, watch.new)
            (done 0 (Asks row.dest (18 ∷ ends_of row) (creation_of_row row))) }
        ensures store { self.new.store ≡ self.old.store }
        ensures number { self.new.number ≡ self.old.number }
        ensures tasks { self.new.tasks ≡ self.old.tasks }
    {
        self.ends.set_aside(row.creator);
        let notice = [
            18,
            row.creator,
            row.creator_gate,
            row.dest,
            row.dest_gate,
            row.pid,
        ];
        let asked = Entry::Ask {
            host: row.dest,
            message: Octets::new(self.alloc),
        };
        note(watch, asked, &notice);
        self.notify(row.dest, About::Waits(row), &notice, watch);
    }

    // The message of this end, which came on this pipe, is dropped.
    fn drop_message<W: Watch>(&mut self, host: u8, pipe: u8, watch: &mut W)
        ensures carried { Carries W.noted W.is_short (self.old, watch.old) (self.new, watch.new) (done host (Drops pipe)) }
        ensures same { self.new ≡ self.old }
    {
        let at = self.end_at(host);
        note(watch, Entry::Dropped { at, pid: pipe }, &[]);
    }

    // A host sends a command, which isn't empty, on pipe 01: it waits for the answer.
    pub(crate) fn order<W: Watch>(&mut self, host: u8, message: &[u8], watch: &mut W)
        requires sendable { IsSendable (1, message.now) }
        ensures carried { Carries W.noted W.is_short (self.old, watch.old) (self.new, watch.new) (done host (Orders message.now)) }
        ensures store { self.new.store ≡ self.old.store }
        ensures number { self.new.number ≡ self.old.number }
    {
        self.tasks.command = Some(ordered_by(message));
        let _ = self.send(host, 1, message, watch);
    }

    // The init that runs has had so many answers. Where none runs, nothing more comes of an answer than that it was heard.
    fn go_on(&mut self, answered: u8)
        ensures carried { (host : ℕ) → CarriesUnseen self.old self.new (done host (goes_on_with (init_running self.old.tasks.init) answered)) }
        ensures store { self.new.store ≡ self.old.store }
        ensures number { self.new.number ≡ self.old.number }
    {
        match &mut self.tasks.init {
            Some(init) => init.answered = answered,
            None => self.tasks.command = None,
        }
    }

    // The init of a host ends, which is noted so.
    fn end_init<W: Watch>(&mut self, end: InitEnd, watch: &mut W)
        ensures carried { (host : ℕ) → Carries W.noted W.is_short (self.old, watch.old) (self.new, watch.new)
            (done host (Ends (end_shown (end_of self.old.number Host) end))) }
        ensures store { self.new.store ≡ self.old.store }
        ensures number { self.new.number ≡ self.old.number }
    {
        self.tasks.init = None;
        let at = End {
            link: self.number,
            at_host: true,
        };
        match end {
            InitEnd::Same => note(watch, Entry::InitSame { at }, &[]),
            InitEnd::Made { pipes } => note(watch, Entry::InitMade { at, count: pipes }, &[]),
            InitEnd::Failed { code } => note(watch, Entry::InitFailed { at, code }, &[]),
        }
    }

    // One deed, where this message of the end with this host is handled.
    #[tactic(auto, using(crate::proofs::Faults::faults_stay, crate::proofs::Faults::faults_then))]
    fn carry_out<W: Watch>(
        &mut self,
        host: u8,
        deed: &Deed,
        pipe: u8,
        message: &[u8],
        watch: &mut W,
    ) -> Ran
        requires usable { IsUsable self.old.store }
        requires live { IsTrue self.old.store.journal.live }
        requires doable { IsInSomeStep W.noted W.is_short (self.old, watch.old) (λ w. IsDoableNow (handling self.old (pipe, message.now)) deed.now w) }
        ensures carried { CarriesOut N.writes W.noted W.is_short (self.old, watch.old) (self.new, watch.new)
            (done host (deed_of self.old (pipe, message.now) deed.now)) }
        ensures ran { result ≡ ran_so self.new.store.journal.live }
        ensures faults { CountsFaults N.faults self.old.store self.new.store }
        ensures number { self.new.number ≡ self.old.number }
        ensures usable { IsUsable self.new.store }
    {
        match deed {
            Deed::Commits(command) => self.commit(command, watch),
            Deed::PassesOn { host: to } => {
                let _ = self.send(*to, pipe, message, watch);
                Ran::Done
            }
            Deed::Sends {
                host: to,
                pipe: on,
                message: answer,
            } => {
                let _ = self.send(*to, *on, answer.as_slice(), watch);
                Ran::Done
            }
            // ANY_OK was sent for the command that was committed last.
            Deed::SaysOk => {
                let count = self.store.kept();
                let said = Entry::AnyOk {
                    node: self.number,
                    count,
                };
                note(watch, said, &[]);
                Ran::Done
            }
            Deed::Asks(row) => {
                self.ask(*row, watch);
                Ran::Done
            }
            Deed::Releases { asker } => {
                self.ends.release(*asker);
                Ran::Done
            }
            Deed::Tells {
                host: to,
                message: told,
            } => {
                self.notify(*to, About::Removed, told.as_slice(), watch);
                Ran::Done
            }
            Deed::IsAnswered => {
                self.ends.set_notice(host, None);
                Ran::Done
            }
            Deed::Drops { pipe: on } => {
                self.drop_message(host, *on, watch);
                Ran::Done
            }
            Deed::SetsErrors { errors } => {
                self.ends.set_errors(host, *errors);
                Ran::Done
            }
            Deed::Orders(order) => {
                self.order(host, order.as_slice(), watch);
                Ran::Done
            }
            Deed::Hears => {
                self.tasks.command = None;
                Ran::Done
            }
            Deed::GoesOn { answered } => {
                self.go_on(*answered);
                Ran::Done
            }
            Deed::Ends(end) => {
                self.end_init(*end, watch);
                Ran::Done
            }
        }
    }

    /// Carries out deeds, one after another, until a write fails.
    #[tactic(auto, using(crate::proofs::Faults::faults_stay, crate::proofs::Faults::faults_then))]
    pub(crate) fn carry_all<W: Watch>(
        &mut self,
        host: u8,
        deeds: &[Deed],
        pipe: u8,
        message: &[u8],
        watch: &mut W,
    ) -> Ran
        requires usable { IsUsable self.old.store }
        requires live { IsTrue self.old.store.journal.live }
        requires doable { IsInSomeStep W.noted W.is_short (self.old, watch.old)
            (λ w. AreDoableInTurn host (handling self.old (pipe, message.now)) deeds.now w) }
        ensures carried { CarriesOut N.writes W.noted W.is_short (self.old, watch.old) (self.new, watch.new)
            (all_done host (map (deed_of self.old (pipe, message.now)) deeds.now)) }
        ensures ran { result ≡ ran_so self.new.store.journal.live }
        ensures faults { CountsFaults N.faults self.old.store self.new.store }
        ensures number { self.new.number ≡ self.old.number }
        ensures usable { IsUsable self.new.store }
    {
        for deed in deeds {
            if !self.carry_out(host, deed, pipe, message, watch).is_done() {
                return Ran::Stopped;
            }
        }
        Ran::Done
    }

    // That the first message that waits at an end is held is noted, unless it was.
    fn note_held<W: Watch>(&mut self, host: u8, need: u16, spare: u16, watch: &mut W)
        ensures carried { Carries W.noted W.is_short (self.old, watch.old) (self.new, watch.new) (is_noted_held host (need, spare)) }
        ensures store { self.new.store ≡ self.old.store }
        ensures number { self.new.number ≡ self.old.number }
        ensures tasks { self.new.tasks ≡ self.old.tasks }
    {
        if self.ends.holds(host) {
            return;
        }
        let at = self.end_at(host);
        note(watch, Entry::Held { at, need, spare }, &[]);
        self.ends.set_holds(host, true);
    }

    /// The message that waits at an end lacks room: that is noted once, and its end takes no more fragments. At most six control frames
    /// wait there to be sent.
    pub(crate) fn hold_back<W: Watch>(&mut self, host: u8, need: u16, spare: u16, watch: &mut W)
        requires few { IsInSomeStep W.noted W.is_short (self.old, watch.old) (λ w. FewAreDue (port_at w.ports host)) }
        ensures carried { Carries W.noted W.is_short (self.old, watch.old) (self.new, watch.new) (holds_back host (need, spare)) }
        ensures store { self.new.store ≡ self.old.store }
        ensures number { self.new.number ≡ self.old.number }
        ensures tasks { self.new.tasks ≡ self.old.tasks }
    {
        self.note_held(host, need, spare, watch);
        self.ends.hold(host, true);
    }
}
