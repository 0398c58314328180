//! A node that runs, with the buffer in which it reads a message.
ghost use Rattle.std.specs.Prelude.{◌≡◌};
ghost use Rattle.node_core.specs.Booting.{role_at};

use crate::booting::{BootFault, BootRefused};
use crate::giving::HostRefused;
use crate::hosts::links_of;
use crate::inputs::NodeInput;
use crate::node::{MESSAGE, Node};
use crate::running::Stepped;
use arrayvec::ArrayVec;
use hci_store::Store;
use link_end::ResetRefused;
use node_deeds::Tasks;
use node_ends::Ends;
use nv_journal::StartRefused;
use std::alloc::Global;
use std::marker::Model;
use swp_base::{Lpdu, MemNv, Nv, Role};
use trace_model::Watch;

/// A node that runs, controller or host: 00 is the controller, any other number is that of the host. Contracts see it as its node: the
/// buffer keeps nothing from one call to the next. `Controller` and `Host` are one. All of it is this project's own.
#[derive(Drop)]
pub struct RunningNode<N: Nv + Drop> {
    node: Node<N>,
    buffer: Box<[u8; MESSAGE]>,
}

impl<N: Nv + Drop> Model for RunningNode<N> {
    ghost use Rattle.std.specs.Prelude.{◌≡◌};
    ghost use Rattle.node_core.specs.declared.node.Node.{Node as Kept};

    ghost Value = { Kept N };

    ghost view = { λ r. r.node };
}

// The role of a node's ends: the CLF's at the controller, the UICC's at a host.
fn role_of(number: u8) -> Role
    ensures { result ≡ role_at number }
{
    if number == 0 { Role::Clf } else { Role::Uicc }
}

impl<N: Nv + Drop> RunningNode<N> {
    ghost use Rattle.std.specs.Prelude.{◌≡◌, ◌≢◌, ◌≤◌, ◌==◌, ◌&&◌, ◌∷◌, true, List, map, [], length, is_some, None, Some, IfOk, IfErr, IfSome, OnOk, OnErr};
    ghost use Rattle.std.specs.Prelude.{IsTrue, MatchResult, Ok};
    ghost use Rattle.trace_model.specs.declared.entry.Entry.{Entry as Noted};
    ghost use Rattle.journal_laws.specs.Journal.{journal};
    ghost use Rattle.hci_store.specs.Image.{image_fault};
    ghost use Rattle.hci_store.specs.Starting.{ready_writes, HasWritten};
    ghost use Rattle.hcp_packet.specs.Packets.{IsSendable};
    ghost use Rattle.swp_lpdu.specs.Controls.{lpdu_of, control_of};
    ghost use Rattle.link_laws.specs.machine.Machine.{give_refusal, next_frame};
    ghost use Rattle.node_machine.specs.Parts.{Core, Port, Work};
    ghost use Rattle.node_machine.specs.Carrying.{port_at, with_port};
    ghost use Rattle.node_machine.specs.Controller.{is_command_message};
    ghost use Rattle.node_machine.specs.Node.{steps, begins_with};
    ghost use Rattle.node_machine.specs.world.World.{sending, beginning};
    ghost use Rattle.node_machine.specs.world.Lines.{if_waiting};
    ghost use Rattle.node_ends.specs.Ends.{has_sent, frame_at, are_at_rest, HasNoneDue};
    ghost use Rattle.node_ends.specs.Making.{new_port};
    ghost use Rattle.node_core.specs.Booting.{found_in_memory, IsBootRefused, role_at, hosts_linked};
    ghost use Rattle.node_core.specs.Faults.{CountsFaults};
    ghost use Rattle.node_core.specs.Giving.{refused_as, TellsLength, IsAsked};
    ghost use Rattle.node_core.specs.Inputs.{input_of_node, refusal_by, makes_active, MayComeToNode};
    ghost use Rattle.node_core.specs.Running.{RunsAs, BeginsStep, HasStepped, IsAllSent, ran_so, one_more_error, core_kept, TakesStep};

    /// A node with this number, 00 to 07, boots from a memory of 65,536 bytes: the controller with links to the hosts of this mask, in which
    /// bit h stands for host h, a host with the link that has its number. It takes all its memory here. A memory that says nothing is
    /// formatted; one of version 01 is written anew as a snapshot of version 02 before the node answers.
    ///
    /// # Errors
    ///
    /// `NoMemory` without memory: nothing is read or written then. `Journal` where its store doesn't start. The memory is handed back,
    /// and the next boot finds what this one found. Where none of its calls failed, nothing was written.
    pub fn boot(alloc: Global, number: u8, mask: u8, nv: N) -> Result<Self, BootRefused<N>>
        requires number { number ≤ 7 }
        requires size { N.capacity nv ≡ 65536 }
        ensures runs { IfOk result (λ n. RunsAs n (core_kept n) (map (new_port (role_at number)) (hosts_linked number mask))) }
        ensures number { IfOk result (λ n. n.number ≡ number) }
        ensures found { IsTrue N.tells → IfOk result (λ n. core_kept n ≡ (found_in_memory number (hosts_linked number mask) (N.content nv)).core) }
        ensures image { IsTrue N.tells → OnOk result (image_fault (N.content nv) ≡ None) }
        ensures unspent { IsTrue N.tells → OnOk result ((journal (N.content nv)).head.version ≡ 1
            → (journal (N.content nv)).head.generation ≢ 4294967295) }
        ensures made { IsTrue N.tells
            → IfOk result (λ n. HasWritten N.reads N.writes N.content (ready_writes (N.content nv)) nv true n.store.journal.nv) }
        ensures count { IfOk result (λ n. N.faults nv ≤ N.faults n.store.journal.nv) }
        ensures refused { IfErr result (λ e. IsBootRefused N.reads N.writes N.faults N.tells N.content nv e.nv e.fault) }
    {
        let Ok(buffer) = Box::new(alloc, [0; MESSAGE]) else {
            return Err(BootRefused {
                nv,
                fault: BootFault::NoMemory,
            });
        };
        let hosts = links_of(number, mask);
        let Ok(ends) = Ends::make(alloc, role_of(number), hosts.as_slice()) else {
            return Err(BootRefused {
                nv,
                fault: BootFault::NoMemory,
            });
        };
        match Store::start(nv) {
            Ok(store) => {
                let tasks = Tasks {
                    command: None,
                    init: None,
                };
                let node = Node {
                    alloc,
                    number,
                    store,
                    ends,
                    tasks,
                };
                Ok(RunningNode { node, buffer })
            }
            Err(StartRefused { nv, fault }) => Err(BootRefused {
                nv,
                fault: BootFault::Journal(fault),
            }),
        }
    }

    /// Its number.
    pub fn number(&self) -> u8
        ensures { result ≡ self.now.number }
    {
        self.node.number
    }

    /// A step, of which every frame of the step before was fetched.
    ///
    /// # Errors
    ///
    /// A reset is refused. Nothing changed.
    #[inline(always)]
    #[tactic(auto, using(crate::proofs::Faults::faults_stay, crate::proofs::Faults::faults_then))]
    pub fn step<W: Watch>(
        &mut self,
        input: NodeInput<'_>,
        watch: &mut W,
    ) -> Result<Stepped, ResetRefused>
        requires { (core : Core) × (ports : List Port) × RunsAs self.old core ports × IsAllSent ports × MayComeToNode input ports }
        ensures refusal { (core : Core) (ports : List Port) → RunsAs self.old core ports → MatchResult result
            (λ done. refusal_by input.entry ports ≡ None) (λ why. refusal_by input.entry ports ≡ Some why) }
        ensures stepped { OnOk result (TakesStep N.writes W.noted W.is_short (self.old, watch.old) (self.new, watch.new) (steps (input_of_node input.entry))) }
        ensures active { IfOk result (λ done. (start : List Noted) (w : Work) → BeginsStep self.old (W.noted watch.old) (W.is_short watch.old) start w
            → done.became_active ≡ makes_active (input_of_node input.entry) w.ports) }
        ensures unchanged { OnErr result ((core : Core) (ports : List Port) → RunsAs self.old core ports → RunsAs self.new core ports) }
        ensures quiet { OnErr result ((watch.new ≡ watch.old) × (self.new.store ≡ self.old.store)) }
        ensures ran { IfOk result (λ done. done.ran ≡ ran_so self.new.store.journal.live) }
        ensures faults { CountsFaults N.faults self.old.store self.new.store }
        ensures number { self.new.number ≡ self.old.number }
    {
        let came = match self.node.comes(input, &mut self.buffer, watch) {
            Ok(came) => came,
            Err(why) => return Err(why),
        };
        let ran = self
            .node
            .finish(came.sync, came.lies, &mut self.buffer, watch);
        self.node.ends.begin_step();
        Ok(Stepped {
            ran,
            became_active: came.became_active,
        })
    }

    /// A frame on its way to the end of the link with this host was refused: one more for REC_ERROR (ETSI TS 102 622,
    /// section 7.1), which stops at FFFF.
    pub fn refused(&mut self, host: u8)
        requires runs { (core : Core) × (ports : List Port) × RunsAs self.old core ports }
        ensures runs { (core : Core) (ports : List Port) → RunsAs self.old core ports → RunsAs self.new core (with_port host one_more_error ports) }
        ensures store { self.new.store ≡ self.old.store }
        ensures number { self.new.number ≡ self.old.number }
    {
        self.node.ends.count_error(host);
    }

    /// Fetches the frame that the end of the link with this host is to send now; `None` where it has none to send.
    #[inline(always)]
    pub fn next_out(&mut self, host: u8) -> Option<Lpdu>
        requires runs { (core : Core) × (ports : List Port) × RunsAs self.old core ports }
        ensures answer { (core : Core) (ports : List Port) → RunsAs self.old core ports → result ≡ frame_at (port_at ports host) }
        ensures read { (core : Core) (ports : List Port) (p : Port) → RunsAs self.old core ports → port_at ports host ≡ Some p
            → IfSome (next_frame p.side) (λ c. control_of (lpdu_of c) ≡ Ok c) }
        ensures runs { (core : Core) (ports : List Port) → RunsAs self.old core ports → RunsAs self.new core (with_port host has_sent ports) }
        ensures store { self.new.store ≡ self.old.store }
        ensures number { self.new.number ≡ self.old.number }
    {
        self.node.ends.next_out(host)
    }

    /// Whether no frame is due at the end of the link with this host. False says nothing, as where the ends of a controller stand otherwise
    /// than from host 01 on.
    #[inline(always)]
    pub fn has_none_due(&self, host: u8) -> bool
        requires runs { (core : Core) × (ports : List Port) × RunsAs self.now core ports }
        ensures { (core : Core) (ports : List Port) (p : Port) → RunsAs self.now core ports → port_at ports host ≡ Some p → IsTrue result → HasNoneDue p.side }
    {
        let near = match self.node.number {
            0 => usize::from(host.saturating_sub(1)),
            _ => 0,
        };
        let Some(there) = self.node.ends.host(near) else {
            return false;
        };
        if there != host {
            return false;
        }
        self.node.ends.is_idle(near)
    }

    /// Whether all its ends are at rest: none waits for the acceptance of a reset, and at each that is Up all messages that were sent in
    /// its session are acknowledged. This project's own.
    pub fn is_at_rest(&self) -> bool
        requires runs { (core : Core) × (ports : List Port) × RunsAs self.now core ports }
        ensures { (core : Core) (ports : List Port) → RunsAs self.now core ports → result ≡ are_at_rest ports }
    {
        self.node.ends.are_at_rest()
    }

    /// The tables, and the memory in which they are kept.
    pub fn store(&self) -> &Store<N>
        ensures { result.now ≡ self.now.store }
    {
        &self.node.store
    }

    /// The memory. It has 65,536 bytes.
    pub fn into_nv(self) -> N
        ensures nv { result ≡ self.store.journal.nv }
        ensures size { N.capacity result ≡ 65536 }
    {
        let RunningNode { node, buffer: _ } = self;
        node.store.into_nv()
    }

    /// A host sends a message, which isn't empty, on a pipe that isn't reserved (ETSI TS 102 622, section 5). Nothing is committed.
    ///
    /// # Errors
    ///
    /// `NotUp` where the link isn't up, `Waiting` where the message is a command on pipe 01 and an earlier one isn't answered, `TooLong`
    /// where it has more than 4,096 bytes, and `Full` where its blocks exceed what is spare: the first of these that applies. Nothing
    /// changed then.
    pub fn send<W: Watch>(
        &mut self,
        pipe: u8,
        message: &[u8],
        watch: &mut W,
    ) -> Result<(), HostRefused>
        requires some { 1 ≤ self.old.number }
        requires runs { (core : Core) × (ports : List Port) × RunsAs self.old core ports }
        requires sendable { IsSendable (pipe, message.now) }
        ensures refusal { (core : Core) (ports : List Port) (p : Port) → RunsAs self.old core ports → port_at ports self.old.number ≡ Some p
            → refused_as result ≡ if_waiting (pipe == 1 && is_command_message message.now && is_some core.command)
            (give_refusal p.side (pipe, message.now)) }
        ensures long { IfErr result (λ why. TellsLength (length message.now) (Some why)) }
        ensures given { OnOk result ((start : List Noted) (w : Work) → IsAsked self.old (W.noted watch.old) (W.is_short watch.old) start w
            → HasStepped self.new (W.noted watch.new) (W.is_short watch.new) start
            (begins_with self.old.number (sending self.old.number (pipe, message.now)) w)) }
        ensures unchanged { OnErr result ((self.new ≡ self.old) × (watch.new ≡ watch.old)) }
        ensures store { self.new.store ≡ self.old.store }
        ensures number { self.new.number ≡ self.old.number }
    {
        if let Err(why) = self.node.give_step(pipe, message, watch) {
            return Err(why);
        }
        self.node.ends.begin_step();
        Ok(())
    }

    /// A host begins an init, with the identity that it is to set and at most eight pipes that it is to make: its first command is sent (ETSI TS
    /// 102 622, section 8.4; what an init makes is this project's own). Nothing is committed.
    ///
    /// # Errors
    ///
    /// `NotUp` where the link isn't up, `Waiting` where a command on pipe 01 isn't answered, and `Full` where the block of the command
    /// isn't spare: the first of these that applies. Nothing changed then.
    pub fn init<W: Watch>(
        &mut self,
        identity: &[u8; 8],
        pipes: &[[u8; 3]],
        watch: &mut W,
    ) -> Result<(), HostRefused>
        requires some { 1 ≤ self.old.number }
        requires runs { (core : Core) × (ports : List Port) × RunsAs self.old core ports }
        requires few { length pipes.now ≤ 8 }
        ensures refusal { (core : Core) (ports : List Port) (p : Port) → RunsAs self.old core ports → port_at ports self.old.number ≡ Some p
            → refused_as result ≡ if_waiting (is_some core.command) (give_refusal p.side (1, 3 ∷ [])) }
        ensures begun { OnOk result ((start : List Noted) (w : Work) → IsAsked self.old (W.noted watch.old) (W.is_short watch.old) start w
            → HasStepped self.new (W.noted watch.new) (W.is_short watch.new) start
            (begins_with self.old.number (beginning identity.now pipes.now) w)) }
        ensures unchanged { OnErr result ((self.new ≡ self.old) × (watch.new ≡ watch.old)) }
        ensures store { self.new.store ≡ self.old.store }
        ensures number { self.new.number ≡ self.old.number }
    {
        if let Err(why) = self.node.give_step(1, &[3], watch) {
            return Err(why);
        }
        self.node.run_init(identity, pipes);
        self.node.ends.begin_step();
        Ok(())
    }
}

impl RunningNode<MemNv> {
    ghost use Rattle.std.specs.Prelude.{◌≡◌, ◌<◌, Some, List, length};
    ghost use Rattle.node_machine.specs.Parts.{Core, Port};
    ghost use Rattle.node_core.specs.Running.{RunsAs};

    /// Plans that the `nth` write of the memory from now fails, where 1 is the next. Byte i of its range becomes byte i of `fill`,
    /// modulo its length. An earlier plan is given up. Nothing else changes.
    pub fn arm(&mut self, nth: u32, fill: ArrayVec<u8, 64>)
        requires nth { 0 < nth }
        requires fill { 0 < length fill.items }
        ensures runs { (core : Core) (ports : List Port) → RunsAs self.old core ports → RunsAs self.new core ports }
        ensures tables { self.new.store.tables ≡ self.old.store.tables }
        ensures journal { self.new.store.journal ≡ record self.old.store.journal {
          nv = record self.old.store.journal.nv { plan = Some (record { nth = nth; fill = fill.items }) };
        } }
        ensures number { self.new.number ≡ self.old.number }
    {
        self.node.store.arm(nth, fill);
    }
}
