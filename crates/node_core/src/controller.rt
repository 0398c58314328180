//! A controller: a node that runs with a link to each of its hosts.
use crate::booting::BootRefused;
use crate::inputs::NodeInput;
use crate::running::Ran;
use crate::running_node::RunningNode;
use arrayvec::ArrayVec;
use hci_store::Store;
use link_end::ResetRefused;
use node_ends::LinkInput;
use std::alloc::Global;
use std::marker::Model;
use swp_base::{Lpdu, MemNv, Nv};
use swp_lpdu::read_lpdu;
use trace_model::Watch;

/// A controller that runs, a host controller of ETSI TS 102 622, section 4.2. Contracts see it as its node. Its calls are
/// this project's own.
#[derive(Drop)]
pub struct Controller<N: Nv + Drop> {
    node: RunningNode<N>,
}

impl<N: Nv + Drop> Model for Controller<N> {
    ghost use Rattle.std.specs.Prelude.{◌≡◌};
    ghost use Rattle.node_core.specs.declared.node.Node.{Node as Kept};

    ghost Value = { Kept N };

    ghost view = { λ c. c.node };

    ghost invariant = { λ c. c.node.number ≡ 0 };
}

impl<N: Nv + Drop> Controller<N> {
    ghost use Rattle.std.specs.Prelude.{◌≡◌, ◌≢◌, ◌≤◌, true, List, map, None, Some, IfOk, IfErr, IfSome, OnOk, OnErr, IsTrue, MatchResult, Ok, Err};
    ghost use Rattle.swp_base.specs.Outside.{Rose};
    ghost use Rattle.swp_base.specs.declared.link_terms.Role.TheVariants.{Clf};
    ghost use Rattle.journal_laws.specs.Journal.{journal};
    ghost use Rattle.hci_store.specs.Image.{image_fault};
    ghost use Rattle.hci_store.specs.Starting.{ready_writes, HasWritten};
    ghost use Rattle.gate_admin.specs.View.{has, hosts_where};
    ghost use Rattle.swp_lpdu.specs.Controls.{lpdu_of, control_of};
    ghost use Rattle.link_laws.specs.machine.Machine.{lpdu_input, next_frame};
    ghost use Rattle.link_laws.specs.machine.Machine.LinkInput.{Reset, Start, Stop};
    ghost use Rattle.node_machine.specs.Parts.{Core, Port};
    ghost use Rattle.node_machine.specs.Carrying.{port_at, with_port};
    ghost use Rattle.node_machine.specs.Node.{steps};
    ghost use Rattle.node_machine.specs.Node.NodeInput.{AtEnd, TimePasses};
    ghost use Rattle.node_ends.specs.Ends.{has_sent, frame_at, are_at_rest};
    ghost use Rattle.node_ends.specs.Making.{new_port};
    ghost use Rattle.node_core.specs.Booting.{found_in_memory, IsBootRefused};
    ghost use Rattle.node_core.specs.Running.{RunsAs, MayStep, ran_so, one_more_error, core_kept, reset_refusal_at, TakesStep};

    /// A controller boots from a memory of 65,536 bytes, with links to the hosts of this mask, in which bit h stands for host h. It takes
    /// all its memory here. A memory that says nothing is formatted; one of version 01 is written anew as a snapshot of version 02
    /// before the controller answers.
    ///
    /// # Errors
    ///
    /// `NoMemory` without memory: nothing is read or written then. `Journal` where its store doesn't start. The memory is handed back,
    /// and the next boot finds what this one found. Where none of its calls failed, nothing was written.
    pub fn boot(alloc: Global, hosts: u8, nv: N) -> Result<Self, BootRefused<N>>
        requires size { N.capacity nv ≡ 65536 }
        ensures runs { IfOk result (λ c. RunsAs c (core_kept c) (map (new_port Clf) (hosts_where (has hosts)))) }
        ensures found { IsTrue N.tells → IfOk result (λ c. core_kept c ≡ (found_in_memory 0 (hosts_where (has hosts)) (N.content nv)).core) }
        ensures image { IsTrue N.tells → OnOk result (image_fault (N.content nv) ≡ None) }
        ensures unspent { IsTrue N.tells → OnOk result ((journal (N.content nv)).head.version ≡ 1
            → (journal (N.content nv)).head.generation ≢ 4294967295) }
        ensures made { IsTrue N.tells
            → IfOk result (λ c. HasWritten N.reads N.writes N.content (ready_writes (N.content nv)) nv true c.store.journal.nv) }
        ensures count { IfOk result (λ c. N.faults nv ≤ N.faults c.store.journal.nv) }
        ensures refused { IfErr result (λ e. IsBootRefused N.reads N.writes N.faults N.tells N.content nv e.nv e.fault) }
    {
        match RunningNode::boot(alloc, 0, hosts, nv) {
            Ok(node) => Ok(Controller { node }),
            Err(refused) => Err(refused),
        }
    }

    /// A frame with this LPDU is taken from the link with this host. Every frame of the step before was fetched.
    pub fn take<W: Watch>(&mut self, host: u8, lpdu: &Lpdu, watch: &mut W) -> Ran
        requires may { MayStep self.old }
        ensures stepped { TakesStep N.writes W.noted W.is_short (self.old, watch.old) (self.new, watch.new) (steps (AtEnd host (lpdu_input lpdu.now))) }
        ensures ran { result ≡ ran_so self.new.store.journal.live }
        ensures count { N.faults self.old.store.journal.nv ≤ N.faults self.new.store.journal.nv }
        ensures rose { result ≡ Ran.Stopped → Rose (N.faults self.old.store.journal.nv) (N.faults self.new.store.journal.nv) }
    {
        let read = read_lpdu(lpdu);
        let input = NodeInput::At {
            host,
            what: LinkInput::Frame(&read),
        };
        let stepped = self.node.step(input, watch);
        stepped.unwrap().ran
    }

    /// A tick passes at all links. Every frame of the step before was fetched.
    pub fn tick<W: Watch>(&mut self, watch: &mut W) -> Ran
        requires may { MayStep self.old }
        ensures stepped { TakesStep N.writes W.noted W.is_short (self.old, watch.old) (self.new, watch.new) (steps TimePasses) }
        ensures ran { result ≡ ran_so self.new.store.journal.live }
        ensures count { N.faults self.old.store.journal.nv ≤ N.faults self.new.store.journal.nv }
        ensures rose { result ≡ Ran.Stopped → Rose (N.faults self.old.store.journal.nv) (N.faults self.new.store.journal.nv) }
    {
        let stepped = self.node.step(NodeInput::Tick, watch);
        stepped.unwrap().ran
    }

    /// The link with this host is reset (ETSI TS 102 613, section 10.7), with this window, which is 1 to 4, or with the end's own one.
    /// Every frame of the step before was fetched.
    ///
    /// # Errors
    ///
    /// Activation isn't done, or the end waits for the acceptance of a reset already. Nothing changed.
    pub fn reset<W: Watch>(
        &mut self,
        host: u8,
        window: Option<u8>,
        watch: &mut W,
    ) -> Result<Ran, ResetRefused>
        requires may { MayStep self.old }
        requires window { IfSome window (λ w. (1 ≤ w) × (w ≤ 4)) }
        ensures refusal { (core : Core) (ports : List Port) → RunsAs self.old core ports → MatchResult result
            (λ ran. reset_refusal_at (port_at ports host) ≡ None) (λ why. reset_refusal_at (port_at ports host) ≡ Some why) }
        ensures stepped { OnOk result (TakesStep N.writes W.noted W.is_short (self.old, watch.old) (self.new, watch.new) (steps (AtEnd host (Reset window)))) }
        ensures unchanged { OnErr result ((core : Core) (ports : List Port) → RunsAs self.old core ports → RunsAs self.new core ports) }
        ensures quiet { OnErr result ((watch.new ≡ watch.old) × (self.new.store ≡ self.old.store)) }
        ensures ran { IfOk result (λ ran. ran ≡ ran_so self.new.store.journal.live) }
        ensures count { N.faults self.old.store.journal.nv ≤ N.faults self.new.store.journal.nv }
        ensures rose { result ≡ Ok Ran.Stopped → Rose (N.faults self.old.store.journal.nv) (N.faults self.new.store.journal.nv) }
    {
        let input = NodeInput::At {
            host,
            what: LinkInput::Reset(window),
        };
        let stepped = match self.node.step(input, watch) {
            Ok(stepped) => stepped,
            Err(why) => return Err(why),
        };
        Ok(stepped.ran)
    }

    /// Activation begins anew at the link with this host (ETSI TS 102 613, section 9.4), with this power mode, which is 00 or 01.
    /// Every frame of the step before was fetched.
    pub fn activate<W: Watch>(&mut self, host: u8, power: u8, watch: &mut W) -> Ran
        requires may { MayStep self.old }
        requires power { power ≤ 1 }
        ensures stepped { TakesStep N.writes W.noted W.is_short (self.old, watch.old) (self.new, watch.new) (steps (AtEnd host (Start power))) }
        ensures ran { result ≡ ran_so self.new.store.journal.live }
        ensures count { N.faults self.old.store.journal.nv ≤ N.faults self.new.store.journal.nv }
        ensures rose { result ≡ Ran.Stopped → Rose (N.faults self.old.store.journal.nv) (N.faults self.new.store.journal.nv) }
    {
        let input = NodeInput::At {
            host,
            what: LinkInput::Start(power as u16),
        };
        let stepped = self.node.step(input, watch);
        stepped.unwrap().ran
    }

    /// Activation ends at the link with this host, and the link with it. Every frame of the step before was fetched.
    pub fn deactivate<W: Watch>(&mut self, host: u8, watch: &mut W) -> Ran
        requires may { MayStep self.old }
        ensures stepped { TakesStep N.writes W.noted W.is_short (self.old, watch.old) (self.new, watch.new) (steps (AtEnd host Stop)) }
        ensures ran { result ≡ ran_so self.new.store.journal.live }
        ensures count { N.faults self.old.store.journal.nv ≤ N.faults self.new.store.journal.nv }
        ensures rose { result ≡ Ran.Stopped → Rose (N.faults self.old.store.journal.nv) (N.faults self.new.store.journal.nv) }
    {
        let input = NodeInput::At {
            host,
            what: LinkInput::Stop,
        };
        let stepped = self.node.step(input, watch);
        stepped.unwrap().ran
    }

    /// A frame on its way from this host was refused: one more for REC_ERROR of its link (ETSI TS 102 622, section 7.1), which stops at FFFF.
    pub fn refused(&mut self, host: u8)
        requires runs { (core : Core) × (ports : List Port) × RunsAs self.old core ports }
        ensures runs { (core : Core) (ports : List Port) → RunsAs self.old core ports → RunsAs self.new core (with_port host one_more_error ports) }
        ensures store { self.new.store ≡ self.old.store }
    {
        self.node.refused(host);
    }

    /// Fetches the frame that is to be sent now to this host; `None` where there is none.
    pub fn next_out(&mut self, host: u8) -> Option<Lpdu>
        requires runs { (core : Core) × (ports : List Port) × RunsAs self.old core ports }
        ensures answer { (core : Core) (ports : List Port) → RunsAs self.old core ports → result ≡ frame_at (port_at ports host) }
        ensures read { (core : Core) (ports : List Port) (p : Port) → RunsAs self.old core ports → port_at ports host ≡ Some p
            → IfSome (next_frame p.side) (λ c. control_of (lpdu_of c) ≡ Ok c) }
        ensures runs { (core : Core) (ports : List Port) → RunsAs self.old core ports → RunsAs self.new core (with_port host has_sent ports) }
        ensures store { self.new.store ≡ self.old.store }
    {
        self.node.next_out(host)
    }

    /// Whether all its ends are at rest: none waits for the acceptance of a reset, and at each that is Up all messages that were sent in
    /// its session are acknowledged. This project's own.
    pub fn is_at_rest(&self) -> bool
        requires runs { (core : Core) × (ports : List Port) × RunsAs self.now core ports }
        ensures { (core : Core) (ports : List Port) → RunsAs self.now core ports → result ≡ are_at_rest ports }
    {
        self.node.is_at_rest()
    }

    /// The tables, and the memory in which they are kept.
    pub fn store(&self) -> &Store<N>
        ensures { result.now ≡ self.now.store }
    {
        self.node.store()
    }

    /// The memory. It has 65,536 bytes.
    pub fn into_nv(self) -> N
        ensures nv { result ≡ self.store.journal.nv }
        ensures size { N.capacity result ≡ 65536 }
    {
        let Controller { node } = self;
        node.into_nv()
    }
}

impl Controller<MemNv> {
    ghost use Rattle.std.specs.Prelude.{◌≡◌, ◌<◌, Some, List, length};
    ghost use Rattle.node_machine.specs.Parts.{Core, Port};
    ghost use Rattle.node_core.specs.Running.{RunsAs};

    /// Plans that the `nth` write of the memory from now fails, where 1 is the next. Byte i of its range becomes byte i of `fill`,
    /// modulo its length. An earlier plan is given up. Nothing else changes.
    pub fn arm(&mut self, nth: u32, fill: ArrayVec<u8, 64>)
        requires nth { 0 < nth }
        requires fill { 0 < length fill.items }
        ensures runs { (core : Core) (ports : List Port) → RunsAs self.old core ports → RunsAs self.new core ports }
        ensures tables { self.new.store.tables ≡ self.old.store.tables }
        ensures journal { self.new.store.journal ≡ record self.old.store.journal {
          nv = record self.old.store.journal.nv { plan = Some (record { nth = nth; fill = fill.items }) };
        } }
    {
        self.node.arm(nth, fill);
    }
}
