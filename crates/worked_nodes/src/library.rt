//! A controller with its memory: a frame comes from a host, and the frames that it brings about go out.
ghost use Rattle.std.specs.Prelude.{◌≡◌, List};
ghost use Rattle.node_machine.specs.Parts.{Core, Port};
ghost use Rattle.node_core.specs.Running.{RunsAs, MayStep};
ghost use Rattle.worked_nodes.specs.FramesOut.{due_to, due_as_far_as, AreHandedOn, HasSentTo, HasSentToAll};

use arrayvec::ArrayVec;
use router::{BootRefused, Controller, Ran, ResetRefused};
use std::alloc::Global;
use std::marker::Model;
use swp_base::{Lpdu, MemNv, Nv};
use trace_model::{Entry, Watch};

/// At most five control frames and four fragments wait at an end.
const MOST_FRAMES: u8 = 9;

/// What carries frames to the hosts.
pub trait Wires {
    ghost use Rattle.std.specs.Prelude.{ℕ, Bool, List, [], ◌∷◌};
    ghost use Rattle.worked_nodes.specs.FramesOut.{AreHandedOn};

    // the frames that were handed on, each with its host
    ghost carried: { Self → List (ℕ × List ℕ) };

    // there was no room for a frame
    ghost is_full: { Self → Bool };

    /// A frame goes out to this host, behind the others.
    fn send(&mut self, host: u8, lpdu: &Lpdu)
        ensures { AreHandedOn (is_full self.old) (is_full self.new) (carried self.old) (carried self.new) ((host, lpdu.now) ∷ []) };
}

/// Counts what a node notes, and keeps none of it.
#[derive(Drop)]
pub struct Count {
    pub entries: u64,
}

impl Watch for Count {
    ghost use Rattle.std.specs.Prelude.{[], true};

    ghost noted = { λ _. [] };

    ghost is_short = { λ _. true };

    fn note(&mut self, _entry: &Entry, _body: &[u8]) {
        self.entries = self.entries.saturating_add(1);
    }

    fn short(&self) -> bool {
        true
    }
}

/// A controller with its memory. While it has its power all its frames went out, and its next step may begin.
#[derive(Drop)]
pub struct FrontEnd<N: Nv + Drop> {
    controller: Controller<N>,
}

impl<N: Nv + Drop> Model for FrontEnd<N> {
    ghost use Rattle.std.specs.Prelude.{IsTrue};
    ghost use Rattle.node_core.specs.declared.node.Node.{Node as Kept};
    ghost use Rattle.node_core.specs.Running.{MayStep};

    ghost Value = { Kept N };

    ghost view = { λ f. f.controller };

    ghost invariant = { λ f. IsTrue f.controller.store.journal.live → MayStep f.controller };
}

impl<N: Nv + Drop> FrontEnd<N> {
    ghost use Rattle.std.specs.Prelude.{◌≡◌, ◌≤◌, List, map, true, None, Some, IsTrue, IfOk, IfErr, OnOk, OnErr, MatchResult};
    ghost use Rattle.swp_base.specs.declared.link_terms.Role.TheVariants.{Clf};
    ghost use Rattle.trace_model.specs.declared.entry.Entry.{Entry as Noted};
    ghost use Rattle.hci_store.specs.Starting.{ready_writes, HasWritten};
    ghost use Rattle.gate_admin.specs.View.{has, hosts_where};
    ghost use Rattle.link_laws.specs.machine.Machine.{lpdu_input};
    ghost use Rattle.link_laws.specs.machine.Machine.LinkInput.{Reset, Start};
    ghost use Rattle.node_machine.specs.Parts.{Work};
    ghost use Rattle.node_machine.specs.Carrying.{port_at};
    ghost use Rattle.node_machine.specs.Node.{steps};
    ghost use Rattle.node_machine.specs.Node.NodeInput.{AtEnd, TimePasses};
    ghost use Rattle.node_ends.specs.Making.{new_port};
    ghost use Rattle.node_core.specs.Booting.{found_in_memory, IsBootRefused};
    ghost use Rattle.node_core.specs.Bringing.{Brings};
    ghost use Rattle.node_core.specs.Running.{BeginsStep, ran_so, core_kept, reset_refusal_at};
    ghost use Rattle.worked_nodes.specs.FramesOut.{HasHandedOn};

    /// A controller of these hosts boots from its memory.
    pub fn boot(alloc: Global, hosts: u8, nv: N) -> Result<Self, BootRefused<N>>
        requires size { N.capacity nv ≡ 65536 }
        ensures runs { IfOk result (λ f. RunsAs f (core_kept f) (map (new_port Clf) (hosts_where (has hosts)))) }
        ensures found { IsTrue N.tells → IfOk result (λ f. core_kept f ≡ (found_in_memory 0 (hosts_where (has hosts)) (N.content nv)).core) }
        ensures made { IsTrue N.tells
            → IfOk result (λ f. HasWritten N.reads N.writes N.content (ready_writes (N.content nv)) nv true f.store.journal.nv) }
        ensures refused { IfErr result (λ e. IsBootRefused N.reads N.writes N.faults N.tells N.content nv e.nv e.fault) }
    {
        match Controller::boot(alloc, hosts, nv) {
            Ok(controller) => Ok(FrontEnd { controller }),
            Err(refused) => Err(refused),
        }
    }

    /// A frame comes from a host, and what it brings about goes out.
    pub fn take<W: Watch, S: Wires>(
        &mut self,
        host: u8,
        lpdu: &Lpdu,
        watch: &mut W,
        wires: &mut S,
    ) -> Ran
        ensures stepped { (start : List Noted) (w : Work) → BeginsStep self.old (W.noted watch.old) (W.is_short watch.old) start w
            → Brings N.writes self.old.store.journal.nv self.new.store.journal.nv
            (HasHandedOn self.new (W.noted watch.new) (W.is_short watch.new) start (S.is_full wires.old) (S.is_full wires.new) (S.carried wires.old)
            (S.carried wires.new)) (steps (AtEnd host (lpdu_input lpdu.now))) w }
        ensures ran { result ≡ ran_so self.new.store.journal.live }
    {
        if !self.controller.store().live() {
            return Ran::Stopped;
        }
        let ran = self.controller.take(host, lpdu, watch);
        if let Ran::Done = ran {
            send_all(&mut self.controller, wires);
        }
        ran
    }

    /// A tick passes.
    pub fn tick<W: Watch, S: Wires>(&mut self, watch: &mut W, wires: &mut S) -> Ran
        ensures stepped { (start : List Noted) (w : Work) → BeginsStep self.old (W.noted watch.old) (W.is_short watch.old) start w
            → Brings N.writes self.old.store.journal.nv self.new.store.journal.nv
            (HasHandedOn self.new (W.noted watch.new) (W.is_short watch.new) start (S.is_full wires.old) (S.is_full wires.new) (S.carried wires.old)
            (S.carried wires.new)) (steps TimePasses) w }
        ensures ran { result ≡ ran_so self.new.store.journal.live }
    {
        if !self.controller.store().live() {
            return Ran::Stopped;
        }
        let ran = self.controller.tick(watch);
        if let Ran::Done = ran {
            send_all(&mut self.controller, wires);
        }
        ran
    }

    /// Activation begins anew at the link with a host, with this power mode, which is 00 or 01.
    pub fn activate<W: Watch, S: Wires>(
        &mut self,
        host: u8,
        power: u8,
        watch: &mut W,
        wires: &mut S,
    ) -> Ran
        requires power { power ≤ 1 }
        ensures stepped { (start : List Noted) (w : Work) → BeginsStep self.old (W.noted watch.old) (W.is_short watch.old) start w
            → Brings N.writes self.old.store.journal.nv self.new.store.journal.nv
            (HasHandedOn self.new (W.noted watch.new) (W.is_short watch.new) start (S.is_full wires.old) (S.is_full wires.new) (S.carried wires.old)
            (S.carried wires.new)) (steps (AtEnd host (Start power))) w }
        ensures ran { result ≡ ran_so self.new.store.journal.live }
    {
        if !self.controller.store().live() {
            return Ran::Stopped;
        }
        let ran = self.controller.activate(host, power, watch);
        if let Ran::Done = ran {
            send_all(&mut self.controller, wires);
        }
        ran
    }

    /// The link with a host is reset, where that isn't refused.
    ///
    /// # Errors
    ///
    /// Activation isn't done, or the end waits for the acceptance of a reset already. Nothing changed, and nothing went out.
    pub fn reset<W: Watch, S: Wires>(
        &mut self,
        host: u8,
        watch: &mut W,
        wires: &mut S,
    ) -> Result<Ran, ResetRefused>
        ensures refusal { (core : Core) (ports : List Port) → RunsAs self.old core ports → MatchResult result
            (λ ran. reset_refusal_at (port_at ports host) ≡ None) (λ why. reset_refusal_at (port_at ports host) ≡ Some why) }
        ensures stepped { OnOk result ((start : List Noted) (w : Work) → BeginsStep self.old (W.noted watch.old) (W.is_short watch.old) start w
            → Brings N.writes self.old.store.journal.nv self.new.store.journal.nv
            (HasHandedOn self.new (W.noted watch.new) (W.is_short watch.new) start (S.is_full wires.old) (S.is_full wires.new) (S.carried wires.old)
            (S.carried wires.new)) (steps (AtEnd host (Reset None))) w) }
        ensures unchanged { OnErr result ((core : Core) (ports : List Port) → RunsAs self.old core ports → RunsAs self.new core ports) }
        ensures quiet { OnErr result ((watch.new ≡ watch.old) × (wires.new ≡ wires.old)) }
        ensures ran { IfOk result (λ ran. ran ≡ ran_so self.new.store.journal.live) }
    {
        if !self.controller.store().live() {
            return Ok(Ran::Stopped);
        }
        match self.controller.reset(host, None, watch) {
            Ok(ran) => {
                if let Ran::Done = ran {
                    send_all(&mut self.controller, wires);
                }
                Ok(ran)
            }
            Err(why) => Err(why),
        }
    }

    /// The controller, to look at.
    pub fn controller(&self) -> &Controller<N>
        ensures { result.now ≡ self.now }
    {
        &self.controller
    }

    /// The memory, from which the controller boots again.
    pub fn into_nv(self) -> N
        ensures { result ≡ self.store.journal.nv }
    {
        let FrontEnd { controller } = self;
        controller.into_nv()
    }
}

impl FrontEnd<MemNv> {
    ghost use Rattle.std.specs.Prelude.{◌≡◌, ◌<◌, Some, List, length};

    /// Plans that the `nth` write of the memory from now fails, and what it leaves. Nothing else changes.
    pub fn arm(&mut self, nth: u32, fill: ArrayVec<u8, 64>)
        requires nth { 0 < nth }
        requires fill { 0 < length fill.items }
        ensures runs { (core : Core) (ports : List Port) → RunsAs self.old core ports → RunsAs self.new core ports }
        ensures tables { self.new.store.tables ≡ self.old.store.tables }
        ensures journal { self.new.store.journal ≡ record self.old.store.journal {
          nv = record self.old.store.journal.nv { plan = Some (record { nth = nth; fill = fill.items }) };
        } }
    {
        self.controller.arm(nth, fill);
    }
}

/// The frames that wait for this host go out.
fn send_to<N: Nv + Drop, S: Wires>(controller: &mut Controller<N>, host: u8, wires: &mut S)
    requires runs { (core : Core) × (ports : List Port) × RunsAs controller.old core ports }
    ensures sent { (core : Core) (ports : List Port) → RunsAs controller.old core ports → HasSentTo controller.new core host ports }
    ensures handed { (core : Core) (ports : List Port) → RunsAs controller.old core ports
        → AreHandedOn (S.is_full wires.old) (S.is_full wires.new) (S.carried wires.old) (S.carried wires.new) (due_to host ports) }
    ensures store { controller.new.store ≡ controller.old.store }
{
    for _ in 0..MOST_FRAMES {
        let Some(lpdu) = controller.next_out(host) else {
            return;
        };
        wires.send(host, &lpdu);
    }
}

/// The frames that wait for any host go out, so that the next step may begin.
fn send_all<N: Nv + Drop, S: Wires>(controller: &mut Controller<N>, wires: &mut S)
    requires runs { (core : Core) × (ports : List Port) × RunsAs controller.old core ports }
    ensures sent { (core : Core) (ports : List Port) → RunsAs controller.old core ports → HasSentToAll controller.new core ports }
    ensures handed { (core : Core) (ports : List Port) → RunsAs controller.old core ports
        → AreHandedOn (S.is_full wires.old) (S.is_full wires.new) (S.carried wires.old) (S.carried wires.new) (due_as_far_as 7 ports) }
    ensures store { controller.new.store ≡ controller.old.store }
{
    for host in 1..8 {
        send_to(controller, host, wires);
    }
}
