//! A host with its memory, at the other end of a controller's link.
ghost use Rattle.std.specs.Prelude.{◌≡◌, ◌≤◌, List};
ghost use Rattle.node_machine.specs.Parts.{Core, Port};
ghost use Rattle.node_core.specs.Running.{RunsAs, MayStep};
ghost use Rattle.worked_nodes.specs.FramesOut.{due_to, AreHandedOn};

use crate::library::Wires;
use host_core::{BootRefused, Host, HostRefused, Ran};
use link_end::ResetRefused;
use std::alloc::Global;
use std::marker::Model;
use swp_base::{Lpdu, Nv};
use trace_model::Watch;

/// At most five control frames and four fragments wait at an end.
const MOST_FRAMES: u8 = 9;

/// A host with its memory. While it has its power all its frames went out, and its next step may begin.
#[derive(Drop)]
pub struct Card<N: Nv + Drop> {
    host: Host<N>,
    number: u8,
}

impl<N: Nv + Drop> Model for Card<N> {
    ghost use Rattle.std.specs.Prelude.{◌≡◌, ◌≤◌, IsTrue};
    ghost use Rattle.node_core.specs.declared.node.Node.{Node as Kept};
    ghost use Rattle.node_core.specs.Running.{MayStep};

    ghost Value = { Kept N };

    ghost view = { λ k. k.host };

    ghost invariant = { λ k. (IsTrue k.host.store.journal.live → MayStep k.host) × (k.host.number ≡ k.number) × (1 ≤ k.number) };
}

impl<N: Nv + Drop> Card<N> {
    ghost use Rattle.std.specs.Prelude.{◌≡◌, ◌≤◌, length};
    ghost use Rattle.hcp_packet.specs.Packets.{IsSendable};

    /// A host with this number boots from its memory, and begins activation with this sync identifier.
    pub(crate) fn boot<W: Watch, S: Wires>(
        alloc: Global,
        number: u8,
        nv: N,
        sync: u16,
        watch: &mut W,
        wires: &mut S,
    ) -> Result<Self, BootRefused<N>>
        requires low { 1 ≤ number }
        requires high { number ≤ 7 }
        requires size { N.capacity nv ≡ 65536 }
    {
        match Host::boot(alloc, number, nv) {
            Ok(booted) => {
                let mut host = booted;
                host.activate(sync, watch);
                if host.store().live() {
                    send_own(&mut host, number, wires);
                }
                Ok(Card { host, number })
            }
            Err(refused) => Err(refused),
        }
    }

    /// A frame comes from the controller, and what it brings about goes out.
    pub(crate) fn take<W: Watch, S: Wires>(
        &mut self,
        lpdu: &Lpdu,
        watch: &mut W,
        wires: &mut S,
    ) -> Ran {
        if !self.host.store().live() {
            return Ran::Stopped;
        }
        let ran = self.host.take(lpdu, watch);
        if let Ran::Done = ran {
            send_own(&mut self.host, self.number, wires);
        }
        ran
    }

    /// The link is reset, where that isn't refused. A host without power resets nothing.
    pub(crate) fn reset<W: Watch, S: Wires>(
        &mut self,
        watch: &mut W,
        wires: &mut S,
    ) -> Result<(), ResetRefused> {
        if !self.host.store().live() {
            return Err(ResetRefused::Inactive);
        }
        match self.host.reset(None, watch) {
            Ok(()) => {
                if self.host.store().live() {
                    send_own(&mut self.host, self.number, wires);
                }
                Ok(())
            }
            Err(why) => Err(why),
        }
    }

    /// A message goes out, where it isn't refused. A host without power sends nothing.
    pub(crate) fn send<W: Watch, S: Wires>(
        &mut self,
        pipe: u8,
        message: &[u8],
        watch: &mut W,
        wires: &mut S,
    ) -> Result<(), HostRefused>
        requires sendable { IsSendable (pipe, message.now) }
    {
        if !self.host.store().live() {
            return Err(HostRefused::NotUp);
        }
        match self.host.send(pipe, message, watch) {
            Ok(()) => {
                send_own(&mut self.host, self.number, wires);
                Ok(())
            }
            Err(why) => Err(why),
        }
    }

    /// An init begins, where it isn't refused. A host without power begins none.
    pub(crate) fn init<W: Watch, S: Wires>(
        &mut self,
        identity: &[u8; 8],
        pipes: &[[u8; 3]],
        watch: &mut W,
        wires: &mut S,
    ) -> Result<(), HostRefused>
        requires few { length pipes.now ≤ 8 }
    {
        if !self.host.store().live() {
            return Err(HostRefused::NotUp);
        }
        match self.host.init(identity, pipes, watch) {
            Ok(()) => {
                send_own(&mut self.host, self.number, wires);
                Ok(())
            }
            Err(why) => Err(why),
        }
    }

    /// The host, to look at.
    pub(crate) fn host(&self) -> &Host<N> {
        &self.host
    }
}

/// The frames that wait go out, so that the next step may begin.
fn send_own<N: Nv + Drop, S: Wires>(host: &mut Host<N>, number: u8, wires: &mut S)
    requires runs { (core : Core) × (ports : List Port) × RunsAs host.old core ports }
    requires number { host.old.number ≡ number }
    requires low { 1 ≤ number }
    ensures may { MayStep host.new }
    ensures handed { (core : Core) (ports : List Port) → RunsAs host.old core ports
        → AreHandedOn (S.is_full wires.old) (S.is_full wires.new) (S.carried wires.old) (S.carried wires.new) (due_to number ports) }
    ensures number { host.new.number ≡ host.old.number }
{
    for _ in 0..MOST_FRAMES {
        let Some(lpdu) = host.next_out() else {
            return;
        };
        wires.send(number, &lpdu);
    }
}
