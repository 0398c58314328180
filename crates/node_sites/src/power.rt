//! The power of a node of the world, controller or host: its boot, and what its memory keeps.
ghost use Rattle.std.specs.Prelude.{◌≡◌, ◌≤◌, ℕ, ◌<◌, length, Option, Some, OnErr, OnOk};
ghost use Rattle.swp_base.specs.InMemory.{Memory};
ghost use Rattle.link_laws.specs.messages.Links.{Loss, NumberedEnd};
ghost use Rattle.history.specs.Steps.{lost_as};
ghost use Rattle.node_machine.specs.Parts.{Running};
ghost use Rattle.node_machine.specs.world.World.{counts};
ghost use Rattle.node_core.specs.Booting.{hosts_linked};
ghost use Rattle.node_sites.specs.Memories.{IsSoundMemory};
ghost use Rattle.node_sites.specs.WorldBoots.{EndsBoot};
ghost use Rattle.node_sites.specs.declared.power.Power.TheVariants.{Off};
ghost use Rattle.node_sites.specs.Powers.{IsNodePlace, memory_kept, is_broken, is_on};

use crate::memory::NodeMemory;
use arrayvec::ArrayVec;
use core::mem::replace_with;
use node_core::{BootFault, BootRefused, RunningNode};
use std::alloc::Global;
use swp_base::{MemNv, NoMemory};
use trace_model::LostCause;

/// A node of the world while that runs, or the memory that it left.
#[derive(Drop)]
pub enum Power {
    /// The node runs.
    On(RunningNode<MemNv>),
    /// Its power is off, and its memory lies here.
    Off(NodeMemory),
}

// A node behind a boot from the memory that it left. Where no memory is left for it, its power stays off.
fn booted(power: Power, with: (Global, u8, u8)) -> (Power, Result<(), NoMemory>)
    requires number { with.1 ≤ 7 }
    requires memory { IsSoundMemory (memory_kept power) }
    ensures booted { OnOk result.1 (EndsBoot with.1 (hosts_linked with.1 with.2) (memory_kept power) result.0) }
    ensures unbooted { OnErr result.1 (result.0 ≡ Off (memory_kept power)) }
{
    let (alloc, number, mask) = with;
    match RunningNode::boot(alloc, number, mask, power.into_memory().into_nv()) {
        Ok(node) => (Power::On(node), Ok(())),
        Err(BootRefused { nv, fault }) => match fault {
            BootFault::NoMemory => (Power::Off(NodeMemory::of(nv)), Err(NoMemory)),
            BootFault::Journal(_) => (Power::Off(NodeMemory::of(nv)), Ok(())),
        },
    }
}

// A node whose power has gone: its memory stays.
fn lost(power: Power, _nothing: ()) -> (Power, ())
    ensures { result.0 ≡ Off (memory_kept power) }
{
    (Power::Off(power.into_memory()), ())
}

// Whether a frame was refused for what damage had done to it.
fn is_refusal(cause: LostCause) -> bool
    ensures { (why : Loss) → cause ≡ lost_as why → result ≡ is_broken why }
{
    match cause {
        LostCause::Length | LostCause::Alignment | LostCause::Crc | LostCause::Broken => true,
        LostCause::Asked | LostCause::Age | LostCause::Full | LostCause::Nothing => false,
    }
}

impl Power {
    /// Whether the node runs.
    pub fn is_on(&self) -> bool
        ensures { result ≡ is_on self.now }
    {
        match self {
            Power::On(_) => true,
            Power::Off(_) => false,
        }
    }

    /// The memory of the node, whether that runs or not.
    pub fn into_memory(self) -> NodeMemory
        ensures { result ≡ memory_kept self }
    {
        match self {
            Power::On(node) => NodeMemory::of(node.into_nv()),
            Power::Off(memory) => memory,
        }
    }

    /// A node with this number, 00 to 07, boots from its memory, which keeps its bytes over a cut: the controller, 00, with new ends of the
    /// links with the hosts of this mask, in which bit h stands for host h, a host with a new end of its link. Where a write to the memory
    /// failed, it has lost its power.
    ///
    /// # Errors
    ///
    /// No memory is left. Its power is off then, and its memory is as it was.
    pub fn boot(&mut self, alloc: Global, number: u8, mask: u8) -> Result<(), NoMemory>
        requires number { number ≤ 7 }
        requires memory { IsSoundMemory (memory_kept self.old) }
        ensures booted { OnOk result (EndsBoot number (hosts_linked number mask) (memory_kept self.old) self.new) }
        ensures unbooted { OnErr result (self.new ≡ Off (memory_kept self.old)) }
    {
        replace_with(self, (alloc, number, mask), booted)
    }

    /// The power goes, and the memory stays.
    #[inline(never)]
    pub fn lose(&mut self)
        ensures { self.new ≡ Off (memory_kept self.old) }
    {
        replace_with(self, (), lost);
    }

    /// Plans that the `nth` write of the memory from now fails, where 1 is the next, and what its range is filled with, whether the
    /// node runs or not. An earlier plan is given up.
    pub fn arm(&mut self, nth: u32, fill: ArrayVec<u8, 64>)
        requires nth { 0 < nth }
        requires fill { 0 < length fill.items }
        ensures { (m : Memory) (node : Option Running) (near : ℕ → NumberedEnd) → IsNodePlace self.old m node near
            → IsNodePlace self.new (record m { plan = Some (record { nth = nth; fill = fill.items }) }) node near }
    {
        match self {
            Power::On(node) => node.arm(nth, fill),
            Power::Off(memory) => memory.arm(nth, fill),
        }
    }

    /// A frame on its way to the node's end of the link with this host is lost for this cause. One that was refused counts for REC_ERROR of
    /// that end, while the node runs.
    pub fn loses_frame(&mut self, host: u8, cause: LostCause)
        requires state { (m : Memory) × (node : Option Running) × (near : ℕ → NumberedEnd) × IsNodePlace self.old m node near }
        ensures { (m : Memory) (node : Option Running) (near : ℕ → NumberedEnd) (why : Loss) → IsNodePlace self.old m node near → cause ≡ lost_as why
            → IsNodePlace self.new m (counts why host node) near }
    {
        if !is_refusal(cause) {
            return;
        }
        if let Power::On(node) = self {
            node.refused(host);
        }
    }
}
