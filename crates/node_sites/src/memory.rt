//! The memory of a node of the world.
ghost use Rattle.std.specs.Prelude.{◌≡◌, ◌<◌, length, replicate, None, Some, IfOk};

use arrayvec::ArrayVec;
use std::alloc::Global;
use std::marker::Model;
use swp_base::{MemNv, NoMemory};

/// The bytes of the memory of a node.
const MEMORY_SIZE: u32 = 65_536;

/// The memory of a node, which keeps its 65,536 bytes over a cut. A node boots from no other one.
#[derive(Drop)]
pub struct NodeMemory {
    nv: MemNv,
}

impl Model for NodeMemory {
    ghost use Rattle.std.specs.Prelude.{◌≡◌, length};
    ghost use Rattle.swp_base.specs.InMemory.{Memory};

    ghost Value = { Memory };

    ghost view = { λ m. m.nv };

    ghost invariant = { λ m. length m.nv.content ≡ 65536 };
}

impl NodeMemory {
    /// A memory that is all FF, with no fault planned. It fails only where there is no memory for it.
    pub fn new(alloc: Global) -> Result<NodeMemory, NoMemory>
        ensures { IfOk result (λ m. m ≡ record {
          content = replicate 65536 255;
          plan = None;
          failing_read = None;
          faults = 0;
        }) }
    {
        let nv = MemNv::new(alloc, MEMORY_SIZE)?;
        Ok(NodeMemory { nv })
    }

    /// A memory of 65,536 bytes, as a node leaves it.
    pub fn of(nv: MemNv) -> NodeMemory
        requires { length nv.content ≡ 65536 }
        ensures { result ≡ nv }
    {
        NodeMemory { nv }
    }

    /// The memory itself. It has 65,536 bytes.
    pub fn into_nv(self) -> MemNv
        ensures nv { result ≡ self }
        ensures size { length result.content ≡ 65536 }
    {
        let NodeMemory { nv } = self;
        nv
    }

    /// Plans that the `nth` write from now fails, where 1 is the next, and what its range is filled with. An earlier plan is given up.
    pub fn arm(&mut self, nth: u32, fill: ArrayVec<u8, 64>)
        requires nth { 0 < nth }
        requires fill { 0 < length fill.items }
        ensures { self.new ≡ record self.old { plan = Some (record { nth = nth; fill = fill.items }) } }
    {
        self.nv.arm(nth, fill);
    }
}
