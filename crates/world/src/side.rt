//! One side of a link: the node of an end, the frames on the way to it, and the numbers of RSETs that it knows.
ghost use Rattle.std.specs.Prelude.{◌≡◌, ◌&&◌, [], List, IfOk, max};
ghost use Rattle.link_laws.specs.sessions.Sessions.{OnWire};
ghost use Rattle.link_laws.specs.machine.Machine.{Bare, new_link_end};
ghost use Rattle.link_laws.specs.machine.AtRest.{end_rests};
ghost use Rattle.link_laws.specs.messages.Links.{NumberedEnd, new_numbered_end};
ghost use Rattle.link_laws.specs.messages.Rest.{is_clear};
ghost use Rattle.world.specs.Sides.{SideStandsFor};

use crate::node::{Node, Place};
use circular_buffer::HeapCircularBuffer;
use link_wires::{Flying, empty_wire};
use std::alloc::Global;
use swp_base::NoMemory;
use trace_model::End;

/// One side of a link. This project's own.
#[derive(Drop)]
pub(crate) struct Side {
    /// The end with its messages.
    pub(crate) node: Node,
    /// The frames on the way to the end, the oldest first.
    pub(crate) wire: HeapCircularBuffer<Flying>,
    /// The greatest number of an RSET that the end put on the link; 0 where there is none.
    pub(crate) emitted: u32,
    /// The greatest number of an RSET that it took; 0 where there is none.
    pub(crate) took: u32,
}

impl Side {
    /// A new end, which is Up in session 0, with no frame on the way to it.
    ///
    /// # Errors
    ///
    /// No memory is left.
    pub(crate) fn make(alloc: Global) -> Result<Side, NoMemory>
        ensures { IfOk result (λ s. SideStandsFor s (new_numbered_end (new_link_end Bare)) []) }
    {
        Ok(Side {
            node: Node::make(alloc)?,
            wire: empty_wire(alloc)?,
            emitted: 0,
            took: 0,
        })
    }

    /// Where something at the end is noted: the number of its session is the greatest that it put on the link or took.
    pub(crate) fn place(&self, at: End) -> Place
        ensures { result ≡ record { at = at; session = max self.now.emitted self.now.took } }
    {
        Place {
            at,
            session: self.session(),
        }
    }

    /// The number of the end's session: the greatest that it put on the link or took.
    pub(crate) fn session(&self) -> u32
        ensures { result ≡ max self.now.emitted self.now.took }
    {
        self.emitted.max(self.took)
    }

    /// Whether no frame is on its way to the end, and the end is at rest.
    pub(crate) fn rests(&self) -> bool
        ensures { (h : NumberedEnd) (wire : List OnWire) → SideStandsFor self.now h wire → result ≡ (is_clear wire && end_rests h.side) }
    {
        self.wire.is_empty() && self.node.is_at_rest()
    }
}
