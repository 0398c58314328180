//! The frames of a node go out.
ghost use Rattle.std.specs.Prelude.{◌≡◌, ◌+◌, ◌<◌, ◌≤◌, ◌^◌, List, OnOk};
ghost use Rattle.link_laws.specs.machine.Machine.{frames_out};
ghost use Rattle.link_laws.specs.messages.Links.{Link, put_all};
ghost use Rattle.link_laws.specs.entries.Entries.{puts_entries};
ghost use Rattle.history.specs.Follows.{seen_from};
ghost use Rattle.link_wires.specs.Notes.{side_of, AreNoted};
ghost use Rattle.node_machine.specs.Parts.{Core, Port};
ghost use Rattle.node_machine.specs.Carrying.{with_port};
ghost use Rattle.node_core.specs.Running.{RunsAs};
ghost use Rattle.node_sites.specs.LinksKept.{WiresStandFor};
ghost use Rattle.node_sites.specs.FramesOut.{sent_port, SendsFrom};
ghost use Rattle.node_sites.specs.Powers.{node_memory};

use crate::wires::Wires;
use node_core::RunningNode;
use std::alloc::AllocError;
use swp_base::MemNv;
use trace_model::{End, Entry};

/// The most frames that an end sends at one moment: 12 of SHDLC, and 5 of activation.
const MOST_FRAMES: u8 = 17;

/// All frames go out that are due at a node's end of a link. Most ends have none due.
///
/// # Errors
///
/// No memory is left; what the wires stand for then isn't said.
#[inline(always)]
pub fn send_frames(
    node: &mut RunningNode<MemNv>,
    at: End,
    wires: &mut Wires,
    entries: &mut Vec<Entry>,
) -> Result<(), AllocError>
    requires state { (core : Core) × (ports : List Port) × (p : Port) × (l : Link)
        × SendsFrom (RunsAs node.old core ports) at p ports × WiresStandFor wires.old (seen_from at l) }
    requires room { wires.old.resets + 17 < 2 ^ 32 }
    ensures stands { (core : Core) (ports : List Port) (p : Port) (l : Link) → SendsFrom (RunsAs node.old core ports) at p ports
        → WiresStandFor wires.old (seen_from at l)
        → OnOk result (RunsAs node.new core (with_port at.link sent_port ports) × WiresStandFor wires.new (seen_from at (put_all l (frames_out p.side)))
        × AreNoted at entries.old.items entries.new.items (puts_entries (side_of at) l (frames_out p.side))) }
    ensures memory { node_memory node.new ≡ node_memory node.old }
    ensures grows { wires.new.resets ≤ wires.old.resets + 17 }
{
    if node.has_none_due(at.link) {
        return Ok(());
    }
    for _ in 0..MOST_FRAMES {
        let Some(lpdu) = node.next_out(at.link) else {
            return Ok(());
        };
        wires.put(at, lpdu, entries)?;
    }
    Ok(())
}
