//! The lines of a schedule are played in a world of nodes.
ghost use Rattle.std.specs.Prelude.{◌≡◌, [], false, OnOk};
ghost use Rattle.trace_model.specs.declared.line.Header.{Header};
ghost use Rattle.gate_admin.specs.View.{has, hosts_where};
ghost use Rattle.node_machine.specs.world.World.{NodeWorld};
ghost use Rattle.node_machine.specs.world.Lines.{line_step};
ghost use Rattle.node_world.specs.Controllers.{WorldIs};
ghost use Rattle.node_world.specs.Whole.{LinePlayed, MayPlay, is_damaging};

use crate::frame_lines::{deliver_line, lose_line, tick_line};
use crate::host_lines::host_line;
use crate::node_lines::{activate_line, arm_line, boot_line, cut_line, reset_line, tables_line};
use node_sites::nodes::Asked;
use node_sites::noted::Noted;
use node_sites::places::HostSite;
use node_sites::power::Power;
use std::alloc::Global;
use swp_base::NoMemory;
use trace_model::Line;

/// Plays a line that damages no frame; the mask holds the hosts of the world.
///
/// # Errors
///
/// No memory is left; what the world stands for then isn't said.
#[inline(never)]
pub(crate) fn play_line(
    alloc: Global,
    controller: &mut Power,
    sites: &mut [HostSite],
    mask: u8,
    line: &Line,
    noted: &mut Noted,
) -> Result<(), NoMemory>
    requires state { (header : Header) × (w : NodeWorld) × WorldIs controller.old sites.old w × MayPlay header line.now w }
    requires sound { is_damaging line.now ≡ false }
    requires nothing { noted.old.entries.items ≡ [] }
    requires memory { noted.old.short ≡ false }
    ensures stands { (header : Header) (w : NodeWorld) → WorldIs controller.old sites.old w → MayPlay header line.now w
        → hosts_where (has mask) ≡ header.hosts.items → OnOk result (LinePlayed controller.new sites.new noted.new.entries.items (line_step w line.now)) }
    ensures memory { OnOk result (noted.new.short ≡ false) }
{
    match line {
        Line::Send { at, pid, message } => {
            host_line(sites, *at, Asked::Send(*pid, message.as_slice()), noted)
        }
        Line::Deliver { at, count } => deliver_line(controller, sites, *at, *count, noted),
        Line::Lose { at } => lose_line(controller, sites, *at, noted),
        Line::Damage { .. } => Ok(()),
        Line::Tick { times } => tick_line(controller, sites, *times, noted),
        Line::Reset { at, window } => reset_line(controller, sites, *at, *window, noted),
        Line::Busy { .. } => Ok(()),
        Line::Ready { .. } => Ok(()),
        Line::Boot { node } => boot_line(alloc, controller, sites, *node, mask, noted),
        Line::Cut { node } => cut_line(controller, sites, *node, noted),
        Line::Activate { host, sync, power } => {
            activate_line(controller, sites, *host, *sync, *power, noted)
        }
        Line::Arm { node, nth, fill } => arm_line(controller, sites, *node, *nth, fill, noted),
        Line::Init {
            at,
            identity,
            pipes,
        } => host_line(sites, *at, Asked::Init(identity, pipes.as_slice()), noted),
        Line::Tables { node } => tables_line(alloc, controller, sites, *node, noted),
        Line::Settle { .. } => Ok(()),
    }
}
