//! Rounds: each end takes all that stands on its wire, and time passes once.
ghost use Rattle.std.specs.Prelude.{◌≡◌, false, OnOk};
ghost use Rattle.node_machine.specs.world.World.{NodeWorld};
ghost use Rattle.node_machine.specs.world.Rounds.{end_takes_all, world_round};
ghost use Rattle.node_world.specs.Controllers.{WorldIs};
ghost use Rattle.node_world.specs.Rounds.{MayGoRound, MayTakeAll, WorldHasGone};

use crate::looking::{node_of, on_the_way, runs};
use crate::steps::{comes_to, tick_world};
use node_sites::incoming::Incoming;
use node_sites::noted::Noted;
use node_sites::places::HostSite;
use node_sites::power::Power;
use swp_base::NoMemory;
use trace_model::End;

// An end takes all that stands on its wire now, until its node loses its power. Where that doesn't run, nothing happens.
#[inline(always)]
fn take_all(
    controller: &mut Power,
    sites: &mut [HostSite],
    at: End,
    noted: &mut Noted,
) -> Result<(), NoMemory>
    requires state { (w : NodeWorld) × WorldIs controller.old sites.old w × MayTakeAll at w }
    requires memory { noted.old.short ≡ false }
    ensures stands { (w : NodeWorld) → WorldIs controller.old sites.old w → MayTakeAll at w
        → OnOk result (WorldHasGone controller.new sites.new noted.old.entries.items noted.new.entries.items (end_takes_all w at)) }
    ensures memory { OnOk result (noted.new.short ≡ false) }
{
    let times = on_the_way(sites, at);
    for _ in 0..times {
        if !runs(controller, sites, node_of(at)) {
            return Ok(());
        }
        comes_to(controller, sites, at, Incoming::NextFrame, noted)?;
    }
    Ok(())
}

/// A round: all ends take what stands on their wires then, the controller's end of a link before the host's and the links ascending, and time
/// passes once.
///
/// # Errors
///
/// No memory is left; what the world stands for then isn't said.
pub(crate) fn go_round(
    controller: &mut Power,
    sites: &mut [HostSite],
    noted: &mut Noted,
) -> Result<(), NoMemory>
    requires state { (w : NodeWorld) × WorldIs controller.old sites.old w × MayGoRound w }
    requires memory { noted.old.short ≡ false }
    ensures stands { (w : NodeWorld) → WorldIs controller.old sites.old w → MayGoRound w
        → OnOk result (WorldHasGone controller.new sites.new noted.old.entries.items noted.new.entries.items (world_round w)) }
    ensures memory { OnOk result (noted.new.short ≡ false) }
{
    for i in 0..sites.len() {
        let link = sites[i].host;
        let near = End {
            link,
            at_host: false,
        };
        let far = End {
            link,
            at_host: true,
        };
        take_all(controller, sites, near, noted)?;
        take_all(controller, sites, far, noted)?;
    }
    tick_world(controller, sites, noted)
}
