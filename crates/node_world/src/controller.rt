//! The controller of the world: its node or its memory, and its ends of the links to all hosts. In a step of it frames may go out at every
//! link, and a stop of its node cuts all of them.
ghost use Rattle.std.specs.Prelude.{◌≡◌, List, true, false, map, OnOk, None};
ghost use Rattle.swp_base.specs.InMemory.{Memory};
ghost use Rattle.trace_model.specs.declared.entry.Entry.{Entry as Told};
ghost use Rattle.node_machine.specs.Parts.{Work};
ghost use Rattle.node_machine.specs.world.World.{Site, NodeWorld, boots};
ghost use Rattle.node_core.specs.declared.node.Node.{Node};
ghost use Rattle.node_sites.specs.WorldNodes.{IsNotedBehind};
ghost use Rattle.node_sites.specs.declared.power.Power.TheVariants.{Off};
ghost use Rattle.node_sites.specs.Powers.{memory_kept};
ghost use Rattle.node_world.specs.Controllers.{SitesAre, with_bare_link, HaveRoom, EndsStep, GoesOnWith, WentOffWith};
ghost use Rattle.node_world.specs.Controllers.{WorldIs, WorldBecomes, MayGoOn, AreTimely};
ghost use Rattle.gate_admin.specs.View.{has, hosts_where};
ghost use Rattle.node_laws.specs.telling.Telling.{hosts_in};
ghost use Rattle.node_sites.specs.Memories.{IsSoundMemory};

use crate::controller_sites::empty_all;
use node_sites::noted::{Noted, note_last};
use node_sites::places::HostSite;
use node_sites::power::Power;
use node_sites::sending::send_frames;
use std::alloc::Global;
use swp_base::NoMemory;
use trace_model::{End, Entry};

/// The power of the controller goes: the wires of all links are empty, and its memory stays.
pub(crate) fn lose_controller(controller: &mut Power, sites: &mut [HostSite])
    ensures off { controller.new ≡ Off (memory_kept controller.old) }
    ensures wires { (hosts : List Site) → SitesAre sites.old hosts → SitesAre sites.new (map with_bare_link hosts) }
{
    empty_all(sites);
    controller.lose();
}

/// A step of the controller ends: its frames go out at all its links, those of the first host first, unless it has lost its power.
///
/// # Errors
///
/// No memory is left; what the controller and the hosts stand for then isn't said.
pub(crate) fn finish_controller(
    controller: &mut Power,
    sites: &mut [HostSite],
    live: bool,
    noted: &mut Noted,
) -> Result<(), NoMemory>
    requires state { (n : Node Memory) × (v : Work) × (hosts : List Site) × EndsStep controller.old sites.old n live v hosts }
    requires room { HaveRoom sites.old }
    ensures goes_on { (n : Node Memory) (v : Work) (hosts : List Site) (before : List Told) → EndsStep controller.old sites.old n live v hosts
        → IsNotedBehind noted.old before v.entries → live ≡ true → OnOk result (GoesOnWith controller.new sites.new n v hosts before noted.new.entries.items) }
    ensures cut { (n : Node Memory) (v : Work) (hosts : List Site) (before : List Told) → EndsStep controller.old sites.old n live v hosts
        → IsNotedBehind noted.old before v.entries → live ≡ false
        → OnOk result (WentOffWith controller.new sites.new n v hosts before noted.new.entries.items) }
    ensures short { OnOk result ((noted.old.short ≡ false) × (noted.new.short ≡ false)) }
{
    if noted.short {
        return Err(NoMemory);
    }
    if !live {
        lose_controller(controller, sites);
        return Ok(());
    }
    let Power::On(node) = controller else {
        return Ok(());
    };
    for i in 0..sites.len() {
        let site = &mut sites[i];
        let at = End {
            link: site.host,
            at_host: false,
        };
        send_frames(node, at, &mut site.wires, &mut noted.entries)?;
    }
    Ok(())
}

/// The controller, which doesn't run, boots from its memory, with ends of the links with the hosts of this mask, in which bit h stands for
/// host h.
///
/// # Errors
///
/// No memory is left; what the controller and the hosts stand for then isn't said.
pub(crate) fn boot_controller(
    alloc: Global,
    controller: &mut Power,
    sites: &mut [HostSite],
    mask: u8,
    noted: &mut Noted,
) -> Result<(), NoMemory>
    requires state { (w : NodeWorld) × WorldIs controller.old sites.old w × (w.controller ≡ None) × IsSoundMemory w.memory }
    ensures stands { (w : NodeWorld) → WorldIs controller.old sites.old w → MayGoOn w → AreTimely w → w.controller ≡ None
        → hosts_where (has mask) ≡ hosts_in w.sites
        → OnOk result (WorldBecomes controller.new sites.new noted.old.entries.items noted.new.entries.items (boots w 0)) }
    ensures short { noted.new.short ≡ noted.old.short }
{
    controller.boot(alloc, 0, mask)?;
    match controller {
        Power::On(node) => {
            let count = node.store().kept();
            note_last(noted, Entry::Booted { node: 0, count })
        }
        Power::Off(_) => {
            empty_all(sites);
            note_last(noted, Entry::Cut { node: 0 })
        }
    }
}
