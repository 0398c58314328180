//! A host of the world boots, and a step of it ends, whatever has begun that.
ghost use Rattle.std.specs.Prelude.{◌≡◌, ◌+◌, ◌<◌, ◌^◌, ◌++◌, List, false, OnOk, None};
ghost use Rattle.trace_model.specs.declared.entry.Entry.{Entry as Told};
ghost use Rattle.link_laws.specs.machine.Machine.{Turn, new_link_end};
ghost use Rattle.link_laws.specs.messages.Links.{Link, Ending};
ghost use Rattle.link_laws.specs.entries.Entries.End.{Host};
ghost use Rattle.node_machine.specs.Parts.{Work};
ghost use Rattle.node_machine.specs.world.World.{Site, frames_noted};
ghost use Rattle.node_world.specs.HostSteps.{host_behind, IsToSend, HasBecome, host_boots, IsHostOf};
ghost use Rattle.swp_act.specs.Activation.{new_uicc};
ghost use Rattle.link_laws.specs.machine.Machine.Role.{Uicc};
ghost use Rattle.node_sites.specs.Places.{SiteIs};
ghost use Rattle.node_sites.specs.Memories.{IsSoundMemory};

use node_sites::noted::{Noted, note_last};
use node_sites::places::{HostSite, lose_power};
use node_sites::power::Power;
use node_sites::sending::send_frames;
use std::alloc::Global;
use swp_base::NoMemory;
use trace_model::{End, Entry};

/// A host's node has done its work: its frames go out, unless it has lost its power.
///
/// # Errors
///
/// No memory is left; what the host stands for then isn't said.
pub(crate) fn finish_host(
    site: &mut HostSite,
    live: bool,
    noted: &mut Noted,
) -> Result<(), NoMemory>
    requires state { (s : Site) × (step : List Turn → Ending → Link) × (l : Link) × (w : Work) × (before : List Told)
        × IsToSend site.old live noted.old.entries.items noted.old.short before s step l w }
    requires room { site.old.wires.resets + 17 < 2 ^ 32 }
    ensures stands { (s : Site) (step : List Turn → Ending → Link) (l : Link) (w : Work) (before : List Told)
        → IsToSend site.old live noted.old.entries.items noted.old.short before s step l w
        → OnOk result (HasBecome site.new before noted.new.entries.items (host_behind s step w, w.entries ++ frames_noted Host s.host l w)) }
    ensures memory { OnOk result (noted.new.short ≡ false) }
{
    if noted.short {
        return Err(NoMemory);
    }
    if !live {
        lose_power(site);
        return Ok(());
    }
    let at = End {
        link: site.host,
        at_host: true,
    };
    if let Power::On(node) = &mut site.power {
        send_frames(node, at, &mut site.wires, &mut noted.entries)?;
    }
    Ok(())
}

/// A host that doesn't run boots from its memory.
///
/// # Errors
///
/// No memory is left; what the host stands for then isn't said.
pub(crate) fn boot_host(
    alloc: Global,
    site: &mut HostSite,
    noted: &mut Noted,
) -> Result<(), NoMemory>
    requires state { (s : Site) × SiteIs site.old s × IsHostOf s × (s.node ≡ None) × IsSoundMemory s.memory }
    ensures stands { (s : Site) → SiteIs site.old s → IsHostOf s → s.node ≡ None → s.link.host.side ≡ new_link_end (Uicc new_uicc)
        → OnOk result (HasBecome site.new noted.old.entries.items noted.new.entries.items (host_boots s)) }
    ensures short { noted.new.short ≡ noted.old.short }
{
    let node = site.host;
    site.power.boot(alloc, node, 0)?;
    match &site.power {
        Power::On(running) => {
            let count = running.store().kept();
            note_last(noted, Entry::Booted { node, count })
        }
        Power::Off(_) => {
            site.wires.empty();
            note_last(noted, Entry::Cut { node })
        }
    }
}
