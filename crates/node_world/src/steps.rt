//! The steps of the nodes of the world: something comes to an end of one, or time passes.
ghost use Rattle.std.specs.Prelude.{◌≡◌, ◌+◌, ◌<◌, ◌^◌, true, false, IfOk, OnOk};
ghost use Rattle.node_machine.specs.Node.NodeInput.{TimePasses};
ghost use Rattle.node_machine.specs.world.World.{NodeWorld, Site, comes_at, controller_ticks, host_ticks, node_at, node_of, world_ticks};
ghost use Rattle.node_machine.specs.world.Lines.{machine_in};
ghost use Rattle.node_sites.specs.Arrivals.{as_comes, MayArrive};
ghost use Rattle.node_sites.specs.Places.{SiteIs};
ghost use Rattle.node_world.specs.Controllers.{WorldIs, WorldBecomes, MayGoOn, IsThere, AreTimely, HaveRoom, FewAreCounted};
ghost use Rattle.node_world.specs.HostSteps.{host_hears, refusal_coming, IsHostOf, CountsComing, MayTick, HasBecome, BecomesUnless};
ghost use Rattle.node_world.specs.Whole.{IsWithinBounds, if_accepted};

use crate::controller::finish_controller;
use crate::controller_sites::{age_all, place_of, sessions_of};
use crate::hosts::finish_host;
use link_end::ResetRefused;
use node_core::NodeInput;
use node_sites::incoming::Incoming;
use node_sites::nodes::step;
use node_sites::noted::Noted;
use node_sites::places::HostSite;
use node_sites::power::Power;
use swp_base::NoMemory;
use trace_model::End;

// This comes to the end of a host. Where the host doesn't run, or no frame is on the way, nothing happens; and where a reset is refused,
// which is answered.
#[inline(always)]
fn comes_to_host(
    site: &mut HostSite,
    what: Incoming,
    noted: &mut Noted,
) -> Result<Option<ResetRefused>, NoMemory>
    requires state { (s : Site) × SiteIs site.old s × IsHostOf s × CountsComing s (as_comes what) }
    requires may { MayArrive true what }
    requires room { site.old.wires.resets + 17 < 2 ^ 32 }
    requires memory { noted.old.short ≡ false }
    ensures refusal { (s : Site) → SiteIs site.old s → IsHostOf s
        → IfOk result (λ why. why ≡ refusal_coming s.node s.link.host.side (as_comes what)) }
    ensures stands { (s : Site) → SiteIs site.old s → IsHostOf s → CountsComing s (as_comes what)
        → IfOk result (BecomesUnless site.new noted.old.entries.items noted.new.entries.items s (host_hears s (as_comes what))) }
    ensures memory { OnOk result (noted.new.short ≡ false) }
{
    let host = site.host;
    let at = End {
        link: host,
        at_host: true,
    };
    let Power::On(node) = &mut site.power else {
        return Ok(None);
    };
    let Some(arrived) = site.wires.comes(at, what, &mut noted.entries)? else {
        return Ok(None);
    };
    noted.sessions = [site.wires.host.session(); 8];
    let input = NodeInput::At {
        host,
        what: arrived.as_input(),
    };
    match step(node, input, noted) {
        Ok(live) => {
            finish_host(site, live, noted)?;
            Ok(None)
        }
        Err(why) => Ok(Some(why)),
    }
}

/// This comes to an end. Where its node doesn't run, or no frame is on the way, nothing happens; and where a reset is refused, which is
/// answered.
///
/// # Errors
///
/// No memory is left; what the world stands for then isn't said.
#[inline(always)]
pub(crate) fn comes_to(
    controller: &mut Power,
    sites: &mut [HostSite],
    at: End,
    what: Incoming,
    noted: &mut Noted,
) -> Result<Option<ResetRefused>, NoMemory>
    requires state { (w : NodeWorld) × WorldIs controller.old sites.old w × IsWithinBounds w × IsThere at.link w }
    requires may { MayArrive at.at_host what }
    requires memory { noted.old.short ≡ false }
    ensures refusal { (w : NodeWorld) → WorldIs controller.old sites.old w → IsWithinBounds w → IsThere at.link w
        → IfOk result (λ why. why ≡ refusal_coming (node_at w (node_of at)) (machine_in w at) (as_comes what)) }
    ensures stands { (w : NodeWorld) → WorldIs controller.old sites.old w → IsWithinBounds w → IsThere at.link w
        → IfOk result (λ why. WorldBecomes controller.new sites.new noted.old.entries.items noted.new.entries.items
        (if_accepted why w (comes_at w at (as_comes what)))) }
    ensures memory { OnOk result (noted.new.short ≡ false) }
{
    let Some(place) = place_of(sites, at.link) else {
        return Ok(None);
    };
    if at.at_host {
        return comes_to_host(&mut sites[place], what, noted);
    }
    let Power::On(node) = controller else {
        return Ok(None);
    };
    let site = &mut sites[place];
    let Some(arrived) = site.wires.comes(at, what, &mut noted.entries)? else {
        return Ok(None);
    };
    noted.sessions = sessions_of(sites);
    let input = NodeInput::At {
        host: at.link,
        what: arrived.as_input(),
    };
    match step(node, input, noted) {
        Ok(live) => {
            finish_controller(controller, sites, live, noted)?;
            Ok(None)
        }
        Err(why) => Ok(Some(why)),
    }
}

// A tick passes at a host, whether it runs or not.
fn tick_host(site: &mut HostSite, noted: &mut Noted) -> Result<(), NoMemory>
    requires state { (s : Site) × SiteIs site.old s × IsHostOf s × MayTick s }
    requires room { site.old.wires.resets + 17 < 2 ^ 32 }
    requires memory { noted.old.short ≡ false }
    ensures stands { (s : Site) → SiteIs site.old s → IsHostOf s → MayTick s
        → OnOk result (HasBecome site.new noted.old.entries.items noted.new.entries.items (host_ticks s)) }
    ensures memory { OnOk result (noted.new.short ≡ false) }
{
    let Power::On(node) = &mut site.power else {
        return Ok(());
    };
    noted.sessions = [site.wires.host.session(); 8];
    let stepped = step(node, NodeInput::Tick, noted);
    finish_host(site, stepped.unwrap(), noted)
}

// A tick of the controller passes, where frames grew older already. While it doesn't run, nothing happens.
fn tick_controller(
    controller: &mut Power,
    sites: &mut [HostSite],
    noted: &mut Noted,
) -> Result<(), NoMemory>
    requires state { (w : NodeWorld) × WorldIs controller.old sites.old w × MayGoOn w × AreTimely w }
    requires room { HaveRoom sites.old }
    requires memory { noted.old.short ≡ false }
    ensures stands { (w : NodeWorld) → WorldIs controller.old sites.old w → MayGoOn w → AreTimely w → FewAreCounted TimePasses w
        → OnOk result (WorldBecomes controller.new sites.new noted.old.entries.items noted.new.entries.items (controller_ticks w)) }
    ensures memory { OnOk result (noted.new.short ≡ false) }
{
    let Power::On(node) = controller else {
        return Ok(());
    };
    noted.sessions = sessions_of(sites);
    let stepped = step(node, NodeInput::Tick, noted);
    finish_controller(controller, sites, stepped.unwrap(), noted)
}

/// A tick of the world: frames grow older, then the nodes have their ticks, ascending.
///
/// # Errors
///
/// No memory is left; what the world stands for then isn't said.
pub(crate) fn tick_world(
    controller: &mut Power,
    sites: &mut [HostSite],
    noted: &mut Noted,
) -> Result<(), NoMemory>
    requires state { (w : NodeWorld) × WorldIs controller.old sites.old w × IsWithinBounds w × AreTimely w }
    requires memory { noted.old.short ≡ false }
    ensures stands { (w : NodeWorld) → WorldIs controller.old sites.old w → IsWithinBounds w → AreTimely w
        → OnOk result (WorldBecomes controller.new sites.new noted.old.entries.items noted.new.entries.items (world_ticks w)) }
    ensures memory { OnOk result (noted.new.short ≡ false) }
{
    age_all(sites, noted)?;
    tick_controller(controller, sites, noted)?;
    for i in 0..sites.len() {
        tick_host(&mut sites[i], noted)?;
    }
    Ok(())
}
