//! What happens at all links of the controller, one after another.
ghost use Rattle.std.specs.Prelude.{◌≡◌, ◌<◌, ◌++◌, List, length, map, IfSome, OnOk};
ghost use Rattle.std.specs.List.{AllByRecursion};
ghost use Rattle.trace_model.specs.Lines.{IsHost};
ghost use Rattle.node_machine.specs.world.World.{Site, NodeWorld, all_aged};
ghost use Rattle.node_laws.specs.kept.Hosts.{AreDifferent};
ghost use Rattle.node_laws.specs.telling.Telling.{hosts_in};
ghost use Rattle.node_world.specs.Controllers.{SitesAre, IsPlaceOf, AreSessions, with_bare_link};

use node_sites::noted::{Noted, Sessions};
use node_sites::places::HostSite;
use swp_base::NoMemory;

/// Nothing stands on the wires of any link any more.
pub(crate) fn empty_all(sites: &mut [HostSite])
    ensures { (hosts : List Site) → SitesAre sites.old hosts → SitesAre sites.new (map with_bare_link hosts) }
{
    for i in 0..sites.len() {
        let site = &mut sites[i];
        site.wires.empty();
    }
}

/// The place of the host with this number: where all from 01 on are there, as in most worlds, it is one below that; else it is looked for
/// from the first one on.
pub(crate) fn place_of(sites: &[HostSite], host: u8) -> Option<usize>
    ensures range { IfSome result (λ i. i < length sites.now) }
    ensures place { (hosts : List Site) → SitesAre sites.now hosts → IsPlaceOf result host hosts }
{
    let near = usize::from(host.saturating_sub(1));
    if near < sites.len() && sites[near].host == host {
        return Some(near);
    }
    for i in 0..sites.len() {
        if sites[i].host == host {
            return Some(i);
        }
    }
    None
}

/// The numbers of the sessions of the controller's ends of all links.
pub(crate) fn sessions_of(sites: &[HostSite]) -> Sessions
    ensures { (hosts : List Site) → SitesAre sites.now hosts → AreDifferent (hosts_in hosts) → AllByRecursion IsHost (hosts_in hosts)
        → AreSessions result hosts }
{
    let mut sessions = [0; 8];
    for i in 0..sites.len() {
        let site = &sites[i];
        let host = usize::from(site.host);
        if host < 8 {
            sessions[host] = site.wires.controller.session();
        }
    }
    sessions
}

/// The frames on all wires grow older by one tick, and those that are too old are lost.
///
/// # Errors
///
/// No memory is left; what the hosts stand for then isn't said.
pub(crate) fn age_all(sites: &mut [HostSite], noted: &mut Noted) -> Result<(), NoMemory>
    ensures stands { (w : NodeWorld) → SitesAre sites.old w.sites
        → OnOk result (SitesAre sites.new (all_aged w).0.sites × (noted.new.entries.items ≡ noted.old.entries.items ++ (all_aged w).1)) }
    ensures short { noted.new.short ≡ noted.old.short }
{
    for i in 0..sites.len() {
        let site = &mut sites[i];
        site.wires.grow_older(site.host, &mut noted.entries)?;
    }
    Ok(())
}
