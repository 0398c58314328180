//! Whether the links of the world are at rest.
ghost use Rattle.std.specs.Prelude.{◌≡◌};
ghost use Rattle.std.specs.List.{list_all};
ghost use Rattle.node_machine.specs.world.World.{NodeWorld, Site};
ghost use Rattle.node_machine.specs.world.Rounds.{world_rests};
ghost use Rattle.node_world.specs.Controllers.{AreTimely, MayGoOn, WorldIs};
ghost use Rattle.node_sites.specs.Places.{SiteIs};
ghost use Rattle.node_world.specs.Rounds.{IsToLookAt, far_rests, near_rests};

use node_sites::places::HostSite;
use node_sites::power::Power;
use trace_model::End;

// Whether both wires of a host's link are empty, and its end of it is at rest.
fn host_rests(site: &HostSite) -> bool
    requires state { (s : Site) × SiteIs site.now s }
    ensures { (s : Site) → SiteIs site.now s → IsToLookAt s → result ≡ far_rests s }
{
    let near = End {
        link: site.host,
        at_host: false,
    };
    if site.wires.standing(near) != 0 {
        return false;
    }
    let far = End {
        link: site.host,
        at_host: true,
    };
    if site.wires.standing(far) != 0 {
        return false;
    }
    match &site.power {
        Power::On(node) => node.is_at_rest(),
        Power::Off(_) => true,
    }
}

// Whether all ends of the controller are at rest.
fn controller_rests(controller: &Power, sites: &[HostSite]) -> bool
    requires state { (w : NodeWorld) × WorldIs controller.now sites.now w }
    ensures { (w : NodeWorld) → WorldIs controller.now sites.now w → MayGoOn w → AreTimely w → result ≡ list_all near_rests w.sites }
{
    match controller {
        Power::On(node) => node.is_at_rest(),
        Power::Off(_) => true,
    }
}

/// Whether all links are at rest: their wires are empty, no end waits, and all that was sent is acknowledged.
pub(crate) fn all_rest(controller: &Power, sites: &[HostSite]) -> bool
    requires state { (w : NodeWorld) × WorldIs controller.now sites.now w × MayGoOn w × AreTimely w }
    ensures { (w : NodeWorld) → WorldIs controller.now sites.now w → MayGoOn w → AreTimely w → result ≡ world_rests w }
{
    if !controller_rests(controller, sites) {
        return false;
    }
    for i in 0..sites.len() {
        if !host_rests(&sites[i]) {
            return false;
        }
    }
    true
}
