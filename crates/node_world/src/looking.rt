//! What is looked up of the world: which nodes run, and what stands on the wires.
ghost use Rattle.std.specs.Prelude.{◌≡◌, length};
ghost use Rattle.node_machine.specs.world.World.{NodeWorld, node_of};
ghost use Rattle.node_machine.specs.world.Lines.{frames_at, is_running};
ghost use Rattle.link_wires.specs.Damages.{Finds};
ghost use Rattle.node_world.specs.Controllers.{SitesAre, WorldIs, MayGoOn};

use crate::controller_sites::place_of;
use link_wires::Damaged;
use node_sites::places::HostSite;
use node_sites::power::Power;
use trace_model::{End, NoCause};

/// The number of the node of an end.
pub(crate) fn node_of(at: End) -> u8
    ensures { result ≡ node_of at }
{
    if at.at_host { at.link } else { 0 }
}

/// Whether the node with this number runs.
pub(crate) fn runs(controller: &Power, sites: &[HostSite], node: u8) -> bool
    ensures { (w : NodeWorld) → WorldIs controller.now sites.now w → MayGoOn w → result ≡ is_running w node }
{
    if node == 0 {
        return controller.is_on();
    }
    match place_of(sites, node) {
        Some(place) => sites[place].power.is_on(),
        None => false,
    }
}

/// How many frames stand on the wire to an end.
pub(crate) fn on_the_way(sites: &[HostSite], to: End) -> usize
    ensures { (w : NodeWorld) → SitesAre sites.now w.sites → MayGoOn w → result ≡ length (frames_at w to) }
{
    match place_of(sites, to.link) {
        Some(place) => sites[place].wires.standing(to),
        None => 0,
    }
}

/// What a line that damages the first frame on the way to an end at these places finds there.
pub(crate) fn damaged_at(sites: &[HostSite], to: End, places: &[u16]) -> Damaged
    ensures { (w : NodeWorld) → SitesAre sites.now w.sites → MayGoOn w → Finds (frames_at w to) places.now result }
{
    match place_of(sites, to.link) {
        Some(place) => sites[place].wires.damaged(to, places),
        None => Damaged::Refused(NoCause::Empty),
    }
}
