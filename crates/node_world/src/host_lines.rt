//! Lines of a schedule at hosts alone: a host sends a message, or begins an init.
ghost use Rattle.std.specs.Prelude.{◌≡◌, [], false, true, OnOk};
ghost use Rattle.node_machine.specs.world.World.{NodeWorld};
ghost use Rattle.node_machine.specs.world.Lines.{line_step};
ghost use Rattle.node_core.specs.Giving.{refusal_noted};
ghost use Rattle.node_sites.specs.Asking.{MayBeAsked};
ghost use Rattle.node_world.specs.Controllers.{SitesAre, IsThere};
ghost use Rattle.node_world.specs.Whole.{HostsPlayed, IsWithinBounds, line_asked};

use crate::controller_sites::place_of;
use crate::hosts::finish_host;
use node_core::HostRefused;
use node_sites::nodes::{Asked, give};
use node_sites::noted::{Noted, refuse};
use node_sites::places::HostSite;
use node_sites::power::Power;
use swp_base::NoMemory;
use trace_model::{End, NoCause};

// Why a host doesn't do what it is asked to, as the line that asks for it tells.
fn cause_of(why: HostRefused) -> NoCause
    ensures { result ≡ refusal_noted why }
{
    match why {
        HostRefused::NotUp => NoCause::NotUp,
        HostRefused::Waiting => NoCause::Waiting,
        HostRefused::TooLong { .. } => NoCause::TooLong,
        HostRefused::Full { need, spare } => NoCause::Full { need, spare },
    }
}

/// A line `send` or `init`: the host does by itself what it is asked to, or the line is refused.
///
/// # Errors
///
/// No memory is left; what the hosts stand for then isn't said.
pub(crate) fn host_line(
    sites: &mut [HostSite],
    at: End,
    asked: Asked<'_>,
    noted: &mut Noted,
) -> Result<(), NoMemory>
    requires state { (w : NodeWorld) × SitesAre sites.old w.sites × IsWithinBounds w × IsThere at.link w }
    requires host { at.at_host ≡ true }
    requires may { MayBeAsked asked }
    requires nothing { noted.old.entries.items ≡ [] }
    requires memory { noted.old.short ≡ false }
    ensures stands { (w : NodeWorld) → SitesAre sites.old w.sites → IsWithinBounds w → IsThere at.link w
        → OnOk result (HostsPlayed sites.new noted.new.entries.items (line_step w (line_asked at asked.entry))) }
    ensures memory { OnOk result (noted.new.short ≡ false) }
{
    let Some(place) = place_of(sites, at.link) else {
        return Ok(());
    };
    let site = &mut sites[place];
    let Power::On(node) = &mut site.power else {
        return refuse(noted, NoCause::Off);
    };
    noted.sessions = [site.wires.host.session(); 8];
    if let Err(why) = give(node, asked, noted) {
        return refuse(noted, cause_of(why));
    }
    finish_host(site, true, noted)
}
