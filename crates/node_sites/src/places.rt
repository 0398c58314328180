//! A host of the world: its node or its memory, and the wires of its link.
ghost use Rattle.std.specs.Prelude.{◌≡◌};
ghost use Rattle.link_laws.specs.messages.Links.{Link};
ghost use Rattle.node_sites.specs.LinksKept.{WiresStandFor, with_bare_wires};
ghost use Rattle.node_sites.specs.declared.power.Power.TheVariants.{Off};
ghost use Rattle.node_sites.specs.Powers.{memory_kept};

use crate::power::Power;
use crate::wires::Wires;

/// A host of the world: its node while that runs, its memory while it doesn't.
#[derive(Drop)]
pub struct HostSite {
    pub host: u8,
    pub wires: Wires,
    pub power: Power,
}

/// The power of a host goes: both wires of its link are empty, and its memory stays.
pub fn lose_power(site: &mut HostSite)
    ensures off { site.new.power ≡ Off (memory_kept site.old.power) }
    ensures host { site.new.host ≡ site.old.host }
    ensures wires { (l : Link) → WiresStandFor site.old.wires l → WiresStandFor site.new.wires (with_bare_wires l) }
{
    site.wires.empty();
    site.power.lose();
}
