//! A new world of nodes: its hosts, none of which runs yet, and the mask of their numbers.
ghost use Rattle.std.specs.Prelude.{◌≡◌, ◌==◌, ◌^◌, ◌<◌, Some, None, map, replicate, IfOk, ℕ};
ghost use Rattle.std.specs.List.{list_any};
ghost use Rattle.gate_admin.specs.View.{hosts_where, mask_of};
ghost use Rattle.node_machine.specs.world.World.{new_site};
ghost use Rattle.node_sites.specs.Places.{SiteIs};
ghost use Rattle.node_world.specs.Controllers.{SitesAre};

use node_sites::memory::NodeMemory;
use node_sites::places::HostSite;
use node_sites::power::Power;
use node_sites::wires::Wires;
use std::alloc::Global;
use swp_base::NoMemory;

fn bit_of(host: u8) -> u8
    requires { host < 8 }
    ensures { result ≡ 2 ^ host }
{
    1 << host
}

/// The mask of these hosts: bit h stands for host h, from 01 to 07.
pub(crate) fn mask_of(hosts: &[u8]) -> u8
    ensures { result ≡ mask_of (hosts_where (λ (host : ℕ). list_any (λ (k : ℕ). k == host) hosts.now)) }
{
    let mut mask = 0;
    for host in 1..8 {
        if hosts.contains(&host) {
            mask += bit_of(host);
        }
    }
    mask
}

// A host that doesn't run yet. Its memory is blank.
fn make_site(alloc: Global, host: u8) -> Result<HostSite, NoMemory>
    ensures { IfOk result (λ k. SiteIs k (new_site (replicate 65536 255) host)) }
{
    Ok(HostSite {
        host,
        wires: Wires::make(alloc)?,
        power: Power::Off(NodeMemory::new(alloc)?),
    })
}

/// These hosts, none of which runs yet.
///
/// # Errors
///
/// No memory is left.
pub(crate) fn make_sites(alloc: Global, hosts: &[u8]) -> Result<Vec<HostSite>, NoMemory>
    ensures { IfOk result (λ ks. SitesAre ks.items (map (new_site (replicate 65536 255)) hosts.now)) }
{
    let mut sites = Vec::new(alloc);
    for host in hosts {
        let site = make_site(alloc, *host)?;
        match sites.push(site) {
            Ok(()) => {}
            Err(_) => return Err(NoMemory),
        }
    }
    Ok(sites)
}
