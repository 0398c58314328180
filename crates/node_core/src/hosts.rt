//! The hosts to which a node has links.
ghost use Rattle.std.specs.Prelude.{◌≡◌};
ghost use Rattle.gate_admin.specs.View.{has, hosts_where};
ghost use Rattle.node_core.specs.Booting.{hosts_linked};

use arrayvec::ArrayVec;

// Whether a host is in a mask.
fn is_in(mask: u8, host: u8) -> bool
    ensures { result ≡ has mask host }
{
    1 <= host && host <= 7 && (mask >> host) % 2 == 1
}

// The hosts from 01 to 07 of a mask, in which bit h stands for host h, ascending.
fn hosts_of(mask: u8) -> ArrayVec<u8, 7>
    ensures { result.items ≡ hosts_where (has mask) }
{
    let mut hosts = ArrayVec::new();
    for host in 1..8 {
        if is_in(mask, host) {
            hosts.push(host);
        }
    }
    hosts
}

/// The hosts to which a node has links: the controller to those of a mask, in which bit h stands for host h, ascending; a host to itself.
pub(crate) fn links_of(number: u8, mask: u8) -> ArrayVec<u8, 7>
    ensures { result.items ≡ hosts_linked number mask }
{
    if number == 0 {
        return hosts_of(mask);
    }
    let mut hosts = ArrayVec::new();
    hosts.push(number);
    hosts
}
