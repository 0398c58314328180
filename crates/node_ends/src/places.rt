//! Where the end of the link with a host is among the ends of a node.
ghost use Rattle.std.specs.Prelude.{◌≡◌, ◌<◌, length, IfSome};
ghost use Rattle.node_ends.specs.Ends.{place_in};

use crate::seat::Seat;

/// The place of the end of the link with this host.
pub(crate) fn place_of(seats: &[Seat], host: u8) -> Option<usize>
    ensures place { result ≡ place_in host seats.now }
    ensures inside { IfSome result (λ i. i < length seats.now) }
{
    seats.iter().position(|seat| seat.desk.host == host)
}
