//! New ends of a node.
ghost use Rattle.std.specs.Prelude.{◌≡◌, ◌≤◌, ◌+◌, length, IfOk, OnOk};
ghost use Rattle.node_ends.specs.Making.{IsNewSeat, AddsNew};

use crate::seat::Seat;
use link_end::End;
use node_deeds::Desk;
use std::alloc::Global;
use swp_base::{NoMemory, Role};

/// A new end with the owners of the place k.
fn new_seat(alloc: Global, role: Role, host: u8, k: u8) -> Result<Seat, NoMemory>
    requires { k ≤ 6 }
    ensures { IfOk result (IsNewSeat role k host) }
{
    let side = End::make(alloc, role, 2 * k, 2 * k + 1)?;
    Ok(Seat {
        side,
        waiting: None,
        desk: Desk {
            host,
            notice: None,
            holds: false,
            errors: 0,
        },
        late: false,
        ended: false,
        acked: 0,
        aside: 0,
    })
}

/// New ends of the links with these hosts are put behind those before.
pub(crate) fn add_seats(
    alloc: Global,
    role: Role,
    hosts: &[u8],
    seats: &mut Vec<Seat>,
) -> Result<(), NoMemory>
    requires { length seats.old.items + length hosts.now ≤ 7 }
    ensures { OnOk result (AddsNew role hosts.now seats.old.items seats.new.items) }
{
    let Some((host, rest)) = hosts.split_first() else {
        return Ok(());
    };
    let k = seats.len() as u8;
    let seat = new_seat(alloc, role, *host, k)?;
    match seats.push(seat) {
        Ok(()) => add_seats(alloc, role, rest, seats),
        Err(_full) => Err(NoMemory),
    }
}
