//! The init of a host, and what it keeps of its last command. Both are this project's own.
ghost use Rattle.std.specs.Prelude.{◌≡◌, ◌+◌, ◌<◌, ◌≤◌, ◌++◌, option_map, slice_get, IsSome, IfSome, length};
ghost use Rattle.node_machine.specs.HostReplies.{orders_of};
ghost use Rattle.node_deeds.specs.Shown.{init_shown, ordered_by, deletion_in, own_orders};

use crate::deeds::Order;
use arrayvec::ArrayVec;
use gate_answers::{
    ADM_CLEAR_ALL_PIPE, ADM_CREATE_PIPE, ADM_DELETE_PIPE, ANY_GET_PARAMETER, ANY_OPEN_PIPE,
    ANY_SET_PARAMETER,
};
use registry::SESSION_IDENTITY;

/// An init that runs at a host, for a session initialization (ETSI TS 102 622, section 8.4; what it makes is this project's own).
#[derive(Drop)]
pub struct Init {
    /// The identity to be set.
    pub identity: [u8; 8],
    /// The pipes to be made: the host's own gate, the host at the other end, and the gate there.
    pub pipes: ArrayVec<[u8; 3], 8>,
    /// How many of its commands were answered.
    pub answered: u8,
}

/// What the last command was that a host sent on pipe 01, as far as its answer needs it. This project's own.
#[derive(Clone, Copy)]
pub enum Ordered {
    /// A pipe is to be created.
    Creation,
    /// This pipe is to be deleted.
    Deletion { pid: u8 },
    /// All pipes of the host are to be deleted.
    Clearing,
    /// Any other command, and one that names no pipe to be deleted.
    Other,
}

/// What a command of a host asks for (ETSI TS 102 622, section 6.1).
pub fn ordered_by(command: &[u8]) -> Ordered
    ensures { result ≡ ordered_by command.now }
{
    match command {
        [first, body @ ..] => match *first % 64 {
            ADM_CREATE_PIPE => Ordered::Creation,
            ADM_DELETE_PIPE => deletion_in(body),
            ADM_CLEAR_ALL_PIPE => Ordered::Clearing,
            _ => Ordered::Other,
        },
        [] => Ordered::Other,
    }
}

fn deletion_in(body: &[u8]) -> Ordered
    ensures { result ≡ deletion_in body.now }
{
    match body {
        [pid] => Ordered::Deletion { pid: *pid },
        _ => Ordered::Other,
    }
}

/// The command of an init at this place, from 0 on: none behind its last one.
pub(crate) fn order_at(init: &Init, place: usize) -> Option<Order>
    ensures order { option_map (λ o. o.items) result ≡ slice_get (orders_of (init_shown init.now)) place }
    ensures few { IsSome result → place < 13 }
    ensures some { IfSome result (λ o. 0 < length o.items) }
{
    match place {
        0 | 3 => Some(order_of(&[ANY_OPEN_PIPE], &[])),
        1 => Some(order_of(&[ANY_GET_PARAMETER], &[SESSION_IDENTITY])),
        2 => Some(order_of(&[ADM_CLEAR_ALL_PIPE], &[])),
        _ => last_order_at(init, place - 4),
    }
}

// The commands that make the pipes, and the one behind them, which sets the identity.
fn last_order_at(init: &Init, place: usize) -> Option<Order>
    ensures order { option_map (λ o. o.items) result ≡ slice_get (own_orders init.now) place }
    ensures few { IsSome result → place < 9 }
    ensures some { IfSome result (λ o. 0 < length o.items) }
{
    let pipes = init.pipes.as_slice();
    match pipes.get(place) {
        Some(pipe) => Some(order_of(&[ADM_CREATE_PIPE], pipe)),
        None => {
            if place == pipes.len() {
                Some(order_of(&[ANY_SET_PARAMETER, SESSION_IDENTITY], &init.identity))
            } else {
                None
            }
        }
    }
}

// A command with this front and what stands behind it.
fn order_of(front: &[u8], rest: &[u8]) -> Order
    requires { length front.now + length rest.now ≤ 10 }
    ensures { result.items ≡ front.now ++ rest.now }
{
    let mut order = ArrayVec::new();
    let _ = order.try_extend_from_slice(front);
    let _ = order.try_extend_from_slice(rest);
    order
}
