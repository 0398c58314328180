//! The ends of all links of a node, controller or host, in one pool of blocks of memory, and what the node keeps of each of them:
//! they stand for the ports of its machine. All of it is this project's own.
#![tactic(auto)]

mod ends;
mod inputs;
mod looking;
mod new_seats;
mod passing;
mod places;
mod seat;

pub use ends::Ends;
pub use inputs::LinkInput;
pub use looking::Seen;
pub use seat::Seat;
