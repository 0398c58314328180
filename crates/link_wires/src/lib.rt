//! The two wires of a link: the frames on the way to each end, with their ages and the numbers of RSETs; and what becomes of a frame that
//! is damaged there. All of it is this project's own.
#![tactic(auto)]

mod damage;
mod finding;
mod putting;
mod wire;

pub use finding::{Damaged, Misread, damaged_first};
pub use putting::{lose_first, put_frame};
pub use wire::{Flying, empty_wire, grow_older, taken};
