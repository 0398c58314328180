//! The parts of a world of nodes: what a node of it does in a step, whether controller or host, the two wires of a link, a host with its
//! memory and its wires, and what is noted of a step. All of it is this project's own.
#![tactic(auto)]

mod copying;
pub mod incoming;
pub mod memory;
pub mod nodes;
pub mod noted;
pub mod places;
pub mod power;
pub mod sending;
pub mod wires;
