//! A world settles: it goes through rounds of deliveries and ticks until all its links are at rest. All of it is this project's own.
#![tactic(auto)]

mod noting;
mod settling;

pub use settling::settle;
