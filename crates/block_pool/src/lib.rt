//! Blocks of memory in chains, with a quota for each owner. This project's own.
#![tactic(auto)]

mod blocks;
mod chain;
mod heads;
pub mod laws;
mod owners;
mod pool;

pub use chain::Chain;
pub use pool::{NoRoom, Pool};
