//! Messages in chains of blocks: cut into packets, and joined from packets of any pipes mixed (ETSI TS 102 622,
//! section 5.3).
#![tactic(auto)]

mod cutting;
mod joiner;
pub mod laws;
pub mod ready;

pub use cutting::cut;
pub use joiner::{ChainFault, Joined, Joiner, MAX_MESSAGE};
