//! A controller of a front end: up to seven hosts, each over a link of its own, their pipes and their registries (ETSI TS 102 622,
//! sections 4 to 8). Its calls, ticks and memory are this project's own. This is what a user of one names; `node_core` has its code and
//! its contracts.
#![tactic(auto)]

pub use link_end::ResetRefused;
pub use node_core::{BootFault, BootRefused, Controller, Ran};
