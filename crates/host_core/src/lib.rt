//! A host: a node with one link, to its controller, which runs an init where it is asked to (ETSI TS 102 622, sections 4 to 8; the init,
//! the calls, ticks and the memory are this project's own). This is what a user of one names; `node_core` has its code and its contracts.
#![tactic(auto)]

pub use link_end::ResetRefused;
pub use node_core::{BootFault, BootRefused, Host, HostRefused, Ran};
