//! The registries of a host's gates: which parameters there are, and what is kept of them for each host (ETSI TS 102 622,
//! sections 4.5 and 7.1).
#![tactic(auto)]

mod access;
mod registry;
mod value;

pub use access::{Access, access_of};
pub use registry::{MOST_VALUES, Registry};
pub use value::{HOST_LIST, MAX_PIPE, RegValue, SESSION_IDENTITY, WHITELIST};
