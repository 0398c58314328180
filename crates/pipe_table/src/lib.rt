//! The pipes that a host controller keeps (ETSI TS 102 622, section 4.4).
#![tactic(auto)]

mod row;
mod table;

pub use row::{FIRST_DYNAMIC, FIRST_RESERVED, PipeRow};
pub use table::{MOST_PIPES, PipeTable};
