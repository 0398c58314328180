//! The tables that a host controller keeps for its hosts, and the commands that change them (ETSI TS 102 622,
//! sections 4.4 and 4.5). The sync identifiers and the bodies of the commands' records are this project's own.
#![tactic(auto)]

mod body;
mod command;
mod statics;
mod syncs;
mod tables;

pub use body::{MAX_BODY, read_command, write_command};
pub use command::{Command, is_allowed};
pub use tables::Tables;
