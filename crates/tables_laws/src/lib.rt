//! What the administration gate decides, in the words of its users. Laws; nothing here runs.
//!
//! What commands make of the tables, in the words of their user. Laws; nothing here runs.
#![tactic(auto)]

pub mod gate_decisions;
pub mod tables_changed;
