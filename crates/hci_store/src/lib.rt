//! The tables of a node, kept in the journal of its memory: they are what the commands of the journal's records make of empty
//! tables, and every pipe is closed at a start. All of it is this project's own.
#![tactic(auto)]

pub mod laws;
mod records;
mod snapshots;
mod store;

pub use store::Store;
