//! What a run of the world is as a history: its lines, the events that each caused, and what can be read off them.
//! Definitions and laws alone; nothing here runs.
#![tactic(auto)]

pub mod bare_histories;
pub mod resets_of_bare_worlds;
